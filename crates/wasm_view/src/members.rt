ghost use Rattle.std.specs.Prelude.{◌≡◌};
ghost use Rattle.wasm_view.specs.Members.{type_of, handler, catch_of, handle_of};

use crate::numbers::{value_index, value_kind};
use wasm_below::ValType;
use wasm_imm::{Catch, Handle};

/// A value type as a C struct of 8 bytes.
#[repr(C)]
#[derive(Clone, Copy, Debug, PartialEq, Eq)]
pub struct WasmType {
    /// The type's byte; for a reference type, its kind plus 1024.
    pub kind: u32,
    /// The type index of a reference type, else 0.
    pub index: u32,
}

/// A clause of a `try_table` or resume table as a C struct of 12 bytes.
#[repr(C)]
#[derive(Clone, Copy, Debug, PartialEq, Eq)]
pub struct WasmHandler {
    /// The clause's first byte.
    pub kind: u32,
    pub tag: u32,
    pub label: u32,
}

pub fn type_of(ty: &ValType) -> WasmType
    ensures { result ≡ type_of ty.now }
{
    WasmType {
        kind: value_kind(ty),
        index: value_index(ty),
    }
}

fn handler(kind: u32, tag: u32, label: u32) -> WasmHandler
    ensures { result ≡ handler kind tag label }
{
    WasmHandler { kind, tag, label }
}

pub fn catch_of(catch: &Catch) -> WasmHandler
    ensures { result ≡ catch_of catch.now }
{
    match *catch {
        Catch::One { tag, label } => handler(0, tag, label),
        Catch::OneRef { tag, label } => handler(1, tag, label),
        Catch::All { label } => handler(2, 0, label),
        Catch::AllRef { label } => handler(3, 0, label),
    }
}

pub fn handle_of(handle: &Handle) -> WasmHandler
    ensures { result ≡ handle_of handle.now }
{
    match *handle {
        Handle::OnLabel { tag, label } => handler(0, tag, label),
        Handle::OnSwitch { tag } => handler(1, tag, 0),
    }
}

/// A member of a list, of which there is a C struct.
pub trait Member {
    type Plain: Copy;

    ghost plain: { Self → Self.Plain };

    /// Returns the C struct.
    fn plain(&self) -> Self::Plain
        ensures { result ≡ plain self.now };
}

impl Member for ValType {
    type Plain = WasmType;

    ghost plain = { type_of };

    fn plain(&self) -> WasmType {
        type_of(self)
    }
}

impl Member for Catch {
    type Plain = WasmHandler;

    ghost plain = { catch_of };

    fn plain(&self) -> WasmHandler {
        catch_of(self)
    }
}

impl Member for Handle {
    type Plain = WasmHandler;

    ghost plain = { handle_of };

    fn plain(&self) -> WasmHandler {
        handle_of(self)
    }
}
