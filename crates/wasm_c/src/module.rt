//! The bodies of a module's functions, and their names, for C.
ghost use Rattle.std.specs.Prelude.{◌≡◌};
ghost use Rattle.wasm_c.specs.Modules.{preamble_number, refusal_of_module, refusal_of_bodies, refusal_of_next, ReturnsBodies, ReturnsBody, ReturnsName};

use crate::operator_text::{out_of_memory, place_text};
use crate::refusal::{NOT_A_READER, WasmRefusal};
use std::alloc::Global;
use wasm_module::{
    Bodies, BodiesFault, Body, ModuleFault, NoBody, PreambleKind, function_name, next_body,
    open_bodies,
};

// The numbers of errors, as in `c/include/wasm_operators.h`.
const NOT_A_MODULE: u32 = 106;

const IMPORT_KIND: u32 = 107;

const TYPE_KIND: u32 = 108;

const COUNTS_DIFFER: u32 = 109;

const NO_FUNCTION: u32 = 110;

const NO_BODY: u32 = 111;

/// Returns the number of a kind of binary.
fn preamble_number(kind: PreambleKind) -> u32
    ensures { result ≡ preamble_number kind }
{
    match kind {
        PreambleKind::Module => 0,
        PreambleKind::Component => 1,
        PreambleKind::OtherVersion => 2,
        PreambleKind::NotWasm => 3,
    }
}

/// Returns the C struct of the fault of a module.
fn refusal_of_module(fault: &ModuleFault) -> WasmRefusal
    ensures { result ≡ refusal_of_module fault.now }
{
    match fault {
        ModuleFault::NotModule(kind) => {
            WasmRefusal::with_value(NOT_A_MODULE, 0, preamble_number(*kind))
        }
        ModuleFault::Refused(error) => WasmRefusal::of(error),
        ModuleFault::ImportKind(byte, offset) => {
            WasmRefusal::with_value(IMPORT_KIND, *offset, u32::from(*byte))
        }
        ModuleFault::TypeKind(byte, offset) => {
            WasmRefusal::with_value(TYPE_KIND, *offset, u32::from(*byte))
        }
        ModuleFault::Memory => out_of_memory(0),
    }
}

/// Returns the C struct of the fault of a module's bodies.
fn refusal_of_bodies(fault: &BodiesFault) -> WasmRefusal
    ensures { result ≡ refusal_of_bodies fault.now }
{
    match fault {
        BodiesFault::Functions(fault) => refusal_of_module(fault),
        BodiesFault::Code(error) => WasmRefusal::of(error),
        BodiesFault::Counts => WasmRefusal::misuse(COUNTS_DIFFER, 0),
        BodiesFault::NoFunction => WasmRefusal::misuse(NO_FUNCTION, 0),
    }
}

/// Returns the C struct of the reason why no body follows.
fn refusal_of_next(reason: &NoBody) -> WasmRefusal
    ensures { result ≡ refusal_of_next reason.now }
{
    match reason {
        NoBody::End => WasmRefusal::misuse(NO_BODY, 0),
        NoBody::Refused(error) => WasmRefusal::of(error),
        NoBody::NotBodies => WasmRefusal::misuse(NOT_A_READER, 0),
    }
}

/// Opens the bodies of a module.
pub fn open(alloc: Global, bytes: &[u8], bodies: &mut Bodies) -> WasmRefusal
    ensures { ReturnsBodies result bytes.now bodies.old bodies.new }
{
    match open_bodies(alloc, bytes) {
        Ok(opened) => {
            *bodies = opened;
            WasmRefusal::none(0)
        }
        Err(fault) => refusal_of_bodies(&fault),
    }
}

/// Reads the next body of a module.
pub fn next(bytes: &[u8], bodies: &mut Bodies, body: &mut Body) -> WasmRefusal
    ensures { ReturnsBody result bytes.now bodies.old bodies.new body.old body.new }
{
    match next_body(bytes, bodies) {
        Ok(found) => {
            *body = found;
            WasmRefusal::none(found.offset)
        }
        Err(reason) => refusal_of_next(&reason),
    }
}

/// Writes the name of the function with this index.
pub fn write_name(
    alloc: Global,
    bytes: &[u8],
    index: u32,
    name: &mut [u8],
    length: &mut usize,
) -> WasmRefusal
    ensures { ReturnsName result bytes.now index length.old length.new name.old name.new }
{
    match function_name(alloc, bytes, index) {
        Ok(found) => place_text(found.as_str(), 0, name, length),
        Err(fault) => refusal_of_bodies(&fault),
    }
}
