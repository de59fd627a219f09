//! The two parts of a declaration of locals: a number, and the C struct of a type.
ghost use Rattle.std.specs.Prelude.{◌≡◌, ◌≤◌, [], length, IsTrue, ◌↔◌};
ghost use Rattle.wasm_below.specs.Number.{EncodesUnsigned};
ghost use Rattle.wasm_encode_numbers.specs.Appended.{Appends};
ghost use Rattle.wasm_encode_view.specs.Bytes.{value_bytes};
ghost use Rattle.wasm_encode_view.specs.Locals.{ReadsType, WritesType};

use crate::buffer::Buffer;
use crate::numbers::write_unsigned;
use crate::types::write_value;
use wasm_below::{BinaryReader, ValType};
use wasm_view::{WasmType, type_of};

/// Writes a number in its shortest encoding: one to five bytes.
pub fn write_number(value: u32) -> Buffer
    ensures written { Appends (EncodesUnsigned 32) value [] result.items }
    ensures len { length result.items ≤ 10 }
{
    let mut out = Buffer::new();
    write_unsigned(&mut out, value as u64);
    out
}

/// Writes the value type with this C struct in its shortest encoding: at most 12 bytes. Returns
/// `None` if no bytes encode a value type with this C struct.
pub fn write_type(view: &WasmType) -> Option<Buffer>
    ensures { WritesType view.now result }
{
    let bytes = type_bytes(view);
    if is_type(bytes.as_slice(), view) {
        Some(bytes)
    } else {
        None
    }
}

/// Returns the bytes of a value type.
fn type_bytes(view: &WasmType) -> Buffer
    ensures bytes { result.items ≡ value_bytes view.now.kind view.now.index }
    ensures len { length result.items ≤ 12 }
{
    let mut out = Buffer::new();
    write_value(&mut out, view.kind, view.index);
    out
}

/// Returns whether the bytes of a C struct start with a value type that has it.
fn is_type(bytes: &[u8], view: &WasmType) -> bool
    requires { bytes.now ≡ value_bytes view.now.kind view.now.index }
    ensures { ReadsType view.now result bytes.now }
{
    let mut reader = BinaryReader::new(bytes, 0);
    match ValType::read(&mut reader) {
        Ok(ty) => same_type(&type_of(&ty), view),
        Err(_) => false,
    }
}

/// Returns whether both fields are equal.
fn same_type(a: &WasmType, b: &WasmType) -> bool
    ensures { IsTrue result ↔ (a.now ≡ b.now) }
{
    a == b
}
