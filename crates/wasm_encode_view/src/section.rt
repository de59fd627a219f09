//! Declarations of locals, bodies and sections, written to an array (Binary Format, Modules).
ghost use Rattle.std.specs.Prelude.{◌≡◌, ◌+◌, ◌<◌, ◌≤◌, ◌^◌, ◌∷◌, ◌++◌, length, IfSome, None};
ghost use Rattle.wasm_encode_view.specs.Sections.{EncodesDeclarations, EncodesEntry, EncodesSection, Puts, PutsBetween, PlacesShortest};

use crate::local::write_number;
use crate::put::{put_bytes, put_locals};
use wasm_view::WasmType;

/// The error for an array that is too short.
const NO_ROOM: u32 = 102;

/// The error for what no bytes encode.
const NOT_WRITABLE: u32 = 112;

/// A declaration of locals as a C struct of 12 bytes.
#[repr(C)]
#[derive(Clone, Copy, Debug, PartialEq, Eq)]
pub struct WasmLocals {
    /// How many.
    pub count: u32,
    pub ty: WasmType,
}

/// Returns the size of two parts with these lengths, if it fits in 32 bits.
fn size_of(first: usize, second: usize) -> Option<u32>
    requires { first < 2 ^ 40 }
    ensures fits { IfSome result (λ size. size ≡ first + second) }
    ensures long { result ≡ None → 2 ^ 32 ≤ first + second }
{
    if second > 0xffff_ffff {
        return None;
    }
    let size = first + second;
    if size > 0xffff_ffff {
        return None;
    }
    Some(size as u32)
}

/// Writes the number of declarations of locals, and each of them. Sets `length` to the number of
/// bytes. Returns 0; 102 if they do not fit; or 112 if no bytes encode these C structs.
pub fn encode_locals(locals: &[WasmLocals], out: &mut [u8], length: &mut usize) -> u32
    ensures { PlacesShortest EncodesDeclarations locals.now result length.old length.new out.old out.new }
{
    let mut none = [0u8; 0];
    let Some(needed) = put_locals(locals, 0, &mut none) else {
        return NOT_WRITABLE;
    };
    if needed > out.len() {
        *length = needed;
        return NO_ROOM;
    }
    match put_locals(locals, 0, out) {
        Some(end) => {
            *length = end;
            0
        }
        None => NOT_WRITABLE,
    }
}

/// Puts the size of a body, its locals and its operators at the start of the array.
fn put_body(size: &[u8], locals: &[WasmLocals], operators: &[u8], out: &mut [u8]) -> Option<usize>
    requires size { length size.now ≤ 10 }
    requires operators { length operators.now < 2 ^ 32 }
    ensures { PutsBetween EncodesDeclarations size.now locals.now operators.now result out.old out.new }
{
    let at = put_bytes(size, 0, out);
    match put_locals(locals, at, out) {
        Some(next) => Some(put_bytes(operators, next, out)),
        None => None,
    }
}

/// Writes the size of a body, its declarations of locals and its operators. Returns like
/// `encode_locals`, also 112 if the size does not fit in 32 bits.
pub fn encode_body(
    locals: &[WasmLocals],
    operators: &[u8],
    out: &mut [u8],
    length: &mut usize,
) -> u32
    ensures { PlacesShortest (EncodesEntry locals.now) operators.now result length.old length.new out.old out.new }
{
    let mut none = [0u8; 0];
    let Some(declared) = put_locals(locals, 0, &mut none) else {
        return NOT_WRITABLE;
    };
    let Some(size) = size_of(declared, operators.len()) else {
        return NOT_WRITABLE;
    };
    let number = write_number(size);
    let needed = number.as_slice().len() + size as usize;
    if needed > out.len() {
        *length = needed;
        return NO_ROOM;
    }
    match put_body(number.as_slice(), locals, operators, out) {
        Some(end) => {
            *length = end;
            0
        }
        None => NOT_WRITABLE,
    }
}

/// Puts the number of a section, its size, and its contents in two parts at the start of the array.
/// Returns the index after them.
fn put_section(id: u8, size: &[u8], count: &[u8], entries: &[u8], out: &mut [u8]) -> usize
    requires size { length size.now ≤ 10 }
    requires count { length count.now ≤ 10 }
    requires entries { length entries.now < 2 ^ 32 }
    ensures { Puts (id ∷ (size.now ++ (count.now ++ entries.now))) 0 result out.old out.new }
{
    let first = [id];
    let second = put_bytes(&first, 0, out);
    let third = put_bytes(size, second, out);
    let last = put_bytes(count, third, out);
    put_bytes(entries, last, out)
}

/// Writes the number of a section, its size, how many entries it has, and the bytes of these.
/// Returns like `encode_body`.
pub fn encode_section(id: u8, count: u32, entries: &[u8], out: &mut [u8], length: &mut usize) -> u32
    ensures { PlacesShortest (EncodesSection id count) entries.now result length.old length.new out.old out.new }
{
    let number = write_number(count);
    let Some(size) = size_of(number.as_slice().len(), entries.len()) else {
        return NOT_WRITABLE;
    };
    let first = write_number(size);
    let needed = 1 + first.as_slice().len() + size as usize;
    if needed > out.len() {
        *length = needed;
        return NO_ROOM;
    }
    *length = put_section(id, first.as_slice(), number.as_slice(), entries, out);
    0
}
