//! A code section with one body, written by the calls for locals, bodies and sections.

use crate::reading::UNWRITTEN;
use std::alloc::Global;
use wasm_c::{WasmLocals, WasmType, wasm_encode_body, wasm_encode_locals, wasm_encode_section};
use wasm_tests_texts::Written;

/// The longest section of a row is shorter.
const LONGEST: usize = 256;

const CODE: u8 = 10;

/// The kind of no value type.
const NO_TYPE: u32 = 0x40;

/// Reads a declaration: how many locals, and the numbers of their type.
fn declaration_of(text: &str) -> Option<WasmLocals> {
    let mut words = text.split(' ');
    Some(WasmLocals {
        count: words.next()?.parse::<u32>().ok()?,
        ty: WasmType {
            kind: words.next()?.parse::<u32>().ok()?,
            index: words.next()?.parse::<u32>().ok()?,
        },
    })
}

/// Calls `wasm_encode_locals` and `wasm_encode_body`. Returns the numbers of their errors, and sets
/// `length` to the length of the body.
fn encode(
    locals: &[WasmLocals],
    operators: &[u8],
    out: &mut [u8],
    length: &mut usize,
) -> (u32, u32) {
    let mut end = UNWRITTEN;
    let mut alone = 0;
    let declared = wasm_encode_locals(locals, out, &mut alone, &mut end);
    (
        declared,
        wasm_encode_body(locals, operators, out, length, &mut end),
    )
}

/// Writes a code section with one body in hexadecimal. `text` has the body's declarations of locals,
/// each followed by `;`, and `operators` the bytes after them. Then writes the number of the error if
/// the array is a byte too short for the section, and whether that call changed no byte of it; the
/// same for the body; and the errors of calls with a local of no value type.
pub fn write_section(alloc: Global, out: &mut String, text: &str, operators: &[u8]) -> Written {
    let mut locals = Vec::<WasmLocals>::new(alloc);
    for part in text.split(';') {
        if let Some(declaration) = declaration_of(part) {
            locals.push(declaration)?;
        }
    }
    let mut body = [0u8; LONGEST];
    let mut length = 0;
    encode(locals.as_slice(), operators, &mut body, &mut length);
    let Some(entry) = body.get(..length) else {
        return out.push_str("a long body");
    };
    let (mut section, mut end) = ([0u8; LONGEST], UNWRITTEN);
    let mut size = 0;
    wasm_encode_section(CODE, 1, entry, &mut section, &mut size, &mut end);
    for byte in section.iter().take(size) {
        write!(out, "{byte:02x}")?;
    }
    let mut untouched = [0u8; LONGEST];
    let (mut again, mut short) = (0, 0);
    if let Some(start) = untouched.get_mut(..size.saturating_sub(1)) {
        short = wasm_encode_section(CODE, 1, entry, start, &mut again, &mut end);
    }
    let is_same = again == size && untouched.iter().all(|byte| *byte == 0);
    write!(out, " {short} {is_same}")?;
    write_errors(out, locals.as_slice(), operators, length)
}

fn write_errors(
    out: &mut String,
    locals: &[WasmLocals],
    operators: &[u8],
    length: usize,
) -> Written {
    let mut untouched = [0u8; LONGEST];
    let (mut again, mut short, mut end) = (0, 0, UNWRITTEN);
    if let Some(start) = untouched.get_mut(..length.saturating_sub(1)) {
        short = wasm_encode_body(locals, operators, start, &mut again, &mut end);
    }
    let is_same = again == length && untouched.iter().all(|byte| *byte == 0);
    let none = [WasmLocals {
        count: 1,
        ty: WasmType {
            kind: NO_TYPE,
            index: 0,
        },
    }];
    let (declared, body) = encode(&none, operators, &mut untouched, &mut again);
    write!(out, " {short} {is_same} {declared} {body}")
}
