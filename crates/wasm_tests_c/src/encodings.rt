//! Operators written by `wasm_encode_operator`, in hexadecimal, and the errors of writing them.

use crate::reading::{Source, UNWRITTEN, whole};
use std::alloc::Global;
use wasm_c::{WasmOperator, wasm_encode_operator};
use wasm_tests_texts::Written;

const ALL: u32 = 63;

/// The longest encoding of a sample.
const LONGEST: usize = 64;

/// A shape that no operator has.
const NO_SHAPE: u8 = 200;

/// Writes an operator to `out`. Returns the number of the error, and sets `length`.
fn encode(
    alloc: Global,
    operator: &WasmOperator,
    bytes: &[u8],
    out: &mut [u8],
    length: &mut usize,
) -> u32 {
    let mut end = UNWRITTEN;
    wasm_encode_operator(alloc, operator, bytes, 0, ALL, out, length, &mut end)
}

/// Writes the encoding of an operator; then the errors with a byte of space too few and for a shape
/// that no operator has. With too little space, no byte changes.
fn write_one(alloc: Global, out: &mut String, operator: &WasmOperator, bytes: &[u8]) -> Written {
    let mut encoding = [0u8; LONGEST];
    let mut length = 0;
    let refused = encode(alloc, operator, bytes, &mut encoding, &mut length);
    if refused != 0 {
        return write!(out, "E{refused}");
    }
    for byte in encoding.iter().take(length) {
        write!(out, "{byte:02x}")?;
    }
    let mut again = 0;
    let mut untouched = [0u8; LONGEST];
    let (short, _) = untouched.split_at_mut(length.saturating_sub(1).min(LONGEST));
    let refused = encode(alloc, operator, bytes, short, &mut again);
    let is_same = again == length && untouched.iter().all(|byte| *byte == 0);
    let mut other = *operator;
    other.shape = NO_SHAPE;
    let no_shape = encode(alloc, &other, bytes, &mut encoding, &mut again);
    write!(out, " {refused} {is_same} {no_shape}")
}

/// Writes the operator at an offset of a body.
pub fn write_encoding(alloc: Global, out: &mut String, bytes: &[u8], at: u64) -> Written {
    let source = Source {
        bytes,
        offset: 0,
        features: ALL,
        is_body: true,
    };
    let found = whole(alloc, &source, bytes.len())?;
    for operator in found.operators.as_slice() {
        if operator.offset == at {
            return write_one(alloc, out, operator, bytes);
        }
    }
    out.push_str("no operator")
}
