use crate::row::{Row, joined};
use std::alloc::Global;
use wasm_encode::{read_back, rewrite_expression, write_body, write_operator, write_operators};
use wasm_operators::{BinaryReader, Operator, OperatorsReader, ValType, WasmFeatures};

/// Two declarations, and their encoding: a count, then for each a number and a type.
const DECLARATIONS: [(u32, ValType); 2] = [(1, ValType::I32), (300, ValType::F64)];

const DECLARED: [u8; 6] = [0x02, 0x01, 0x7f, 0xac, 0x02, 0x7c];

/// Returns the name of a call whose bytes, or operators, are not as the row says.
pub fn difference(alloc: Global, row: &Row) -> Option<&'static str> {
    let mut found = Vec::new(alloc);
    let mut reader = OperatorsReader::new(alloc, BinaryReader::new(row.expression.as_slice(), 0));
    match reader.read_all(&mut found) {
        Ok(()) => of_operators(alloc, row, found.as_slice()),
        Err(_) => Some("read_all"),
    }
}

/// As `difference`, for the operators of the row's expression.
fn of_operators(alloc: Global, row: &Row, found: &[(Operator<'_>, u64)]) -> Option<&'static str> {
    match read_back(alloc, WasmFeatures::all(), row.shortest.as_slice()) {
        Ok(again) => if !are_same(found, again.as_slice()) {
            return Some("read_back");
        },
        Err(_) => return Some("read_back"),
    }
    written(alloc, row, found)
}

/// Returns the name of a call that writes other bytes than the row says.
fn written(alloc: Global, row: &Row, found: &[(Operator<'_>, u64)]) -> Option<&'static str> {
    let features = WasmFeatures::all();
    let mut out = Vec::new(alloc);
    for (op, start) in found {
        if *start == row.start && write_operator(&mut out, features, op).is_err() {
            return Some("write_operator");
        }
    }
    if out.as_slice() != row.operator.as_slice() {
        return Some("bytes of write_operator");
    }
    out.clear();
    if write_operators(&mut out, features, found).is_err()
        || out.as_slice() != row.shortest.as_slice()
    {
        return Some("write_operators");
    }
    out.clear();
    if rewrite_expression(alloc, features, row.expression.as_slice(), &mut out).is_err()
        || out.as_slice() != row.shortest.as_slice()
    {
        return Some("rewrite_expression");
    }
    out.clear();
    if write_body(&mut out, features, &DECLARATIONS, found).is_err() {
        return Some("write_body");
    }
    match joined(alloc, &DECLARED, row.shortest.as_slice(), &[]) {
        Ok(body) => if out.as_slice() == body.as_slice() {
            None
        } else {
            Some("bytes of write_body")
        },
        Err(_) => Some("no memory"),
    }
}

/// Returns whether two lists have the same operators.
fn are_same(first: &[(Operator<'_>, u64)], second: &[(Operator<'_>, u64)]) -> bool {
    if first.len() != second.len() {
        return false;
    }
    for ((one, _), (other, _)) in first.iter().zip(second.iter()) {
        if *one != *other {
            return false;
        }
    }
    true
}
