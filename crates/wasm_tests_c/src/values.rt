//! Values read by `wasm_read_value`: as numbers, or as an error's number and offset.

use crate::reading::UNWRITTEN;
use std::alloc::Global;
use wasm_c::{WasmReader, WasmRefusal, WasmValue, wasm_read_value};
use wasm_tests_texts::Written;

/// The kinds of values in `c/include/wasm_operators.h`.
const VAR_U32: u32 = 3;

const CONSTANT: u32 = 12;

const LOCAL: u32 = 17;

const DECLARATIONS: u64 = 5;

const NONE: WasmValue = WasmValue {
    number: 0,
    kind: 0,
    index: 0,
};

fn reader_of(features: u32) -> WasmReader {
    WasmReader {
        offset: 0,
        position: 0,
        depth: 0,
        features,
        reserved: 0,
    }
}

fn write_error(out: &mut String, refusal: &WasmRefusal) -> Written {
    let WasmRefusal { offset, number, .. } = *refusal;
    write!(out, "E{number}@{offset}")
}

pub fn write_value(
    alloc: Global,
    out: &mut String,
    bytes: &[u8],
    what: u32,
    argument: u64,
) -> Written {
    let mut reader = reader_of(63);
    let (mut value, mut end) = (NONE, UNWRITTEN);
    wasm_read_value(
        alloc,
        bytes,
        &mut reader,
        what,
        argument,
        &mut value,
        &mut end,
    );
    if end.number != 0 {
        return write_error(out, &end);
    }
    let WasmValue {
        number,
        kind,
        index,
    } = value;
    let position = reader.position;
    write!(out, "{number} {kind} {index} at {position}")
}

pub fn write_constant(alloc: Global, out: &mut String, bytes: &[u8], features: u32) -> Written {
    let mut reader = reader_of(features);
    let (mut value, mut end) = (NONE, UNWRITTEN);
    wasm_read_value(alloc, bytes, &mut reader, CONSTANT, 0, &mut value, &mut end);
    if end.number != 0 {
        return write_error(out, &end);
    }
    let position = reader.position;
    write!(out, "Ok@{position}")
}

pub fn write_locals(alloc: Global, out: &mut String, bytes: &[u8], features: u32) -> Written {
    let mut reader = reader_of(features);
    let (mut value, mut end) = (NONE, UNWRITTEN);
    wasm_read_value(alloc, bytes, &mut reader, VAR_U32, 0, &mut value, &mut end);
    if end.number != 0 {
        return write_error(out, &end);
    }
    let count = value.number;
    write!(out, "{count}")?;
    let mut total: u64 = 0;
    for given in 0..count {
        wasm_read_value(
            alloc,
            bytes,
            &mut reader,
            LOCAL,
            total,
            &mut value,
            &mut end,
        );
        if end.number != 0 {
            out.push_str(" ")?;
            return write_error(out, &end);
        }
        let WasmValue {
            number,
            kind,
            index,
        } = value;
        total = total.saturating_add(number);
        if given < DECLARATIONS {
            write!(out, " {number}:{kind}:{index}")?;
        }
    }
    Ok(())
}
