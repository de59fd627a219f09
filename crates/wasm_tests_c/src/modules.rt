//! The functions of a module, and the texts of operators, by the calls of C programs.

use crate::reading::UNWRITTEN;
use std::alloc::Global;
use wasm_c::{
    WasmBodies, WasmBody, WasmRefusal, wasm_function_name, wasm_next_body, wasm_open_bodies,
    wasm_operator_text, wasm_operator_text_name,
};
use wasm_tests_texts::Written;

const ALL: u32 = 63;

const NO_BODY: u32 = 111;

const NO_ROOM: u32 = 102;

fn write_error(out: &mut String, refusal: &WasmRefusal) -> Written {
    let WasmRefusal { offset, number, .. } = *refusal;
    write!(out, "E{number}@{offset}")
}

fn write_start(out: &mut String, text: &[u8], length: usize) -> Written {
    match text.get(..length) {
        Some(bytes) => out.push_str(str::from_utf8(bytes).unwrap_or("no text")),
        None => out.push_str("a text that is too long"),
    }
}

/// Writes a function's name. Checks that an array one byte too short stays unchanged.
fn write_name(alloc: Global, out: &mut String, bytes: &[u8], index: u32) -> Written {
    let mut name = [0u8; 64];
    let (mut length, mut end) = (0, UNWRITTEN);
    wasm_function_name(alloc, bytes, index, &mut name, &mut length, &mut end);
    if end.number != 0 {
        return write_error(out, &end);
    }
    write_start(out, &name, length)?;
    if length == 0 {
        return Ok(());
    }
    let mut short = [0u8; 64];
    let (mut needed, mut end) = (0, UNWRITTEN);
    if let Some(start) = short.get_mut(..length.saturating_sub(1)) {
        wasm_function_name(alloc, bytes, index, start, &mut needed, &mut end);
    }
    write_short(out, &short, length, needed, end.number)
}

fn write_short(
    out: &mut String,
    array: &[u8],
    length: usize,
    needed: usize,
    number: u32,
) -> Written {
    if number != NO_ROOM || needed != length {
        return write!(out, " E{number} needs {needed}");
    }
    if array.iter().any(|byte| *byte != 0) {
        return out.push_str(" is written");
    }
    Ok(())
}

/// Writes a body's index and offset, its length and type if they are known, and its name.
fn write_body(
    alloc: Global,
    out: &mut String,
    bytes: &[u8],
    body: &WasmBody,
    is_whole: bool,
) -> Written {
    let WasmBody {
        offset,
        length,
        index,
        type_index,
    } = *body;
    write!(out, "{index} {offset} ")?;
    if is_whole {
        write!(out, "{length} {type_index} ")?;
    }
    write_name(alloc, out, bytes, index)?;
    out.push_str(";")
}

pub fn write_functions(alloc: Global, out: &mut String, bytes: &[u8], is_whole: bool) -> Written {
    let mut bodies = WasmBodies {
        code: 0,
        types: 0,
        imported: 0,
        read: 0,
        left: 0,
        reserved: 0,
    };
    let mut body = WasmBody {
        offset: 0,
        length: 0,
        index: 0,
        type_index: 0,
    };
    let mut end = UNWRITTEN;
    wasm_open_bodies(alloc, bytes, &mut bodies, &mut end);
    for _ in 0..bytes.len() {
        if end.number != 0 {
            break;
        }
        wasm_next_body(bytes, &mut bodies, &mut body, &mut end);
        if end.number == 0 {
            write_body(alloc, out, bytes, &body, is_whole)?;
        }
    }
    if end.number == NO_BODY {
        Ok(())
    } else {
        write_error(out, &end)
    }
}

pub fn write_text(alloc: Global, out: &mut String, bytes: &[u8], is_name: bool) -> Written {
    let mut text = [0u8; 128];
    let (length, end) = text_at(alloc, bytes, &mut text, is_name);
    if end.number != 0 {
        return write_error(out, &end);
    }
    write_start(out, &text, length)?;
    let mut short = [0u8; 128];
    let (needed, end) = match short.get_mut(..length.saturating_sub(1)) {
        Some(start) => text_at(alloc, bytes, start, is_name),
        None => (0, UNWRITTEN),
    };
    write_short(out, &short, length, needed, end.number)
}

fn text_at(alloc: Global, bytes: &[u8], text: &mut [u8], is_name: bool) -> (usize, WasmRefusal) {
    let (mut length, mut end) = (0, UNWRITTEN);
    if is_name {
        wasm_operator_text_name(alloc, bytes, 0, ALL, 0, text, &mut length, &mut end);
    } else {
        wasm_operator_text(alloc, bytes, 0, ALL, 0, text, &mut length, &mut end);
    }
    (length, end)
}
