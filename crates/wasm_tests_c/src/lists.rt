//! The members of lists, each written as its numbers and a semicolon, after how many there are.

use crate::reading::UNWRITTEN;
use std::alloc::Global;
use wasm_c::{
    WasmHandler, WasmType, wasm_br_table_targets, wasm_resume_handlers, wasm_select_types,
    wasm_try_table_catches,
};
use wasm_tests_texts::Written;

const ALL: u32 = 63;

pub fn write_targets(alloc: Global, out: &mut String, bytes: &[u8], at: u64) -> Written {
    let mut targets = [0u32; 8];
    let (mut count, mut end) = (0, UNWRITTEN);
    wasm_br_table_targets(
        alloc,
        bytes,
        0,
        ALL,
        at,
        0,
        &mut targets,
        &mut count,
        &mut end,
    );
    let number = end.number;
    write!(out, "{number} {count}:")?;
    for target in targets.iter().take(count) {
        write!(out, " {target};")?;
    }
    Ok(())
}

pub fn write_types(alloc: Global, out: &mut String, bytes: &[u8], at: u64) -> Written {
    let mut types = [WasmType { kind: 0, index: 0 }; 8];
    let (mut count, mut end) = (0, UNWRITTEN);
    wasm_select_types(
        alloc, bytes, 0, ALL, at, 0, &mut types, &mut count, &mut end,
    );
    let number = end.number;
    write!(out, "{number} {count}:")?;
    for ty in types.iter().take(count) {
        let WasmType { kind, index } = *ty;
        write!(out, " {kind} {index};")?;
    }
    Ok(())
}

pub fn write_catches(alloc: Global, out: &mut String, bytes: &[u8], at: u64) -> Written {
    let mut catches = [NONE; 8];
    let (mut count, mut end) = (0, UNWRITTEN);
    wasm_try_table_catches(
        alloc,
        bytes,
        0,
        ALL,
        at,
        0,
        &mut catches,
        &mut count,
        &mut end,
    );
    write_handlers(out, end.number, count, &catches)
}

pub fn write_clauses(alloc: Global, out: &mut String, bytes: &[u8], at: u64) -> Written {
    let mut clauses = [NONE; 8];
    let (mut count, mut end) = (0, UNWRITTEN);
    wasm_resume_handlers(
        alloc,
        bytes,
        0,
        ALL,
        at,
        0,
        &mut clauses,
        &mut count,
        &mut end,
    );
    write_handlers(out, end.number, count, &clauses)
}

const NONE: WasmHandler = WasmHandler {
    kind: 0,
    tag: 0,
    label: 0,
};

fn write_handlers(
    out: &mut String,
    number: u32,
    count: usize,
    handlers: &[WasmHandler],
) -> Written {
    write!(out, "{number} {count}:")?;
    for handler in handlers.iter().take(count) {
        let WasmHandler { kind, tag, label } = *handler;
        write!(out, " {kind} {tag} {label};")?;
    }
    Ok(())
}
