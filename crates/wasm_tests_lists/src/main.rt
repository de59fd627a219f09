//! Reads one operator for each line of its input, and prints its row, its arity in one module,
//! whether it is a SIMD operator, whether its clone is equal, whether a visitor takes it for an
//! `end`, whether `OperatorFactory` returns it, and its `Debug` text; below, its types and immediates
//! of typing rules. Then prints arities in edge cases, and the calls that several visitors receive.
#![tactic(auto)]

mod module;
mod rows;
mod typing;
mod uniform;
mod visitors;

use crate::module::Module;
use crate::rows::print_rows;
use crate::typing::print_typing;
use crate::visitors::print_visitors;
use std::alloc::Global;
use std::io::{self, Print};
use wasm_below::BinaryReader;
use wasm_decode::read_operator;
use wasm_instr::Operator;
use wasm_tests_texts::{frame_named, read_hex, read_input};
use wasm_visit::{
    IsEndOperatorVisitor, OperatorFactory, visit_operator_with_simd, visit_owned_simd,
};

fn main(rt: HostRuntime) -> io::Result<()> {
    let alloc = rt.alloc();
    let input = read_input(alloc, &mut rt.reader())?;
    let Ok(text) = str::from_utf8(input.as_slice()) else {
        return println!(rt; "the input is no text");
    };
    let mut bytes = Vec::new(alloc);
    for line in text.lines() {
        print_line(&rt, alloc, &mut bytes, line)?;
    }
    print_rows(&rt)?;
    print_visitors(&rt, alloc)
}

/// Reads the operator that a line of the input encodes, and prints what is known of it. The line has
/// the name of the innermost frame, a space, and the operator's bytes in hexadecimal.
fn print_line<R: Print>(rt: &R, alloc: Global, bytes: &mut Vec<u8>, line: &str) -> io::Result<()> {
    let mut words = line.split_whitespace();
    let frame = frame_named(words.next().unwrap_or(""));
    read_hex(bytes, words.next().unwrap_or(""))?;
    let mut reader = BinaryReader::new(bytes.as_slice(), 0);
    let outcome = read_operator(alloc, &mut reader, frame);
    let is_whole = reader.eof();
    match &outcome {
        Ok(op) if is_whole => {
            print(rt, alloc, op)?;
            print_typing(rt, op)
        }
        _ => println!(rt; "not one operator: {line}"),
    }
}

fn print<R: Print>(rt: &R, alloc: Global, op: &Operator<'_>) -> io::Result<()> {
    let info = op.info();
    let arity = op.operator_arity(&Module);
    let cloned = op.clone(alloc).is_ok_and(|copy| copy == *op);
    let ends = ends(alloc, op);
    let returned = returned(alloc, op);
    println!(rt;
        "{} {} {:?} {} {arity:?} {} {cloned} {ends} {returned} {op:?}",
        info.name,
        info.proposal,
        info.prefix,
        info.code,
        op.is_simd(),
    )
}

fn ends(alloc: Global, op: &Operator<'_>) -> bool {
    let mut visitor = IsEndOperatorVisitor;
    match visit_operator_with_simd(alloc, &mut visitor, op) {
        Ok(is_end) => is_end,
        Err(_) => false,
    }
}

fn returned(alloc: Global, op: &Operator<'_>) -> bool {
    let mut factory = OperatorFactory::new();
    match op.clone(alloc) {
        Ok(copy) => visit_owned_simd(&mut factory, copy) == *op,
        Err(_) => false,
    }
}
