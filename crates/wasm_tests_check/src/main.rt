//! Checks the function body or constant expression of each row of its input, and prints each row with
//! another verdict than expected.
#![tactic(auto)]

mod context;
mod row;
mod types;

use crate::context::RowContext;
use crate::row::{Row, row_of};
use std::alloc::Global;
use std::io::{self, Print};
use wasm_check::{CheckError, ModuleContext, check_body, check_constant};
use wasm_operators::{BinaryReader, WasmFeatures};
use wasm_tests_texts::read_input;

fn main(rt: HostRuntime) -> io::Result<()> {
    let alloc = rt.alloc();
    let input = read_input(alloc, &mut rt.reader())?;
    let Ok(text) = str::from_utf8(input.as_slice()) else {
        return println!(rt; "the input is no text");
    };
    let mut rows = 0u64;
    let mut differ = 0u64;
    for line in text.lines() {
        let row = row_of(alloc, line)?;
        rows = rows.saturating_add(1);
        let found = check_row(alloc, &row);
        if matches!(found, Verdict::Typed) != row.valid
            || matches!(
                found,
                Verdict::NoType | Verdict::Undecoded | Verdict::NoMemory,
            )
        {
            differ = differ.saturating_add(1);
            println!(rt; "{line}")?;
        }
    }
    println!(rt; "{rows} rows, {differ} differ")
}

#[derive(Clone, Copy)]
enum Verdict {
    Typed,
    Untyped,
    NoType,
    Undecoded,
    NoMemory,
}

fn check_row(alloc: Global, row: &Row) -> Verdict {
    let context = RowContext { row };
    let code = BinaryReader::new_features(row.code.as_slice(), 0, WasmFeatures::all());
    if let Some(ty) = row.constant {
        return verdict_of(check_constant(alloc, &context, ty, code));
    }
    match context.type_at(row.ty) {
        Some(ty) => verdict_of(check_body(alloc, &context, ty, code)),
        None => Verdict::NoType,
    }
}

fn verdict_of(checked: Result<(), CheckError>) -> Verdict {
    match checked {
        Ok(()) => Verdict::Typed,
        Err(
            CheckError::Untyped { .. }
            | CheckError::InvalidLocal { .. }
            | CheckError::TooManyLocals { .. }
            | CheckError::NotConstant { .. },
        ) => Verdict::Untyped,
        Err(CheckError::Decode(_)) => Verdict::Undecoded,
        Err(CheckError::Memory) => Verdict::NoMemory,
    }
}
