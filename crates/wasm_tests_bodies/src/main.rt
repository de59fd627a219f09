//! Evaluates the rows of a table. Each calls one entry point of the lower crates, and the result is
//! compared as text.
#![tactic(auto)]

mod bodies;
mod constants;
mod disassembly;
mod failing;
mod kinds;
mod listing;
mod module;
mod row;
mod scenarios;
mod sections;
mod single;
mod table;
mod words;

use crate::table::Table;
use std::env::{self, Env};
use std::io;
use std::process::ExitCode;
use wasm_tests_texts::read_input;

fn main(rt: HostRuntime) -> ExitCode {
    match evaluate_rows(&rt) {
        Ok(()) => ExitCode::SUCCESS,
        Err(_) => {
            let _ = eprintln!(rt; "the rows could not be read");
            ExitCode::FAILURE
        }
    }
}

fn evaluate_rows(rt: &HostRuntime) -> io::Result<()> {
    let alloc = rt.alloc();
    let is_short = is_short(rt)?;
    let input = read_input(alloc, &mut rt.reader())?;
    let Ok(text) = str::from_utf8(input.as_slice()) else {
        return Err(io::Error::from(io::ErrorKind::InvalidData));
    };
    let mut table = Table::new(alloc, is_short)?;
    for line in text.lines() {
        table.line(rt, line)?;
    }
    table.print_counts(rt)
}

fn is_short<R: Env + AllocGlobal>(rt: &R) -> io::Result<bool> {
    let mut is_short = false;
    for word in env::args(rt)? {
        if word.as_str() == "short" {
            is_short = true;
        }
    }
    Ok(is_short)
}
