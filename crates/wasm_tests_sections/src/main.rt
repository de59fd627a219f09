//! Evaluates the rows on standard input, and prints each that differs from its expected text.
#![tactic(auto)]

use crate::rows::print_rows;
use std::io;
use std::process::ExitCode;

mod constant;
mod externals;
mod failure;
mod modules;
mod names;
mod row;
mod rows;
mod segments;
mod subtypes;
mod tables;
mod types;
mod written;
mod written_names;

fn main(rt: HostRuntime) -> io::Result<ExitCode> {
    let table = match io::read_to_string(rt.alloc(), rt.reader()) {
        Ok(table) => table,
        Err(error) => {
            eprintln!(rt; "the rows could not be read: {error}")?;
            return Ok(ExitCode::FAILURE);
        }
    };
    print_rows(&rt, rt.alloc(), table.as_str())?;
    Ok(ExitCode::SUCCESS)
}
