//! Writes the operator of each row of its input, alone and in an expression, and prints each row
//! whose bytes are not the shortest encoding.
#![tactic(auto)]

mod row;
mod writing;

use crate::row::row_of;
use crate::writing::difference;
use std::io::{self, Print};
use wasm_tests_texts::read_input;

fn main(rt: HostRuntime) -> io::Result<()> {
    let alloc = rt.alloc();
    let input = read_input(alloc, &mut rt.reader())?;
    let Ok(text) = str::from_utf8(input.as_slice()) else {
        return println!(rt; "the input is no text");
    };
    let mut rows = 0u64;
    let mut differ = 0u64;
    for line in text.lines() {
        let row = row_of(alloc, line)?;
        rows = rows.saturating_add(1);
        if let Some(what) = difference(alloc, &row) {
            differ = differ.saturating_add(1);
            println!(rt; "{what}: {line}")?;
        }
    }
    println!(rt; "{rows} rows, {differ} differ")
}
