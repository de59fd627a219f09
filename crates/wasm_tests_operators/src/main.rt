//! Reads and visits the expressions of its input by each call of `OperatorsReader`. Prints what was
//! read, and whether the calls agree.
#![tactic(auto)]

mod input;
mod items;
mod own_misc;
mod prints;
mod reads;
mod reported;
mod row;
mod stacks;
mod tally;
mod texts;
mod visits;

use crate::input::{read_input, row_of};
use crate::row::run_row;
use crate::stacks::print_stacks;
use crate::tally::print_tallies;
use crate::texts::print_texts;
use std::alloc::Global;
use std::io::{self, Print};

fn main(rt: HostRuntime) -> io::Result<()> {
    let alloc = rt.alloc();
    let mut input = [0u8; 8192];
    let mut bytes = [0u8; 100_008];
    let size = read_input(&mut rt.reader(), &mut input)?;
    let Ok(text) = str::from_utf8(input.get(..size).unwrap_or(&[])) else {
        return println!(rt; "the input is no text");
    };
    for line in text.lines() {
        run_line(&rt, alloc, &mut bytes, line)?;
    }
    print_stacks(&rt, alloc)?;
    print_tallies(&rt, alloc)?;
    print_texts(&rt, alloc)
}

fn run_line<R: Print>(rt: &R, alloc: Global, bytes: &mut [u8], line: &str) -> io::Result<()> {
    if line.starts_with('#') {
        return println!(rt; "{line}");
    }
    match row_of(bytes, line) {
        Some((features, size)) => {
            print!(rt; "{line}: ")?;
            run_row(rt, alloc, features, bytes.get(..size).unwrap_or(&[]))
        }
        None => println!(rt; "no row: {line}"),
    }
}
