//! Replays wasmparser's results by the calls of C programs, and prints how many cases of each call
//! differ.
#![tactic(auto)]

mod encodings;
mod lists;
mod modules;
mod outcomes;
mod reading;
mod replay;
mod row;
mod sections;
mod tally;
mod validations;
mod values;

use crate::replay::Replay;
use std::io;
use wasm_c::wasm_operators_version;
use wasm_tests_texts::read_input;

fn main(rt: HostRuntime) -> io::Result<()> {
    let alloc = rt.alloc();
    let input = read_input(alloc, &mut rt.reader())?;
    let Ok(text) = str::from_utf8(input.as_slice()) else {
        return println!(rt; "the input is no text");
    };
    let version = wasm_operators_version();
    println!(rt; "wasm_operators_version: {version}")?;
    let mut replay = Replay::new(alloc);
    for line in text.lines() {
        replay.line(&rt, line)?;
    }
    replay.print(&rt)
}
