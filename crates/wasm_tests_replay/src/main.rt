//! Replays results of wasmparser: reads the same function bodies by each call, and prints each
//! result that differs.
#![tactic(auto)]

mod listing;
mod outcomes;
mod parts;
mod reading;
mod replay;
mod row;
mod visits;

use crate::replay::Replay;
use std::io;
use wasm_tests_texts::read_input;

fn main(rt: HostRuntime) -> io::Result<()> {
    let alloc = rt.alloc();
    let input = read_input(alloc, &mut rt.reader())?;
    let Ok(text) = str::from_utf8(input.as_slice()) else {
        return println!(rt; "the input is no text");
    };
    let mut replay = Replay::new(alloc);
    for line in text.lines() {
        replay.line(&rt, line)?;
    }
    println!(rt; "{} cases, {} differ", replay.cases, replay.differ)
}
