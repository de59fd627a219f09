//! Reads one operator for each line of its input, and prints the results of the reading calls.
#![tactic(auto)]

mod each;
mod half;
mod own;
mod runs;
mod task;
mod teller;

use crate::each::{Texts, write_each};
use crate::task::task_of;
use std::alloc::Global;
use std::io::{self, Print};
use wasm_tests_texts::{read_hex, read_input};

fn main(rt: HostRuntime) -> io::Result<()> {
    let alloc = rt.alloc();
    let input = read_input(alloc, &mut rt.reader())?;
    let Ok(text) = str::from_utf8(input.as_slice()) else {
        return println!(rt; "the input is no text");
    };
    let mut bytes = Vec::new(alloc);
    let mut texts = Texts::new(alloc)?;
    for line in text.lines() {
        run_line(&rt, alloc, &mut bytes, &mut texts, line)?;
    }
    Ok(())
}

fn run_line<R: Print>(
    rt: &R,
    alloc: Global,
    bytes: &mut Vec<u8>,
    texts: &mut Texts,
    line: &str,
) -> io::Result<()> {
    let mut words = line.split_whitespace();
    let features = words.next().unwrap_or("");
    let frame = words.next().unwrap_or("");
    let before = words.next().unwrap_or("");
    read_hex(bytes, words.next().unwrap_or(""))?;
    match task_of(features, frame, before) {
        Some(task) => {
            texts.clear();
            write_each(alloc, texts, task, bytes.as_slice())?;
            println!(rt; "{}", texts.line)
        }
        None => println!(rt; "no task: {line}"),
    }
}
