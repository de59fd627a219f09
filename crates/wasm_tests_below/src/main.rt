//! Evaluates the rows on standard input. Compares readers with slow functions written from the
//! definitions: on all short strings and on boundary values, with all feature sets.
#![tactic(auto)]

use crate::extent::Extent;
use crate::memory_arguments::print_memory_arguments;
use crate::rows::print_rows;
use std::env::{self, Env};
use std::io;
use std::process::ExitCode;

mod calls;
mod extent;
mod failure;
mod memory_arguments;
mod messages;
mod numbers;
mod row;
mod rows;
mod scenarios;
mod types;

fn main(rt: HostRuntime) -> io::Result<ExitCode> {
    let read = read_input(&rt);
    let (extent, table) = match read {
        Ok(input) => input,
        Err(error) => {
            eprintln!(rt; "the rows could not be read: {error}")?;
            return Ok(ExitCode::FAILURE);
        }
    };
    print_rows(&rt, rt.alloc(), table.as_str())?;
    print_comparisons(&rt, extent)?;
    Ok(ExitCode::SUCCESS)
}

fn read_input<R: Env + Input + AllocGlobal>(rt: &R) -> io::Result<(Extent, String)> {
    let mut extent = Extent::Full;
    for word in env::args(rt)? {
        if word.as_str() == "short" {
            extent = Extent::Short;
        }
    }
    let table = io::read_to_string(rt.alloc(), rt.reader())?;
    Ok((extent, table))
}

fn print_comparisons<R: Print>(rt: &R, extent: Extent) -> io::Result<()> {
    let short = numbers::short_strings(extent);
    println!(rt;
        "strings of up to {}: {} read, {} differ",
        extent.longest_number(),
        short.read,
        short.differ
    )?;
    let boundary = numbers::boundaries();
    println!(rt;
        "boundary values in every length: {} read, {} differ",
        boundary.read, boundary.differ
    )?;
    let types = types::short_strings(extent);
    println!(rt;
        "types of up to {}: {} read, {} differ",
        extent.longest_type(),
        types.read,
        types.differ
    )?;
    print_memory_arguments(rt, extent)
}
