//! Prints what the payloads of the modules on standard input are, and the verdict on each prefix and
//! on each change of one byte.
#![tactic(auto)]

use crate::verdict::{print_changes, print_cuts, print_payloads};
use std::io::{self, Print};
use std::process::ExitCode;

mod hex;
mod items;
mod verdict;

fn main(rt: HostRuntime) -> io::Result<ExitCode> {
    let table = io::read_to_string(rt.alloc(), rt.reader())?;
    for line in table.as_str().lines() {
        if line.is_empty() || line.starts_with('#') {
            println!(rt; "{line}")?;
        } else {
            match hex::bytes_of(rt.alloc(), line) {
                Some(bytes) => {
                    print_payloads(&rt, rt.alloc(), bytes.as_slice())?;
                    print_cuts(&rt, rt.alloc(), bytes.as_slice())?;
                    print_changes(&rt, rt.alloc(), bytes.as_slice())?;
                }
                None => println!(rt; "no hexadecimal bytes: {line}")?,
            }
        }
    }
    Ok(ExitCode::SUCCESS)
}
