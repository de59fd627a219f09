//! Prints the operators of the function body on standard input: a line for each, with the offset of
//! its first byte and its name.
//!
//! The main theorem is the contract of `run` of `wasm_listing`.
#![tactic(auto)]

use std::env::Env;
use std::process::ExitCode;
use std::{env, io};
use wasm_listing::{DumpFault, features_of, run};
use wasm_operators::WasmFeatures;

fn main(rt: HostRuntime) -> ExitCode {
    let ended = match read_features(&rt) {
        Ok(Some(features)) => run(rt.alloc(), features, &mut rt.reader(), &mut io::writer(&rt)),
        Ok(None) => {
            let _ = eprintln!(rt; "bad features");
            return ExitCode::from(2);
        }
        Err(fault) => Err(fault),
    };
    match ended {
        Ok(()) => ExitCode::SUCCESS,
        Err(fault) => {
            let _ = eprintln!(rt; "{fault}");
            ExitCode::from(fault.status())
        }
    }
}

/// Returns the features that the argument names. Returns `None` if there are more arguments, or if
/// one is not UTF-8 or unknown. Fails with `Memory`.
fn read_features<R: Env + AllocGlobal>(rt: &R) -> Result<Option<WasmFeatures>, DumpFault> {
    let mut words = match env::args(rt) {
        Ok(words) => words,
        Err(error) => {
            return match error.kind() {
                io::ErrorKind::OutOfMemory => Err(DumpFault::Memory),
                _ => Ok(None),
            };
        }
    };
    let _program = words.next();
    let word = words.next();
    if words.next().is_some() {
        return Ok(None);
    }
    match word {
        None => Ok(features_of(None)),
        Some(text) => Ok(features_of(Some(text.as_str()))),
    }
}
