//! Validates WebAssembly modules.
//!
//! The main theorem is the contract of `validate_module` of `wasm_validation`. With `-v`, the payloads
//! are validated one by one, by `Validator::payload`.
#![tactic(auto)]

mod arguments;
mod reports;
mod timed;

use crate::arguments::{Options, Request, read_request};
use crate::reports::{PROGRAM, report};
use crate::timed::validate_timed;
use std::process::ExitCode;
use wasm_operators::BinaryReader;
use wasm_programs::{
    Mistake, complain_input, complain_memory, complain_mistake, print_text, read_module,
    shown_path, words_of,
};
use wasm_validation::validate_module;

const HELP: &str = "Usage: wasm_validate [OPTION].. FILE..

Validates WebAssembly modules. Reads standard input for a FILE that is `-`.

  -v, --verbose        print the name of each section that is valid, and the milliseconds that reading
                       and validating it took
      --features WORD  all (the default), none, or names separated by commas: multi_memory,
                       memory64, call_indirect_overlong, legacy_exceptions,
                       acquire_release_atomics, multibyte_array_access
      --help           print this text
      --version        print the version
      --               treat the other arguments as files

Without -v, nothing is printed of a file without an error.

The exit status is 0 if no module has an error, 1 if one has, 2 if an argument is wrong, and 3 if
input, output or allocation fails. For several files it is the largest. It is 141 if the output is a
closed pipe.
";

const VERSION: &str = "wasm_validate 0.1.0, follows wasmparser 0.263.0\n";

/// Validates the module in a file. Returns the exit status, after a message unless it is 0.
fn validate(rt: &HostRuntime, options: &Options, path: &str) -> u8 {
    let Ok(shown) = shown_path(rt.alloc(), path) else {
        return complain_memory(rt, PROGRAM);
    };
    let shown = shown.as_str();
    let bytes = match read_module(rt, path) {
        Ok(bytes) => bytes,
        Err(error) => return complain_input(rt, PROGRAM, shown, error),
    };
    if options.verbose {
        return validate_timed(rt, options.features, shown, bytes.as_slice());
    }
    let reader = BinaryReader::new_features(bytes.as_slice(), 0, options.features);
    match validate_module(rt.alloc(), reader) {
        Ok(()) => 0,
        Err(fault) => report(rt, shown, bytes.as_slice(), fault),
    }
}

/// Validates all files. Returns the largest exit status.
fn validate_files(rt: &HostRuntime, options: &Options) -> u8 {
    let mut worst: u8 = 0;
    for path in &options.files {
        worst = worst.max(validate(rt, options, path.as_str()));
    }
    worst
}

/// Reads the arguments.
fn request_of(rt: &HostRuntime) -> Result<Request, Mistake> {
    let words = words_of(rt)?;
    read_request(rt.alloc(), words)
}

fn main(rt: HostRuntime) -> ExitCode {
    ExitCode::from(match &request_of(&rt) {
        Ok(Request::Help) => print_text(&rt, PROGRAM, HELP),
        Ok(Request::Version) => print_text(&rt, PROGRAM, VERSION),
        Ok(Request::Options(options)) => validate_files(&rt, options),
        Err(mistake) => complain_mistake(&rt, PROGRAM, mistake, HELP),
    })
}
