//! Prints the context of each module on standard input, or the error.
#![tactic(auto)]

use crate::print::print_context;
use std::alloc::Global;
use std::io::{self, Print};
use std::process::ExitCode;
use wasm_below::{BinaryReader, Error};
use wasm_check::CheckError;
use wasm_context::{Context, ContextError};
use wasm_module_context::{PayloadError, add_payloads};
use wasm_payloads::parse_all;
use wasm_subtypes::Types;

mod hex;
mod print;

/// Returns the context of a module.
fn context_of(alloc: Global, bytes: &[u8]) -> Result<Context, PayloadError> {
    let context = Context::new(alloc, Types::new(alloc));
    add_payloads(
        alloc,
        context,
        parse_all(alloc, BinaryReader::new(bytes, 0)),
    )
}

fn print_error<R: Print>(rt: &R, error: PayloadError) -> io::Result<()> {
    match error {
        PayloadError::Decode(Error { message, offset }) => {
            println!(rt; "error at 0x{offset:x}: {message}")
        }
        PayloadError::Context(ContextError::TooMany(what), _) => println!(rt; "error: {what:?}"),
        PayloadError::Constant(CheckError::Untyped { offset, .. }) => {
            println!(rt; "error at 0x{offset:x}: Untyped")
        }
        PayloadError::Constant(CheckError::NotConstant { offset }) => {
            println!(rt; "error at 0x{offset:x}: NotConstant")
        }
        PayloadError::Constant(error) => println!(rt; "error: {error:?}"),
        PayloadError::NoInitialValue(offset) => {
            println!(rt; "error at 0x{offset:x}: NoInitialValue")
        }
        PayloadError::UnknownSection(id, offset) => {
            println!(rt; "error at 0x{offset:x}: UnknownSection({id})")
        }
        PayloadError::ElementType { offset, .. } => {
            println!(rt; "error at 0x{offset:x}: ElementType")
        }
        PayloadError::Context(error, offset) => println!(rt; "error at 0x{offset:x}: {error:?}"),
    }
}

fn main(rt: HostRuntime) -> io::Result<ExitCode> {
    let table = io::read_to_string(rt.alloc(), rt.reader())?;
    for line in table.as_str().lines() {
        if line.is_empty() || line.starts_with('#') {
            println!(rt; "{line}")?;
        } else {
            match hex::bytes_of(rt.alloc(), line) {
                Some(bytes) => match context_of(rt.alloc(), bytes.as_slice()) {
                    Ok(context) => print_context(&rt, &context)?,
                    Err(e) => print_error(&rt, e)?,
                },
                None => println!(rt; "no hexadecimal bytes: {line}")?,
            }
        }
    }
    Ok(ExitCode::SUCCESS)
}
