//! Faults of modules as C structs.
ghost use Rattle.std.specs.Prelude.{◌≡◌};
ghost use Rattle.wasm_operators.specs.below.Features.{features_of};
ghost use Rattle.wasm_operators.specs.below.Source.{reader_of};
ghost use Rattle.wasm_c_validation.specs.Verdicts.{function_number, refusal_of_kind, ReturnsVerdict};

use std::alloc::Global;
use wasm_below::{BinaryReader, WasmFeatures};
use wasm_c::WasmRefusal;
use wasm_validation::{Fault, validate_module};
use wasm_validation_texts::{FaultKind, function_of, kind_of, message_of};

// The numbers of errors, as in `c/include/wasm_operators.h`.
const OUT_OF_MEMORY: u32 = 3;

pub const UNKNOWN_FEATURES: u32 = 100;

const INVALID: u32 = 113;

/// The number for no function.
pub const NO_FUNCTION: u64 = u64::MAX;

/// Returns the C struct of what is wrong with a module.
fn refusal_of_kind(kind: FaultKind) -> WasmRefusal
    ensures { result ≡ refusal_of_kind kind }
{
    match kind {
        FaultKind::Memory => WasmRefusal::misuse(OUT_OF_MEMORY, 0),
        FaultKind::Malformed(error) => WasmRefusal::of(&error),
        FaultKind::Invalid(offset) => WasmRefusal::misuse(INVALID, offset),
    }
}

fn function_number(function: Option<u32>) -> u64
    ensures { result ≡ function_number function }
{
    match function {
        Some(index) => u64::from(index),
        None => NO_FUNCTION,
    }
}

/// Writes as many bytes as fit. Returns the number of all.
fn write_bytes(bytes: &[u8], out: &mut [u8]) -> usize {
    let fitting = bytes.len().min(out.len());
    for index in 0..fitting {
        out[index] = bytes[index];
    }
    bytes.len()
}

/// Writes the message of a fault, as much of it as fits. Returns its whole length, or 0 if
/// allocation fails.
fn write_message(alloc: Global, fault: &Fault<'_>, out: &mut [u8]) -> usize {
    let Some(message) = message_of(alloc, fault) else {
        return 0;
    };
    match format!(in alloc; "{message}") {
        Ok(text) => write_bytes(text.as_bytes(), out),
        Err(_) => 0,
    }
}

/// Checks a module. Sets the function and the length of the message, and writes the message.
pub fn validate(
    alloc: Global,
    bytes: &[u8],
    features: u32,
    known: WasmFeatures,
    function: &mut u64,
    message: &mut [u8],
    length: &mut usize,
) -> WasmRefusal
    requires { known ≡ features_of features }
    ensures { ReturnsVerdict result (reader_of (features_of features) 0 bytes.now) function.new }
{
    match validate_module(alloc, BinaryReader::new_features(bytes, 0, known)) {
        Ok(()) => {
            *function = NO_FUNCTION;
            *length = 0;
            WasmRefusal::none(bytes.len() as u64)
        }
        Err(fault) => {
            *function = function_number(function_of(&fault));
            *length = write_message(alloc, &fault, message);
            refusal_of_kind(kind_of(&fault))
        }
    }
}
