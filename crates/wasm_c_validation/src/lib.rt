//! The validation of modules for C, and for languages that call C. No call has a `requires`.
//!
//! `c/include/wasm_operators.h` describes the call. It is like the calls of `wasm_c`.
#![tactic(auto)]

ghost use Rattle.std.specs.Prelude.{◌≡◌, ◌<◌, ◌≤◌, ◌^◌};
ghost use Rattle.wasm_operators.specs.below.Features.{features_of};
ghost use Rattle.wasm_operators.specs.below.Source.{reader_of};
ghost use Rattle.wasm_c.specs.Refused.{misuse};
ghost use Rattle.wasm_validation.specs.Valid.{IsValidModule};
ghost use Rattle.wasm_c_validation.specs.Verdicts.{no_function, ReturnsVerdict};

mod verdict;

use crate::verdict::{NO_FUNCTION, UNKNOWN_FEATURES, validate};
use std::alloc::Global;
use wasm_below::WasmFeatures;
use wasm_c::WasmRefusal;

/// Checks a module. Sets `function` to the index of the function whose body is at fault, else to
/// 2^64 - 1. Writes as much of the message as fits, and sets `length` to its whole length: 0 without
/// an error, for unknown features, or if allocation fails.
pub fn wasm_validate_module(
    alloc: Global,
    bytes: &[u8],
    features: u32,
    function: &mut u64,
    message: &mut [u8],
    length: &mut usize,
    refusal: &mut WasmRefusal,
) -> u32
    ensures outcome { result ≡ refusal.new.number }
    ensures valid { result ≡ 0 → IsValidModule (reader_of (features_of features) 0 bytes.now) }
    ensures verdict { features < 64 → ReturnsVerdict refusal.new (reader_of (features_of features) 0 bytes.now) function.new }
    ensures unknown { 64 ≤ features → (refusal.new ≡ misuse 100 0) × (function.new ≡ no_function) }
{
    let Some(known) = WasmFeatures::from_bits(features) else {
        *function = NO_FUNCTION;
        *length = 0;
        *refusal = WasmRefusal::misuse(UNKNOWN_FEATURES, 0);
        return refusal.number;
    };
    *refusal = validate(alloc, bytes, features, known, function, message, length);
    refusal.number
}
