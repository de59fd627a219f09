ghost use Rattle.std.specs.Prelude.{◌≡◌, ◌<◌, ◌≤◌, ◌+◌, ◌^◌, length, IfOk, Ok, Err};
ghost use Rattle.wasm_operators.specs.below.Features.{features_of};
ghost use Rattle.wasm_c.specs.Reads.{IsWithin};
ghost use Rattle.wasm_c.specs.Refused.{misuse};

use crate::refusal::{PAST_OFFSETS, UNKNOWN_FEATURES, WasmRefusal};
use wasm_operators::WasmFeatures;

/// Returns the features of these bits. Fails with 100 if a bit is not a feature, and with 101 if
/// the offset of the end does not fit in 64 bits.
pub fn known_features(
    bytes: &[u8],
    offset: u64,
    features: u32,
) -> std::result::Result<WasmFeatures, WasmRefusal>
    ensures unknown { 64 ≤ features → result ≡ Err (misuse 100 offset) }
    ensures past { features < 64 → 2 ^ 64 ≤ offset + length bytes.now → result ≡ Err (misuse 101 offset) }
    ensures fits { features < 64 → IsWithin offset bytes.now → result ≡ Ok (features_of features) }
    ensures known { IfOk result (λ known. (features < 64) × IsWithin offset bytes.now × (known ≡ features_of features)) }
{
    let Some(known) = WasmFeatures::from_bits(features) else {
        return Err(WasmRefusal::misuse(UNKNOWN_FEATURES, offset));
    };
    if bytes.len() as u64 > u64::MAX - offset {
        return Err(WasmRefusal::misuse(PAST_OFFSETS, offset));
    }
    Ok(known)
}
