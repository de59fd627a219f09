ghost use Rattle.std.specs.Prelude.{◌≡◌, ◌<◌, ℕ, List, length, All};
ghost use Rattle.std.specs.Int.{w128, to_le_bytes, from_le_bytes, cast_signed, cast_unsigned};
ghost use Rattle.wasm_below.specs.Fault.{DeterminesRefusal};
ghost use Rattle.wasm_below.specs.Source.{EndFault, EndsWithin};
ghost use Rattle.wasm_imm.specs.Vectors.{LanesFault};

/// States that converting a number to a vector and back restores it.
pub fn number_restored(value: u128)
    ensures { from_le_bytes w128 (to_le_bytes w128 value) ≡ value }
{}

pub fn signed_number_restored(value: i128)
    ensures { cast_signed w128 (from_le_bytes w128 (to_le_bytes w128 (cast_unsigned w128 value)))
        ≡ value }
{}

pub fn vector_restored()
    ensures { (bytes : List ℕ)
        → length bytes ≡ 16
        → All (λ b. b < 256) bytes
        → to_le_bytes w128 (from_le_bytes w128 bytes) ≡ bytes }
{}

pub fn vector_restored_signed()
    ensures { (bytes : List ℕ)
        → length bytes ≡ 16
        → All (λ b. b < 256) bytes
        → to_le_bytes w128 (cast_unsigned w128 (cast_signed w128 (from_le_bytes w128 bytes)))
        ≡ bytes }
{}

/// States that the faults of reads that fail only at the end of the data determine the error:
/// `byte` of one byte, `block` of `n` bytes, `lanes` of the lanes of a shuffle.
pub fn end_refusals()
    ensures byte { DeterminesRefusal EndFault }
    ensures block { (n : ℕ) → DeterminesRefusal (EndsWithin n) }
    ensures lanes { DeterminesRefusal LanesFault }
{}
