//! Laws: the bytes of `Shortest.antt` are encodings, and no encoding is shorter.
ghost use Rattle.std.specs.Prelude.{ℕ, ℤ, ◌<◌, ◌≤◌, ◌^◌};
ghost use Rattle.wasm_below.specs.Number.{EncodesUnsigned, EncodesSigned, FitsWidth};
ghost use Rattle.wasm_encode_numbers.specs.Shortest.{unsigned_bytes, signed_bytes, IsShortest};

/// States that `unsigned_bytes` are the shortest encoding of an unsigned number below 2^64.
pub fn unsigned_numbers()
    ensures encodes { (width n : ℕ) → width ≤ 64 → n < 2 ^ width → EncodesUnsigned width (unsigned_bytes n) n }
    ensures shortest { (n : ℕ) → IsShortest EncodesUnsigned (unsigned_bytes n) n }
{}

/// States that `signed_bytes` are the shortest encoding of a signed number of at most 64 bits.
pub fn signed_numbers()
    ensures encodes { (width : ℕ) (n : ℤ) → 0 < width → width ≤ 64 → FitsWidth width n
        → EncodesSigned width (signed_bytes n) n }
    ensures shortest { (n : ℤ) → IsShortest EncodesSigned (signed_bytes n) n }
{}
