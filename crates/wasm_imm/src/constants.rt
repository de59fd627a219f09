ghost use Rattle.std.specs.Prelude.{◌≡◌, ℕ};
ghost use Rattle.wasm_below.specs.Source.{Reads, EndsWithin};
ghost use Rattle.wasm_imm.specs.Vectors.{EncodesVector};
ghost use Rattle.std.specs.Int.{w128, to_le_bytes, from_le_bytes, cast_signed, cast_unsigned};

use crate::lanes::read_sixteen;
use std::marker::Model;
use wasm_below::{BinaryReader, Result};

/// The bits of an IEEE 754 binary32 number. Every pattern is allowed.
#[derive(Clone, Copy, Debug, PartialEq, Eq, Hash)]
pub struct Ieee32(u32);

impl Model for Ieee32 {
    ghost Value = { ℕ };

    ghost view = { λ x. x.0 };

    ghost inverse = { λ bits. record { 0 = bits } };
}

impl Ieee32 {
    pub fn from_bits(bits: u32) -> Ieee32
        ensures { result ≡ bits }
    {
        Ieee32(bits)
    }

    pub fn bits(self) -> u32
        ensures { result ≡ self }
    {
        let Ieee32(bits) = self;
        bits
    }
}

/// The bits of an IEEE 754 binary64 number.
#[derive(Clone, Copy, Debug, PartialEq, Eq, Hash)]
pub struct Ieee64(u64);

impl Model for Ieee64 {
    ghost Value = { ℕ };

    ghost view = { λ x. x.0 };

    ghost inverse = { λ bits. record { 0 = bits } };
}

impl Ieee64 {
    pub fn from_bits(bits: u64) -> Ieee64
        ensures { result ≡ bits }
    {
        Ieee64(bits)
    }

    pub fn bits(self) -> u64
        ensures { result ≡ self }
    {
        let Ieee64(bits) = self;
        bits
    }
}

/// A vector of 128 bits: sixteen bytes, the lowest first.
#[derive(Clone, Copy, Debug, PartialEq, Eq, Hash)]
pub struct V128(pub [u8; 16]);

impl V128 {
    /// Reads the constant of `v128.const`. Specification: Vector Instructions. Fails like
    /// `read_bytes`.
    #[inline(always)]
    pub fn read(reader: &mut BinaryReader<'_>) -> Result<V128>
        ensures { Reads EncodesVector (EndsWithin 16) result reader.old reader.new }
    {
        match read_sixteen(reader) {
            Ok(bytes) => Ok(V128(bytes)),
            Err(e) => Err(e),
        }
    }

    pub fn bytes(&self) -> &[u8; 16]
        ensures { result.now ≡ self.now.0 }
    {
        &self.0
    }

    /// Returns the bytes as a signed number.
    pub fn i128(&self) -> i128
        ensures { result ≡ cast_signed w128 (from_le_bytes w128 self.now.0) }
    {
        i128::from_le_bytes(self.0)
    }
}

impl From<V128> for i128 {
    ghost from_gives = { λ v n. n ≡ cast_signed w128 (from_le_bytes w128 v.0) };

    fn from(vector: V128) -> i128 {
        vector.i128()
    }
}

impl From<V128> for u128 {
    ghost from_gives = { λ v n. n ≡ from_le_bytes w128 v.0 };

    fn from(vector: V128) -> u128 {
        u128::from_le_bytes(vector.0)
    }
}

impl From<i128> for V128 {
    ghost from_gives = { λ n v. v.0 ≡ to_le_bytes w128 (cast_unsigned w128 n) };

    fn from(value: i128) -> V128 {
        V128(value.to_le_bytes())
    }
}

impl From<u128> for V128 {
    ghost from_gives = { λ n v. v.0 ≡ to_le_bytes w128 n };

    fn from(value: u128) -> V128 {
        V128(value.to_le_bytes())
    }
}
