//! The trait of types whose values are immediates of an operator, and its impl for pairs.
ghost use Rattle.std.specs.Prelude.{ℕ, ◌+◌, ◌≤◌, vec_len, vec_capacity};
ghost use Rattle.wasm_encode_immediates.specs.Written.{WritesImmediates};

use crate::unwritable::Unwritable;
use wasm_below::WasmFeatures;
use wasm_decode_opcodes::Immediates;

/// A type whose values are immediates of an operator, and can be written.
pub trait Writes: Immediates {
    // The greatest number of bytes that are appended.
    ghost most: { ℕ };

    /// Appends the shortest encoding of the immediates. `bound` is the operator's natural alignment
    /// as an exponent, or 0 without a memory argument.
    ///
    /// Fails if and only if no encoding exists. Then a part of the immediates may have been
    /// appended.
    fn write(self, out: &mut Vec<u8>, features: WasmFeatures, bound: u8) -> Result<(), Unwritable>
        requires { vec_len out.old + most ≤ vec_capacity out.old }
        ensures written { WritesImmediates features (Self.listed bound self) result out.old out.new }
        ensures len { vec_len out.new ≤ vec_len out.old + most };
}

impl Writes for () {
    ghost most = { 0 };

    #[inline(always)]
    fn write(
        self,
        _out: &mut Vec<u8>,
        _features: WasmFeatures,
        _bound: u8,
    ) -> Result<(), Unwritable> {
        Ok(())
    }
}

impl<A: Writes, B: Writes> Writes for (A, B) {
    ghost most = { A.most + B.most };

    #[inline(always)]
    fn write(self, out: &mut Vec<u8>, features: WasmFeatures, bound: u8) -> Result<(), Unwritable> {
        let (first, second) = self;
        match first.write(out, features, bound) {
            Ok(()) => second.write(out, features, bound),
            Err(e) => Err(e),
        }
    }
}
