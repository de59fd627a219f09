ghost use Rattle.std.specs.Int.{w32, w64};
ghost use Rattle.wasm_below.specs.Source.{Reader, Reads, EndsWithin};
ghost use Rattle.wasm_below.specs.Number.{EncodesFixed};

use crate::constants::{Ieee32, Ieee64};
use wasm_below::{BinaryReader, Result};

pub trait ReadImmediates {
    // The state of the reader of bytes.
    ghost reader: { Self → Reader };

    /// Reads four bytes, the lowest first. Specification: Values, Floating-Point. Fails like
    /// `read_bytes`.
    fn read_f32(&mut self) -> Result<Ieee32>
        ensures { Reads (EncodesFixed w32) (EndsWithin 4) result (reader self.old) (reader self.new) };

    /// Reads eight bytes, the lowest first. Fails like `read_bytes`.
    fn read_f64(&mut self) -> Result<Ieee64>
        ensures { Reads (EncodesFixed w64) (EndsWithin 8) result (reader self.old) (reader self.new) };
}

impl ReadImmediates for BinaryReader<'_> {
    ghost reader = { λ r. r };

    #[inline(always)]
    fn read_f32(&mut self) -> Result<Ieee32> {
        match self.read_u32() {
            Ok(bits) => Ok(Ieee32::from_bits(bits)),
            Err(e) => Err(e),
        }
    }

    #[inline(always)]
    fn read_f64(&mut self) -> Result<Ieee64> {
        match self.read_u64() {
            Ok(bits) => Ok(Ieee64::from_bits(bits)),
            Err(e) => Err(e),
        }
    }
}
