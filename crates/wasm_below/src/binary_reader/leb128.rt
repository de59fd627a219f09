//! Specification: Values, Integers.
ghost use Rattle.std.specs.Prelude.{◌≡◌, ◌<◌, [], ◌∷◌, IfSome, IfNone};
ghost use Rattle.wasm_below.specs.Source.{Takes, Reads, U32Fault, U64Fault, I32Fault, S33Fault, I64Fault, as_too_long, offset_of, end_of};
ghost use Rattle.wasm_below.specs.Number.{EncodesUnsigned, EncodesSigned};
ghost use Rattle.wasm_below.specs.Leb128.{HasPlace, refusal_message, refusal_offset};

use super::BinaryReader;
use crate::error::{Error, Result};
use crate::long_numbers::{
    NumberRefusal, last_value, long_i32, long_i64, long_s33, long_u32, long_u64, number_error,
    two_bytes,
};
use crate::message::{Message, NumberName};

impl<'a> BinaryReader<'a> {
    /// Reads an unsigned LEB128 number of at most five bytes.
    ///
    /// Fails with `EndOfData` at the end of the data, or with `IntegerTooLong` or `IntegerTooLarge`
    /// at the fifth byte.
    #[inline(always)]
    pub fn read_var_u32(&mut self) -> Result<u32>
        ensures { Reads (EncodesUnsigned 32) U32Fault result self.old self.new }
    {
        if let Some(byte) = self.take_last_byte() {
            return Ok(u32::from(byte));
        }
        self.read_long_u32()
    }

    /// Reads an unsigned LEB128 number of at most ten bytes. Fails like `read_var_u32`, but at the
    /// tenth byte.
    #[inline(always)]
    pub fn read_var_u64(&mut self) -> Result<u64>
        ensures { Reads (EncodesUnsigned 64) U64Fault result self.old self.new }
    {
        if let Some(byte) = self.take_last_byte() {
            return Ok(u64::from(byte));
        }
        self.read_long_u64()
    }

    /// Reads a signed LEB128 number of at most five bytes. Fails like `read_var_u32`.
    #[inline(always)]
    pub fn read_var_i32(&mut self) -> Result<i32>
        ensures { Reads (EncodesSigned 32) I32Fault result self.old self.new }
    {
        if let Some(byte) = self.take_last_byte() {
            return Ok(last_value(byte) as i32);
        }
        self.read_long_i32()
    }

    /// Reads a signed LEB128 number of 33 bits, at most five bytes. Fails like `read_var_u32`, but
    /// with `IntegerTooLong` for any wrong fifth byte.
    #[inline(always)]
    pub fn read_var_s33(&mut self) -> Result<i64>
        ensures { Reads (EncodesSigned 33) S33Fault result self.old self.new }
    {
        if let Some(byte) = self.take_last_byte() {
            return Ok(last_value(byte));
        }
        self.read_long_s33()
    }

    /// Reads a signed LEB128 number of at most ten bytes. Fails like `read_var_u64`.
    #[inline(always)]
    pub fn read_var_i64(&mut self) -> Result<i64>
        ensures { Reads (EncodesSigned 64) I64Fault result self.old self.new }
    {
        if let Some(byte) = self.take_last_byte() {
            return Ok(last_value(byte));
        }
        self.read_long_i64()
    }

    #[inline(always)]
    fn take_last_byte(&mut self) -> Option<u8>
        ensures taken { IfSome result (λ b. (b < 128) × Takes self.old self.new (b ∷ [])) }
        ensures left { IfNone result (self.new ≡ self.old) }
    {
        if self.position >= self.buffer.len() {
            return None;
        }
        let byte = self.buffer[self.position];
        if byte >= 128 {
            return None;
        }
        self.position += 1;
        Some(byte)
    }

    #[inline(always)]
    fn read_long_u32(&mut self) -> Result<u32>
        ensures { Reads (EncodesUnsigned 32) U32Fault result self.old self.new }
    {
        if let Some(number) = two_bytes(self.buffer, self.position) {
            self.position = number.after;
            return Ok(number.value as u32);
        }
        match long_u32(self.buffer, self.position).into_result() {
            Ok(number) => {
                self.position = number.after;
                Ok(number.value as u32)
            }
            Err(refusal) => Err(self.no_number(refusal, 32, NumberName::VarU32)),
        }
    }

    #[inline(always)]
    fn read_long_u64(&mut self) -> Result<u64>
        ensures { Reads (EncodesUnsigned 64) U64Fault result self.old self.new }
    {
        if let Some(number) = two_bytes(self.buffer, self.position) {
            self.position = number.after;
            return Ok(number.value);
        }
        match long_u64(self.buffer, self.position).into_result() {
            Ok(number) => {
                self.position = number.after;
                Ok(number.value)
            }
            Err(refusal) => Err(self.no_number(refusal, 64, NumberName::VarU64)),
        }
    }

    #[inline(always)]
    fn read_long_i32(&mut self) -> Result<i32>
        ensures { Reads (EncodesSigned 32) I32Fault result self.old self.new }
    {
        match long_i32(self.buffer, self.position) {
            Ok(number) => {
                self.position = number.after;
                Ok(number.value as i32)
            }
            Err(refusal) => Err(self.no_number(refusal, 32, NumberName::VarI32)),
        }
    }

    #[inline(always)]
    fn read_long_s33(&mut self) -> Result<i64>
        ensures { Reads (EncodesSigned 33) S33Fault result self.old self.new }
    {
        match long_s33(self.buffer, self.position) {
            Ok(number) => {
                self.position = number.after;
                Ok(number.value)
            }
            Err(refusal) => Err(as_too_long(self.no_number(refusal, 33, NumberName::VarS33))),
        }
    }

    #[inline(always)]
    fn read_long_i64(&mut self) -> Result<i64>
        ensures { Reads (EncodesSigned 64) I64Fault result self.old self.new }
    {
        match long_i64(self.buffer, self.position).into_result() {
            Ok(number) => {
                self.position = number.after;
                Ok(number.value)
            }
            Err(refusal) => Err(self.no_number(refusal, 64, NumberName::VarI64)),
        }
    }

    #[inline(always)]
    fn no_number(&self, refusal: NumberRefusal, bits: u32, name: NumberName) -> Error
        requires some { 0 < bits }
        requires place { HasPlace refusal bits (offset_of self.now) (end_of self.now) }
        ensures message { result.message ≡ refusal_message refusal name }
        ensures offset { result.offset ≡ refusal_offset refusal bits (offset_of self.now) (end_of self.now) }
    {
        let end = self.original_offset + self.buffer.len() as u64;
        number_error(refusal, self.original_position(), end, bits, name)
    }
}

/// Replaces `IntegerTooLarge` by `IntegerTooLong`: `read_var_s33` reports both with one text. Inlined,
/// it would make the compiler keep a number as single bytes.
#[cold]
#[inline(never)]
fn as_too_long(e: Error) -> Error
    ensures offset { result.offset ≡ e.offset }
    ensures message { result.message ≡ as_too_long e.message }
{
    match e.message {
        Message::IntegerTooLarge(kind) => Error::new(Message::IntegerTooLong(kind), e.offset),
        _ => e,
    }
}
