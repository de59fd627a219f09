ghost use Rattle.std.specs.Prelude.{◌≡◌, ◌≢◌, ◌+◌, ◌-◌, ◌≤◌, ◌<◌, ◌^◌, length, IsTrue, ◌↔◌, [], ◌∷◌, IfOk, IfErr};
ghost use Rattle.std.specs.Int.{w32, w64};
ghost use Rattle.wasm_below.specs.Source.{Reads, IsByte, IsBlock, IsEndHere, IsShort, BeginsWith, CountFault, rest, offset_of, end_of, at_position, with_features, reader_of, EndFault, EndsWithin};
ghost use Rattle.wasm_below.specs.Features.{all_features};
ghost use Rattle.wasm_below.specs.Number.{EncodesFixed, EncodesSize};

use crate::error::{Error, Result};
use crate::features::WasmFeatures;
use crate::message::{Message, SizeName};
use std::alloc::AllocError;
use std::marker::Model;
use std::ops::Range;

mod leb128;

const END: u8 = 0x0b;

/// Borrowed bytes, read from the start. Offsets in errors include the offset of the first byte.
///
/// A loop's reader leaves the registers if a call that is not inlined borrows it. So functions that
/// create errors are inline, and other calls borrow a copy.
#[derive(Debug, Drop)]
pub struct BinaryReader<'a> {
    buffer: &'a [u8],
    position: usize,
    original_offset: u64,
    features: WasmFeatures,
}

impl<'a> Model for BinaryReader<'a> {
    ghost use Rattle.std.specs.Prelude.{◌+◌, ◌<◌, ◌≤◌, ◌^◌, length};
    ghost use Rattle.wasm_below.specs.Source.{Reader};

    ghost Value = { Reader };

    ghost view = { λ r. record { features = r.features; start = r.original_offset; buffer = r.buffer.now; position = r.position } };

    ghost invariant = { λ r. (r.position ≤ length r.buffer.now) × (r.original_offset + length r.buffer.now < 2 ^ 64) };
}

impl<'a> Clone for BinaryReader<'a> {
    ghost use Rattle.std.specs.Prelude.{◌≡◌, ⊤};

    ghost is_clone = { λ source copy. copy ≡ source };

    ghost is_infallible = { λ _. ⊤ };

    fn clone(&self) -> std::result::Result<BinaryReader<'a>, AllocError> {
        Ok(BinaryReader::clone(self))
    }
}

impl<'a> BinaryReader<'a> {
    /// Creates a reader over `bytes` with all features. `original_offset` is the offset of the
    /// first byte.
    pub fn new(bytes: &'a [u8], original_offset: u64) -> BinaryReader<'a>
        requires { original_offset + length bytes.now < 2 ^ 64 }
        ensures { result ≡ reader_of all_features original_offset bytes.now }
    {
        BinaryReader::new_features(bytes, original_offset, WasmFeatures::all())
    }

    /// Creates a reader over `bytes` like `new`, with these features.
    pub fn new_features(
        bytes: &'a [u8],
        original_offset: u64,
        features: WasmFeatures,
    ) -> BinaryReader<'a>
        requires { original_offset + length bytes.now < 2 ^ 64 }
        ensures { result ≡ reader_of features original_offset bytes.now }
    {
        BinaryReader {
            buffer: bytes,
            position: 0,
            original_offset,
            features,
        }
    }

    /// Returns the greatest number of bytes that `new` accepts at this offset.
    pub fn max_data_len(original_offset: u64) -> usize
        ensures { result + original_offset + 1 ≡ 2 ^ 64 }
    {
        (u64::MAX - original_offset) as usize
    }

    pub fn features(&self) -> WasmFeatures
        ensures { result ≡ self.now.features }
    {
        self.features
    }

    /// Returns the offset of the next byte.
    #[inline(always)]
    pub fn original_position(&self) -> u64
        ensures { result ≡ offset_of self.now }
    {
        self.original_offset + self.position as u64
    }

    /// Returns the number of bytes read.
    #[inline(always)]
    pub fn current_position(&self) -> usize
        ensures { result ≡ self.now.position }
    {
        self.position
    }

    /// Law: the next byte is within the data, or at its end.
    pub fn is_within(&self)
        ensures { offset_of self.now ≤ end_of self.now }
    {
        let _ = &self.buffer;
    }

    #[inline(always)]
    pub fn eof(&self) -> bool
        ensures { IsTrue result ↔ (rest self.now ≡ []) }
    {
        self.position >= self.buffer.len()
    }

    #[inline(always)]
    pub fn bytes_remaining(&self) -> usize
        ensures { result ≡ length (rest self.now) }
    {
        self.buffer.len() - self.position
    }

    pub fn remaining_buffer(&self) -> &'a [u8]
        ensures { result.now ≡ rest self.now }
    {
        &self.buffer[self.position..]
    }

    pub fn range(&self) -> Range<u64>
        ensures start { result.start ≡ self.now.start }
        ensures end { result.end ≡ end_of self.now }
    {
        self.original_offset..self.original_offset + self.buffer.len() as u64
    }

    pub fn remaining_range(&self) -> Range<u64>
        ensures start { result.start ≡ offset_of self.now }
        ensures end { result.end ≡ end_of self.now }
    {
        self.original_position()..self.original_offset + self.buffer.len() as u64
    }

    pub fn is_end_then_eof(&self) -> bool
        ensures { IsTrue result ↔ (rest self.now ≡ END ∷ []) }
    {
        matches!(self.remaining_buffer(), [END])
    }

    pub fn set_features(&mut self, features: WasmFeatures)
        ensures { self.new ≡ with_features self.old features }
    {
        self.features = features;
    }

    /// Returns the next byte without consuming it. Fails with `EndOfData`.
    #[inline(always)]
    pub fn peek(&self) -> Result<u8>
        ensures prefix { IfOk result (λ byte. BeginsWith byte (rest self.now)) }
        ensures end { IfErr result (λ e. IsEndHere e self.now) }
    {
        if self.position >= self.buffer.len() {
            return Err(self.end_of_data());
        }
        Ok(self.buffer[self.position])
    }

    #[inline(always)]
    pub fn clone(&self) -> BinaryReader<'a>
        ensures { result ≡ self.now }
    {
        BinaryReader {
            buffer: self.buffer,
            position: self.position,
            original_offset: self.original_offset,
            features: self.features,
        }
    }

    /// Goes back to an earlier position.
    #[inline(always)]
    pub fn rewind(&mut self, position: usize)
        requires { position ≤ self.old.position }
        ensures { self.new ≡ at_position self.old position }
    {
        self.position = position;
    }

    /// Moves to `to`, for example a position that a copy reached.
    #[inline(always)]
    pub fn set_position(&mut self, to: usize)
        requires { to ≤ length self.old.buffer }
        ensures { self.new ≡ at_position self.old to }
    {
        self.position = to;
    }

    #[inline(always)]
    pub fn advance(&mut self)
        requires { rest self.old ≢ [] }
        ensures { self.new ≡ at_position self.old (self.old.position + 1) }
    {
        self.position += 1;
    }

    /// Reads one byte. Fails with `EndOfData`.
    #[inline(always)]
    pub fn read_u8(&mut self) -> Result<u8>
        ensures { Reads IsByte EndFault result self.old self.new }
    {
        if self.position >= self.buffer.len() {
            return Err(self.end_of_data());
        }
        let byte = self.buffer[self.position];
        self.position += 1;
        Ok(byte)
    }

    #[inline(always)]
    fn end_of_data(&self) -> Error
        requires { offset_of self.now ≡ end_of self.now }
        ensures { IsEndHere result self.now }
    {
        Error::new(Message::EndOfData, self.original_position())
    }

    /// Reads `n` bytes. Fails with `EndOfData` at the offset of the first.
    #[inline(always)]
    pub fn read_bytes(&mut self, n: usize) -> Result<&'a [u8]>
        ensures { Reads (IsBlock n) (EndsWithin n) result self.old self.new }
    {
        if n > self.buffer.len() - self.position {
            return Err(self.block_missing(n));
        }
        let start = self.position;
        self.position = start + n;
        Ok(&self.buffer[start..start + n])
    }

    #[inline(always)]
    fn block_missing(&self, n: usize) -> Error
        requires { end_of self.now < offset_of self.now + n }
        ensures { IsShort n result self.now }
    {
        Error::new(Message::EndOfData, self.original_position())
    }

    /// Creates a reader with the same features. `bytes` start at `offset`.
    pub fn part(&self, bytes: &'a [u8], offset: u64) -> BinaryReader<'a>
        requires { offset + length bytes.now ≤ end_of self.now }
        ensures { result ≡ reader_of self.now.features offset bytes.now }
    {
        let _ = &self.buffer;
        BinaryReader::new_features(bytes, offset, self.features)
    }

    /// Reads a little-endian number. Fails like `read_bytes`.
    #[inline(always)]
    pub fn read_u32(&mut self) -> Result<u32>
        ensures { Reads (EncodesFixed w32) (EndsWithin 4) result self.old self.new }
    {
        let block = self.read_bytes(4)?;
        Ok(u32::from_le_bytes([block[0], block[1], block[2], block[3]]))
    }

    /// Reads a little-endian number. Fails like `read_bytes`.
    #[inline(always)]
    pub fn read_u64(&mut self) -> Result<u64>
        ensures { Reads (EncodesFixed w64) (EndsWithin 8) result self.old self.new }
    {
        let block = self.read_bytes(8)?;
        Ok(u64::from_le_bytes([
            block[0], block[1], block[2], block[3], block[4], block[5], block[6], block[7],
        ]))
    }

    /// Reads the count of a list.
    ///
    /// Fails with `SizeOutOfBounds`, which names `desc`, at the start of a count above `limit`;
    /// otherwise like `read_var_u32`.
    pub fn read_size(&mut self, limit: usize, desc: SizeName) -> Result<usize>
        ensures { Reads (EncodesSize limit) (CountFault desc limit) result self.old self.new }
    {
        let start = self.position;
        let size = self.read_var_u32()? as usize;
        if size > limit {
            return Err(self.refuse(start, Message::SizeOutOfBounds(desc)));
        }
        Ok(size)
    }

    /// Goes back to this position, and returns an error there.
    #[inline(always)]
    pub fn refuse(&mut self, position: usize, message: Message) -> Error
        requires { position ≤ self.old.position }
        ensures rewound { self.new ≡ at_position self.old position }
        ensures message { result.message ≡ message }
        ensures offset { result.offset ≡ self.old.start + position }
    {
        self.rewind(position);
        Error::new(message, self.original_position())
    }
}
