ghost use Rattle.std.specs.Prelude.{◌≡◌};
ghost use Rattle.wasm_grammars.specs.Blocks.{sized, contents, sized_contents};
ghost use Rattle.wasm_grammars.specs.Reading.{Reads};

use crate::read::Read;
use std::alloc::Global;
use std::marker::Model;
use wasm_below::{BinaryReader, Result};

/// A u32 and that many bytes, which are borrowed; in contracts, a list.
#[derive(Debug, Drop)]
pub struct Bytes<'a> {
    bytes: &'a [u8],
}

impl<'a> Model for Bytes<'a> {
    ghost use Rattle.std.specs.Prelude.{ℕ, List};

    ghost Value = { List ℕ };

    ghost view = { λ b. b.bytes.now };
}

impl<'a> Bytes<'a> {
    pub fn as_slice(&self) -> &'a [u8]
        ensures { result.now ≡ self.now }
    {
        self.bytes
    }
}

impl<'a> Read<'a> for Bytes<'a> {
    ghost grammar = { λ features. sized };

    fn read_from(_alloc: Global, reader: &mut BinaryReader<'a>) -> Result<Bytes<'a>> {
        let mut ahead = reader.clone();
        let size = ahead.read_var_u32()?;
        let bytes = ahead.read_bytes(size as usize)?;
        *reader = ahead;
        Ok(Bytes { bytes })
    }
}

/// Reads the next `size` bytes as a reader with the same features and offsets.
///
/// Fails with `EndOfData` at the offset of the first byte.
pub fn read_contents<'a>(reader: &mut BinaryReader<'a>, size: usize) -> Result<BinaryReader<'a>>
    ensures { Reads (contents reader.old.features size) result reader.old reader.new }
{
    reader.is_within();
    let mut ahead = reader.clone();
    let bytes = ahead.read_bytes(size)?;
    let contents = reader.part(bytes, reader.original_position());
    *reader = ahead;
    Ok(contents)
}

impl<'a> Read<'a> for BinaryReader<'a> {
    ghost grammar = { λ features. sized_contents features };

    fn read_from(_alloc: Global, reader: &mut BinaryReader<'a>) -> Result<BinaryReader<'a>> {
        let mut ahead = reader.clone();
        let size = ahead.read_var_u32()?;
        let contents = read_contents(&mut ahead, size as usize)?;
        *reader = ahead;
        Ok(contents)
    }
}
