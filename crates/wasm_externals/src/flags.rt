ghost use Rattle.wasm_externals.specs.Flags.{flags};
ghost use Rattle.wasm_grammars.specs.Reading.{Reads};

use wasm_below::{BinaryReader, Error, Malformed, Message, Result};

/// Of limits.
pub(crate) const HAS_MAXIMUM: u8 = 1;
/// Of a global type.
pub(crate) const MUTABLE: u8 = 1;

pub(crate) const SHARED: u8 = 2;

pub(crate) const IS_64: u8 = 4;

pub(crate) const HAS_PAGE_SIZE: u8 = 8;

/// Reads a byte of at most `limit`. Fails with `error`, at a byte above it.
pub(crate) fn read_flags(reader: &mut BinaryReader<'_>, limit: u8, error: Malformed) -> Result<u8>
    ensures { Reads (flags limit error) result reader.old reader.new }
{
    let mut ahead = reader.clone();
    let byte = ahead.read_u8()?;
    if byte > limit {
        let start = reader.original_position();
        return Err(Error::new(Message::Malformed(error), start));
    }
    *reader = ahead;
    Ok(byte)
}
