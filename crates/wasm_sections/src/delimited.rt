ghost use Rattle.wasm_grammars.specs.Reading.{Reads};
ghost use Rattle.wasm_sections.specs.Delimited.{delimited};

use std::alloc::Global;
use wasm_below::{BinaryReader, Error, Message, Result};
use wasm_grammars::Read;

/// Reads a value, such as a function body, that is in the next `size` bytes, which the data may
/// lack. Returns how many of these follow it.
///
/// Fails with the value's error, or with `EndOfData` at the start of a value of more bytes.
pub fn read_delimited<'a, T: Read<'a>>(
    alloc: Global,
    reader: &mut BinaryReader<'a>,
    size: u32,
) -> Result<(T, u32)>
    ensures { Reads (delimited size (T.grammar reader.old.features)) result reader.old reader.new }
{
    reader.is_within();
    let start = reader.original_position();
    let mut ahead = reader.clone();
    let value = T::read_from(alloc, &mut ahead)?;
    let end = ahead.original_position();
    let read = end - start;
    if read > u64::from(size) {
        return Err(Error::new(Message::EndOfData, start));
    }
    *reader = ahead;
    Ok((value, size - read as u32))
}
