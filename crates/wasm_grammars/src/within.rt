ghost use Rattle.std.specs.Prelude.{◌≢◌};
ghost use Rattle.wasm_below.specs.declared.message.Message.TheVariants as message;
ghost use Rattle.wasm_grammars.specs.Grammar.{within};
ghost use Rattle.wasm_grammars.specs.Reading.{Reads};

use crate::read::Read;
use std::alloc::Global;
use wasm_below::{BinaryReader, Error, Message, Result};

/// Reads a value that fills the next `size` bytes, such as a section's contents.
///
/// Fails with `EndOfData` if fewer bytes are left; with the value's error; or with `left_over` at the
/// first byte after the value.
pub fn read_within<'a, T: Read<'a>>(
    alloc: Global,
    reader: &mut BinaryReader<'a>,
    size: usize,
    left_over: Message,
) -> Result<T>
    requires { left_over ≢ message.OutOfMemory }
    ensures { Reads (within size left_over (T.grammar reader.old.features)) result reader.old reader.new }
{
    reader.is_within();
    let mut ahead = reader.clone();
    let bytes = ahead.read_bytes(size)?;
    let mut inside = reader.part(bytes, reader.original_position());
    let value = T::read_from(alloc, &mut inside)?;
    if !inside.eof() {
        return Err(Error::new(left_over, inside.original_position()));
    }
    *reader = ahead;
    Ok(value)
}
