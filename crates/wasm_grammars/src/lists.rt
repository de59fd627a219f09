ghost use Rattle.std.specs.Prelude.{◌≤◌};
ghost use Rattle.wasm_below.specs.Source.{offset_of};
ghost use Rattle.wasm_grammars.specs.Grammar.{thing};
ghost use Rattle.wasm_grammars.specs.Parts.{counted};
ghost use Rattle.wasm_grammars.specs.Reading.{Reads, ReadsFrom};

use crate::read::Read;
use std::alloc::Global;
use wasm_below::{BinaryReader, Error, Message, Result, SizeName};
use wasm_imm::Members;

/// Reads a count of at most `limit`, and that many members of a thing that starts at `start`.
pub fn read_counted<'a, T: Read<'a>>(
    alloc: Global,
    reader: &mut BinaryReader<'a>,
    start: u64,
    limit: usize,
    desc: SizeName,
) -> Result<Members<T>>
    requires { start ≤ offset_of reader.old }
    ensures { ReadsFrom (counted limit desc (thing (T.grammar reader.old.features))) start result reader.old reader.new }
{
    let mut ahead = reader.clone();
    let count = ahead.read_size(limit, desc)?;
    let mut items = match Vec::with_capacity(alloc, count) {
        Ok(items) => items,
        Err(_) => return Err(Error::new(Message::OutOfMemory, start)),
    };
    for _member in 0..count {
        let item = T::read_from(alloc, &mut ahead)?;
        items.push(item).unwrap();
    }
    *reader = ahead;
    Ok(Members::from_vec(items))
}

/// Reads a count of at most `limit`, and that many members.
pub fn read_list<'a, T: Read<'a>>(
    alloc: Global,
    reader: &mut BinaryReader<'a>,
    limit: usize,
    desc: SizeName,
) -> Result<Members<T>>
    ensures { Reads (counted limit desc (thing (T.grammar reader.old.features))) result reader.old reader.new }
{
    let start = reader.original_position();
    read_counted(alloc, reader, start, limit, desc)
}
