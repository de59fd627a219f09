ghost use Rattle.std.specs.Prelude.{◌≤◌, IfOk};
ghost use Rattle.wasm_below.specs.Source.{offset_of};
ghost use Rattle.wasm_grammars.specs.Reading.{Reads};
ghost use Rattle.wasm_names.specs.Names.{skipped_name, skipped_names, unread_names, indirect_naming};

use crate::naming::NameMap;
use std::alloc::Global;
use wasm_below::{BinaryReader, Malformed, Message, Result};
use wasm_grammars::{Read, read_u32_up_to};
use wasm_sections::SectionReader;

const MAX_TEXT_SIZE: u32 = 100000;

/// A map from indices, such as a function's, to maps of names, such as its locals' names.
pub type IndirectNameMap<'a> = SectionReader<'a, IndirectNaming<'a>>;

/// A map of names, and the index of what contains the things that it names.
#[derive(Drop)]
pub struct IndirectNaming<'a> {
    pub index: u32,
    pub names: NameMap<'a>,
}

/// Skips an index and a text, of which only the size is checked; returns the size.
fn skip_name(reader: &mut BinaryReader<'_>) -> Result<u32>
    ensures { Reads skipped_name result reader.old reader.new }
{
    let mut ahead = reader.clone();
    let _index = ahead.read_var_u32()?;
    let size = read_u32_up_to(
        &mut ahead,
        MAX_TEXT_SIZE,
        Message::Malformed(Malformed::StringSize),
    )?;
    ahead.is_within();
    let _text = ahead.read_bytes(size as usize)?;
    *reader = ahead;
    Ok(size)
}

/// Skips a map of names; returns the number of names and the offset of the first.
fn skip_names(reader: &mut BinaryReader<'_>) -> Result<(u32, u64)>
    ensures reads { Reads skipped_names result reader.old reader.new }
    ensures placed { IfOk result (λ names. (offset_of reader.old ≤ names.1) × (names.1 ≤ offset_of reader.new)) }
{
    let mut ahead = reader.clone();
    let count = ahead.read_var_u32()?;
    let first = ahead.original_position();
    for _name in 0..count {
        let _size = skip_name(&mut ahead)?;
    }
    *reader = ahead;
    Ok((count, first))
}

/// Reads a map of names without reading the names.
fn read_unread<'a>(alloc: Global, reader: &mut BinaryReader<'a>) -> Result<NameMap<'a>>
    ensures { Reads (unread_names reader.old.features) result reader.old reader.new }
{
    let mut after = reader.clone();
    let names = skip_names(&mut after)?;
    let start = reader.original_position();
    let size = after.current_position() - reader.current_position();
    let mut unread = reader.part(&reader.remaining_buffer()[..size], start);
    unread.set_position((names.1 - start) as usize);
    *reader = after;
    Ok(SectionReader::of_items(alloc, names.0, unread))
}

/// Fails like `read_var_u32`, and at a name with `StringSize` or `EndOfData`; the names' texts are
/// checked when `names` is read.
impl<'a> Read<'a> for IndirectNaming<'a> {
    ghost grammar = { λ features. indirect_naming features };

    fn read_from(alloc: Global, reader: &mut BinaryReader<'a>) -> Result<IndirectNaming<'a>> {
        let mut ahead = reader.clone();
        let index = ahead.read_var_u32()?;
        let names = read_unread(alloc, &mut ahead)?;
        *reader = ahead;
        Ok(IndirectNaming { index, names })
    }
}
