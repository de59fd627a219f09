ghost use Rattle.std.specs.Prelude.{◌≢◌};
ghost use Rattle.wasm_below.specs.declared.message.Message.TheVariants as message;
ghost use Rattle.wasm_sections.specs.Items.{ReadsAll, items};

use crate::items::SectionReader;
use std::alloc::Global;
use wasm_below::{BinaryReader, Error, Message, Result};
use wasm_grammars::Read;
use wasm_imm::Members;

/// Reads a value that is the whole rest, such as the index in the start section.
///
/// Fails with the value's error, or with `left_over` at the first byte after it.
pub fn read_all<'a, T: Read<'a>>(
    alloc: Global,
    contents: BinaryReader<'a>,
    left_over: Message,
) -> Result<T>
    requires { left_over ≢ message.OutOfMemory }
    ensures { ReadsAll (T.grammar contents.entry.features) left_over result contents.entry }
{
    let mut reader = contents;
    let value = T::read_from(alloc, &mut reader)?;
    if !reader.eof() {
        return Err(Error::new(left_over, reader.original_position()));
    }
    Ok(value)
}

/// Reads all items of a section.
///
/// Fails with the error of the count or of the first item in error, with `DataAfterSection` at the
/// first byte left over, or with `OutOfMemory` at the start.
pub fn read_items<'a, T: Read<'a>>(alloc: Global, contents: BinaryReader<'a>) -> Result<Members<T>>
    ensures { ReadsAll (items (T.grammar contents.entry.features)) message.DataAfterSection result contents.entry }
{
    contents.is_within();
    let start = contents.original_position();
    let section: SectionReader<'a, T> = SectionReader::new(alloc, contents)?;
    let mut items = section.into_iter();
    let mut found = Vec::new(alloc);
    'items: while let Some(item) = items.next() {
        let value = item?;
        if found.push(value).is_err() {
            return Err(Error::new(Message::OutOfMemory, start));
        }
    }
    Ok(Members::from_vec(found))
}
