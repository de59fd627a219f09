use super::{write_error, write_next, write_result};
use crate::failure::Written;
use std::alloc::Global;
use wasm_below::{BinaryReader, Error, FromReader, Message, Result, SizeName};
use wasm_imm::{BrTable, ResumeTable, Select, TryTable};

/// A call that reads a list. One with `Again` in its name is repeated after allocation failed.
#[derive(Clone, Copy)]
pub enum List {
    BrTable,
    Select,
    TryTable,
    ResumeTable,
    TryTableByType,
    ResumeTableByType,
    Items,
    DroppedItems,
    TryTableAgain,
    ResumeTableAgain,
    SelectAgain,
}

impl List {
    /// Writes the call's result. `argument` is the limit passed to `read_iter`.
    pub fn write(
        self,
        alloc: Global,
        text: &mut String,
        argument: u8,
        reader: &mut BinaryReader<'_>,
    ) -> Written {
        let limit = usize::from(argument);
        match self {
            List::BrTable => write_branch_table(text, reader),
            List::Select => write_result(text, Select::read(alloc, reader), reader),
            List::TryTable => write_result(text, TryTable::from_reader(alloc, reader), reader),
            List::ResumeTable => {
                write_result(text, ResumeTable::from_reader(alloc, reader), reader)
            }
            List::TryTableByType => write_result(text, reader.read::<TryTable>(alloc), reader),
            List::ResumeTableByType => {
                write_result(text, reader.read::<ResumeTable>(alloc), reader)
            }
            List::Items => write_items(alloc, text, limit, reader),
            List::DroppedItems => write_dropped(alloc, text, limit, reader),
            List::TryTableAgain => write_try_table(alloc, text, reader),
            List::ResumeTableAgain => write_resume_table(alloc, text, reader),
            List::SelectAgain => write_result(text, select_again(alloc, reader), reader),
        }
    }
}

fn write_branch_table(text: &mut String, reader: &mut BinaryReader<'_>) -> Written {
    match BrTable::read(reader) {
        Ok(table) => {
            let targets = table.targets();
            write!(text, "len {}, is_empty {}", table.len(), table.is_empty())?;
            write!(text, ", size_hint {:?}, targets", targets.size_hint())?;
            for target in targets {
                write!(text, " {}", target?)?;
            }
            write!(text, ", default {}", table.default())?;
        }
        Err(e) => write_error(text, e)?,
    }
    write_next(text, reader)
}

fn write_items(
    alloc: Global,
    text: &mut String,
    limit: usize,
    reader: &mut BinaryReader<'_>,
) -> Written {
    match reader.read_iter::<u32>(alloc, limit, SizeName::Catches) {
        Ok(items) => {
            write!(text, "size_hint {:?}, items", items.size_hint())?;
            for item in items {
                text.push_str(" ")?;
                match item {
                    Ok(number) => write!(text, "{number}")?,
                    Err(e) => write_error(text, e)?,
                }
            }
        }
        Err(e) => write_error(text, e)?,
    }
    write_next(text, reader)
}

/// Writes whether `read_iter` succeeds, and the offset after its iterator is dropped unused.
fn write_dropped(
    alloc: Global,
    text: &mut String,
    limit: usize,
    reader: &mut BinaryReader<'_>,
) -> Written {
    let is_ok = reader
        .read_iter::<u32>(alloc, limit, SizeName::Catches)
        .is_ok();
    write!(text, "{is_ok}")?;
    write_next(text, reader)
}

/// Writes a try table, and whether its copy is equal. Repeats each call after allocation failed.
fn write_try_table(alloc: Global, text: &mut String, reader: &mut BinaryReader<'_>) -> Written {
    let table = read_again::<TryTable>(alloc, reader)?;
    let copy = match table.clone(alloc) {
        Err(e) if is_out_of_memory(e, 0) => table.clone(alloc)?,
        copy => copy?,
    };
    write!(text, "{table:?}, copy equal {}", copy == table)?;
    write_next(text, reader)
}

/// Writes a resume table like `write_try_table`, and its length.
fn write_resume_table(alloc: Global, text: &mut String, reader: &mut BinaryReader<'_>) -> Written {
    let table = read_again::<ResumeTable>(alloc, reader)?;
    let copy = match table.clone(alloc) {
        Err(e) if is_out_of_memory(e, 0) => table.clone(alloc)?,
        copy => copy?,
    };
    let len = table.len();
    write!(text, "{table:?}, len {len}, copy equal {}", copy == table)?;
    write_next(text, reader)
}

/// Reads a value, again if the error is `OutOfMemory` at the reader's offset, which has not
/// changed.
fn read_again<'a, T: FromReader<'a>>(alloc: Global, reader: &mut BinaryReader<'a>) -> Result<T> {
    let offset = reader.original_position();
    match T::from_reader(alloc, reader) {
        Err(e) if is_out_of_memory(e, offset) && reader.original_position() == offset => {
            T::from_reader(alloc, reader)
        }
        read => read,
    }
}

fn select_again(alloc: Global, reader: &mut BinaryReader<'_>) -> Result<Select> {
    let offset = reader.original_position();
    match Select::read(alloc, reader) {
        Err(e) if is_out_of_memory(e, offset) && reader.original_position() == offset => {
            Select::read(alloc, reader)
        }
        read => read,
    }
}

fn is_out_of_memory(e: Error, offset: u64) -> bool {
    e == Error::new(Message::OutOfMemory, offset)
}
