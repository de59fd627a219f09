ghost use Rattle.std.specs.Prelude.{◌≡◌, leb, true};
ghost use Rattle.wasm_below.specs.Source.{offset_of};
ghost use Rattle.wasm_grammars.specs.Reading.{Reads, ReadsAhead};
ghost use Rattle.wasm_segments.specs.Segments.{data_segment, data_kind, memory_index};

use std::alloc::Global;
use wasm_below::{BinaryReader, Error, Malformed, Message, Result};
use wasm_grammars::{Bytes, Read};

/// When and where the bytes are copied to a memory. Specification: Data Section.
#[derive(Drop)]
pub enum DataKind<C> {
    Passive,
    Active {
        memory_index: u32,
        /// The address of the first byte.
        offset_expr: C,
    },
}

/// A data segment. Specification: Data Section.
#[derive(Drop)]
pub struct Data<'a, C> {
    pub kind: DataKind<C>,
    pub data: Bytes<'a>,
}

impl<'a, C: Read<'a>> Read<'a> for Data<'a, C> {
    ghost grammar = { λ features. data_segment (C.grammar features) };

    /// Fails like `read_var_u32`, or with `DataFlags`, at the start, if the number is above 2; then
    /// like the parts.
    fn read_from(alloc: Global, reader: &mut BinaryReader<'a>) -> Result<Data<'a, C>> {
        let mut ahead = reader.clone();
        let flags = ahead.read_var_u32()?;
        if flags > 2 {
            return Err(Error::new(
                Message::Malformed(Malformed::DataFlags),
                reader.original_position(),
            ));
        }
        let kind = read_kind(alloc, &mut ahead, flags)?;
        let data = Bytes::read_from(alloc, &mut ahead)?;
        *reader = ahead;
        Ok(Data { kind, data })
    }
}

fn read_kind<'a, C: Read<'a>>(
    alloc: Global,
    reader: &mut BinaryReader<'a>,
    flags: u32,
) -> Result<DataKind<C>>
    ensures { ReadsAhead (data_kind (C.grammar reader.old.features) flags) (offset_of reader.old) result reader.old reader.new }
{
    if flags == 1 {
        return Ok(DataKind::Passive);
    }
    let memory_index = read_memory_index(reader, flags == 2)?;
    let offset_expr = C::read_from(alloc, reader)?;
    Ok(DataKind::Active {
        memory_index,
        offset_expr,
    })
}

fn read_memory_index(reader: &mut BinaryReader<'_>, written: bool) -> Result<u32>
    ensures { Reads (memory_index written) result reader.old reader.new }
{
    if !written {
        return Ok(0);
    }
    reader.read_var_u32()
}
