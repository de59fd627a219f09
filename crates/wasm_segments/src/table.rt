ghost use Rattle.wasm_grammars.specs.Reading.{Reads};
ghost use Rattle.wasm_segments.specs.Globals.{table, zero_byte};

use std::alloc::Global;
use wasm_below::{BinaryReader, Error, Malformed, Message, Result};
use wasm_externals::TableType;
use wasm_grammars::Read;

/// The first byte of a table with an initial value.
const INITIALIZED: u8 = 0x40;

/// The elements of a table at the start.
#[derive(Drop)]
pub enum TableInit<C> {
    RefNull,
    /// Each element has this value.
    Expr(C),
}

/// A table that the module defines. Specification: Table Section.
#[derive(Drop)]
pub struct Table<C> {
    pub ty: TableType,
    pub init: TableInit<C>,
}

impl<'a, C: Read<'a>> Read<'a> for Table<C> {
    ghost grammar = { λ features. table features (C.grammar features) };

    /// Fails with `TableEncoding` at a byte other than 0 after the byte 0x40, otherwise like the
    /// parts.
    fn read_from(alloc: Global, reader: &mut BinaryReader<'a>) -> Result<Table<C>> {
        let byte = reader.peek()?;
        let mut ahead = reader.clone();
        if byte == INITIALIZED {
            ahead.advance();
            read_zero(&mut ahead)?;
            let ty = TableType::read_from(alloc, &mut ahead)?;
            let value = C::read_from(alloc, &mut ahead)?;
            *reader = ahead;
            return Ok(Table {
                ty,
                init: TableInit::Expr(value),
            });
        }
        let ty = TableType::read_from(alloc, &mut ahead)?;
        *reader = ahead;
        Ok(Table {
            ty,
            init: TableInit::RefNull,
        })
    }
}

/// Reads the byte 0 after the byte 0x40.
fn read_zero(reader: &mut BinaryReader<'_>) -> Result<u8>
    ensures { Reads zero_byte result reader.old reader.new }
{
    let start = reader.original_position();
    let mut ahead = reader.clone();
    let byte = ahead.read_u8()?;
    if byte != 0 {
        return Err(Error::new(Message::Malformed(Malformed::TableEncoding), start));
    }
    *reader = ahead;
    Ok(byte)
}
