ghost use Rattle.std.specs.Prelude.{◌≤◌};
ghost use Rattle.wasm_below.specs.Source.{offset_of, end_of};
ghost use Rattle.wasm_grammars.specs.Reading.{ReadsAhead};
ghost use Rattle.wasm_types.specs.Types.{inner_after, inner_type, composite_type};

use crate::fields::{ArrayType, StructType};
use crate::functions::{ContType, FuncType};
use std::alloc::Global;
use wasm_below::{BinaryReader, Error, LeadingByteName, Message, Result};
use wasm_grammars::Read;

/// Specification: Types, Composite Types. `Cont`: stack switching.
#[derive(Debug, PartialEq, Eq, Drop)]
pub enum CompositeInnerType {
    Func(FuncType),
    Array(ArrayType),
    Struct(StructType),
    Cont(ContType),
}

/// Reads the rest of a type that starts at `start`, with `byte`.
fn read_inner_after(
    alloc: Global,
    reader: &mut BinaryReader<'_>,
    start: u64,
    byte: u8,
) -> Result<CompositeInnerType>
    requires start { start ≤ offset_of reader.old }
    requires within { start ≤ end_of reader.old }
    ensures { ReadsAhead (inner_after byte) start result reader.old reader.new }
{
    match byte {
        0x60 => Ok(CompositeInnerType::Func(FuncType::read_from(alloc, reader)?)),
        0x5e => Ok(CompositeInnerType::Array(ArrayType::read_from(alloc, reader)?)),
        0x5f => Ok(CompositeInnerType::Struct(StructType::read_from(alloc, reader)?)),
        0x5d => Ok(CompositeInnerType::Cont(ContType::read_from(alloc, reader)?)),
        _ => Err(Error::new(
            Message::InvalidLeadingByte(byte, LeadingByteName::Type),
            start,
        )),
    }
}

/// Fails with `InvalidLeadingByte(byte, Type)` at a byte that starts no composite type.
impl<'a> Read<'a> for CompositeInnerType {
    ghost grammar = { λ features. inner_type };

    fn read_from(alloc: Global, reader: &mut BinaryReader<'a>) -> Result<CompositeInnerType> {
        let mut ahead = reader.clone();
        let byte = ahead.read_u8()?;
        let inner = read_inner_after(alloc, &mut ahead, reader.original_position(), byte)?;
        *reader = ahead;
        Ok(inner)
    }
}

/// A composite type, shared between threads or not. Specification: Types, Composite Types. `shared`:
/// shared-everything threads.
#[derive(Debug, PartialEq, Eq, Drop)]
pub struct CompositeType {
    pub inner: CompositeInnerType,
    pub shared: bool,
}

impl<'a> Read<'a> for CompositeType {
    ghost grammar = { λ features. composite_type };

    fn read_from(alloc: Global, reader: &mut BinaryReader<'a>) -> Result<CompositeType> {
        let byte = reader.peek()?;
        if byte == 0x65 {
            let mut ahead = reader.clone();
            ahead.advance();
            let inner = CompositeInnerType::read_from(alloc, &mut ahead)?;
            *reader = ahead;
            return Ok(CompositeType {
                inner,
                shared: true,
            });
        }
        let inner = CompositeInnerType::read_from(alloc, reader)?;
        Ok(CompositeType {
            inner,
            shared: false,
        })
    }
}
