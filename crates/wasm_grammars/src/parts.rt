ghost use Rattle.std.specs.Prelude.{◌≢◌, leb};
ghost use Rattle.wasm_below.specs.declared.message.Message.TheVariants as message;
ghost use Rattle.wasm_grammars.specs.Parts.{byte, u32, u64, u32_where, heap_type, ref_type, val_type};
ghost use Rattle.wasm_grammars.specs.Reading.{Reads};

use crate::read::Read;
use std::alloc::Global;
use wasm_below::{BinaryReader, Error, HeapType, Message, RefType, Result, ValType};

impl<'a> Read<'a> for u8 {
    ghost grammar = { λ features. byte };

    fn read_from(_alloc: Global, reader: &mut BinaryReader<'a>) -> Result<u8> {
        reader.read_u8()
    }
}

impl<'a> Read<'a> for u32 {
    ghost grammar = { λ features. u32 };

    fn read_from(_alloc: Global, reader: &mut BinaryReader<'a>) -> Result<u32> {
        reader.read_var_u32()
    }
}

impl<'a> Read<'a> for u64 {
    ghost grammar = { λ features. u64 };

    fn read_from(_alloc: Global, reader: &mut BinaryReader<'a>) -> Result<u64> {
        reader.read_var_u64()
    }
}

impl<'a> Read<'a> for HeapType {
    ghost grammar = { λ features. heap_type };

    fn read_from(_alloc: Global, reader: &mut BinaryReader<'a>) -> Result<HeapType> {
        HeapType::read(reader)
    }
}

impl<'a> Read<'a> for RefType {
    ghost grammar = { λ features. ref_type };

    fn read_from(_alloc: Global, reader: &mut BinaryReader<'a>) -> Result<RefType> {
        RefType::read(reader)
    }
}

impl<'a> Read<'a> for ValType {
    ghost grammar = { λ features. val_type };

    fn read_from(_alloc: Global, reader: &mut BinaryReader<'a>) -> Result<ValType> {
        ValType::read(reader)
    }
}

/// Reads a u32 of at most `limit`. Fails with `above` at the last byte of a greater number.
pub fn read_u32_up_to(reader: &mut BinaryReader<'_>, limit: u32, above: Message) -> Result<u32>
    requires { above ≢ message.OutOfMemory }
    ensures { Reads (u32_where (λ n. leb n limit) above) result reader.old reader.new }
{
    let mut ahead = reader.clone();
    let number = ahead.read_var_u32()?;
    if number > limit {
        return Err(Error::new(above, ahead.original_position() - 1));
    }
    *reader = ahead;
    Ok(number)
}
