ghost use Rattle.wasm_tests_sections.specs.Constants.{constant};

use std::alloc::Global;
use wasm_below::{BinaryReader, Result};
use wasm_grammars::Read;

/// A constant expression of one operator with a number, such as `i32.const 5`, and `end`.
#[derive(Clone, Copy, Debug)]
pub struct Constant {
    pub offset: u64,
    pub opcode: u8,
    pub number: u32,
    pub end: u8,
}

impl<'a> Read<'a> for Constant {
    ghost grammar = { λ features. constant };

    fn read_from(_alloc: Global, reader: &mut BinaryReader<'a>) -> Result<Constant> {
        let mut ahead = reader.clone();
        let offset = ahead.original_position();
        let opcode = ahead.read_u8()?;
        let number = ahead.read_var_u32()?;
        let end = ahead.read_u8()?;
        *reader = ahead;
        Ok(Constant {
            offset,
            opcode,
            number,
            end,
        })
    }
}
