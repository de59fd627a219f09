ghost use Rattle.wasm_below.specs.FromReader.{ReadsValue};
ghost use Rattle.wasm_imm.specs.HandlerTables.{EncodesSelect, SelectAllocates};
ghost use Rattle.wasm_imm.specs.ListFaults.{SelectFault};

use crate::lists::{read_members, refuse_from};
use crate::members::SelectTypes;
use std::alloc::Global;
use wasm_below::{BinaryReader, Message, Result, SizeName, ValType};

const MAX_SELECT_TYPES: usize = 10;

#[derive(Debug, PartialEq, Eq, Drop)]
pub enum Select {
    /// A single type, which needs no allocation.
    One { ty: ValType },
    /// No type, or several.
    Multi { tys: SelectTypes },
}

impl Select {
    /// Reads the types of a `select`. Specification: Parametric Instructions.
    ///
    /// Fails like `read_size` with the limit 10, then like `ValType::read`. Neither a single type
    /// nor a count above 10 allocates.
    #[inline(never)]
    pub fn read(alloc: Global, reader: &mut BinaryReader<'_>) -> Result<Select>
        ensures { ReadsValue EncodesSelect SelectFault SelectAllocates result reader.old reader.new }
    {
        let start = reader.current_position();
        let mut ahead = reader.clone();
        let count = ahead.read_size(MAX_SELECT_TYPES, SizeName::SelectTypes)?;
        if count == 1 {
            let ty = ValType::read(&mut ahead)?;
            *reader = ahead;
            return Ok(Select::One { ty });
        }
        match read_members::<ValType>(alloc, &mut ahead, count) {
            Ok(tys) => {
                *reader = ahead;
                Ok(Select::Multi { tys })
            }
            Err(e) => Err(refuse_from(&mut ahead, start, e)),
        }
    }
}
