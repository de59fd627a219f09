ghost use Rattle.std.specs.Prelude.{◌≤◌, [], ◌∷◌};
ghost use Rattle.wasm_below.specs.Source.{Reads};
ghost use Rattle.wasm_below.specs.TypeEncoding.{EncodesValType};
ghost use Rattle.wasm_imm.specs.BlockTypeFaults.{BlockTypeFault, FunctionTypeFault};
ghost use Rattle.wasm_imm.specs.BlockTypes.{EncodesBlockType, EncodesFunctionType};

use wasm_below::{BinaryReader, Error, Message, Result, ValType};

/// The parameters and results of a block. Specification: Control Instructions.
#[derive(Clone, Copy, Debug, PartialEq, Eq)]
pub enum BlockType {
    Empty,
    /// No parameters, and one result.
    Value(ValType),
    /// The function type with this index.
    FuncType(u32),
}

impl BlockType {
    /// Reads a block type. Specification: Control Instructions.
    ///
    /// If the first byte is from 0x41 to 0x7f, fails like `ValType::read`. Otherwise fails like
    /// `read_var_s33`, or with `InvalidFunctionType` after a negative number.
    #[inline(always)]
    pub fn read(reader: &mut BinaryReader<'_>) -> Result<BlockType>
        ensures { Reads EncodesBlockType BlockTypeFault result reader.old reader.new }
    {
        match reader.peek() {
            Ok(0x40) => {
                reader.advance();
                Ok(BlockType::Empty)
            }
            Ok(byte @ 0x7b..=0x7f) => {
                reader.advance();
                Ok(BlockType::Value(short_value_type(byte)))
            }
            Ok(byte @ 0x00..=0x3f) => {
                reader.advance();
                Ok(BlockType::FuncType(u32::from(byte)))
            }
            _ => read_by_copy(reader),
        }
    }
}

#[inline(always)]
fn short_value_type(byte: u8) -> ValType
    requires low { 0x7b ≤ byte }
    requires high { byte ≤ 0x7f }
    ensures { EncodesValType (byte ∷ []) result }
{
    match byte {
        0x7f => ValType::I32,
        0x7e => ValType::I64,
        0x7d => ValType::F32,
        0x7c => ValType::F64,
        _ => ValType::V128,
    }
}

/// Reads by a copy, so that `read` keeps its reader in registers.
#[inline(always)]
fn read_by_copy(reader: &mut BinaryReader<'_>) -> Result<BlockType>
    ensures { Reads EncodesBlockType BlockTypeFault result reader.old reader.new }
{
    let mut copy = reader.clone();
    let outcome = read_other(&mut copy);
    reader.set_position(copy.current_position());
    outcome
}

#[inline(never)]
fn read_other(reader: &mut BinaryReader<'_>) -> Result<BlockType>
    ensures { Reads EncodesBlockType BlockTypeFault result reader.old reader.new }
{
    let byte = match reader.peek() {
        Ok(byte) => byte,
        Err(e) => return Err(e),
    };
    match byte {
        0x40 => {
            reader.advance();
            Ok(BlockType::Empty)
        }
        0x41..=0x7f => match ValType::read(reader) {
            Ok(ty) => Ok(BlockType::Value(ty)),
            Err(e) => Err(e),
        },
        _ => read_function_type(reader),
    }
}

fn read_function_type(reader: &mut BinaryReader<'_>) -> Result<BlockType>
    ensures { Reads EncodesFunctionType FunctionTypeFault result reader.old reader.new }
{
    let mut ahead = reader.clone();
    let index = ahead.read_var_s33()?;
    if index < 0 {
        return Err(Error::new(Message::InvalidFunctionType, ahead.original_position()));
    }
    *reader = ahead;
    Ok(BlockType::FuncType(index as u32))
}
