ghost use Rattle.std.specs.Prelude.{◌≡◌, ◌↔◌, IsTrue, Ok, IfErr};
ghost use Rattle.wasm_below.specs.Source.{Reads, BeginsWith, rest};
ghost use Rattle.wasm_below.specs.Ahead.{ReadsAhead};
ghost use Rattle.wasm_module.specs.Types.{EncodesSignature, SignatureFault, EncodesAfterByte, FaultAfterByte, EncodesWithSupertypes, WithSupertypesFault, EncodesSubAfterByte, SubFaultAfterByte, EncodesSubType, SubTypeFault, EncodesRecTypeLength, RecTypeLengthFault};

use crate::field::Field;
use crate::list::{Item, read_length};
use crate::module_laws::types;
use std::alloc::Global;
use wasm_below::byte_laws::unsigned_numbers;
use wasm_below::type_laws::value_types;
use wasm_below::{BinaryReader, FromReader, MemoryUse, Never, Result, UsesMemory, ValType};

const ARRAY: u8 = 0x5e;

const STRUCT: u8 = 0x5f;

const FUNCTION: u8 = 0x60;

const FINAL: u8 = 0x4f;

const OPEN: u8 = 0x50;

const REC_TYPE: u8 = 0x4e;

fn read_signature(reader: &mut BinaryReader<'_>) -> Result<(u32, u32)>
    ensures { ReadsAhead EncodesSignature SignatureFault result reader.old reader.new }
{
    unsigned_numbers();
    value_types();
    let parameters = read_length::<ValType>(reader)?;
    let results = read_length::<ValType>(reader)?;
    Ok((parameters, results))
}

/// Specification: Composite Types.
#[derive(Clone, Copy, Debug, PartialEq, Eq)]
pub enum CompositeType {
    Function { parameters: u32, results: u32 },
    Struct { fields: u32 },
    Array,
    /// The first byte of a type outside the standard. No bytes after it are read.
    Other(u8),
}

fn read_after_byte(reader: &mut BinaryReader<'_>, kind: u8) -> Result<CompositeType>
    ensures { ReadsAhead (EncodesAfterByte kind) (FaultAfterByte kind) result reader.old reader.new }
{
    match kind {
        FUNCTION => match read_signature(reader) {
            Ok((parameters, results)) => Ok(CompositeType::Function {
                parameters,
                results,
            }),
            Err(e) => Err(e),
        },
        STRUCT => match read_length::<Field>(reader) {
            Ok(fields) => Ok(CompositeType::Struct { fields }),
            Err(e) => Err(e),
        },
        ARRAY => match Field::read_item(reader) {
            Ok(()) => Ok(CompositeType::Array),
            Err(e) => Err(e),
        },
        _ => Ok(CompositeType::Other(kind)),
    }
}

fn read_with_supertypes(reader: &mut BinaryReader<'_>) -> Result<CompositeType>
    ensures { ReadsAhead EncodesWithSupertypes WithSupertypesFault result reader.old reader.new }
{
    unsigned_numbers();
    read_length::<u32>(reader)?;
    let kind = reader.read_u8()?;
    let ty = read_after_byte(reader, kind)?;
    Ok(ty)
}

fn read_sub_after_byte(reader: &mut BinaryReader<'_>, kind: u8) -> Result<CompositeType>
    ensures { ReadsAhead (EncodesSubAfterByte kind) (SubFaultAfterByte kind) result reader.old reader.new }
{
    match kind {
        FINAL | OPEN => read_with_supertypes(reader),
        _ => read_after_byte(reader, kind),
    }
}

impl CompositeType {
    /// Reads a sub type and returns its composite type. Specification: Recursive Types.
    ///
    /// Fails at the first part in error: with `EndOfData`, or like the read of a number or a type.
    pub fn read(reader: &mut BinaryReader<'_>) -> Result<CompositeType>
        ensures { Reads EncodesSubType SubTypeFault result reader.old reader.new }
    {
        let mut ahead = reader.clone();
        let kind = ahead.read_u8()?;
        let ty = read_sub_after_byte(&mut ahead, kind)?;
        *reader = ahead;
        Ok(ty)
    }
}

fn is_rec_type_list_next(reader: &BinaryReader<'_>) -> bool
    ensures { IsTrue result ↔ BeginsWith REC_TYPE (rest reader.now) }
{
    matches!(reader.remaining_buffer(), [REC_TYPE, ..])
}

/// Reads the first byte and the number of sub types of a recursive type that is a list. At a single
/// type, consumes nothing and returns 1. Specification: Recursive Types.
///
/// After the byte 0x4e, fails like `read_var_u32`.
pub fn read_rec_type_len(reader: &mut BinaryReader<'_>) -> Result<u32>
    ensures rec_type { BeginsWith REC_TYPE (rest reader.old)
        → Reads EncodesRecTypeLength RecTypeLengthFault result reader.old reader.new }
    ensures one { ¬ BeginsWith REC_TYPE (rest reader.old)
        → (result ≡ Ok 1) × (reader.new ≡ reader.old) }
    ensures fault { IfErr result (λ e. RecTypeLengthFault e.message reader.old e.offset) }
{
    if !is_rec_type_list_next(reader) {
        return Ok(1);
    }
    let mut ahead = reader.clone();
    ahead.read_u8()?;
    let length = ahead.read_var_u32()?;
    *reader = ahead;
    Ok(length)
}

impl UsesMemory for CompositeType {
    type Memory = Never;
}

impl<'a> FromReader<'a> for CompositeType {
    ghost encodes = { λ features text ty. EncodesSubType text ty };

    ghost fault = { λ m r offset. SubTypeFault m r offset };

    fn from_reader(_alloc: Global, reader: &mut BinaryReader<'a>) -> Result<CompositeType> {
        CompositeType::read(reader)
    }

    fn is_prefix_code() {
        types();
    }

    fn determines_refusal() {
        types();
    }
}
