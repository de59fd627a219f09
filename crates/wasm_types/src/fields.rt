ghost use Rattle.std.specs.Prelude.{◌≡◌};
ghost use Rattle.wasm_grammars.specs.Reading.{Reads};
ghost use Rattle.wasm_types.specs.Types.{storage_type, mutability, field_type, array_type, struct_type, is_packed, unpacked};

use std::alloc::Global;
use wasm_below::{BinaryReader, Error, Malformed, Message, Result, SizeName, ValType};
use wasm_grammars::{Read, read_list};
use wasm_imm::Members;

const MAX_STRUCT_FIELDS: usize = 10000;

/// The type of a field's contents. Specification: Types, Composite Types.
#[derive(Clone, Copy, Debug, PartialEq, Eq)]
pub enum StorageType {
    I8,
    I16,
    Val(ValType),
}

impl StorageType {
    /// Returns whether the type is `I8` or `I16`.
    pub fn is_packed(&self) -> bool
        ensures { result ≡ is_packed self.now }
    {
        match self {
            StorageType::I8 | StorageType::I16 => true,
            StorageType::Val(_) => false,
        }
    }

    /// Returns the type of the field's value on the stack, which is `I32` for a packed type.
    pub fn unpack(&self) -> ValType
        ensures { result ≡ unpacked self.now }
    {
        match *self {
            StorageType::I8 | StorageType::I16 => ValType::I32,
            StorageType::Val(ty) => ty,
        }
    }
}

impl<'a> Read<'a> for StorageType {
    ghost grammar = { λ features. storage_type };

    fn read_from(_alloc: Global, reader: &mut BinaryReader<'a>) -> Result<StorageType> {
        match reader.peek() {
            Ok(0x78) => {
                reader.advance();
                Ok(StorageType::I8)
            }
            Ok(0x77) => {
                reader.advance();
                Ok(StorageType::I16)
            }
            Ok(_) => match ValType::read(reader) {
                Ok(ty) => Ok(StorageType::Val(ty)),
                Err(e) => Err(e),
            },
            Err(e) => Err(e),
        }
    }
}

/// The type of a field of a struct, or of an array's elements. Specification: Types, Composite Types.
#[derive(Clone, Copy, Debug, PartialEq, Eq)]
pub struct FieldType {
    pub element_type: StorageType,
    pub mutable: bool,
}

fn read_mutability(reader: &mut BinaryReader<'_>) -> Result<bool>
    ensures { Reads mutability result reader.old reader.new }
{
    let mut ahead = reader.clone();
    let byte = ahead.read_u8()?;
    if byte > 1 {
        ahead.is_within();
        return Err(Error::new(
            Message::Malformed(Malformed::FieldMutability),
            ahead.original_position(),
        ));
    }
    *reader = ahead;
    Ok(byte == 1)
}

/// Fails with `FieldMutability` after a byte of mutability that is neither 0 nor 1.
impl<'a> Read<'a> for FieldType {
    ghost grammar = { λ features. field_type };

    fn read_from(alloc: Global, reader: &mut BinaryReader<'a>) -> Result<FieldType> {
        let mut ahead = reader.clone();
        let element_type = StorageType::read_from(alloc, &mut ahead)?;
        let mutable = read_mutability(&mut ahead)?;
        *reader = ahead;
        Ok(FieldType {
            element_type,
            mutable,
        })
    }
}

/// Specification: Types, Composite Types.
#[derive(Clone, Copy, Debug, PartialEq, Eq)]
pub struct ArrayType(pub FieldType);

impl<'a> Read<'a> for ArrayType {
    ghost grammar = { λ features. array_type };

    fn read_from(alloc: Global, reader: &mut BinaryReader<'a>) -> Result<ArrayType> {
        match FieldType::read_from(alloc, reader) {
            Ok(field) => Ok(ArrayType(field)),
            Err(e) => Err(e),
        }
    }
}

/// Specification: Types, Composite Types.
#[derive(Debug, PartialEq, Eq, Drop)]
pub struct StructType {
    pub fields: Members<FieldType>,
}

/// Fails with `SizeOutOfBounds(StructFields)` at a count above 10000.
impl<'a> Read<'a> for StructType {
    ghost grammar = { λ features. struct_type };

    fn read_from(alloc: Global, reader: &mut BinaryReader<'a>) -> Result<StructType> {
        match read_list(alloc, reader, MAX_STRUCT_FIELDS, SizeName::StructFields) {
            Ok(fields) => Ok(StructType { fields }),
            Err(e) => Err(e),
        }
    }
}
