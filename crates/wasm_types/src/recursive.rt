ghost use Rattle.std.specs.Prelude.{◌≡◌, true, None};
ghost use Rattle.wasm_types.specs.declared.composites.CompositeInnerType.TheVariants as inner;
ghost use Rattle.wasm_grammars.specs.Reading.{Reads};
ghost use Rattle.wasm_types.specs.Types.{is_sub, supertype, sub_type, rec_group, is_explicit, types_of};

use crate::composites::{CompositeInnerType, CompositeType};
use crate::functions::FuncType;
use std::alloc::Global;
use std::slice;
use wasm_below::{BinaryReader, Error, Malformed, Message, Result, SizeName};
use wasm_grammars::{Read, read_list};
use wasm_imm::Members;

const MAX_SUPERTYPES: usize = 1;

const MAX_TYPES: usize = 1000000;

const MAX_TYPE_INDEX: u32 = 1048575;

/// Specification: Types, Recursive Types.
#[derive(Debug, PartialEq, Eq, Drop)]
pub struct SubType {
    pub is_final: bool,
    pub supertype_idx: Option<u32>,
    pub composite_type: CompositeType,
}

impl SubType {
    /// Creates the final type of a function, without a supertype.
    pub fn func(signature: FuncType, shared: bool) -> SubType
        ensures { result ≡ record {
          is_final = true;
          supertype_idx = None;
          composite_type = record { inner = inner.Func signature; shared = shared };
        } }
    {
        SubType {
            is_final: true,
            supertype_idx: None,
            composite_type: CompositeType {
                inner: CompositeInnerType::Func(signature),
                shared,
            },
        }
    }
}

/// Returns whether the byte announces a subtype with its supertypes.
fn announces_supertypes(byte: u8) -> bool
    ensures { result ≡ is_sub byte }
{
    byte == 0x4f || byte == 0x50
}

/// Reads a list of at most one type index.
fn read_supertype(reader: &mut BinaryReader<'_>) -> Result<Option<u32>>
    ensures { Reads supertype result reader.old reader.new }
{
    let mut ahead = reader.clone();
    let count = ahead.read_size(MAX_SUPERTYPES, SizeName::SupertypeIndices)?;
    if count == 0 {
        *reader = ahead;
        return Ok(None);
    }
    let index = ahead.read_var_u32()?;
    ahead.is_within();
    if index > MAX_TYPE_INDEX {
        return Err(Error::new(
            Message::Malformed(Malformed::TypeIndex),
            ahead.original_position(),
        ));
    }
    *reader = ahead;
    Ok(Some(index))
}

/// Fails with `SizeOutOfBounds(SupertypeIndices)` at a count above 1, and with `TypeIndex` after a
/// supertype's index above 1048575.
impl<'a> Read<'a> for SubType {
    ghost grammar = { λ features. sub_type };

    fn read_from(alloc: Global, reader: &mut BinaryReader<'a>) -> Result<SubType> {
        let byte = reader.peek()?;
        if announces_supertypes(byte) {
            let mut ahead = reader.clone();
            ahead.advance();
            let supertype_idx = read_supertype(&mut ahead)?;
            let composite_type = CompositeType::read_from(alloc, &mut ahead)?;
            *reader = ahead;
            return Ok(SubType {
                is_final: byte == 0x4f,
                supertype_idx,
                composite_type,
            });
        }
        let composite_type = CompositeType::read_from(alloc, reader)?;
        Ok(SubType {
            is_final: true,
            supertype_idx: None,
            composite_type,
        })
    }
}

/// An item of a type section: one type, or several that may refer to each other. Specification:
/// Types, Recursive Types.
#[derive(Debug, PartialEq, Eq, Drop)]
pub enum RecGroup {
    /// One type, without the byte 0x4e.
    Implicit(SubType),
    Explicit(Members<SubType>),
}

impl RecGroup {
    /// Returns whether the group is a list after the byte 0x4e.
    pub fn is_explicit_rec_group(&self) -> bool
        ensures { result ≡ is_explicit self.now }
    {
        match self {
            RecGroup::Implicit(_) => false,
            RecGroup::Explicit(_) => true,
        }
    }

    pub fn types(&self) -> &[SubType]
        ensures { result.now ≡ types_of self.now }
    {
        match self {
            RecGroup::Implicit(ty) => slice::from_ref(ty),
            RecGroup::Explicit(types) => types.as_slice(),
        }
    }
}

/// Fails with `SizeOutOfBounds(RecGroupTypes)` at a count above 1000000.
impl<'a> Read<'a> for RecGroup {
    ghost grammar = { λ features. rec_group };

    fn read_from(alloc: Global, reader: &mut BinaryReader<'a>) -> Result<RecGroup> {
        let byte = reader.peek()?;
        if byte == 0x4e {
            let mut ahead = reader.clone();
            ahead.advance();
            let types = read_list(alloc, &mut ahead, MAX_TYPES, SizeName::RecGroupTypes)?;
            *reader = ahead;
            return Ok(RecGroup::Explicit(types));
        }
        let ty = SubType::read_from(alloc, reader)?;
        Ok(RecGroup::Implicit(ty))
    }
}
