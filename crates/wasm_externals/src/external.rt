ghost use Rattle.std.specs.Prelude.{◌≡◌, SomeIff, ◌≤◌, IfNone, ◌<◌, IfSome};
ghost use Rattle.wasm_below.specs.Source.{offset_of};
ghost use Rattle.wasm_externals.specs.Externals.{external_kind, kind_at, type_ref, type_of};
ghost use Rattle.wasm_grammars.specs.Reading.{ReadsAhead};

use crate::global_type::GlobalType;
use crate::memory_type::MemoryType;
use crate::table_type::TableType;
use crate::tag_type::TagType;
use std::alloc::Global;
use wasm_below::{BinaryReader, Error, LeadingByteName, Message, Result};
use wasm_grammars::Read;

/// The kind of what a module imports or exports. Specification: External Types.
#[derive(Clone, Copy, Debug, PartialEq, Eq)]
pub enum ExternalKind {
    Func,
    Table,
    Memory,
    Global,
    Tag,
}

fn kind_of(byte: u8) -> Option<ExternalKind>
    ensures some { IfSome result (λ kind. (byte ≤ 4) × (kind ≡ kind_at byte)) }
    ensures none { IfNone result (4 < byte) }
{
    match byte {
        0 => Some(ExternalKind::Func),
        1 => Some(ExternalKind::Table),
        2 => Some(ExternalKind::Memory),
        3 => Some(ExternalKind::Global),
        4 => Some(ExternalKind::Tag),
        _ => None,
    }
}

impl<'a> Read<'a> for ExternalKind {
    ghost grammar = { λ features. external_kind };

    /// Fails with `InvalidLeadingByte` at a byte above 4.
    fn read_from(_alloc: Global, reader: &mut BinaryReader<'a>) -> Result<ExternalKind> {
        let mut ahead = reader.clone();
        let byte = ahead.read_u8()?;
        match kind_of(byte) {
            Some(kind) => {
                *reader = ahead;
                Ok(kind)
            }
            None => Err(Error::new(
                Message::InvalidLeadingByte(byte, LeadingByteName::ExternalKind),
                reader.original_position(),
            )),
        }
    }
}

/// The type of an import. Specification: External Types.
#[derive(Clone, Copy, Debug, PartialEq, Eq)]
pub enum TypeRef {
    /// A function, by the index of its type.
    Func(u32),
    Table(TableType),
    Memory(MemoryType),
    Global(GlobalType),
    Tag(TagType),
}

impl<'a> Read<'a> for TypeRef {
    ghost grammar = { type_ref };

    /// Fails like `ExternalKind`, then like the type of this kind.
    fn read_from(alloc: Global, reader: &mut BinaryReader<'a>) -> Result<TypeRef> {
        let mut ahead = reader.clone();
        let kind = ExternalKind::read_from(alloc, &mut ahead)?;
        let ty = read_type(alloc, &mut ahead, kind)?;
        *reader = ahead;
        Ok(ty)
    }
}

fn read_type(alloc: Global, reader: &mut BinaryReader<'_>, kind: ExternalKind) -> Result<TypeRef>
    ensures { ReadsAhead (type_of kind reader.old.features) (offset_of reader.old) result reader.old reader.new }
{
    match kind {
        ExternalKind::Func => Ok(TypeRef::Func(reader.read_var_u32()?)),
        ExternalKind::Table => Ok(TypeRef::Table(TableType::read_from(alloc, reader)?)),
        ExternalKind::Memory => Ok(TypeRef::Memory(MemoryType::read_from(alloc, reader)?)),
        ExternalKind::Global => Ok(TypeRef::Global(GlobalType::read_from(alloc, reader)?)),
        ExternalKind::Tag => Ok(TypeRef::Tag(TagType::read_from(alloc, reader)?)),
    }
}
