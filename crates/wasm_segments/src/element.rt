ghost use Rattle.std.specs.Prelude.{◌≡◌};
ghost use Rattle.wasm_below.specs.Source.{offset_of};
ghost use Rattle.wasm_grammars.specs.Reading.{Reads, ReadsAhead};
ghost use Rattle.wasm_segments.specs.Elements.{element, element_kind, inactive, element_items, kind_if, type_if, funcref};

use crate::flags::{is_set, read_index};
use crate::items::Items;
use std::alloc::Global;
use wasm_below::{
    AbstractHeapType, BinaryReader, Error, HeapType, LeadingByteName, Malformed, Message, RefType,
    Result,
};
use wasm_grammars::{Read, read_u32_up_to};

/// When and where the elements are copied to a table. Specification: Element Section.
#[derive(Drop)]
pub enum ElementKind<C> {
    Passive,
    Active {
        /// The table's index, if it is written; else table 0.
        table_index: Option<u32>,
        /// The index of the first element in the table.
        offset_expr: C,
    },
    Declared,
}

/// The elements, in the caller's bytes. Specification: Element Section.
#[derive(Drop)]
pub enum ElementItems<'a, C> {
    /// Indices of functions.
    Functions(Items<'a, u32>),
    /// Constant expressions of this type.
    Expressions(RefType, Items<'a, C>),
}

/// An element segment. Specification: Element Section.
#[derive(Drop)]
pub struct Element<'a, C> {
    pub kind: ElementKind<C>,
    pub items: ElementItems<'a, C>,
}

impl<'a, C: Read<'a>> Read<'a> for Element<'a, C> {
    ghost grammar = { λ features. element features (C.grammar features) };

    /// Fails like `read_var_u32`, or with `ElementFlags` at the last byte of a number above 7; then
    /// like the parts. The byte before function indices is 0: another up to 4 has the error
    /// `ElementKind`, one above 4 `InvalidLeadingByte`.
    fn read_from(alloc: Global, reader: &mut BinaryReader<'a>) -> Result<Element<'a, C>> {
        let mut ahead = reader.clone();
        let above = Message::Malformed(Malformed::ElementFlags);
        let flags = read_u32_up_to(&mut ahead, 7, above)?;
        let kind = read_kind(alloc, &mut ahead, flags)?;
        let items = read_items(alloc, &mut ahead, flags)?;
        *reader = ahead;
        Ok(Element { kind, items })
    }
}

fn read_kind<'a, C: Read<'a>>(
    alloc: Global,
    reader: &mut BinaryReader<'a>,
    flags: u32,
) -> Result<ElementKind<C>>
    ensures { ReadsAhead (element_kind (C.grammar reader.old.features) flags) (offset_of reader.old) result reader.old reader.new }
{
    let second = is_set(flags, 2);
    if is_set(flags, 1) {
        return Ok(inactive(second));
    }
    let table_index = read_index(reader, second)?;
    let offset_expr = C::read_from(alloc, reader)?;
    Ok(ElementKind::Active {
        table_index,
        offset_expr,
    })
}

fn inactive<C: Drop>(declared: bool) -> ElementKind<C>
    ensures { result ≡ inactive declared }
{
    if declared {
        ElementKind::Declared
    } else {
        ElementKind::Passive
    }
}

fn read_items<'a, C: Read<'a>>(
    alloc: Global,
    reader: &mut BinaryReader<'a>,
    flags: u32,
) -> Result<ElementItems<'a, C>>
    ensures { ReadsAhead (element_items reader.old.features (C.grammar reader.old.features) flags) (offset_of reader.old) result reader.old reader.new }
{
    if is_set(flags, 4) {
        let ty = read_type(reader, flags)?;
        let items = Items::read_from(alloc, reader)?;
        return Ok(ElementItems::Expressions(ty, items));
    }
    read_function_kind(reader, flags)?;
    let items = Items::read_from(alloc, reader)?;
    Ok(ElementItems::Functions(items))
}

/// Reads the type of the elements. If none is written, they are functions.
fn read_type(reader: &mut BinaryReader<'_>, flags: u32) -> Result<RefType>
    ensures { Reads (type_if flags) result reader.old reader.new }
{
    if flags % 4 == 0 {
        return Ok(function_type());
    }
    RefType::read(reader)
}

fn function_type() -> RefType
    ensures { result ≡ funcref }
{
    let heap_type = HeapType::Abstract {
        shared: false,
        ty: AbstractHeapType::Func,
    };
    RefType::new(true, heap_type).unwrap()
}

/// Reads the byte 0 before function indices, unless it is not written.
fn read_function_kind(reader: &mut BinaryReader<'_>, flags: u32) -> Result<u8>
    ensures { Reads (kind_if flags) result reader.old reader.new }
{
    if flags % 4 == 0 {
        return Ok(0);
    }
    let start = reader.original_position();
    let mut ahead = reader.clone();
    let byte = ahead.read_u8()?;
    if byte > 4 {
        let message = Message::InvalidLeadingByte(byte, LeadingByteName::ExternalKind);
        return Err(Error::new(message, start));
    }
    if byte != 0 {
        return Err(Error::new(Message::Malformed(Malformed::ElementKind), start));
    }
    *reader = ahead;
    Ok(byte)
}
