ghost use Rattle.wasm_names.specs.Subsections.{ReadsName};

use crate::indirect::IndirectNameMap;
use crate::naming::NameMap;
use std::alloc::Global;
use std::ops::Range;
use wasm_below::{BinaryReader, Malformed, Message, Result};
use wasm_externals::Text;
use wasm_sections::read_all;

/// A subsection of the custom section `name`. Specification: Custom Sections, Name Section.
#[derive(Drop)]
pub enum Name<'a> {
    Module {
        name: Text<'a>,
        /// The offsets of the subsection's contents.
        name_range: Range<u64>,
    },
    Function(NameMap<'a>),
    Local(IndirectNameMap<'a>),
    Label(IndirectNameMap<'a>),
    Type(NameMap<'a>),
    Table(NameMap<'a>),
    Memory(NameMap<'a>),
    Global(NameMap<'a>),
    Element(NameMap<'a>),
    Data(NameMap<'a>),
    Field(IndirectNameMap<'a>),
    Tag(NameMap<'a>),
    /// A subsection with another id, and its contents.
    Unknown {
        ty: u8,
        data: &'a [u8],
        /// The offsets of the contents.
        range: Range<u64>,
    },
}

impl<'a> Name<'a> {
    /// Reads the subsection with this id and these contents, up to the first name of a map.
    ///
    /// Fails with the error of the module's name, or with `NameContent` at the first byte after it;
    /// with the error of the number of names; never for an id above 11.
    pub fn from_contents(alloc: Global, id: u8, contents: BinaryReader<'a>) -> Result<Name<'a>>
        ensures { ReadsName id result contents.entry }
    {
        let range = contents.remaining_range();
        match id {
            0 => match read_all(alloc, contents, Message::Malformed(Malformed::NameContent)) {
                Ok(name) => Ok(Name::Module {
                    name,
                    name_range: range,
                }),
                Err(e) => Err(e),
            },
            1 => Ok(Name::Function(NameMap::new(alloc, contents)?)),
            2 => Ok(Name::Local(IndirectNameMap::new(alloc, contents)?)),
            3 => Ok(Name::Label(IndirectNameMap::new(alloc, contents)?)),
            4 => Ok(Name::Type(NameMap::new(alloc, contents)?)),
            5 => Ok(Name::Table(NameMap::new(alloc, contents)?)),
            6 => Ok(Name::Memory(NameMap::new(alloc, contents)?)),
            7 => Ok(Name::Global(NameMap::new(alloc, contents)?)),
            8 => Ok(Name::Element(NameMap::new(alloc, contents)?)),
            9 => Ok(Name::Data(NameMap::new(alloc, contents)?)),
            10 => Ok(Name::Field(IndirectNameMap::new(alloc, contents)?)),
            11 => Ok(Name::Tag(NameMap::new(alloc, contents)?)),
            _ => Ok(Name::Unknown {
                ty: id,
                data: contents.remaining_buffer(),
                range,
            }),
        }
    }
}
