ghost use Rattle.std.specs.Prelude.{◌≡◌, IfOk};
ghost use Rattle.wasm_below.specs.Source.{offset_of, end_of};
ghost use Rattle.wasm_grammars.specs.Reading.{Reads};
ghost use Rattle.wasm_sections.specs.Section.{header, section};

use std::marker::Model;
use wasm_below::{BinaryReader, Error, Malformed, Message, Result};
use wasm_grammars::read_contents;

/// The greatest id of a section.
const MAX_ID: u8 = 127;

/// The id of a section, the size of its contents in bytes, and the offset of their first byte.
#[derive(Clone, Copy, Debug, PartialEq, Eq)]
pub struct SectionHeader {
    pub id: u8,
    pub size: u32,
    pub start: u64,
}

/// A section: its id, and a reader of its contents.
#[derive(Debug, Drop)]
pub struct Section<'a> {
    id: u8,
    contents: BinaryReader<'a>,
}

impl<'a> Model for Section<'a> {
    ghost use Rattle.wasm_sections.specs.Section.{SectionParts};

    ghost Value = { SectionParts };

    ghost view = { λ s. record { id = s.id; contents = s.contents } };
}

impl<'a> Section<'a> {
    /// Returns the id, which identifies the contents. Specification: Sections.
    pub fn id(&self) -> u8
        ensures { result ≡ self.now.id }
    {
        self.id
    }

    /// Returns a reader of the contents, with the offsets of the module.
    pub fn contents(&self) -> BinaryReader<'a>
        ensures { result ≡ self.now.contents }
    {
        self.contents.clone()
    }
}

/// Reads the id and the size of a section. Specification: Sections.
///
/// Fails with `EndOfData` at the end of the data, with `Malformed(SectionId)` at an id above 127,
/// otherwise like `read_var_u32` after the id.
pub fn read_header(reader: &mut BinaryReader<'_>) -> Result<SectionHeader>
    ensures reads { Reads header result reader.old reader.new }
    ensures placed { IfOk result (λ h. h.start ≡ offset_of reader.new) }
{
    reader.is_within();
    let mut ahead = reader.clone();
    let id = ahead.read_u8()?;
    if id > MAX_ID {
        return Err(Error::new(
            Message::Malformed(Malformed::SectionId),
            reader.original_position(),
        ));
    }
    let size = ahead.read_var_u32()?;
    let start = ahead.original_position();
    *reader = ahead;
    Ok(SectionHeader { id, size, start })
}

/// Reads a section. Specification: Sections.
///
/// Fails like `read_header`, or with `EndOfData` at the start of contents that the data lacks.
pub fn read_section<'a>(reader: &mut BinaryReader<'a>) -> Result<Section<'a>>
    ensures reads { Reads (section reader.old.features) result reader.old reader.new }
    ensures placed { IfOk result (λ s. end_of s.contents ≡ offset_of reader.new) }
{
    let mut ahead = reader.clone();
    let header = read_header(&mut ahead)?;
    let contents = read_contents(&mut ahead, header.size as usize)?;
    *reader = ahead;
    Ok(Section {
        id: header.id,
        contents,
    })
}
