ghost use Rattle.std.specs.Prelude.{◌≡◌, IfOk};
ghost use Rattle.wasm_below.specs.Source.{Reads, offset_of, end_of};
ghost use Rattle.wasm_module.specs.Module.{EncodesSection, SectionFault};

use std::marker::Model;
use wasm_below::{BinaryReader, Result};

#[derive(Debug, Drop)]
pub struct Section<'a> {
    id: u8,
    contents: BinaryReader<'a>,
}

impl<'a> Model for Section<'a> {
    ghost use Rattle.wasm_module.specs.Module.{SectionParts};

    ghost Value = { SectionParts };

    ghost view = { λ s. record { id = s.id; contents = s.contents } };
}

impl<'a> Section<'a> {
    /// Returns the number, which identifies the contents. Specification: Sections.
    pub fn id(&self) -> u8
        ensures { result ≡ self.now.id }
    {
        self.id
    }

    /// Returns a reader of the contents, with the offsets of the module.
    pub fn contents(&self) -> BinaryReader<'a>
        ensures { result ≡ self.now.contents }
    {
        self.contents.clone()
    }
}

/// Reads a number, a length and that many bytes: a section, or a subsection of the custom section
/// `name`. Specification: Sections.
///
/// Fails with `EndOfData` at the end of the data, otherwise like `read_reader` after the number.
pub fn read_section<'a>(reader: &mut BinaryReader<'a>) -> Result<Section<'a>>
    ensures reads { Reads (EncodesSection reader.old.features) SectionFault result reader.old reader.new }
    ensures placed { IfOk result (λ s. end_of s.contents ≡ offset_of reader.new) }
{
    let mut ahead = reader.clone();
    let id = ahead.read_u8()?;
    let contents = ahead.read_reader()?;
    *reader = ahead;
    Ok(Section { id, contents })
}
