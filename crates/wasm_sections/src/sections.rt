ghost use Rattle.std.specs.Prelude.{◌≡◌, ℕ, ◌↔◌, List, IsTrue, false, IfOk, IfErr};
ghost use Rattle.wasm_below.specs.declared.features.WasmFeatures.{WasmFeatures};
ghost use Rattle.wasm_below.specs.Fault.{DeterminesRefusal};
ghost use Rattle.wasm_below.specs.Source.{rest, offset_of};
ghost use Rattle.wasm_grammars.specs.Grammar.{HasReadBy};
ghost use Rattle.wasm_grammars.specs.Reading.{Fails};
ghost use Rattle.wasm_sections.specs.Iterating.{StepsModule, sections_to_come};
ghost use Rattle.wasm_sections.specs.Module.{BeginsModule, ReadsSection, ReadsModule, EncodesModule, ModuleFault};
ghost use Rattle.wasm_sections.specs.Preamble.{preamble};
ghost use Rattle.wasm_sections.specs.Section.{SectionParts};

use crate::preamble::read_preamble;
use crate::section::{Section, read_section};
use std::alloc::Global;
use std::marker::Model;
use wasm_below::{BinaryReader, Error, Malformed, Message, Result};
use wasm_imm::Members;

/// Returns whether the rest starts as a module does.
pub fn begins_module(reader: &BinaryReader<'_>) -> bool
    ensures { IsTrue result ↔ BeginsModule (rest reader.now) }
{
    matches!(reader.remaining_buffer(), [0x00, 0x61, 0x73, 0x6d, ..])
}

/// Reads the next section of a module.
///
/// Fails with `Malformed(SecondModule)` at the first bytes of a module, otherwise like
/// `read_section`.
pub fn next_section<'a>(reader: &mut BinaryReader<'a>) -> Result<Section<'a>>
    ensures { ReadsSection result reader.old reader.new }
{
    if begins_module(reader) {
        return Err(Error::new(
            Message::Malformed(Malformed::SecondModule),
            reader.original_position(),
        ));
    }
    read_section(reader)
}

/// An iterator over the sections of a module, which ends after an error. It does not allocate.
#[derive(Debug, Drop)]
pub struct Sections<'a> {
    reader: BinaryReader<'a>,
    refused: bool,
}

impl<'a> Model for Sections<'a> {
    ghost use Rattle.wasm_sections.specs.Iterating.{Iterating};

    ghost Value = { Iterating };

    ghost view = { λ s. record { reader = s.reader; refused = s.refused } };
}

impl<'a> Sections<'a> {
    /// Reads the preamble. Fails like `read_preamble`.
    pub fn new(reader: BinaryReader<'a>) -> Result<Sections<'a>>
        ensures started { IfOk result (λ s. (s.refused ≡ false) × (v : ℕ) × HasReadBy preamble v reader.entry s.reader) }
        ensures refused { IfErr result (λ e. Fails preamble (offset_of reader.entry) e reader.entry) }
    {
        let mut ahead = reader;
        match read_preamble(&mut ahead) {
            Ok(_version) => Ok(Sections {
                reader: ahead,
                refused: false,
            }),
            Err(e) => Err(e),
        }
    }
}

impl<'a> Iterator for Sections<'a> {
    type Item = Result<Section<'a>>;

    ghost next_gives = { StepsModule };

    ghost remaining = { sections_to_come };

    /// Reads the next section like `next_section`. Returns `None` at the end of the data and after
    /// an error, which consumes nothing.
    fn next(&mut self) -> Option<Result<Section<'a>>> {
        if self.refused || self.reader.eof() {
            return None;
        }
        let item = next_section(&mut self.reader);
        self.refused = item.is_err();
        Some(item)
    }
}

/// Reads a module's preamble, and all sections.
///
/// Fails with the error of the first that is no section, or with `OutOfMemory` at the start.
pub fn read_sections<'a>(alloc: Global, reader: BinaryReader<'a>) -> Result<Members<Section<'a>>>
    ensures { ReadsModule result reader.entry }
{
    let start = reader.original_position();
    let mut items = Sections::new(reader)?;
    let mut sections = Vec::new(alloc);
    'sections: while let Some(item) = items.next() {
        let section = item?;
        if sections.push(section).is_err() {
            return Err(Error::new(Message::OutOfMemory, start));
        }
    }
    Ok(Members::from_vec(sections))
}

/// States that bytes are at most one list of sections, and determine the error's message and offset.
pub fn module_layout()
    ensures one { (features : WasmFeatures) (start : ℕ) (bytes : List ℕ) (s t : List SectionParts)
        → EncodesModule features start bytes s → EncodesModule features start bytes t → s ≡ t }
    ensures refusals { DeterminesRefusal ModuleFault }
{}
