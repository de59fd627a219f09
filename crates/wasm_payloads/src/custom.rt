ghost use Rattle.std.specs.Prelude.{◌≡◌, IfOk, IfErr};
ghost use Rattle.wasm_below.specs.Source.{rest, offset_of, end_of};
ghost use Rattle.wasm_grammars.specs.Grammar.{HasReadBy};
ghost use Rattle.wasm_grammars.specs.Reading.{Fails};
ghost use Rattle.wasm_externals.specs.Texts.{text};

use std::alloc::Global;
use std::marker::Model;
use std::ops::Range;
use wasm_below::{BinaryReader, Result};
use wasm_externals::Text;
use wasm_grammars::Read;

/// A custom section: its name, and its data. Specification: Custom Section.
#[derive(Drop)]
pub struct CustomSectionReader<'a> {
    name: Text<'a>,
    reader: BinaryReader<'a>,
}

impl<'a> Model for CustomSectionReader<'a> {
    ghost use Rattle.wasm_payloads.specs.Custom.{Custom};

    ghost Value = { Custom };

    ghost view = { λ c. record { name = c.name; reader = c.reader } };
}

impl<'a> CustomSectionReader<'a> {
    /// Reads the name. Fails like `Text::read_from`.
    pub fn new(alloc: Global, contents: BinaryReader<'a>) -> Result<CustomSectionReader<'a>>
        ensures named { IfOk result (λ c. HasReadBy text c.name contents.entry c.reader) }
        ensures refused { IfErr result (λ e. Fails text (offset_of contents.entry) e contents.entry) }
    {
        let mut reader = contents;
        match Text::read_from(alloc, &mut reader) {
            Ok(name) => Ok(CustomSectionReader { name, reader }),
            Err(e) => Err(e),
        }
    }

    pub fn name(&self) -> &'a str
        ensures { result.now ≡ self.now.name }
    {
        self.name.as_str()
    }

    pub fn data(&self) -> &'a [u8]
        ensures { result.now ≡ rest self.now.reader }
    {
        self.reader.remaining_buffer()
    }

    /// Returns the offset of the data.
    pub fn data_offset(&self) -> u64
        ensures { result ≡ offset_of self.now.reader }
    {
        self.reader.original_position()
    }

    /// Returns the offsets of the contents.
    pub fn range(&self) -> Range<u64>
        ensures start { result.start ≡ self.now.reader.start }
        ensures end { result.end ≡ end_of self.now.reader }
    {
        self.reader.range()
    }
}
