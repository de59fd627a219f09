ghost use Rattle.std.specs.Prelude.{◌≡◌, IfOk, IfErr};
ghost use Rattle.wasm_below.specs.Source.{end_of, offset_of};
ghost use Rattle.wasm_grammars.specs.Grammar.{HasReadBy};
ghost use Rattle.wasm_grammars.specs.Parts.{u32};
ghost use Rattle.wasm_grammars.specs.Reading.{Fails};

use std::alloc::Global;
use std::marker::Model;
use std::ops::Range;
use wasm_below::{BinaryReader, Result};
use wasm_grammars::Read;
use wasm_sections::SectionReader;

/// The contents of a section whose items hold constant expressions: their number, and their bytes.
/// The caller chooses the type of constant expressions when it reads them.
#[derive(Drop)]
pub struct UnreadItems<'a> {
    alloc: Global,
    count: u32,
    reader: BinaryReader<'a>,
}

impl<'a> Model for UnreadItems<'a> {
    ghost use Rattle.wasm_sections.specs.Items.{Counted};

    ghost Value = { Counted };

    ghost view = { λ s. record { count = s.count; reader = s.reader } };
}

impl<'a> UnreadItems<'a> {
    /// Reads the number of items. Fails like `read_var_u32`.
    pub fn new(alloc: Global, contents: BinaryReader<'a>) -> Result<UnreadItems<'a>>
        ensures count { IfOk result (λ s. HasReadBy u32 s.count contents.entry s.reader) }
        ensures refused { IfErr result (λ e. Fails u32 (offset_of contents.entry) e contents.entry) }
    {
        let mut reader = contents;
        match u32::read_from(alloc, &mut reader) {
            Ok(count) => Ok(UnreadItems {
                alloc,
                count,
                reader,
            }),
            Err(e) => Err(e),
        }
    }

    pub fn count(&self) -> u32
        ensures { result ≡ self.now.count }
    {
        self.count
    }

    /// Returns the offsets of the contents.
    pub fn range(&self) -> Range<u64>
        ensures start { result.start ≡ self.now.reader.start }
        ensures end { result.end ≡ end_of self.now.reader }
    {
        self.reader.range()
    }

    /// Returns a reader of the items as values of this type, such as `Global<C>` of `wasm_segments`.
    pub fn read_as<T: Read<'a>>(self) -> SectionReader<'a, T>
        ensures { result ≡ self.entry }
    {
        let UnreadItems {
            alloc,
            count,
            reader,
        } = self;
        SectionReader::of_items(alloc, count, reader)
    }
}
