ghost use Rattle.std.specs.Prelude.{◌≡◌, ◌+◌, cond, Ok, IfOk, IfErr};
ghost use Rattle.std.specs.Iterator.{at_most};
ghost use Rattle.wasm_below.specs.Source.{end_of, offset_of};
ghost use Rattle.wasm_grammars.specs.Grammar.{HasReadBy};
ghost use Rattle.wasm_grammars.specs.Parts.{u32};
ghost use Rattle.wasm_grammars.specs.Reading.{Fails};
ghost use Rattle.wasm_sections.specs.Items.{StepsItems, StepsPlaced, items_of};

use std::alloc::Global;
use std::marker::{Model, PhantomData};
use std::ops::Range;
use wasm_below::{BinaryReader, Error, Message, Result};
use wasm_grammars::Read;

/// The contents of a section: a number, and that many items of one type. Specification: Lists.
#[derive(Drop)]
pub struct SectionReader<'a, T> {
    alloc: Global,
    reader: BinaryReader<'a>,
    count: u32,
    item: PhantomData<T>,
}

impl<'a, T> Model for SectionReader<'a, T> {
    ghost use Rattle.wasm_sections.specs.Items.{Counted};

    ghost Value = { Counted };

    ghost view = { λ s. record { count = s.count; reader = s.reader } };
}

impl<'a, T: Read<'a>> SectionReader<'a, T> {
    /// Reads the number of items; `alloc` is kept for reading them. Fails like `read_var_u32`.
    pub fn new(alloc: Global, contents: BinaryReader<'a>) -> Result<SectionReader<'a, T>>
        ensures count { IfOk result (λ s. HasReadBy u32 s.count contents.entry s.reader) }
        ensures refused { IfErr result (λ e. Fails u32 (offset_of contents.entry) e contents.entry) }
    {
        let mut reader = contents;
        match u32::read_from(alloc, &mut reader) {
            Ok(count) => Ok(SectionReader {
                alloc,
                reader,
                count,
                item: PhantomData,
            }),
            Err(e) => Err(e),
        }
    }

    /// Creates a reader of `count` items, of which `reader` is at the first.
    pub fn of_items(alloc: Global, count: u32, reader: BinaryReader<'a>) -> SectionReader<'a, T>
        ensures { result ≡ record { count = count; reader = reader.entry } }
    {
        SectionReader {
            alloc,
            reader,
            count,
            item: PhantomData,
        }
    }

    pub fn count(&self) -> u32
        ensures { result ≡ self.now.count }
    {
        self.count
    }

    /// Returns the offset of the first item.
    pub fn original_position(&self) -> u64
        ensures { result ≡ offset_of self.now.reader }
    {
        self.reader.original_position()
    }

    /// Returns the offsets of the contents.
    pub fn range(&self) -> Range<u64>
        ensures start { result.start ≡ self.now.reader.start }
        ensures end { result.end ≡ end_of self.now.reader }
    {
        self.reader.range()
    }

    /// Returns an iterator over the items, each with the offset of its first byte.
    pub fn into_iter_with_offsets(self) -> SectionItemsWithOffsets<'a, T>
        ensures { result ≡ items_of self.entry }
    {
        SectionItemsWithOffsets {
            items: self.into_iter(),
        }
    }
}

impl<'a, T: Read<'a>> IntoIterator for SectionReader<'a, T> {
    type Item = Result<T>;

    type IntoIter = SectionItems<'a, T>;

    ghost into_iter_gives = { λ s items. items ≡ items_of s };

    fn into_iter(self) -> SectionItems<'a, T> {
        let SectionReader {
            alloc,
            reader,
            count,
            item: _,
        } = self;
        SectionItems {
            alloc,
            reader,
            remaining: count,
            refused: false,
            item: PhantomData,
        }
    }
}

/// An iterator over the items of a section, which ends after an error.
#[derive(Drop)]
pub struct SectionItems<'a, T> {
    alloc: Global,
    reader: BinaryReader<'a>,
    remaining: u32,
    refused: bool,
    item: PhantomData<T>,
}

impl<'a, T> Model for SectionItems<'a, T> {
    ghost use Rattle.wasm_sections.specs.Items.{ItemsLeft};

    ghost Value = { ItemsLeft };

    ghost view = { λ s. record { remaining = s.remaining; reader = s.reader; refused = s.refused } };
}

impl<'a, T: Read<'a>> SectionItems<'a, T> {
    /// Returns the offset of the next item.
    pub fn original_position(&self) -> u64
        ensures { result ≡ offset_of self.now.reader }
    {
        self.reader.original_position()
    }
}

impl<'a, T: Read<'a>> Iterator for SectionItems<'a, T> {
    type Item = Result<T>;

    ghost next_gives = { λ s item t. StepsItems (T.grammar s.reader.features) item s t };

    ghost remaining = { λ s. at_most (cond s.refused 0 (s.remaining + 1)) };

    /// Reads the next item. Returns its error, or once `DataAfterSection` at data that is left
    /// after all items. An error consumes nothing.
    fn next(&mut self) -> Option<Result<T>> {
        if self.refused {
            return None;
        }
        if self.remaining == 0 {
            if self.reader.eof() {
                return None;
            }
            self.refused = true;
            let offset = self.reader.original_position();
            return Some(Err(Error::new(Message::DataAfterSection, offset)));
        }
        match T::read_from(self.alloc, &mut self.reader) {
            Ok(item) => {
                self.remaining -= 1;
                Some(Ok(item))
            }
            Err(e) => {
                self.refused = true;
                Some(Err(e))
            }
        }
    }
}

/// Like `SectionItems`, with the offset of each item.
#[derive(Drop)]
pub struct SectionItemsWithOffsets<'a, T> {
    items: SectionItems<'a, T>,
}

impl<'a, T> Model for SectionItemsWithOffsets<'a, T> {
    ghost use Rattle.wasm_sections.specs.Items.{ItemsLeft};

    ghost Value = { ItemsLeft };

    ghost view = { λ s. s.items };
}

impl<'a, T: Read<'a>> Iterator for SectionItemsWithOffsets<'a, T> {
    type Item = Result<(u64, T)>;

    ghost next_gives = { λ s item t. StepsPlaced (T.grammar s.reader.features) item s t };

    ghost remaining = { λ s. at_most (cond s.refused 0 (s.remaining + 1)) };

    fn next(&mut self) -> Option<Result<(u64, T)>> {
        let offset = self.items.original_position();
        match self.items.next() {
            Some(Ok(item)) => Some(Ok((offset, item))),
            Some(Err(e)) => Some(Err(e)),
            None => None,
        }
    }
}
