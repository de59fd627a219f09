ghost use Rattle.std.specs.Prelude.{◌≡◌, ◌+◌, cond, Ok, IfOk, IfErr};
ghost use Rattle.std.specs.Iterator.{at_most};
ghost use Rattle.wasm_below.specs.FromReader.{AllocatesIf};
ghost use Rattle.wasm_below.specs.Number.{EncodesUnsigned};
ghost use Rattle.wasm_below.specs.Source.{HasRead, IsRefusal, U32Fault};
ghost use Rattle.wasm_operators.specs.Section.{StepsSection, items_of};

use std::alloc::Global;
use std::marker::{Model, PhantomData};
use wasm_below::{BinaryReader, Error, FromReader, Message, Result};

/// A section: a number, and that many items of one type.
#[derive(Drop)]
pub struct SectionLimited<'a, T> {
    alloc: Global,
    reader: BinaryReader<'a>,
    count: u32,
    item: PhantomData<T>,
}

impl<'a, T> Model for SectionLimited<'a, T> {
    ghost use Rattle.wasm_operators.specs.Section.{Section};

    ghost Value = { Section };

    ghost view = { λ s. record { count = s.count; reader = s.reader } };
}

impl<'a, T: FromReader<'a>> SectionLimited<'a, T> {
    /// Reads the number of items; `alloc` is kept for reading them. Fails as `read_var_u32` does.
    pub fn new(alloc: Global, mut reader: BinaryReader<'a>) -> Result<SectionLimited<'a, T>>
        ensures count { IfOk result (λ s. HasRead (EncodesUnsigned 32) s.count reader.entry s.reader) }
        ensures refused { IfErr result (λ e. IsRefusal (EncodesUnsigned 32) e reader.entry) }
        ensures fault { IfErr result (λ e. U32Fault e.message reader.entry e.offset) }
    {
        match reader.read_var_u32() {
            Ok(count) => Ok(SectionLimited {
                alloc,
                reader,
                count,
                item: PhantomData,
            }),
            Err(e) => Err(e),
        }
    }

    pub fn count(&self) -> u32
        ensures { result ≡ self.now.count }
    {
        self.count
    }
}

impl<'a, T: FromReader<'a>> IntoIterator for SectionLimited<'a, T> {
    type Item = Result<T>;

    type IntoIter = SectionLimitedIntoIter<'a, T>;

    ghost into_iter_gives = { λ s items. items ≡ items_of s };

    fn into_iter(self) -> SectionLimitedIntoIter<'a, T> {
        let SectionLimited {
            alloc,
            reader,
            count,
            item: _,
        } = self;
        SectionLimitedIntoIter {
            alloc,
            reader,
            remaining: count,
            refused: false,
            item: PhantomData,
        }
    }
}

/// An iterator over the items of a section, which ends after an error.
#[derive(Drop)]
pub struct SectionLimitedIntoIter<'a, T> {
    alloc: Global,
    reader: BinaryReader<'a>,
    remaining: u32,
    refused: bool,
    item: PhantomData<T>,
}

impl<'a, T> Model for SectionLimitedIntoIter<'a, T> {
    ghost use Rattle.wasm_operators.specs.Section.{SectionItems};

    ghost Value = { SectionItems };

    ghost view = { λ s. record { remaining = s.remaining; reader = s.reader; refused = s.refused } };
}

impl<'a, T: FromReader<'a>> Iterator for SectionLimitedIntoIter<'a, T> {
    type Item = Result<T>;

    ghost next_gives = { λ s item t. StepsSection (T.encodes s.reader.features)
        T.fault (AllocatesIf T.Memory.TAKES T.allocates) T.placed item s t };

    ghost remaining = { λ s. at_most (cond s.refused 0 (s.remaining + 1)) };

    /// Reads the next item. Returns its error, or once `DataAfterSection` at data that is left
    /// after all items. An error consumes nothing.
    fn next(&mut self) -> Option<Result<T>> {
        if self.refused {
            return None;
        }
        if self.remaining == 0 {
            if self.reader.eof() {
                return None;
            }
            self.refused = true;
            let offset = self.reader.original_position();
            return Some(Err(Error::new(Message::DataAfterSection, offset)));
        }
        match self.reader.read(self.alloc) {
            Ok(item) => {
                self.remaining -= 1;
                Some(Ok(item))
            }
            Err(e) => {
                self.refused = true;
                Some(Err(e))
            }
        }
    }
}
