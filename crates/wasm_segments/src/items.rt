ghost use Rattle.std.specs.Prelude.{◌≡◌};
ghost use Rattle.wasm_segments.specs.Items.{items};

use std::alloc::Global;
use std::marker::{Model, PhantomData};
use wasm_below::{BinaryReader, Result};
use wasm_grammars::Read;
use wasm_sections::SectionReader;

/// A list that stays in the caller's bytes: the number of items, and a reader of them.
#[derive(Drop)]
pub struct Items<'a, T> {
    count: u32,
    reader: BinaryReader<'a>,
    item: PhantomData<T>,
}

impl<'a, T> Model for Items<'a, T> {
    ghost use Rattle.wasm_sections.specs.Items.{Counted};

    ghost Value = { Counted };

    ghost view = { λ s. record { count = s.count; reader = s.reader } };
}

impl<'a, T> Items<'a, T> {
    pub fn count(&self) -> u32
        ensures { result ≡ self.now.count }
    {
        self.count
    }

    /// Returns a reader of the items, with the offsets of the module.
    pub fn get_binary_reader(&self) -> BinaryReader<'a>
        ensures { result ≡ self.now.reader }
    {
        self.reader.clone()
    }
}

impl<'a, T: Read<'a>> Items<'a, T> {
    /// Returns a reader that reads the items one by one, with or without their offsets.
    pub fn section_reader(&self, alloc: Global) -> SectionReader<'a, T>
        ensures { result ≡ self.now }
    {
        SectionReader::of_items(alloc, self.count, self.reader.clone())
    }
}

impl<'a, T: Read<'a>> Read<'a> for Items<'a, T> {
    ghost grammar = { λ features. items features (T.grammar features) };

    /// Reads each item, to find the end of the list. Fails like `read_var_u32`, then like the first
    /// item in error.
    fn read_from(alloc: Global, reader: &mut BinaryReader<'a>) -> Result<Items<'a, T>> {
        let mut ahead = reader.clone();
        let count = ahead.read_var_u32()?;
        let first = ahead.clone();
        for _item in 0..count {
            let _value = T::read_from(alloc, &mut ahead)?;
        }
        let end = ahead.current_position();
        let begin = first.current_position();
        let bytes = &first.remaining_buffer()[..end - begin];
        let items = first.part(bytes, first.original_position());
        *reader = ahead;
        Ok(Items {
            count,
            reader: items,
            item: PhantomData,
        })
    }
}
