//! The items of a section, or of another list, read one by one.
ghost use Rattle.std.specs.Prelude.{◌≡◌, length, IfSome, IfNone};
ghost use Rattle.wasm_below.specs.Source.{rest, offset_of};
ghost use Rattle.wasm_c_sections.specs.Items.{IsItems, items_reader, items_at, items_of_section, ReadsItem, ReturnsItem};

use std::alloc::Global;
use wasm_below::{BinaryReader, Error, Message, WasmFeatures};
use wasm_c::WasmRefusal;
use wasm_grammars::Read;
use wasm_sections::SectionReader;

pub const NOT_A_READER: u32 = 103;

pub const NO_ITEM: u32 = 114;

/// The items of a list that are left, as a C struct of 24 bytes.
#[repr(C)]
#[derive(Clone, Copy, Debug, PartialEq, Eq)]
pub struct WasmItems {
    /// The offset of the next item.
    pub offset: u64,
    /// The number of bytes that are left.
    pub length: u64,
    /// The number of items that are left.
    pub count: u32,
    pub features: u32,
}

impl WasmItems {
    pub fn none() -> WasmItems
        ensures { result ≡ record { offset = 0; length = 0; count = 0; features = 0 } }
    {
        WasmItems {
            offset: 0,
            length: 0,
            count: 0,
            features: 0,
        }
    }

    /// Returns the items of a list, of which their number was read.
    pub fn of_section<'a, T: Read<'a>>(section: &SectionReader<'a, T>, features: u32) -> WasmItems
        ensures { result ≡ items_of_section section.now features }
    {
        let offset = section.original_position();
        WasmItems {
            offset,
            length: section.range().end.saturating_sub(offset),
            count: section.count(),
            features,
        }
    }

    /// Returns the items that are left at the reader.
    pub fn at(reader: &BinaryReader<'_>, count: u32, features: u32) -> WasmItems
        ensures { result ≡ items_at reader.now count features }
    {
        WasmItems {
            offset: reader.original_position(),
            length: reader.bytes_remaining() as u64,
            count,
            features,
        }
    }

    /// Returns a reader of the items, or `None` if they can't be items of these bytes.
    pub fn reader<'a>(&self, bytes: &'a [u8]) -> Option<BinaryReader<'a>>
        ensures some { IfSome result (λ r. IsItems bytes.now self.now × (r ≡ items_reader bytes.now self.now)) }
        ensures none { IfNone result (IsItems bytes.now self.now → ⊥) }
    {
        let Some(features) = WasmFeatures::from_bits(self.features) else {
            return None;
        };
        let size = bytes.len() as u64;
        if self.offset > size || self.length > size - self.offset {
            return None;
        }
        let part = &bytes[self.offset as usize..][..self.length as usize];
        Some(BinaryReader::new_features(part, self.offset, features))
    }
}

/// Reads the next item. Returns it and the items that are left.
pub fn next_item<'a, T: Read<'a>>(
    alloc: Global,
    bytes: &'a [u8],
    items: &WasmItems,
) -> Result<(T, WasmItems), WasmRefusal>
    ensures { ReadsItem T.grammar result bytes.now items.now }
{
    let Some(mut reader) = items.reader(bytes) else {
        return Err(WasmRefusal::misuse(NOT_A_READER, items.offset));
    };
    if items.count == 0 {
        if reader.eof() {
            return Err(WasmRefusal::misuse(NO_ITEM, items.offset));
        }
        let error = Error::new(Message::DataAfterSection, items.offset);
        return Err(WasmRefusal::of(&error));
    }
    match T::read_from(alloc, &mut reader) {
        Ok(found) => Ok((
            found,
            WasmItems::at(&reader, items.count - 1, items.features),
        )),
        Err(e) => Err(WasmRefusal::of(&e)),
    }
}

/// Reads the next item, which is a C struct or a number.
pub fn place_next<'a, T: Read<'a>>(
    alloc: Global,
    bytes: &'a [u8],
    items: &mut WasmItems,
    item: &mut T,
) -> WasmRefusal
    ensures { ReturnsItem T.grammar result bytes.now items.old items.new item.old item.new }
{
    match next_item(alloc, bytes, items) {
        Ok((found, left)) => {
            *item = found;
            *items = left;
            WasmRefusal::none(left.offset)
        }
        Err(refused) => refused,
    }
}
