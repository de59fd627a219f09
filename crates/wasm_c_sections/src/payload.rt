//! The parts of a module as C structs.
ghost use Rattle.std.specs.Prelude.{◌≡◌};
ghost use Rattle.wasm_c_sections.specs.Payloads.{bare, section_of, custom_of, payload_of};
ghost use Rattle.wasm_sections.specs.Items.{Counted};

use crate::items::WasmItems;
use crate::range::WasmRange;
use wasm_grammars::Read;
use wasm_payloads::{CustomSectionReader, Payload, UnreadItems};
use wasm_sections::SectionReader;

const VERSION: u32 = 256;

const BODY: u32 = 257;

const END: u32 = 258;

/// A part of a module, as a C struct of 64 bytes. Fields without a meaning are 0.
#[repr(C)]
#[derive(Clone, Copy, Debug, PartialEq, Eq)]
pub struct WasmPayload {
    /// The contents of a section, a body without its size, the preamble, or the end.
    pub range: WasmRange,
    /// The name of a custom section.
    pub name: WasmRange,
    /// The items of a section, or the data of a custom section.
    pub items: WasmItems,
    /// The id of a section; 256 for the preamble, 257 for a body, 258 for the end.
    pub kind: u32,
    /// The version, the index of the function `start`, the number of bodies, or the data count.
    pub number: u32,
}

impl WasmPayload {
    /// Creates a payload with these bytes and this number.
    fn bare(kind: u32, number: u32, range: WasmRange) -> WasmPayload
        ensures { result ≡ bare kind number range }
    {
        WasmPayload {
            range,
            name: WasmRange::none(),
            items: WasmItems::none(),
            kind,
            number,
        }
    }

    /// Returns the C struct of a section of items.
    fn section<'a, T: Read<'a>>(
        kind: u32,
        features: u32,
        section: &SectionReader<'a, T>,
    ) -> WasmPayload
        ensures { result ≡ section_of kind features section.now }
    {
        WasmPayload {
            range: WasmRange::of(&section.range()),
            name: WasmRange::none(),
            items: WasmItems::of_section(section, features),
            kind,
            number: 0,
        }
    }

    /// Returns the C struct of a section whose items hold constant expressions.
    fn unread(kind: u32, features: u32, section: UnreadItems<'_>) -> WasmPayload
        ensures { result ≡ section_of kind features section.entry }
    {
        let section: SectionReader<'_, u8> = section.read_as();
        WasmPayload::section(kind, features, &section)
    }

    fn custom(features: u32, section: &CustomSectionReader<'_>) -> WasmPayload
        ensures { result ≡ custom_of features section.now }
    {
        let offset = section.data_offset();
        let length = section.name().len() as u64;
        WasmPayload {
            range: WasmRange::of(&section.range()),
            name: WasmRange {
                offset: offset.saturating_sub(length),
                length,
            },
            items: WasmItems {
                offset,
                length: section.data().len() as u64,
                count: 0,
                features,
            },
            kind: 0,
            number: 0,
        }
    }

    /// Returns the C struct of a payload.
    pub fn of(features: u32, payload: Payload<'_>) -> WasmPayload
        ensures { result ≡ payload_of features payload.entry }
    {
        match payload {
            Payload::Version { num, range, .. } => {
                WasmPayload::bare(VERSION, u32::from(num), WasmRange::of(&range))
            }
            Payload::TypeSection(section) => WasmPayload::section(1, features, &section),
            Payload::ImportSection(section) => WasmPayload::section(2, features, &section),
            Payload::FunctionSection(section) => WasmPayload::section(3, features, &section),
            Payload::TableSection(section) => WasmPayload::unread(4, features, section),
            Payload::MemorySection(section) => WasmPayload::section(5, features, &section),
            Payload::GlobalSection(section) => WasmPayload::unread(6, features, section),
            Payload::ExportSection(section) => WasmPayload::section(7, features, &section),
            Payload::StartSection { func, range } => {
                WasmPayload::bare(8, func, WasmRange::of(&range))
            }
            Payload::ElementSection(section) => WasmPayload::unread(9, features, section),
            Payload::CodeSectionStart {
                count,
                start,
                contents_size,
                ..
            } => {
                let length = u64::from(contents_size);
                WasmPayload::bare(
                    10,
                    count,
                    WasmRange {
                        offset: start,
                        length,
                    },
                )
            }
            Payload::DataSection(section) => WasmPayload::unread(11, features, section),
            Payload::DataCountSection { count, range } => {
                WasmPayload::bare(12, count, WasmRange::of(&range))
            }
            Payload::TagSection(section) => WasmPayload::section(13, features, &section),
            Payload::CodeSectionEntry(body) => {
                WasmPayload::bare(BODY, 0, WasmRange::of(&body.remaining_range()))
            }
            Payload::CustomSection(section) => WasmPayload::custom(features, &section),
            Payload::UnknownSection { id, contents } => {
                WasmPayload::bare(u32::from(id), 0, WasmRange::of(&contents.remaining_range()))
            }
            Payload::End(offset) => WasmPayload::bare(END, 0, WasmRange { offset, length: 0 }),
        }
    }
}
