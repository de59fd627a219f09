use crate::custom::CustomSectionReader;
use crate::unread::UnreadItems;
use std::ops::Range;
use wasm_below::BinaryReader;
use wasm_externals::{Export, Import, MemoryType, TagType};
use wasm_sections::SectionReader;
use wasm_types::RecGroup;

pub type TypeSectionReader<'a> = SectionReader<'a, RecGroup>;

pub type ImportSectionReader<'a> = SectionReader<'a, Import<'a>>;

pub type FunctionSectionReader<'a> = SectionReader<'a, u32>;

pub type MemorySectionReader<'a> = SectionReader<'a, MemoryType>;

pub type TagSectionReader<'a> = SectionReader<'a, TagType>;

pub type ExportSectionReader<'a> = SectionReader<'a, Export<'a>>;

/// The format of a binary. Components are not read.
#[derive(Clone, Copy, Debug, PartialEq, Eq)]
pub enum Encoding {
    Module,
}

/// A part of a module.
#[derive(Drop)]
pub enum Payload<'a> {
    /// The preamble.
    Version {
        num: u16,
        encoding: Encoding,
        range: Range<u64>,
    },
    TypeSection(TypeSectionReader<'a>),
    ImportSection(ImportSectionReader<'a>),
    FunctionSection(FunctionSectionReader<'a>),
    TableSection(UnreadItems<'a>),
    MemorySection(MemorySectionReader<'a>),
    TagSection(TagSectionReader<'a>),
    GlobalSection(UnreadItems<'a>),
    ExportSection(ExportSectionReader<'a>),
    StartSection {
        func: u32,
        range: Range<u64>,
    },
    ElementSection(UnreadItems<'a>),
    DataCountSection {
        count: u32,
        range: Range<u64>,
    },
    DataSection(UnreadItems<'a>),
    /// The number of bodies, the offset and the size in bytes of the section's contents, which the
    /// data may lack, and the size of the bodies.
    CodeSectionStart {
        count: u32,
        start: u64,
        contents_size: u32,
        size: u32,
    },
    /// A function body, without its size.
    CodeSectionEntry(BinaryReader<'a>),
    CustomSection(CustomSectionReader<'a>),
    UnknownSection {
        id: u8,
        contents: BinaryReader<'a>,
    },
    /// The end, and its offset.
    End(u64),
}
