//! Modules that are read as values, and written again.
use crate::failure::{Failure, Written};
use crate::written_names::write_custom;
use std::alloc::Global as Allocator;
use wasm_below::{BinaryReader, Malformed, Message, WasmFeatures};
use wasm_encode_constants::ConstantBytes;
use wasm_encode_modules::{SectionContents, write_module};
use wasm_encode_sections::{ListedElement, ListedItems, Write, append_items, write_value};
use wasm_externals::{Export, Import, MemoryType, TagType};
use wasm_grammars::Read;
use wasm_imm::Members;
use wasm_sections::{Section, read_all, read_items, read_sections};
use wasm_segments::{Data, Element, ElementItems, Global, Items, Table};
use wasm_types::RecGroup;

const CUSTOM: u8 = 0;

const TYPES: u8 = 1;

const IMPORTS: u8 = 2;

const FUNCTIONS: u8 = 3;

const TABLES: u8 = 4;

const MEMORIES: u8 = 5;

const GLOBALS: u8 = 6;

const EXPORTS: u8 = 7;

const START: u8 = 8;

const ELEMENTS: u8 = 9;

const DATA: u8 = 11;

const DATA_COUNT: u8 = 12;

const TAGS: u8 = 13;

/// Writes the bytes of a module that is read as values and written again.
pub fn write_rewritten(alloc: Allocator, text: &mut String, reader: &BinaryReader<'_>) -> Written {
    let module = rewrite(alloc, reader.clone())?;
    for byte in module.as_slice() {
        write!(text, "{byte:02x}")?;
    }
    Ok(())
}

/// Reads the sections of a module, writes the items that are read as values, and writes the module.
fn rewrite(alloc: Allocator, reader: BinaryReader<'_>) -> Result<Vec<u8>, Failure> {
    let features = reader.features();
    let sections: Members<Section<'_>> = read_sections(alloc, reader)?;
    let mut contents = Vec::new(alloc);
    for section in &sections {
        let mut written = Vec::new(alloc);
        write_contents(alloc, features, section, &mut written)?;
        contents.push((section.id(), written))?;
    }
    let mut parts = Vec::new(alloc);
    for (id, written) in contents.as_slice() {
        parts.push(SectionContents::new(*id, written.as_slice()))?;
    }
    let mut module = Vec::new(alloc);
    write_module(&mut module, parts.as_slice())?;
    Ok(module)
}

fn write_contents<'a>(
    alloc: Allocator,
    features: WasmFeatures,
    section: &Section<'a>,
    written: &mut Vec<u8>,
) -> Written {
    match section.id() {
        CUSTOM => write_custom(alloc, features, section.contents(), written),
        TYPES => write_types(alloc, features, section, written),
        IMPORTS => write_items::<Import<'a>>(alloc, features, section, written),
        FUNCTIONS => write_functions(alloc, features, section, written),
        TABLES => write_items::<Table<ConstantBytes<'a>>>(alloc, features, section, written),
        MEMORIES => write_items::<MemoryType>(alloc, features, section, written),
        GLOBALS => write_items::<Global<ConstantBytes<'a>>>(alloc, features, section, written),
        EXPORTS => write_items::<Export<'a>>(alloc, features, section, written),
        START => write_number(alloc, features, section, Malformed::StartContent, written),
        ELEMENTS => write_elements(alloc, features, section, written),
        DATA => write_items::<Data<'a, ConstantBytes<'a>>>(alloc, features, section, written),
        DATA_COUNT => write_number(
            alloc,
            features,
            section,
            Malformed::DataCountContent,
            written,
        ),
        TAGS => write_items::<TagType>(alloc, features, section, written),
        _ => {
            let contents = section.contents();
            written.extend_from_slice(contents.remaining_buffer())?;
            Ok(())
        }
    }
}

/// Writes the items of a type section, and compares those that are read again.
fn write_types(
    alloc: Allocator,
    features: WasmFeatures,
    section: &Section<'_>,
    written: &mut Vec<u8>,
) -> Written {
    let items = read_items::<RecGroup>(alloc, section.contents())?;
    append_items(written, features, items.as_slice())?;
    let again = read_items::<RecGroup>(alloc, BinaryReader::new(written.as_slice(), 0))?;
    if again == items {
        return Ok(());
    }
    Err(Failure::Different)
}

fn write_functions(
    alloc: Allocator,
    features: WasmFeatures,
    section: &Section<'_>,
    written: &mut Vec<u8>,
) -> Written {
    let items = read_items::<u32>(alloc, section.contents())?;
    append_items(written, features, items.as_slice())?;
    let again = read_items::<u32>(alloc, BinaryReader::new(written.as_slice(), 0))?;
    if again == items {
        return Ok(());
    }
    Err(Failure::Different)
}

/// Writes the items of a section.
fn write_items<'a, T: Read<'a> + Write>(
    alloc: Allocator,
    features: WasmFeatures,
    section: &Section<'a>,
    written: &mut Vec<u8>,
) -> Written {
    let items = read_items::<T>(alloc, section.contents())?;
    append_items(written, features, items.as_slice())?;
    Ok(())
}

/// Writes a section that is a number.
fn write_number(
    alloc: Allocator,
    features: WasmFeatures,
    section: &Section<'_>,
    left_over: Malformed,
    written: &mut Vec<u8>,
) -> Written {
    let number = read_all::<u32>(alloc, section.contents(), Message::Malformed(left_over))?;
    write_value(&number, features, written)?;
    Ok(())
}

fn write_elements<'a>(
    alloc: Allocator,
    features: WasmFeatures,
    section: &Section<'a>,
    written: &mut Vec<u8>,
) -> Written {
    let segments = read_items::<Element<'a, ConstantBytes<'a>>>(alloc, section.contents())?;
    let mut elements = Vec::new(alloc);
    for Element { kind, items } in segments.into_vec() {
        let items = list_items(alloc, items)?;
        elements.push(ListedElement { kind, items })?;
    }
    append_items(written, features, elements.as_slice())?;
    Ok(())
}

fn list_items<'a>(
    alloc: Allocator,
    items: ElementItems<'a, ConstantBytes<'a>>,
) -> Result<ListedItems<ConstantBytes<'a>>, Failure> {
    match items {
        ElementItems::Functions(list) => Ok(ListedItems::Functions(collect(alloc, list)?)),
        ElementItems::Expressions(ty, list) => {
            Ok(ListedItems::Expressions(ty, collect(alloc, list)?))
        }
    }
}

fn collect<'a, T: Read<'a>>(alloc: Allocator, list: Items<'a, T>) -> Result<Members<T>, Failure> {
    let mut found = Vec::new(alloc);
    for item in list.section_reader(alloc) {
        found.push(item?)?;
    }
    Ok(Members::from_vec(found))
}
