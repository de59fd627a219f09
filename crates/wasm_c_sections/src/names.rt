//! The custom section `name`: its subsections as C structs.
ghost use Rattle.std.specs.Prelude.{◌≡◌};
ghost use Rattle.wasm_c_sections.specs.Names.{map_of, names_of, ReturnsNames};

use crate::items::{NO_ITEM, NOT_A_READER, WasmItems};
use crate::range::{WasmRange, ending_at};
use std::alloc::Global;
use wasm_c::WasmRefusal;
use wasm_grammars::Read;
use wasm_names::{Name, read_name};
use wasm_sections::SectionReader;

/// A subsection of names, as a C struct of 48 bytes. Fields without a meaning are 0.
#[repr(C)]
#[derive(Clone, Copy, Debug, PartialEq, Eq)]
pub struct WasmNames {
    /// The module's name, or the contents of a subsection with an unknown id.
    pub range: WasmRange,
    /// The names of a map.
    pub items: WasmItems,
    /// The subsection's id.
    pub kind: u32,
    /// 0.
    pub reserved: u32,
}

/// Returns the C struct of a map of names.
fn map_of<'a, T: Read<'a>>(kind: u32, features: u32, map: &SectionReader<'a, T>) -> WasmNames
    ensures { result ≡ map_of kind features map.now }
{
    WasmNames {
        range: WasmRange::none(),
        items: WasmItems::of_section(map, features),
        kind,
        reserved: 0,
    }
}

/// Returns the C struct of a subsection without a map.
fn without_map(kind: u32, range: WasmRange) -> WasmNames
    ensures { result ≡ record { range = range; items = record { offset = 0; length = 0; count = 0; features = 0 }; kind = kind; reserved = 0 } }
{
    WasmNames {
        range,
        items: WasmItems::none(),
        kind,
        reserved: 0,
    }
}

/// Returns the C struct of a subsection.
fn names_of(features: u32, names: Name<'_>) -> WasmNames
    ensures { result ≡ names_of features names.entry }
{
    match names {
        Name::Module { name, name_range } => {
            without_map(0, ending_at(name_range.end, name.as_str()))
        }
        Name::Function(map) => map_of(1, features, &map),
        Name::Local(map) => map_of(2, features, &map),
        Name::Label(map) => map_of(3, features, &map),
        Name::Type(map) => map_of(4, features, &map),
        Name::Table(map) => map_of(5, features, &map),
        Name::Memory(map) => map_of(6, features, &map),
        Name::Global(map) => map_of(7, features, &map),
        Name::Element(map) => map_of(8, features, &map),
        Name::Data(map) => map_of(9, features, &map),
        Name::Field(map) => map_of(10, features, &map),
        Name::Tag(map) => map_of(11, features, &map),
        Name::Unknown { ty, range, .. } => without_map(u32::from(ty), WasmRange::of(&range)),
    }
}

/// Reads the next subsection of the custom section `name`.
pub fn next_names(
    alloc: Global,
    bytes: &[u8],
    items: &mut WasmItems,
    names: &mut WasmNames,
) -> WasmRefusal
    ensures { ReturnsNames result bytes.now items.old items.new names.old names.new }
{
    let Some(mut reader) = items.reader(bytes) else {
        return WasmRefusal::misuse(NOT_A_READER, items.offset);
    };
    if reader.eof() {
        return WasmRefusal::misuse(NO_ITEM, items.offset);
    }
    match read_name(alloc, &mut reader) {
        Ok(found) => {
            *names = names_of(items.features, found);
            *items = WasmItems::at(&reader, items.count, items.features);
            WasmRefusal::none(items.offset)
        }
        Err(e) => WasmRefusal::of(&e),
    }
}
