//! The sections of a module and their items for C, and for languages that call C. No call has a
//! `requires`.
//!
//! `c/include/wasm_operators.h` describes the calls. Each returns 0, or the number of its error, and
//! sets `refusal`. On failure, nothing else changes. If allocation fails, the number is 3.
#![tactic(auto)]

ghost use Rattle.std.specs.Prelude.{◌≡◌};
ghost use Rattle.wasm_c_sections.specs.Externals.{placed_import, placed_export};
ghost use Rattle.wasm_c_sections.specs.Items.{ReturnsItem};
ghost use Rattle.wasm_c_sections.specs.Names.{placed_naming, ReturnsNames};
ghost use Rattle.wasm_c_sections.specs.Payloads.{ReturnsPayload};
ghost use Rattle.wasm_grammars.specs.Parts.{u32};

mod external;
mod items;
mod named;
mod names;
mod parser;
mod payload;
mod range;

pub use crate::external::{WasmExternal, external_of, global_of, memory_of, table_of};
pub use crate::items::{WasmItems, next_item, place_next};
pub use crate::named::{WasmExport, WasmImport, WasmNaming};
pub use crate::names::WasmNames;
pub use crate::parser::WasmParser;
pub use crate::payload::WasmPayload;
pub use crate::range::{WasmRange, bytes_before};
use std::alloc::Global;
use wasm_c::WasmRefusal;

/// Reads the next part of a module, of which `bytes` are all: its preamble, a section, a body of the
/// code section, or its end.
pub fn wasm_next_payload(
    alloc: Global,
    bytes: &[u8],
    parser: &mut WasmParser,
    payload: &mut WasmPayload,
    refusal: &mut WasmRefusal,
) -> u32
    ensures outcome { result ≡ refusal.new.number }
    ensures next { ReturnsPayload refusal.new bytes.now parser.old parser.new payload.old payload.new }
{
    *refusal = parser::next_payload(alloc, bytes, parser, payload);
    refusal.number
}

/// Reads the next import of a section.
pub fn wasm_next_import(
    alloc: Global,
    bytes: &[u8],
    items: &mut WasmItems,
    import: &mut WasmImport,
    refusal: &mut WasmRefusal,
) -> u32
    ensures outcome { result ≡ refusal.new.number }
    ensures next { ReturnsItem placed_import refusal.new bytes.now items.old items.new import.old import.new }
{
    *refusal = place_next(alloc, bytes, items, import);
    refusal.number
}

/// Reads the next export of a section.
pub fn wasm_next_export(
    alloc: Global,
    bytes: &[u8],
    items: &mut WasmItems,
    export: &mut WasmExport,
    refusal: &mut WasmRefusal,
) -> u32
    ensures outcome { result ≡ refusal.new.number }
    ensures next { ReturnsItem (λ features. placed_export) refusal.new bytes.now items.old items.new export.old export.new }
{
    *refusal = place_next(alloc, bytes, items, export);
    refusal.number
}

/// Reads the next index of a list, such as a function's type index in the function section.
pub fn wasm_next_index(
    alloc: Global,
    bytes: &[u8],
    items: &mut WasmItems,
    index: &mut u32,
    refusal: &mut WasmRefusal,
) -> u32
    ensures outcome { result ≡ refusal.new.number }
    ensures next { ReturnsItem (λ features. u32) refusal.new bytes.now items.old items.new index.old index.new }
{
    *refusal = place_next(alloc, bytes, items, index);
    refusal.number
}

/// Reads the next subsection of the custom section `name`.
pub fn wasm_next_names(
    alloc: Global,
    bytes: &[u8],
    items: &mut WasmItems,
    names: &mut WasmNames,
    refusal: &mut WasmRefusal,
) -> u32
    ensures outcome { result ≡ refusal.new.number }
    ensures next { ReturnsNames refusal.new bytes.now items.old items.new names.old names.new }
{
    *refusal = names::next_names(alloc, bytes, items, names);
    refusal.number
}

/// Reads the next name of a map, such as the names of functions.
pub fn wasm_next_name(
    alloc: Global,
    bytes: &[u8],
    items: &mut WasmItems,
    naming: &mut WasmNaming,
    refusal: &mut WasmRefusal,
) -> u32
    ensures outcome { result ≡ refusal.new.number }
    ensures next { ReturnsItem (λ features. placed_naming) refusal.new bytes.now items.old items.new naming.old naming.new }
{
    *refusal = place_next(alloc, bytes, items, naming);
    refusal.number
}
