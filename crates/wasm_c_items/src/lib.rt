//! Types, tables, memories, globals, tags, element and data segments of a module for C, and for
//! languages that call C. No call has a `requires`.
//!
//! Each call returns 0, or the number of its error, and sets `refusal`. On failure, nothing else
//! changes. If allocation fails, the number is 3.
#![tactic(auto)]

ghost use Rattle.std.specs.Prelude.{◌≡◌};
ghost use Rattle.wasm_c_items.specs.Items.{table_item, global_item, tag_item, element_item, data_item, constant_view, memory_view, tag_view, table_view, global_view, element_view, data_view};
ghost use Rattle.wasm_c_items.specs.Types.{group_item, value_type_view};
ghost use Rattle.wasm_c_items.specs.Views.{ReturnsView};
ghost use Rattle.wasm_constants.specs.Constants.{const_expr};
ghost use Rattle.wasm_c_sections.specs.Items.{ReturnsItem};
ghost use Rattle.wasm_externals.specs.Limits.{memory_type};
ghost use Rattle.wasm_grammars.specs.Parts.{val_type};

mod defined;
mod segments;
mod types;
mod viewed;

pub use crate::defined::{WasmGlobal, WasmTable};
pub use crate::segments::{WasmData, WasmElement};
pub use crate::types::WasmGroup;
use crate::viewed::place_view;
use std::alloc::Global;
use wasm_below::ValType;
use wasm_c::WasmRefusal;
use wasm_c_sections::{WasmExternal, WasmItems, WasmRange, place_next};
use wasm_constants::{Constant, Data, Element, Table};
use wasm_externals::{MemoryType, TagType};
use wasm_view::WasmType;

/// Reads the next item of a type section: a type, or a group of types.
pub fn wasm_next_group(
    alloc: Global,
    bytes: &[u8],
    items: &mut WasmItems,
    group: &mut WasmGroup,
    refusal: &mut WasmRefusal,
) -> u32
    ensures outcome { result ≡ refusal.new.number }
    ensures next { ReturnsItem (λ features. group_item) refusal.new bytes.now items.old items.new group.old group.new }
{
    *refusal = place_next(alloc, bytes, items, group);
    refusal.number
}

/// Reads the next type of the parameters or results of a function type.
pub fn wasm_next_value_type(
    alloc: Global,
    bytes: &[u8],
    items: &mut WasmItems,
    ty: &mut WasmType,
    refusal: &mut WasmRefusal,
) -> u32
    ensures outcome { result ≡ refusal.new.number }
    ensures next { ReturnsView (λ features. val_type) value_type_view refusal.new bytes.now items.old items.new ty.old ty.new }
{
    *refusal = place_view::<ValType>(alloc, bytes, items, ty);
    refusal.number
}

/// Reads the next table of a section.
pub fn wasm_next_table(
    alloc: Global,
    bytes: &[u8],
    items: &mut WasmItems,
    table: &mut WasmTable,
    refusal: &mut WasmRefusal,
) -> u32
    ensures outcome { result ≡ refusal.new.number }
    ensures next { ReturnsView table_item table_view refusal.new bytes.now items.old items.new table.old table.new }
{
    *refusal = place_view::<Table<'_>>(alloc, bytes, items, table);
    refusal.number
}

/// Reads the next memory of a section.
pub fn wasm_next_memory(
    alloc: Global,
    bytes: &[u8],
    items: &mut WasmItems,
    memory: &mut WasmExternal,
    refusal: &mut WasmRefusal,
) -> u32
    ensures outcome { result ≡ refusal.new.number }
    ensures next { ReturnsView memory_type memory_view refusal.new bytes.now items.old items.new memory.old memory.new }
{
    *refusal = place_view::<MemoryType>(alloc, bytes, items, memory);
    refusal.number
}

/// Reads the next global of a section.
pub fn wasm_next_global(
    alloc: Global,
    bytes: &[u8],
    items: &mut WasmItems,
    global: &mut WasmGlobal,
    refusal: &mut WasmRefusal,
) -> u32
    ensures outcome { result ≡ refusal.new.number }
    ensures next { ReturnsView global_item global_view refusal.new bytes.now items.old items.new global.old global.new }
{
    *refusal = place_view::<wasm_constants::Global<'_>>(alloc, bytes, items, global);
    refusal.number
}

/// Reads the next tag of a section.
pub fn wasm_next_tag(
    alloc: Global,
    bytes: &[u8],
    items: &mut WasmItems,
    tag: &mut WasmExternal,
    refusal: &mut WasmRefusal,
) -> u32
    ensures outcome { result ≡ refusal.new.number }
    ensures next { ReturnsView tag_item tag_view refusal.new bytes.now items.old items.new tag.old tag.new }
{
    *refusal = place_view::<TagType>(alloc, bytes, items, tag);
    refusal.number
}

/// Reads the next element segment.
pub fn wasm_next_element(
    alloc: Global,
    bytes: &[u8],
    items: &mut WasmItems,
    segment: &mut WasmElement,
    refusal: &mut WasmRefusal,
) -> u32
    ensures outcome { result ≡ refusal.new.number }
    ensures next { ReturnsView element_item element_view refusal.new bytes.now items.old items.new segment.old segment.new }
{
    *refusal = place_view::<Element<'_>>(alloc, bytes, items, segment);
    refusal.number
}

/// Reads the next data segment.
pub fn wasm_next_data(
    alloc: Global,
    bytes: &[u8],
    items: &mut WasmItems,
    segment: &mut WasmData,
    refusal: &mut WasmRefusal,
) -> u32
    ensures outcome { result ≡ refusal.new.number }
    ensures next { ReturnsView data_item data_view refusal.new bytes.now items.old items.new segment.old segment.new }
{
    *refusal = place_view::<Data<'_>>(alloc, bytes, items, segment);
    refusal.number
}

/// Reads the next constant expression of an element segment.
pub fn wasm_next_expression(
    alloc: Global,
    bytes: &[u8],
    items: &mut WasmItems,
    expression: &mut WasmRange,
    refusal: &mut WasmRefusal,
) -> u32
    ensures outcome { result ≡ refusal.new.number }
    ensures next { ReturnsView const_expr constant_view refusal.new bytes.now items.old items.new expression.old expression.new }
{
    *refusal = place_view::<Constant<'_>>(alloc, bytes, items, expression);
    refusal.number
}
