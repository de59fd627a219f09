//! Element and data segments, and the constant expressions in a list.
ghost use Rattle.std.specs.Prelude.{◌≡◌};
ghost use Rattle.wasm_c_items.specs.Items.{constant_view, data_view, element_view, element_start, list_of};

use crate::defined::constant_range;
use crate::viewed::Viewed;
use wasm_below::ValType;
use wasm_c_sections::{WasmItems, WasmRange, bytes_before};
use wasm_constants::{Constant, Data, DataKind, Element, ElementItems, ElementKind};
use wasm_grammars::Read;
use wasm_segments::Items;
use wasm_view::{WasmType, type_of};

/// An element segment, as a C struct of 64 bytes. Fields without a meaning are 0.
#[repr(C)]
#[derive(Clone, Copy, Debug, PartialEq, Eq)]
pub struct WasmElement {
    /// The constant expression of an active segment's index in its table.
    pub start: WasmRange,
    /// The elements: indices of functions, or constant expressions.
    pub items: WasmItems,
    /// The type of constant expressions.
    pub ty: WasmType,
    /// 0 passive, 1 active, 2 declarative.
    pub kind: u32,
    /// The index of an active segment's table.
    pub table: u32,
    /// 0 for indices of functions, 1 for constant expressions.
    pub form: u32,
    pub reserved: u32,
}

/// Returns a segment's kind, table and start.
fn element_start(kind: &ElementKind<'_>) -> (u32, u32, WasmRange)
    ensures { result ≡ element_start kind.now }
{
    match kind {
        ElementKind::Passive => (0, 0, WasmRange::none()),
        ElementKind::Active {
            table_index,
            offset_expr,
        } => (1, table_index.unwrap_or(0), constant_range(offset_expr)),
        ElementKind::Declared => (2, 0, WasmRange::none()),
    }
}

fn list_of<'a, T: Read<'a>>(items: &Items<'a, T>, features: u32) -> WasmItems
    ensures { result ≡ list_of items.now features }
{
    WasmItems::at(&items.get_binary_reader(), items.count(), features)
}

impl<'a> Viewed<'a> for Element<'a> {
    type View = WasmElement;

    ghost view_of = { element_view };

    fn view(self, _end: u64, features: u32) -> WasmElement {
        let (kind, table, start) = element_start(&self.kind);
        let (form, ty, items) = match &self.items {
            ElementItems::Functions(items) => {
                (0, WasmType { kind: 0, index: 0 }, list_of(items, features))
            }
            ElementItems::Expressions(ty, items) => {
                (1, type_of(&ValType::Ref(*ty)), list_of(items, features))
            }
        };
        WasmElement {
            start,
            items,
            ty,
            kind,
            table,
            form,
            reserved: 0,
        }
    }
}

/// A data segment, as a C struct of 40 bytes. Fields without a meaning are 0.
#[repr(C)]
#[derive(Clone, Copy, Debug, PartialEq, Eq)]
pub struct WasmData {
    /// The constant expression of an active segment's address.
    pub start: WasmRange,
    pub bytes: WasmRange,
    /// 0 passive, 1 active.
    pub kind: u32,
    /// The index of an active segment's memory.
    pub memory: u32,
}

impl<'a> Viewed<'a> for Data<'a> {
    type View = WasmData;

    ghost view_of = { data_view };

    fn view(self, end: u64, _features: u32) -> WasmData {
        let bytes = bytes_before(end, self.data.as_slice());
        match &self.kind {
            DataKind::Passive => WasmData {
                start: WasmRange::none(),
                bytes,
                kind: 0,
                memory: 0,
            },
            DataKind::Active {
                memory_index,
                offset_expr,
            } => WasmData {
                start: constant_range(offset_expr),
                bytes,
                kind: 1,
                memory: *memory_index,
            },
        }
    }
}

impl<'a> Viewed<'a> for Constant<'a> {
    type View = WasmRange;

    ghost view_of = { constant_view };

    fn view(self, _end: u64, _features: u32) -> WasmRange {
        constant_range(&self)
    }
}
