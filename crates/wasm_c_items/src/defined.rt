//! Tables, memories, globals and tags that a module defines.
ghost use Rattle.std.specs.Prelude.{◌≡◌};
ghost use Rattle.wasm_c_items.specs.Items.{constant_range, memory_view, tag_view, table_view, global_view};

use crate::viewed::Viewed;
use wasm_c_sections::{WasmExternal, WasmRange, external_of, global_of, memory_of, table_of};
use wasm_constants::{Constant, Global, Table, TableInit};
use wasm_externals::{MemoryType, TagType, TypeRef};

/// Returns where a constant expression is.
pub fn constant_range(constant: &Constant<'_>) -> WasmRange
    ensures { result ≡ constant_range constant.now }
{
    WasmRange::of(&constant.expression().get_binary_reader().remaining_range())
}

impl<'a> Viewed<'a> for MemoryType {
    type View = WasmExternal;

    ghost view_of = { memory_view };

    fn view(self, _end: u64, _features: u32) -> WasmExternal {
        memory_of(self)
    }
}

impl<'a> Viewed<'a> for TagType {
    type View = WasmExternal;

    ghost view_of = { tag_view };

    fn view(self, _end: u64, _features: u32) -> WasmExternal {
        external_of(TypeRef::Tag(self))
    }
}

/// A table, as a C struct of 56 bytes.
#[repr(C)]
#[derive(Clone, Copy, Debug, PartialEq, Eq)]
pub struct WasmTable {
    pub ty: WasmExternal,
    /// The constant expression of the elements' value at the start; without one, no bytes.
    pub value: WasmRange,
}

impl<'a> Viewed<'a> for Table<'a> {
    type View = WasmTable;

    ghost view_of = { table_view };

    fn view(self, _end: u64, _features: u32) -> WasmTable {
        WasmTable {
            ty: table_of(self.ty),
            value: match &self.init {
                TableInit::RefNull => WasmRange::none(),
                TableInit::Expr(value) => constant_range(value),
            },
        }
    }
}

/// A global, as a C struct of 56 bytes.
#[repr(C)]
#[derive(Clone, Copy, Debug, PartialEq, Eq)]
pub struct WasmGlobal {
    pub ty: WasmExternal,
    /// The constant expression of its value at the start.
    pub value: WasmRange,
}

impl<'a> Viewed<'a> for Global<'a> {
    type View = WasmGlobal;

    ghost view_of = { global_view };

    fn view(self, _end: u64, _features: u32) -> WasmGlobal {
        WasmGlobal {
            ty: global_of(self.ty),
            value: constant_range(&self.init_expr),
        }
    }
}
