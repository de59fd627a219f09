//! The types of a type section. Parameters and results of functions stay in the module's bytes.
ghost use Rattle.std.specs.Prelude.{◌≡◌, ◌<◌, ◌^◌};
ghost use Rattle.wasm_below.specs.Source.{offset_of};
ghost use Rattle.wasm_c_items.specs.Types.{list_at, types_list, function_of, other_of, group_item, value_type_view};
ghost use Rattle.wasm_grammars.specs.Reading.{Reads};

use crate::viewed::Viewed;
use std::alloc::Global;
use wasm_below::{BinaryReader, Result, SizeName, ValType};
use wasm_c_sections::WasmItems;
use wasm_grammars::Read;
use wasm_types::RecGroup;
use wasm_view::{WasmType, type_of};

const FUNCTION: u8 = 0x60;

const MAX_PARAMS: usize = 1000;

const MAX_RESULTS: usize = 1000;

impl<'a> Viewed<'a> for ValType {
    type View = WasmType;

    ghost view_of = { value_type_view };

    fn view(self, _end: u64, _features: u32) -> WasmType {
        type_of(&self)
    }
}

/// Returns the items between two places.
fn items_between(first: &BinaryReader<'_>, end: &BinaryReader<'_>, count: usize) -> WasmItems
    requires { count < 2 ^ 32 }
    ensures { result ≡ list_at (offset_of first.now) (offset_of end.now) count }
{
    let offset = first.original_position();
    WasmItems {
        offset,
        length: end.original_position().saturating_sub(offset),
        count: count as u32,
        features: 0,
    }
}

/// Reads a list of value types, to find its end. Fails like the list of a function type.
fn read_types(
    alloc: Global,
    reader: &mut BinaryReader<'_>,
    limit: usize,
    desc: SizeName,
) -> Result<WasmItems>
    requires { limit < 2 ^ 32 }
    ensures { Reads (types_list limit desc) result reader.old reader.new }
{
    let mut ahead = reader.clone();
    let count = ahead.read_size(limit, desc)?;
    let first = ahead.clone();
    for _item in 0..count {
        let _value = ValType::read_from(alloc, &mut ahead)?;
    }
    let items = items_between(&first, &ahead, count);
    *reader = ahead;
    Ok(items)
}

/// An item of a type section, as a C struct of 64 bytes. Fields without a meaning are 0.
#[repr(C)]
#[derive(Clone, Copy, Debug, PartialEq, Eq)]
pub struct WasmGroup {
    /// The types of the parameters of a function type.
    pub params: WasmItems,
    /// The types of its results.
    pub results: WasmItems,
    /// The number of types in a group, else 1.
    pub types: u64,
    /// 0x60 for a function type, 0 for another type or a group.
    pub form: u32,
    pub reserved: u32,
}

fn function_of(params: WasmItems, results: WasmItems) -> WasmGroup
    ensures { result ≡ function_of params results }
{
    WasmGroup {
        params,
        results,
        types: 1,
        form: u32::from(FUNCTION),
        reserved: 0,
    }
}

fn other_of(group: &RecGroup) -> WasmGroup
    ensures { result ≡ other_of group.now }
{
    WasmGroup {
        params: WasmItems::none(),
        results: WasmItems::none(),
        types: group.types().len() as u64,
        form: 0,
        reserved: 0,
    }
}

/// Fails like `RecGroup::read_from`.
impl<'a> Read<'a> for WasmGroup {
    ghost grammar = { λ features. group_item };

    fn read_from(alloc: Global, reader: &mut BinaryReader<'a>) -> Result<WasmGroup> {
        let byte = reader.peek()?;
        if byte == FUNCTION {
            let mut ahead = reader.clone();
            ahead.advance();
            let params = read_types(alloc, &mut ahead, MAX_PARAMS, SizeName::FunctionParams)?;
            let results = read_types(alloc, &mut ahead, MAX_RESULTS, SizeName::FunctionReturns)?;
            *reader = ahead;
            return Ok(function_of(params, results));
        }
        let group = RecGroup::read_from(alloc, reader)?;
        Ok(other_of(&group))
    }
}
