//! What is wrong with a part of a module.
ghost use Rattle.std.specs.Prelude.{◌≡◌};
ghost use Rattle.wasm_context.specs.Environment.{expanded};
ghost use Rattle.wasm_context.specs.Faults.{most, limit_fault, index_fault, heap_index_fault, unsupported_fault, heap_fault, group_fault, sharing_fault, value_fault, use_fault, tag_use_fault, or_else};
ghost use Rattle.wasm_context.specs.Faults.{minimum_fault, largest, size_fault, page_size_fault, page_bytes, most_pages, shared_fault, memory_type_fault, most_elements, table_limits_fault};

use crate::error::{ContextError, Counted};
use crate::unsupported::{Part, Unsupported, first_unsupported};
use wasm_below::{HeapType, ValType};
use wasm_externals::{MemoryType, TableType};
use wasm_subtypes::Types;
use wasm_types::{CompositeInnerType, SubType};

fn most(what: Counted) -> usize
    ensures { result ≡ most what }
{
    match what {
        Counted::Tables | Counted::Memories => 100,
        Counted::ElementSegments | Counted::DataSegments => 100_000,
        Counted::Functions | Counted::Globals | Counted::Tags | Counted::Exports => 1_000_000,
    }
}

/// Returns an error if there may not be one more than `count`.
pub fn limit_fault(count: usize, what: Counted) -> Option<ContextError>
    ensures { result ≡ limit_fault count what }
{
    if count < most(what) {
        None
    } else {
        Some(ContextError::TooMany(what))
    }
}

fn index_fault(count: usize, index: u32) -> Option<ContextError>
    ensures { result ≡ index_fault count index }
{
    if (index as usize) < count {
        None
    } else {
        Some(ContextError::UnknownType(index))
    }
}

fn heap_index_fault(count: usize, ty: HeapType) -> Option<ContextError>
    ensures { result ≡ heap_index_fault count ty }
{
    match ty {
        HeapType::Abstract { .. } => None,
        HeapType::Concrete(index) | HeapType::Exact(index) => index_fault(count, index),
    }
}

fn unsupported_fault(part: Option<Unsupported>) -> Option<ContextError>
    ensures { result ≡ unsupported_fault part }
{
    match part {
        Some(what) => Some(ContextError::Unsupported(what)),
        None => None,
    }
}

pub fn heap_fault(count: usize, ty: HeapType) -> Option<ContextError>
    ensures { result ≡ heap_fault count ty }
{
    let unsupported = unsupported_fault(ty.unsupported());
    or_else(unsupported, heap_index_fault(count, ty))
}

/// Returns an error if a group of types has a part that is not supported.
pub fn group_fault(types: &[SubType]) -> Option<ContextError>
    ensures { result ≡ group_fault types.now }
{
    unsupported_fault(first_unsupported(types))
}

/// Returns an error if something is shared between threads.
pub fn sharing_fault(shared: bool, what: Unsupported) -> Option<ContextError>
    ensures { result ≡ sharing_fault shared what }
{
    if shared {
        Some(ContextError::Unsupported(what))
    } else {
        None
    }
}

pub fn value_fault(count: usize, ty: ValType) -> Option<ContextError>
    ensures { result ≡ value_fault count ty }
{
    match ty {
        ValType::Ref(ty) => heap_fault(count, ty.heap_type()),
        ValType::I32 | ValType::I64 | ValType::F32 | ValType::F64 | ValType::V128 => None,
    }
}

/// Returns an error if the type at an index is not the type of a function.
pub fn use_fault(types: &Types, index: u32) -> Option<ContextError>
    ensures { result ≡ use_fault index (expanded types.now index) }
{
    match types.get(index) {
        Some(defined) => match &defined.ty.composite_type.inner {
            CompositeInnerType::Func(_) => None,
            CompositeInnerType::Array(_)
            | CompositeInnerType::Struct(_)
            | CompositeInnerType::Cont(_) => Some(ContextError::NotFunction(index)),
        },
        None => Some(ContextError::UnknownType(index)),
    }
}

/// Returns an error if the type at an index is not the type of a function without results.
pub fn tag_use_fault(types: &Types, index: u32) -> Option<ContextError>
    ensures { result ≡ tag_use_fault index (expanded types.now index) }
{
    match types.get(index) {
        Some(defined) => match &defined.ty.composite_type.inner {
            CompositeInnerType::Func(ty) => {
                if ty.results().is_empty() {
                    None
                } else {
                    Some(ContextError::TagResults)
                }
            }
            CompositeInnerType::Array(_)
            | CompositeInnerType::Struct(_)
            | CompositeInnerType::Cont(_) => Some(ContextError::NotFunction(index)),
        },
        None => Some(ContextError::UnknownType(index)),
    }
}

/// Returns the first error.
pub fn or_else(first: Option<ContextError>, second: Option<ContextError>) -> Option<ContextError>
    ensures { result ≡ or_else first second }
{
    match first {
        Some(e) => Some(e),
        None => second,
    }
}

fn minimum_fault(minimum: u64, maximum: Option<u64>) -> Option<ContextError>
    ensures { result ≡ minimum_fault minimum maximum }
{
    match maximum {
        Some(maximum) => {
            if maximum < minimum {
                Some(ContextError::MinimumAboveMaximum)
            } else {
                None
            }
        }
        None => None,
    }
}

fn largest(minimum: u64, maximum: Option<u64>) -> u64
    ensures { result ≡ largest minimum maximum }
{
    match maximum {
        Some(maximum) => maximum,
        None => minimum,
    }
}

fn size_fault(most: u64, size: u64, error: ContextError) -> Option<ContextError>
    ensures { result ≡ size_fault most size error }
{
    if most < size { Some(error) } else { None }
}

fn page_size_fault(page_size_log2: Option<u32>) -> Option<ContextError>
    ensures { result ≡ page_size_fault page_size_log2 }
{
    match page_size_log2 {
        Some(log2) => {
            if log2 == 0 {
                None
            } else if log2 == 16 {
                None
            } else {
                Some(ContextError::PageSize)
            }
        }
        None => None,
    }
}

fn page_bytes(page_size_log2: Option<u32>) -> u64
    ensures { result ≡ page_bytes page_size_log2 }
{
    match page_size_log2 {
        Some(log2) => { if log2 == 0 { 1 } else { 65536 } }
        None => 65536,
    }
}

fn most_pages(memory64: bool, page_size_log2: Option<u32>) -> u64
    ensures { result ≡ most_pages memory64 page_size_log2 }
{
    let single = page_bytes(page_size_log2) == 1;
    if memory64 {
        if single {
            u64::MAX
        } else {
            281_474_976_710_656
        }
    } else if single {
        4_294_967_295
    } else {
        65536
    }
}

fn shared_fault(shared: bool, maximum: Option<u64>) -> Option<ContextError>
    ensures { result ≡ shared_fault shared maximum }
{
    match (shared, maximum) {
        (true, None) => Some(ContextError::SharedWithoutMaximum),
        _ => None,
    }
}

/// Returns an error if a memory type is not valid. Specification: Validation, Types, Memory Types.
pub fn memory_type_fault(ty: MemoryType) -> Option<ContextError>
    ensures { result ≡ memory_type_fault ty }
{
    let most = most_pages(ty.memory64, ty.page_size_log2);
    let beyond = ContextError::MemorySize(most, page_bytes(ty.page_size_log2));
    let size = size_fault(most, largest(ty.initial, ty.maximum), beyond);
    let shared = shared_fault(ty.shared, ty.maximum);
    let page_size = page_size_fault(ty.page_size_log2);
    let pages = or_else(page_size, or_else(size, shared));
    or_else(minimum_fault(ty.initial, ty.maximum), pages)
}

fn most_elements(table64: bool) -> u64
    ensures { result ≡ most_elements table64 }
{
    if table64 { u64::MAX } else { 4_294_967_295 }
}

/// Returns an error if the limits of a table type are not valid. Specification: Validation, Types,
/// Table Types.
pub fn table_limits_fault(ty: TableType) -> Option<ContextError>
    ensures { result ≡ table_limits_fault ty }
{
    let most = most_elements(ty.table64);
    let beyond = ContextError::TableSize(most);
    let size = size_fault(most, largest(ty.initial, ty.maximum), beyond);
    let shared = sharing_fault(ty.shared, Unsupported::SharedTable);
    let sizes = or_else(shared, size);
    or_else(minimum_fault(ty.initial, ty.maximum), sizes)
}
