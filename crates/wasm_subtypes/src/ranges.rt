//! Type indices in types.
ghost use Rattle.std.specs.Prelude.{◌↔◌, IsTrue};
ghost use Rattle.wasm_subtypes.specs.Composites.{Every, HeapWithin, ValueWithin, StorageWithin, FieldWithin, InnerWithin};

use wasm_below::{HeapType, ValType};
use wasm_types::{CompositeInnerType, FieldType, StorageType};

fn heap_within(count: usize, ty: HeapType) -> bool
    ensures { IsTrue result ↔ HeapWithin count ty }
{
    match ty {
        HeapType::Abstract { .. } => true,
        HeapType::Concrete(index) | HeapType::Exact(index) => (index as usize) < count,
    }
}

fn value_within(count: usize, ty: ValType) -> bool
    ensures { IsTrue result ↔ ValueWithin count ty }
{
    match ty {
        ValType::Ref(ty) => heap_within(count, ty.heap_type()),
        ValType::I32 | ValType::I64 | ValType::F32 | ValType::F64 | ValType::V128 => true,
    }
}

fn values_within(count: usize, types: &[ValType]) -> bool
    ensures { IsTrue result ↔ Every (ValueWithin count) types.now }
{
    for (place, ty) in types.iter().enumerate() {
        if !value_within(count, *ty) {
            return false;
        }
    }
    true
}

fn field_within(count: usize, field: FieldType) -> bool
    ensures { IsTrue result ↔ FieldWithin count field }
{
    match field.element_type {
        StorageType::Val(ty) => value_within(count, ty),
        StorageType::I8 | StorageType::I16 => true,
    }
}

fn fields_within(count: usize, fields: &[FieldType]) -> bool
    ensures { IsTrue result ↔ Every (FieldWithin count) fields.now }
{
    for (place, field) in fields.iter().enumerate() {
        if !field_within(count, *field) {
            return false;
        }
    }
    true
}

/// Returns whether all type indices in a composite type are below `count`.
pub fn inner_within(count: usize, ty: &CompositeInnerType) -> bool
    ensures { IsTrue result ↔ InnerWithin count ty.now }
{
    match ty {
        CompositeInnerType::Func(ty) => {
            values_within(count, ty.params()) && values_within(count, ty.results())
        }
        CompositeInnerType::Array(ty) => field_within(count, ty.0),
        CompositeInnerType::Struct(ty) => fields_within(count, ty.fields.as_slice()),
        CompositeInnerType::Cont(_) => false,
    }
}
