//! Matching of composite types.
ghost use Rattle.std.specs.Prelude.{◌≡◌, ◌↔◌, IsTrue};
ghost use Rattle.std.specs.List.{slice_get};
ghost use Rattle.std.specs.Option.{option_copied};
ghost use Rattle.wasm_subtypes.specs.Alike.{Each};
ghost use Rattle.wasm_subtypes.specs.Types.{order_of};
ghost use Rattle.wasm_subtypes.specs.Composites.{ValueMatches, StorageMatches, WritesMatch, FieldMatches, FieldFits, FieldsMatch, FunctionMatches, InnerMatches, CompositeMatches};

use crate::only::Only;
use crate::type_list::TypeList;
use wasm_below::ValType;
use wasm_check_control::matches;
use wasm_types::{CompositeInnerType, CompositeType, FieldType, FuncType, StorageType};
use wasm_typing::ValueType;
use wasm_typing::laws::matching_is_decided;

/// Returns whether a value type matches another.
pub fn value_matches(types: &TypeList, ty: ValType, wanted: ValType) -> bool
    ensures { IsTrue result ↔ ValueMatches (order_of types.now) ty wanted }
{
    types.is_ordered();
    matching_is_decided();
    let context = Only { types };
    matches(&context, ValueType::new(ty), ValueType::new(wanted))
}

fn values_match(types: &TypeList, found: &[ValType], wanted: &[ValType]) -> bool
    ensures { IsTrue result ↔ Each (ValueMatches (order_of types.now)) found.now wanted.now }
{
    if found.len() != wanted.len() {
        return false;
    }
    for i in 0..found.len() {
        if !value_matches(types, found[i], wanted[i]) {
            return false;
        }
    }
    true
}

fn storage_matches(types: &TypeList, ty: StorageType, wanted: StorageType) -> bool
    ensures { IsTrue result ↔ StorageMatches (order_of types.now) ty wanted }
{
    match ty {
        StorageType::I8 => matches!(wanted, StorageType::I8),
        StorageType::I16 => matches!(wanted, StorageType::I16),
        StorageType::Val(ty) => match wanted {
            StorageType::Val(wanted) => value_matches(types, ty, wanted),
            StorageType::I8 | StorageType::I16 => false,
        },
    }
}

fn writes_match(types: &TypeList, mutable: bool, ty: StorageType, wanted: StorageType) -> bool
    ensures { IsTrue result ↔ WritesMatch (order_of types.now) mutable ty wanted }
{
    if mutable {
        storage_matches(types, wanted, ty)
    } else {
        true
    }
}

fn field_matches(types: &TypeList, ty: FieldType, wanted: FieldType) -> bool
    ensures { IsTrue result ↔ FieldMatches (order_of types.now) ty wanted }
{
    ty.mutable == wanted.mutable
        && storage_matches(types, ty.element_type, wanted.element_type)
        && writes_match(types, wanted.mutable, ty.element_type, wanted.element_type)
}

fn field_fits(types: &TypeList, ty: Option<&FieldType>, wanted: FieldType) -> bool
    ensures { IsTrue result ↔ FieldFits (order_of types.now) (option_copied ty.entry) wanted }
{
    match ty {
        Some(ty) => field_matches(types, *ty, wanted),
        None => false,
    }
}

fn field_at(fields: &[FieldType], place: usize) -> Option<&FieldType>
    ensures { option_copied result ≡ slice_get fields.now place }
{
    fields.get(place)
}

fn fields_match(types: &TypeList, fields: &[FieldType], wanted: &[FieldType]) -> bool
    ensures { IsTrue result ↔ FieldsMatch (order_of types.now) fields.now wanted.now }
{
    for (place, field) in wanted.iter().enumerate() {
        if !field_fits(types, field_at(fields, place), *field) {
            return false;
        }
    }
    true
}

fn function_matches(types: &TypeList, ty: &FuncType, wanted: &FuncType) -> bool
    ensures { IsTrue result ↔ FunctionMatches (order_of types.now) ty.now wanted.now }
{
    values_match(types, wanted.params(), ty.params())
        && values_match(types, ty.results(), wanted.results())
}

fn inner_matches(types: &TypeList, ty: &CompositeInnerType, wanted: &CompositeInnerType) -> bool
    ensures { IsTrue result ↔ InnerMatches (order_of types.now) ty.now wanted.now }
{
    match ty {
        CompositeInnerType::Func(ty) => match wanted {
            CompositeInnerType::Func(wanted) => function_matches(types, ty, wanted),
            _ => false,
        },
        CompositeInnerType::Array(ty) => match wanted {
            CompositeInnerType::Array(wanted) => field_matches(types, ty.0, wanted.0),
            _ => false,
        },
        CompositeInnerType::Struct(ty) => match wanted {
            CompositeInnerType::Struct(wanted) => {
                fields_match(types, ty.fields.as_slice(), wanted.fields.as_slice())
            }
            _ => false,
        },
        CompositeInnerType::Cont(_) => false,
    }
}

/// Returns whether a composite type matches another.
pub fn composite_matches(types: &TypeList, ty: &CompositeType, wanted: &CompositeType) -> bool
    ensures { IsTrue result ↔ CompositeMatches (order_of types.now) ty.now wanted.now }
{
    ty.shared == wanted.shared && inner_matches(types, &ty.inner, &wanted.inner)
}
