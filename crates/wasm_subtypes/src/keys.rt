//! The numbers of a group after all types. Equal groups have the same.
ghost use Rattle.std.specs.Prelude.{◌≡◌, ◌<◌, ◌^◌, ◌∷◌, [], ◌++◌, map, length, OnOk, IfOk};
ghost use Rattle.wasm_subtypes.specs.Keys.{use_number, bit, heap_number, value_number, storage_number, field_number, inner_numbers, super_number, type_numbers, group_numbers};

use crate::defined::{Defined, identity};
use std::alloc::{AllocError, Global};
use wasm_below::{HeapType, ValType};
use wasm_types::{CompositeInnerType, FieldType, StorageType, SubType};

fn use_number(types: &[Defined], index: u32) -> u64
    ensures is { result ≡ use_number types.now (length types.now) index }
    ensures small { result < 2 ^ 34 }
{
    if (index as usize) < types.len() {
        return 2 * (identity(types, index) as u64);
    }
    2 * (index as u64 - types.len() as u64) + 1
}

fn bit(set: bool) -> u64
    ensures is { result ≡ bit set }
    ensures small { result < 2 }
{
    if set { 1 } else { 0 }
}

fn heap_number(types: &[Defined], ty: HeapType) -> u64
    ensures is { result ≡ heap_number (use_number types.now (length types.now)) ty }
    ensures small { result < 2 ^ 37 }
{
    match ty {
        HeapType::Abstract { shared, ty } => 4 * (ty.byte() as u64) + bit(shared),
        HeapType::Concrete(index) => 4 * use_number(types, index) + 2,
        HeapType::Exact(index) => 4 * use_number(types, index) + 3,
    }
}

fn value_number(types: &[Defined], ty: ValType) -> u64
    ensures is { result ≡ value_number (use_number types.now (length types.now)) ty }
    ensures small { result < 2 ^ 39 }
{
    match ty {
        ValType::I32 => 0,
        ValType::I64 => 1,
        ValType::F32 => 2,
        ValType::F64 => 3,
        ValType::V128 => 4,
        ValType::Ref(ty) => 5 + 2 * heap_number(types, ty.heap_type()) + bit(ty.is_nullable()),
    }
}

fn storage_number(types: &[Defined], ty: StorageType) -> u64
    ensures is { result ≡ storage_number (use_number types.now (length types.now)) ty }
    ensures small { result < 2 ^ 40 }
{
    match ty {
        StorageType::I8 => 0,
        StorageType::I16 => 1,
        StorageType::Val(ty) => 2 + value_number(types, ty),
    }
}

fn field_number(types: &[Defined], field: FieldType) -> u64
    ensures { result ≡ field_number (use_number types.now (length types.now)) field }
{
    2 * storage_number(types, field.element_type) + bit(field.mutable)
}

fn super_number(types: &[Defined], supertype: Option<u32>) -> u64
    ensures { result ≡ super_number (use_number types.now (length types.now)) supertype }
{
    match supertype {
        None => 0,
        Some(index) => use_number(types, index) + 1,
    }
}

fn push_values(key: &mut Vec<u64>, types: &[Defined], values: &[ValType]) -> Result<(), AllocError>
    ensures { OnOk result (key.new.items ≡ key.old.items ++ map (value_number (use_number types.now (length types.now))) values.now) }
{
    for i in 0..values.len() {
        key.push(value_number(types, values[i]))?;
    }
    Ok(())
}

fn push_fields(
    key: &mut Vec<u64>,
    types: &[Defined],
    fields: &[FieldType],
) -> Result<(), AllocError>
    ensures { OnOk result (key.new.items ≡ key.old.items ++ map (field_number (use_number types.now (length types.now))) fields.now) }
{
    for i in 0..fields.len() {
        key.push(field_number(types, fields[i]))?;
    }
    Ok(())
}

fn push_function(
    key: &mut Vec<u64>,
    types: &[Defined],
    params: &[ValType],
    results: &[ValType],
) -> Result<(), AllocError>
    ensures { OnOk result (key.new.items ≡ key.old.items ++ 0 ∷ length params.now ∷ length results.now ∷ (map (value_number (use_number types.now (length types.now))) params.now ++ map (value_number (use_number types.now (length types.now))) results.now)) }
{
    key.push(0)?;
    key.push(params.len() as u64)?;
    key.push(results.len() as u64)?;
    push_values(key, types, params)?;
    push_values(key, types, results)
}

fn push_array(key: &mut Vec<u64>, types: &[Defined], field: FieldType) -> Result<(), AllocError>
    ensures { OnOk result (key.new.items ≡ key.old.items ++ 1 ∷ field_number (use_number types.now (length types.now)) field ∷ []) }
{
    key.push(1)?;
    key.push(field_number(types, field))?;
    Ok(())
}

fn push_struct(
    key: &mut Vec<u64>,
    types: &[Defined],
    fields: &[FieldType],
) -> Result<(), AllocError>
    ensures { OnOk result (key.new.items ≡ key.old.items ++ 2 ∷ length fields.now ∷ map (field_number (use_number types.now (length types.now))) fields.now) }
{
    key.push(2)?;
    key.push(fields.len() as u64)?;
    push_fields(key, types, fields)
}

fn push_continuation(key: &mut Vec<u64>, types: &[Defined], index: u32) -> Result<(), AllocError>
    ensures { OnOk result (key.new.items ≡ key.old.items ++ 3 ∷ use_number types.now (length types.now) index ∷ []) }
{
    key.push(3)?;
    key.push(use_number(types, index))?;
    Ok(())
}

fn push_inner(
    key: &mut Vec<u64>,
    types: &[Defined],
    ty: &CompositeInnerType,
) -> Result<(), AllocError>
    ensures { OnOk result (key.new.items ≡ key.old.items ++ inner_numbers (use_number types.now (length types.now)) ty.now) }
{
    match ty {
        CompositeInnerType::Func(ty) => push_function(key, types, ty.params(), ty.results()),
        CompositeInnerType::Array(ty) => push_array(key, types, ty.0),
        CompositeInnerType::Struct(ty) => push_struct(key, types, ty.fields.as_slice()),
        CompositeInnerType::Cont(ty) => push_continuation(key, types, ty.0),
    }
}

fn push_type(key: &mut Vec<u64>, types: &[Defined], ty: &SubType) -> Result<(), AllocError>
    ensures { OnOk result (key.new.items ≡ key.old.items ++ type_numbers (use_number types.now (length types.now)) ty.now) }
{
    key.push(2 * bit(ty.is_final) + bit(ty.composite_type.shared))?;
    key.push(super_number(types, ty.supertype_idx))?;
    push_inner(key, types, &ty.composite_type.inner)
}

/// Returns the numbers of a group after all types.
pub fn group_key(
    alloc: Global,
    types: &[Defined],
    group: &[SubType],
) -> Result<Vec<u64>, AllocError>
    ensures { IfOk result (λ key. key.items ≡ group_numbers (use_number types.now (length types.now)) group.now) }
{
    let mut key = Vec::new(alloc);
    for i in 0..group.len() {
        push_type(&mut key, types, &group[i])?;
    }
    Ok(key)
}
