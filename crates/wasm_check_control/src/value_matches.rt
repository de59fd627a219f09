ghost use Rattle.std.specs.Prelude.{◌≡◌};
ghost use Rattle.wasm_typing.specs.Matching.{heap_matches, matches};
ghost use Rattle.wasm_typing.specs.Checking.{if_number};
ghost use Rattle.wasm_check_control.specs.Selects.{is_bottom, form, same_number, select_type};

use crate::context::ModuleContext;
use crate::matching::{heap_type_matches, null_matches};
use wasm_typing::{Heap, ValueType};

pub fn heap_matches<M: ModuleContext>(context: &M, heap: Heap, wanted: Heap) -> bool
    ensures { result ≡ heap_matches (M.environment context.now).order heap wanted }
{
    match heap {
        Heap::Unknown => true,
        Heap::Known(ty) => match wanted {
            Heap::Known(wanted) => heap_type_matches(context, ty, wanted),
            Heap::Unknown => false,
        },
    }
}

/// Returns whether a reference type matches a value type. Specification: Matching, Reference Types.
fn reference_matches<M: ModuleContext>(
    context: &M,
    nullable: bool,
    heap: Heap,
    wanted: ValueType,
) -> bool
    ensures { result ≡ matches (M.environment context.now).order (ValueType.Ref nullable heap) wanted }
{
    match wanted {
        ValueType::Ref {
            nullable: null_wanted,
            heap: wanted,
        } => {
            if null_matches(nullable, null_wanted) {
                heap_matches(context, heap, wanted)
            } else {
                false
            }
        }
        ValueType::Bottom
        | ValueType::I32
        | ValueType::I64
        | ValueType::F32
        | ValueType::F64
        | ValueType::V128 => false,
    }
}

/// Returns whether a value type matches another. Specification: Matching, Value Types.
#[inline(always)]
pub fn matches<M: ModuleContext>(context: &M, ty: ValueType, wanted: ValueType) -> bool
    ensures { result ≡ matches (M.environment context.now).order ty wanted }
{
    match ty {
        ValueType::Bottom => true,
        ValueType::I32 => matches!(wanted, ValueType::I32),
        ValueType::I64 => matches!(wanted, ValueType::I64),
        ValueType::F32 => matches!(wanted, ValueType::F32),
        ValueType::F64 => matches!(wanted, ValueType::F64),
        ValueType::V128 => matches!(wanted, ValueType::V128),
        ValueType::Ref { nullable, heap } => reference_matches(context, nullable, heap, wanted),
    }
}

fn number(ty: ValueType) -> Option<ValueType>
    ensures { result ≡ if_number ty }
{
    match ty {
        ValueType::Bottom
        | ValueType::I32
        | ValueType::I64
        | ValueType::F32
        | ValueType::F64
        | ValueType::V128 => Some(ty),
        ValueType::Ref { .. } => None,
    }
}

fn is_bottom(ty: ValueType) -> bool
    ensures { result ≡ is_bottom ty }
{
    matches!(ty, ValueType::Bottom)
}

/// Returns a number for the form of a type: below 5 for number types and `v128`.
#[inline(always)]
fn form(ty: &ValueType) -> u8
    ensures { result ≡ form ty.now }
{
    match ty {
        ValueType::I32 => 0,
        ValueType::I64 => 1,
        ValueType::F32 => 2,
        ValueType::F64 => 3,
        ValueType::V128 => 4,
        ValueType::Bottom => 5,
        ValueType::Ref { .. } => 6,
    }
}

/// Returns whether both are the same number type, or `v128`. The forms are compared without a jump
/// by the type.
#[inline(always)]
pub fn same_number(ty: &ValueType, other: &ValueType) -> bool
    ensures { result ≡ same_number ty.now other.now }
{
    let form_of_ty = form(ty);
    form_of_ty == form(other) && form_of_ty < 5
}

/// Returns the type of a `select` without a type between operands of these types.
pub fn select_type(ty: ValueType, other: ValueType) -> Option<ValueType>
    ensures { result ≡ select_type ty other }
{
    if is_bottom(ty) {
        return number(other);
    }
    if is_bottom(other) {
        return number(ty);
    }
    if same_number(&ty, &other) {
        return Some(ty);
    }
    None
}
