ghost use Rattle.std.specs.Prelude.{◌≡◌};
ghost use Rattle.wasm_check_operators.specs.Aggregates.{operand, not_null, is_defaultable, has_default, is_numeric, storage_matches, holds, same};

use wasm_below::{HeapType, RefType, ValType};
use wasm_check_control::{ModuleContext, matches};
use wasm_types::{FieldType, StorageType};
use wasm_typing::{Heap, ValueType};

/// Returns the type of a field's operand.
pub fn operand(field: FieldType) -> ValueType
    ensures { result ≡ operand field }
{
    ValueType::new(field.element_type.unpack())
}

/// Returns the type of references to the type at this index, without null.
pub fn not_null(index: u32) -> ValueType
    ensures { result ≡ not_null index }
{
    ValueType::Ref {
        nullable: false,
        heap: Heap::Known(HeapType::Concrete(index)),
    }
}

fn is_defaultable(ty: ValType) -> bool
    ensures { result ≡ is_defaultable ty }
{
    match ty {
        ValType::Ref(ty) => ty.is_nullable(),
        ValType::I32 | ValType::I64 | ValType::F32 | ValType::F64 | ValType::V128 => true,
    }
}

/// Returns whether a field has a default value. Specification: Types, Defaultable Types.
pub fn has_default(field: FieldType) -> bool
    ensures { result ≡ has_default field }
{
    is_defaultable(field.element_type.unpack())
}

/// Returns whether a segment of data may fill elements of this type.
pub fn is_numeric(ty: StorageType) -> bool
    ensures { result ≡ is_numeric ty }
{
    match ty {
        StorageType::I8 | StorageType::I16 => true,
        StorageType::Val(ty) => match ty {
            ValType::Ref(_) => false,
            ValType::I32 | ValType::I64 | ValType::F32 | ValType::F64 | ValType::V128 => true,
        },
    }
}

/// Returns whether a storage type matches another. Specification: Matching, Storage Types.
pub fn storage_matches<M: ModuleContext>(context: &M, ty: StorageType, wanted: StorageType) -> bool
    ensures { result ≡ storage_matches (M.environment context.now).order ty wanted }
{
    match ty {
        StorageType::I8 => matches!(wanted, StorageType::I8),
        StorageType::I16 => matches!(wanted, StorageType::I16),
        StorageType::Val(ty) => match wanted {
            StorageType::Val(wanted) => matches(
                context,
                ValueType::new(ty),
                ValueType::new(wanted),
            ),
            StorageType::I8 | StorageType::I16 => false,
        },
    }
}

/// Returns whether elements of a segment may be elements of an array.
pub fn holds<M: ModuleContext>(context: &M, elements: FieldType, segment: RefType) -> bool
    ensures { result ≡ holds (M.environment context.now).order elements segment }
{
    storage_matches(
        context,
        StorageType::Val(ValType::Ref(segment)),
        elements.element_type,
    )
}

pub fn same(a: bool, b: bool) -> bool
    ensures { result ≡ same a b }
{
    if a { b } else { !b }
}
