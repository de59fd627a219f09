ghost use Rattle.std.specs.Prelude.{◌≡◌, true, false};
ghost use Rattle.wasm_typing.specs.Matching.{matches, defined, abstract};
ghost use Rattle.wasm_check_control.specs.Environment.{table_of};
ghost use Rattle.wasm_check_operators.specs.Tables.{both};
ghost use Rattle.wasm_check_operators.specs.Forms.{address_value, address, reference, func_ref};

use wasm_below::{AbstractHeapType, HeapType, RefType, ValType};
use wasm_check_control::{ModuleContext, TableType, matches};
use wasm_typing::{Heap, ValueType};

/// Returns the type of addresses.
pub fn address(is_64: bool) -> ValueType
    ensures { result ≡ address is_64 }
{
    if is_64 {
        return ValueType::I64;
    }
    ValueType::I32
}

/// Returns the type of addresses, as a module contains it.
pub fn address_value(is_64: bool) -> ValType
    ensures { result ≡ address_value is_64 }
{
    if is_64 {
        return ValType::I64;
    }
    ValType::I32
}

/// Returns whether both addresses are `i64`.
pub fn both(a: bool, b: bool) -> bool
    ensures { result ≡ both a b }
{
    if a {
        return b;
    }
    false
}

/// Returns the type of the references of a module.
pub fn reference(ty: RefType) -> ValueType
    ensures { result ≡ reference ty }
{
    ValueType::Ref {
        nullable: ty.is_nullable(),
        heap: Heap::Known(ty.heap_type()),
    }
}

/// Returns the type of references to the type at this index, and of null.
pub fn nullable(index: u32) -> ValueType
    ensures { result ≡ ValueType.Ref true (defined index) }
{
    ValueType::Ref {
        nullable: true,
        heap: Heap::Known(HeapType::Concrete(index)),
    }
}

/// Returns the type of references of an abstract type, and of null.
pub fn abstract_type(ty: AbstractHeapType) -> ValueType
    ensures { result ≡ ValueType.Ref true (abstract false ty) }
{
    ValueType::Ref {
        nullable: true,
        heap: Heap::Known(HeapType::Abstract { shared: false, ty }),
    }
}

/// Returns whether a table has functions.
pub fn has_functions<M: ModuleContext>(context: &M, table: &TableType) -> bool
    ensures { result ≡ matches (M.environment context.now).order (reference (table_of table.now).element) func_ref }
{
    matches(
        context,
        reference(table.element_type),
        abstract_type(AbstractHeapType::Func),
    )
}
