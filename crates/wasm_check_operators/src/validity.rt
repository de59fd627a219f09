ghost use Rattle.std.specs.Prelude.{◌≡◌};
ghost use Rattle.wasm_check_operators.specs.Forms.{is_valid, is_valid_heap};

use wasm_below::{AbstractHeapType, HeapType};
use wasm_check_control::ModuleContext;
use wasm_typing::{Heap, ValueType};

/// Returns whether a heap type is valid. Specification: Types, Heap Types.
pub fn is_valid_heap<M: ModuleContext>(context: &M, ty: HeapType) -> bool
    ensures { result ≡ is_valid_heap (M.environment context.now).order ty }
{
    match ty {
        HeapType::Abstract { shared, ty } => {
            if shared {
                return false;
            }
            match ty {
                AbstractHeapType::Cont | AbstractHeapType::NoCont => false,
                AbstractHeapType::Func
                | AbstractHeapType::Extern
                | AbstractHeapType::Any
                | AbstractHeapType::None
                | AbstractHeapType::NoExtern
                | AbstractHeapType::NoFunc
                | AbstractHeapType::Eq
                | AbstractHeapType::Struct
                | AbstractHeapType::Array
                | AbstractHeapType::I31
                | AbstractHeapType::Exn
                | AbstractHeapType::NoExn => true,
            }
        }
        HeapType::Concrete(index) => context.composite_kind(index).is_some(),
        HeapType::Exact(_) => false,
    }
}

/// Returns whether a value type is valid. Specification: Types, Value Types.
pub fn is_valid<M: ModuleContext>(context: &M, ty: ValueType) -> bool
    ensures { result ≡ is_valid (M.environment context.now).order ty }
{
    match ty {
        ValueType::Ref {
            heap: Heap::Known(ty),
            ..
        } => is_valid_heap(context, ty),
        ValueType::Ref {
            heap: Heap::Unknown,
            ..
        }
        | ValueType::Bottom
        | ValueType::I32
        | ValueType::I64
        | ValueType::F32
        | ValueType::F64
        | ValueType::V128 => true,
    }
}
