ghost use Rattle.std.specs.Prelude.{◌≡◌};
ghost use Rattle.std.specs.Option.{option_map};
ghost use Rattle.wasm_typing.specs.Matching.{abstract_matches, same_flag, null_matches, is_least_of, kind_matches, heap_type_matches};
ghost use Rattle.wasm_check_control.specs.Environment.{composite_kind};

use crate::context::{CompositeKind, ModuleContext};
use wasm_below::{AbstractHeapType, HeapType};

fn same_flag(a: bool, b: bool) -> bool
    ensures { result ≡ same_flag a b }
{
    if a { b } else { !b }
}

/// Returns whether a reference with this nullability may be used as one with the other.
pub fn null_matches(nullable: bool, wanted: bool) -> bool
    ensures { result ≡ null_matches nullable wanted }
{
    if nullable { wanted } else { true }
}

fn abstract_matches(ty: AbstractHeapType, wanted: AbstractHeapType) -> bool
    ensures { result ≡ abstract_matches ty wanted }
{
    match ty {
        AbstractHeapType::Any => matches!(wanted, AbstractHeapType::Any),
        AbstractHeapType::Eq => matches!(wanted, AbstractHeapType::Eq | AbstractHeapType::Any),
        AbstractHeapType::I31 => matches!(
            wanted,
            AbstractHeapType::I31 | AbstractHeapType::Eq | AbstractHeapType::Any
        ),
        AbstractHeapType::Struct => matches!(
            wanted,
            AbstractHeapType::Struct | AbstractHeapType::Eq | AbstractHeapType::Any
        ),
        AbstractHeapType::Array => matches!(
            wanted,
            AbstractHeapType::Array | AbstractHeapType::Eq | AbstractHeapType::Any
        ),
        AbstractHeapType::None => matches!(
            wanted,
            AbstractHeapType::None
                | AbstractHeapType::I31
                | AbstractHeapType::Struct
                | AbstractHeapType::Array
                | AbstractHeapType::Eq
                | AbstractHeapType::Any
        ),
        AbstractHeapType::Func => matches!(wanted, AbstractHeapType::Func),
        AbstractHeapType::NoFunc => matches!(
            wanted,
            AbstractHeapType::NoFunc | AbstractHeapType::Func
        ),
        AbstractHeapType::Extern => matches!(wanted, AbstractHeapType::Extern),
        AbstractHeapType::NoExtern => matches!(
            wanted,
            AbstractHeapType::NoExtern | AbstractHeapType::Extern
        ),
        AbstractHeapType::Exn => matches!(wanted, AbstractHeapType::Exn),
        AbstractHeapType::NoExn => matches!(
            wanted,
            AbstractHeapType::NoExn | AbstractHeapType::Exn
        ),
        AbstractHeapType::Cont => matches!(wanted, AbstractHeapType::Cont),
        AbstractHeapType::NoCont => matches!(wanted, AbstractHeapType::NoCont),
    }
}

fn is_least_of(ty: AbstractHeapType, kind: Option<CompositeKind>) -> bool
    ensures { result ≡ is_least_of ty (option_map composite_kind kind) }
{
    match kind {
        Some(CompositeKind::Func) => matches!(ty, AbstractHeapType::NoFunc),
        Some(CompositeKind::Struct) => matches!(ty, AbstractHeapType::None),
        Some(CompositeKind::Array) => matches!(ty, AbstractHeapType::None),
        None => false,
    }
}

fn kind_matches(kind: Option<CompositeKind>, wanted: AbstractHeapType) -> bool
    ensures { result ≡ kind_matches (option_map composite_kind kind) wanted }
{
    match kind {
        Some(CompositeKind::Func) => abstract_matches(AbstractHeapType::Func, wanted),
        Some(CompositeKind::Struct) => abstract_matches(AbstractHeapType::Struct, wanted),
        Some(CompositeKind::Array) => abstract_matches(AbstractHeapType::Array, wanted),
        None => false,
    }
}

/// Returns whether a heap type matches another. Specification: Matching, Heap Types.
pub fn heap_type_matches<M: ModuleContext>(context: &M, ty: HeapType, wanted: HeapType) -> bool
    ensures { result ≡ heap_type_matches (M.environment context.now).order ty wanted }
{
    match ty {
        HeapType::Abstract { shared, ty } => match wanted {
            HeapType::Abstract {
                shared: other,
                ty: wanted,
            } => {
                if same_flag(shared, other) {
                    abstract_matches(ty, wanted)
                } else {
                    false
                }
            }
            HeapType::Concrete(index) => {
                if shared {
                    false
                } else {
                    is_least_of(ty, context.composite_kind(index))
                }
            }
            HeapType::Exact(_) => false,
        },
        HeapType::Concrete(index) => match wanted {
            HeapType::Abstract { shared, ty: wanted } => {
                if shared {
                    false
                } else {
                    kind_matches(context.composite_kind(index), wanted)
                }
            }
            HeapType::Concrete(other) => context.is_subtype(index, other),
            HeapType::Exact(_) => false,
        },
        HeapType::Exact(index) => match wanted {
            HeapType::Abstract { .. } => false,
            HeapType::Concrete(_) => false,
            HeapType::Exact(other) => index == other,
        },
    }
}
