//! Parts of types for which there are no rules.
ghost use Rattle.std.specs.Prelude.{◌≡◌, Option};
ghost use Rattle.wasm_context.specs.Unsupported as parts;
ghost use Rattle.wasm_context.specs.declared.unsupported.Unsupported as declared;

use wasm_below::{AbstractHeapType, HeapType, ValType};
use wasm_types::{CompositeInnerType, CompositeType, FieldType, StorageType, SubType};

/// A part of a type that belongs to a proposal without rules here.
#[derive(Clone, Copy, Debug, PartialEq, Eq)]
pub enum Unsupported {
    /// A composite type that is shared between threads.
    SharedType,
    /// A reference to an abstract heap type that is shared between threads.
    SharedReference,
    /// A table that is shared between threads.
    SharedTable,
    /// A global that is shared between threads.
    SharedGlobal,
    /// A reference to exactly a type. Proposal: custom descriptors.
    ExactReference,
    /// The type of a continuation. Proposal: stack switching.
    ContinuationType,
    /// A reference to a continuation.
    ContinuationReference,
}

/// A type that may have a part that is not supported.
pub trait Part {
    ghost unsupported: { Self → Option declared.Unsupported };

    fn unsupported(&self) -> Option<Unsupported>
        ensures { result ≡ unsupported self.now };
}

fn or_next(first: Option<Unsupported>, second: Option<Unsupported>) -> Option<Unsupported>
    ensures { result ≡ parts.or_next first second }
{
    match first {
        Some(what) => Some(what),
        None => second,
    }
}

/// Returns the first part of these types that is not supported.
pub fn first_unsupported<T: Part>(types: &[T]) -> Option<Unsupported>
    ensures { result ≡ parts.first_unsupported T.unsupported types.now }
{
    for ty in types {
        if let Some(what) = ty.unsupported() {
            return Some(what);
        }
    }
    None
}

impl Part for HeapType {
    ghost unsupported = { parts.unsupported_heap };

    fn unsupported(&self) -> Option<Unsupported> {
        match *self {
            HeapType::Abstract { shared, ty } => {
                if shared {
                    return Some(Unsupported::SharedReference);
                }
                match ty {
                    AbstractHeapType::Cont | AbstractHeapType::NoCont => {
                        Some(Unsupported::ContinuationReference)
                    }
                    _ => None,
                }
            }
            HeapType::Concrete(_) => None,
            HeapType::Exact(_) => Some(Unsupported::ExactReference),
        }
    }
}

impl Part for ValType {
    ghost unsupported = { parts.unsupported_value };

    fn unsupported(&self) -> Option<Unsupported> {
        match *self {
            ValType::Ref(ty) => ty.heap_type().unsupported(),
            ValType::I32 | ValType::I64 | ValType::F32 | ValType::F64 | ValType::V128 => None,
        }
    }
}

impl Part for FieldType {
    ghost unsupported = { parts.unsupported_field };

    fn unsupported(&self) -> Option<Unsupported> {
        match self.element_type {
            StorageType::Val(ty) => ty.unsupported(),
            StorageType::I8 | StorageType::I16 => None,
        }
    }
}

impl Part for CompositeType {
    ghost unsupported = { parts.unsupported_composite };

    fn unsupported(&self) -> Option<Unsupported> {
        if self.shared {
            return Some(Unsupported::SharedType);
        }
        match &self.inner {
            CompositeInnerType::Func(ty) => {
                let params = first_unsupported(ty.params());
                or_next(params, first_unsupported(ty.results()))
            }
            CompositeInnerType::Array(ty) => ty.0.unsupported(),
            CompositeInnerType::Struct(ty) => first_unsupported(ty.fields.as_slice()),
            CompositeInnerType::Cont(_) => Some(Unsupported::ContinuationType),
        }
    }
}

impl Part for SubType {
    ghost unsupported = { parts.unsupported_type };

    fn unsupported(&self) -> Option<Unsupported> {
        self.composite_type.unsupported()
    }
}
