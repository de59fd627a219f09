ghost use Rattle.std.specs.Prelude.{◌≡◌, IsTrue, ◌↔◌, IsSome, IfSome};
ghost use Rattle.wasm_below.specs.Reference.{FitsRefType};

use std::fmt::{self, Debug, Formatter};
use std::marker::Model;

mod reading;
mod short;

use short::ShortHeapType;

const MAX_TYPE_INDEX: u32 = 1048575;

/// Specification: Types, Value Types.
#[derive(Clone, Copy, Debug, PartialEq, Eq)]
pub enum ValType {
    I32,
    I64,
    F32,
    F64,
    V128,
    Ref(RefType),
}

/// A heap type without a type index. Specification: Types, Heap Types.
#[derive(Clone, Copy, Debug, PartialEq, Eq)]
pub enum AbstractHeapType {
    Func,
    Extern,
    Any,
    None,
    NoExtern,
    NoFunc,
    Eq,
    Struct,
    Array,
    I31,
    Exn,
    NoExn,
    Cont,
    NoCont,
}

/// The type of what a reference refers to. Specification: Types, Heap Types.
#[derive(Clone, Copy, Debug, PartialEq, Eq)]
pub enum HeapType {
    /// An abstract heap type, shared between threads or not.
    Abstract { shared: bool, ty: AbstractHeapType },
    /// The type with this index, or a subtype of it.
    Concrete(u32),
    /// The type with this index only.
    Exact(u32),
}

/// A reference type, in five bytes. A type index is at most 1048575. Specification: Types,
/// Reference Types.
#[derive(Clone, Copy, PartialEq, Eq)]
pub struct RefType {
    nullable: bool,
    heap_type: ShortHeapType,
}

impl Model for RefType {
    ghost use Rattle.wasm_below.specs.Reference.{Reference, FitsRefType};
    ghost use Rattle.wasm_below.specs.ShortTypes.{heap_type_of, short_of, held_again};

    ghost Value = { Reference };

    ghost view = { λ r. record { nullable = r.nullable; heap_type = heap_type_of r.heap_type } };

    ghost invariant = { λ r. FitsRefType (heap_type_of r.heap_type) };

    ghost inverse = { λ r. record { nullable = r.nullable; heap_type = short_of r.heap_type } };

    ghost inverse_ok = { λ r h i. record { nullable = r.nullable; heap_type = held_again r.heap_type i } };
}

impl Debug for RefType {
    fn fmt<W: fmt::Write>(&self, f: &mut Formatter<W>) -> fmt::Result {
        f.debug_struct("RefType")
            .field("nullable", &self.nullable)
            .field("heap_type", &self.heap_type())
            .finish()
    }
}

impl RefType {
    /// Returns `None` if a type index is above 1048575.
    pub fn new(nullable: bool, heap_type: HeapType) -> Option<RefType>
        ensures some { IsSome result ↔ FitsRefType heap_type }
        ensures value { IfSome result (λ r. (r.nullable ≡ nullable) × (r.heap_type ≡ heap_type)) }
    {
        if fits_ref_type(heap_type) {
            Some(RefType::of(nullable, heap_type))
        } else {
            None
        }
    }

    #[inline(always)]
    fn of(nullable: bool, heap_type: HeapType) -> RefType
        requires { FitsRefType heap_type }
        ensures nullable { result.nullable ≡ nullable }
        ensures referred { result.heap_type ≡ heap_type }
    {
        RefType {
            nullable,
            heap_type: ShortHeapType::new(heap_type),
        }
    }

    pub fn is_nullable(&self) -> bool
        ensures { result ≡ self.now.nullable }
    {
        self.nullable
    }

    pub fn heap_type(&self) -> HeapType
        ensures value { result ≡ self.now.heap_type }
        ensures fits { FitsRefType result }
    {
        self.heap_type.heap_type()
    }
}

fn fits_ref_type(heap_type: HeapType) -> bool
    ensures { IsTrue result ↔ FitsRefType heap_type }
{
    match heap_type {
        HeapType::Abstract { .. } => true,
        HeapType::Concrete(index) | HeapType::Exact(index) => index <= MAX_TYPE_INDEX,
    }
}
