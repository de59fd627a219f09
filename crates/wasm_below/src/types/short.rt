//! Heap types in four bytes, as reference types store them. So a value type takes six bytes, and
//! operators stay small.
ghost use Rattle.std.specs.Prelude.{◌≡◌, ◌<◌};
ghost use Rattle.wasm_below.specs.Reference.{FitsRefType};
ghost use Rattle.wasm_below.specs.ShortTypes.{heap_type_of};

use super::{AbstractHeapType, HeapType};
use std::marker::Model;

#[derive(Clone, Copy, PartialEq, Eq)]
pub struct ShortIndex {
    high: u8,
    middle: u8,
    low: u8,
}

impl Model for ShortIndex {
    ghost use Rattle.std.specs.Prelude.{ℕ, ◌+◌, ◌*◌, ◌/◌, ◌%◌, ◌<◌};
    ghost use Rattle.std.proofs.Common.{ap, ◌∙◌};
    ghost use Rattle.std.proofs.lemmas.Nat.{div-mul-add, mod-mul-add};

    ghost Value = { ℕ };

    ghost view = { λ i. (i.high * 256 + i.middle) * 256 + i.low };

    ghost invariant = { λ i. (i.middle < 256) × (i.low < 256) };

    ghost inverse = { λ n. record { high = n / 256 / 256; middle = n / 256 % 256; low = n % 256 } };

    ghost inverse_ok = { λ i h j. record {
      high = (ap (λ n. n / 256) (div-mul-add (i.high * 256 + i.middle) 256 i.low h.1) ∙ div-mul-add i.high 256 i.middle h.0) j;
      middle = (ap (λ n. n % 256) (div-mul-add (i.high * 256 + i.middle) 256 i.low h.1) ∙ mod-mul-add i.high 256 i.middle h.0) j;
      low = mod-mul-add (i.high * 256 + i.middle) 256 i.low h.1 j;
    } };
}

impl ShortIndex {
    #[inline(always)]
    fn new(index: u32) -> ShortIndex
        requires { index < 16777216 }
        ensures { result ≡ index }
    {
        let upper = index / 256;
        ShortIndex {
            high: (upper / 256) as u8,
            middle: (upper % 256) as u8,
            low: (index % 256) as u8,
        }
    }

    #[inline(always)]
    fn index(self) -> u32
        ensures { result ≡ self }
    {
        (u32::from(self.high) * 256 + u32::from(self.middle)) * 256 + u32::from(self.low)
    }
}

/// A heap type whose index, if it has one, is at most 1048575.
#[derive(Clone, Copy, PartialEq, Eq)]
pub enum ShortHeapType {
    Abstract { shared: bool, ty: AbstractHeapType },
    Concrete(ShortIndex),
    Exact(ShortIndex),
}

impl ShortHeapType {
    #[inline(always)]
    pub fn new(heap_type: HeapType) -> ShortHeapType
        requires { FitsRefType heap_type }
        ensures { heap_type_of result ≡ heap_type }
    {
        match heap_type {
            HeapType::Abstract { shared, ty } => ShortHeapType::Abstract { shared, ty },
            HeapType::Concrete(index) => ShortHeapType::Concrete(ShortIndex::new(index)),
            HeapType::Exact(index) => ShortHeapType::Exact(ShortIndex::new(index)),
        }
    }

    #[inline(always)]
    pub fn heap_type(self) -> HeapType
        ensures { result ≡ heap_type_of self }
    {
        match self {
            ShortHeapType::Abstract { shared, ty } => HeapType::Abstract { shared, ty },
            ShortHeapType::Concrete(index) => HeapType::Concrete(index.index()),
            ShortHeapType::Exact(index) => HeapType::Exact(index.index()),
        }
    }
}
