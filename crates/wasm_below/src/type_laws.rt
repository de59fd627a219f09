//! Laws of types: encodings are prefix codes, faults determine errors, `==` is exact, and reading
//! does not allocate. For heap types, `FromReader::is_prefix_code` states the first.
ghost use Rattle.std.specs.Prelude.{◌≡◌, false};
ghost use Rattle.wasm_below.specs.Sequence.{PrefixCode};
ghost use Rattle.wasm_below.specs.Equality.{IsExact};
ghost use Rattle.wasm_below.specs.TypeEncoding.{EncodesRefType, EncodesValType, HeapTypeFault, RefTypeFault, ValTypeFault};
ghost use Rattle.wasm_below.specs.Fault.{DeterminesRefusal};

use crate::memory_use::TakesMemory;
use crate::types::{HeapType, RefType, ValType};

pub fn reference_types()
    ensures { PrefixCode EncodesRefType }
{}

pub fn value_types()
    ensures { PrefixCode EncodesValType }
{}

pub fn type_refusals()
    ensures heap { DeterminesRefusal HeapTypeFault }
    ensures reference { DeterminesRefusal RefTypeFault }
    ensures value { DeterminesRefusal ValTypeFault }
{}

pub fn equality()
    ensures heap { IsExact ⟦<HeapType as PartialEq>⟧.eq }
    ensures reference { IsExact ⟦<RefType as PartialEq>⟧.eq }
    ensures value { IsExact ⟦<ValType as PartialEq>⟧.eq }
{}

/// `TAKES_MEMORY` of each type that this crate reads.
pub fn memory_use()
    ensures number { ⟦<u32 as TakesMemory>⟧.TAKES_MEMORY ≡ false }
    ensures heap { ⟦<HeapType as TakesMemory>⟧.TAKES_MEMORY ≡ false }
    ensures reference { ⟦<RefType as TakesMemory>⟧.TAKES_MEMORY ≡ false }
    ensures value { ⟦<ValType as TakesMemory>⟧.TAKES_MEMORY ≡ false }
{}
