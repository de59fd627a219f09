//! A vector of items whose number is known only when all are read.
ghost use Rattle.std.specs.Prelude.{◌≡◌, ◌+◌, ◌<◌, ◌++◌, ◌∷◌, [], length, max, set, is_ok, if◌then◌else◌, OnOk, OnErr, vec_capacity};
ghost use Rattle.wasm_module.specs.Growth.{DoublesIfFull};

use std::alloc::{AllocError, Global};
use std::marker::Model;

/// The capacity of the first allocation.
const LEAST: usize = 4;

/// A vector that allocates only for items that it contains. Its capacity is at most twice its
/// length, plus 4, so a count that the bytes declare can't make it large.
#[derive(Debug, Drop)]
pub struct GrowingVec<T> {
    items: Vec<T>,
}

impl<T> Model for GrowingVec<T> {
    ghost use Rattle.std.specs.Prelude.{vec_capacity};
    ghost use Rattle.wasm_module.specs.Growth.{Growing, HasLittleSpace};

    ghost Value = { Growing T };

    ghost view = { λ v. record { items = v.items.items; capacity = vec_capacity v.items } };

    ghost invariant = { λ v. HasLittleSpace v.items.items (vec_capacity v.items) };
}

impl<T> GrowingVec<T> {
    /// Creates an empty vector, without allocating.
    pub fn new(alloc: Global) -> GrowingVec<T>
        ensures items { result.items ≡ [] }
        ensures capacity { result.capacity ≡ 0 }
    {
        GrowingVec {
            items: Vec::new(alloc),
        }
    }

    pub fn len(&self) -> usize
        ensures { result ≡ length self.now.items }
    {
        self.items.len()
    }

    pub fn as_slice(&self) -> &[T]
        ensures { result.now ≡ self.now.items }
    {
        self.items.as_slice()
    }
}

impl<T: Copy + Drop> GrowingVec<T> {
    /// Appends an item. Allocates only if the capacity is used up, and then doubles it, from 4 on.
    pub fn push(&mut self, item: T) -> Result<(), AllocError>
        ensures items { self.new.items ≡ (if is_ok result then self.old.items ++ item ∷ [] else self.old.items) }
        ensures full { OnErr result (self.old.capacity ≡ length self.old.items) }
        ensures grows { DoublesIfFull self.old self.new }
    {
        if self.items.len() == self.items.capacity() && double(&mut self.items).is_err() {
            return Err(AllocError);
        }
        self.items.push_reserved(item);
        Ok(())
    }

    pub fn set(&mut self, index: usize, item: T)
        requires { index < length self.old.items }
        ensures items { self.new.items ≡ set self.old.items index item }
        ensures capacity { self.new.capacity ≡ self.old.capacity }
    {
        self.items[index] = item;
    }
}

/// Doubles the capacity of a vector without capacity left, or adds `LEAST` if that is more.
#[cold]
#[inline(never)]
fn double<T>(items: &mut Vec<T>) -> Result<(), AllocError>
    ensures items { items.new.items ≡ items.old.items }
    ensures capacity { OnOk result (vec_capacity items.new ≡ max (vec_capacity items.old) (length items.old.items + max (length items.old.items) LEAST)) }
    ensures refused { OnErr result (vec_capacity items.new ≡ vec_capacity items.old) }
{
    items.try_reserve_exact(items.len().max(LEAST))
}
