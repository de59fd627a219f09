ghost use Rattle.std.specs.Prelude.{◌≡◌, ◌↔◌, ◌<◌, ◌^◌, [], length, IsTrue, IfOk, IfErr, Ok, option_copied, slice_get, slice_index_or};
ghost use Rattle.std.specs.Slice.Iter.{iter_rest};
ghost use Rattle.std.specs.Iterator.Adapters.{IterYieldsInOrder};
ghost use Rattle.wasm_imm.specs.OutOfMemory.{IsOutOfMemoryAt};

use crate::handlers::{Catch, Handle};
use std::alloc::Global;
use std::marker::Model;
use std::ops::Index;
use std::slice::Iter;
use wasm_below::{Error, Message, Result, ValType};

/// A list that owns its memory; in contracts, a plain list.
#[derive(Debug, Drop)]
pub struct Members<T> {
    items: Vec<T>,
}

pub type SelectTypes = Members<ValType>;

pub type Catches = Members<Catch>;

pub type Handles = Members<Handle>;

impl<T> Model for Members<T> {
    ghost use Rattle.std.specs.Prelude.{List};

    ghost Value = { List T };

    ghost view = { λ m. m.items.items };
}

impl<T> Members<T> {
    /// Converts a vector without allocating.
    pub fn from_vec(items: Vec<T>) -> Members<T>
        ensures { result ≡ items.items }
    {
        Members { items }
    }

    /// Converts to a vector without allocating.
    pub fn into_vec(self) -> Vec<T>
        ensures { result.items ≡ self }
    {
        let Members { items } = self;
        items
    }

    pub fn as_slice(&self) -> &[T]
        ensures { result.now ≡ self.now }
    {
        self.items.as_slice()
    }

    pub fn len(&self) -> usize
        ensures { result ≡ length self.now }
    {
        self.items.len()
    }

    pub fn get(&self, index: usize) -> Option<&T>
        ensures { option_copied result ≡ slice_get self.now index }
    {
        self.items.as_slice().get(index)
    }

    pub fn iter(&self) -> Iter<'_, T>
        ensures rest { iter_rest result ≡ self.now }
        ensures runs { IterYieldsInOrder T }
    {
        self.items.as_slice().iter()
    }

    pub fn is_empty(&self) -> bool
        ensures { IsTrue result ↔ (self.now ≡ []) }
    {
        self.items.is_empty()
    }
}

impl<T> From<Vec<T>> for Members<T> {
    ghost from_gives = { λ items members. members ≡ items.items };

    fn from(items: Vec<T>) -> Members<T> {
        Members::from_vec(items)
    }
}

impl<T> Index<usize> for Members<T> {
    type Output = T;

    ghost can_index = { λ members index. index < length members };

    ghost index_gives = { λ members index item. item ≡ slice_index_or members index item };

    fn index(&self, index: usize) -> &T {
        &self.as_slice()[index]
    }
}

impl<'a, T> IntoIterator for &'a Members<T> {
    type Item = &'a T;

    type IntoIter = Iter<'a, T>;

    ghost into_iter_gives = { λ members items. (iter_rest items ≡ members.now) × (length (iter_rest items) < 2 ^ 64)
        × IterYieldsInOrder T };

    fn into_iter(self) -> Iter<'a, T> {
        self.as_slice().iter()
    }
}

impl<T: Copy + Drop> Members<T> {
    pub fn clone(&self, alloc: Global) -> Result<Members<T>>
        ensures ok { IfOk result (λ copy. copy ≡ self.now) }
        ensures err { IfErr result (λ e. IsOutOfMemoryAt 0 e) }
    {
        let mut items = match Vec::with_capacity(alloc, self.items.len()) {
            Ok(items) => items,
            Err(_) => return Err(Error::new(Message::OutOfMemory, 0)),
        };
        for item in self.items.as_slice() {
            items.push(*item).unwrap();
        }
        Ok(Members { items })
    }
}

impl<T: PartialEq> PartialEq for Members<T> {
    ghost use Rattle.std.specs.Cmp.Lexicographic.{pointwise, lists_per};

    ghost eq = { λ a b. pointwise T.eq a b };

    ghost laws = { lists_per T.PartialEq.laws };

    fn eq(&self, other: &Members<T>) -> bool {
        self.items == other.items
    }
}

impl<T: Eq> Eq for Members<T> {
    ghost use Rattle.std.specs.Cmp.Lexicographic.{lists_equiv};

    ghost laws = { lists_equiv T.Eq.laws };
}
