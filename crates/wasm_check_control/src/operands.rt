ghost use Rattle.std.specs.Prelude.{◌≡◌, ◌↔◌, [], ◌∷◌, OnOk, OnErr, IsTrue};
ghost use Rattle.wasm_typing.specs.Rules.{at};
ghost use Rattle.wasm_check_control.specs.Segments.{innermost, outer, with_innermost, Popped, PoppedSame};

use crate::value_matches::same_number;
use std::alloc::{AllocError, Global};
use std::marker::Model;
use wasm_typing::ValueType;

/// The types of operands, in one segment for each control frame.
#[derive(Drop)]
pub struct Operands {
    items: Vec<ValueType>,
    floor: Option<usize>,
    outer: Vec<usize>,
}

impl Model for Operands {
    ghost use Rattle.std.specs.Prelude.{List, length, reverse};
    ghost use Rattle.wasm_typing.specs.Types.{Stack};
    ghost use Rattle.wasm_check_control.specs.Segments.{segments, floors_of, AreFloors, IsAlone};

    ghost Value = { List Stack };

    ghost view = { λ s. segments (floors_of s.floor s.outer.items) (reverse s.items.items) };

    ghost invariant = { λ s. AreFloors (floors_of s.floor s.outer.items) (length (reverse s.items.items)) × IsAlone s.floor s.outer.items };
}

impl Operands {
    /// Creates a stack without segments.
    pub fn new(alloc: Global) -> Operands
        ensures { result ≡ [] }
    {
        Operands {
            items: Vec::new(alloc),
            floor: None,
            outer: Vec::new(alloc),
        }
    }

    /// Adds an operand on top of the innermost segment.
    #[inline(always)]
    pub fn push(&mut self, ty: ValueType) -> Result<(), AllocError>
        ensures pushed { OnOk result (self.new ≡ with_innermost (ty ∷ innermost self.old) self.old) }
        ensures unchanged { OnErr result (self.new ≡ self.old) }
    {
        self.items.push(ty)?;
        Ok(())
    }

    /// Removes the operand on top of the innermost segment.
    #[inline(always)]
    pub fn pop(&mut self) -> Option<ValueType>
        ensures { Popped result self.old self.new }
    {
        let Some(floor) = self.floor else {
            return None;
        };
        if self.items.len() <= floor {
            return None;
        }
        self.items.pop()
    }

    /// Removes the operand on top of the innermost segment if it has this type, and this is a number
    /// type or `v128`. Returns whether it does.
    #[inline(always)]
    pub fn pop_same(&mut self, ty: &ValueType) -> bool
        ensures { PoppedSame result ty.now self.old self.new }
    {
        let Some(top) = self.peek(0) else {
            return false;
        };
        if !same_number(&top, ty) {
            return false;
        }
        self.pop();
        true
    }

    /// Returns the operand of the innermost segment that has `depth` operands above it.
    #[inline(always)]
    pub fn peek(&self, depth: usize) -> Option<ValueType>
        ensures { result ≡ at (innermost self.now) depth }
    {
        let Some(floor) = self.floor else {
            return None;
        };
        if depth >= self.items.len() - floor {
            return None;
        }
        Some(self.items[self.items.len() - 1 - depth])
    }

    /// Returns whether the innermost segment is empty.
    #[inline(always)]
    pub fn is_empty(&self) -> bool
        ensures { IsTrue result ↔ (innermost self.now ≡ []) }
    {
        match self.floor {
            Some(floor) => self.items.len() <= floor,
            None => true,
        }
    }

    /// Opens an empty segment.
    pub fn open(&mut self) -> Result<(), AllocError>
        ensures opened { OnOk result (self.new ≡ [] ∷ self.old) }
        ensures unchanged { OnErr result (self.new ≡ self.old) }
    {
        if let Some(floor) = self.floor {
            self.outer.push(floor)?;
        }
        self.floor = Some(self.items.len());
        Ok(())
    }

    /// Removes the innermost segment with its operands.
    pub fn close(&mut self)
        ensures { self.new ≡ outer self.old }
    {
        if let Some(floor) = self.floor {
            self.items.truncate(floor);
            self.floor = self.outer.pop();
        }
    }

    /// Removes the operands of the innermost segment.
    pub fn clear(&mut self)
        ensures { self.new ≡ with_innermost [] self.old }
    {
        if let Some(floor) = self.floor {
            self.items.truncate(floor);
        }
    }
}
