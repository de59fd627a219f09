ghost use Rattle.std.specs.Prelude.{◌≡◌, [], ◌∷◌, OnOk, OnErr, if◌then◌else◌};
ghost use Rattle.wasm_typing.specs.Rules.{is_member};
ghost use Rattle.wasm_check_control.specs.SetLocals.{set_now, set_outside, set_also};

use crate::local_stack::LocalStack;
use std::alloc::{AllocError, Global};
use std::marker::Model;

/// The locals that operators set, for each control frame. Specification: Appendix, Validation
/// Algorithm.
#[derive(Drop)]
pub struct SetLocals {
    locals: LocalStack,
    heights: Vec<usize>,
}

impl Model for SetLocals {
    ghost use Rattle.std.specs.Prelude.{ℕ, List, reverse};
    ghost use Rattle.wasm_check_control.specs.SetLocals.{set_lists, AreHeights};

    ghost Value = { List (List ℕ) };

    ghost view = { λ s. set_lists (reverse s.heights.items) (reverse s.locals) };

    ghost invariant = { λ s. AreHeights (reverse s.heights.items) (reverse s.locals) };
}

impl SetLocals {
    /// Creates a list of no frames.
    pub fn new(alloc: Global) -> SetLocals
        ensures { result ≡ [] }
    {
        SetLocals {
            locals: LocalStack::new(alloc),
            heights: Vec::new(alloc),
        }
    }

    /// Returns whether a local is set in the innermost frame.
    pub fn contains(&self, local: u32) -> bool
        ensures { result ≡ is_member local (set_now self.now) }
    {
        self.locals.contains(local)
    }

    /// Sets a local in the innermost frame.
    pub fn add(&mut self, local: u32) -> Result<(), AllocError>
        ensures added { OnOk result (self.new ≡ set_also local self.old) }
        ensures unchanged { OnErr result (self.new ≡ self.old) }
    {
        if self.heights.is_empty() {
            return self.add_first(local);
        }
        self.locals.push(local)?;
        Ok(())
    }

    /// Opens a frame, and sets a local in it.
    fn add_first(&mut self, local: u32) -> Result<(), AllocError>
        ensures added { OnOk result (self.new ≡ (local ∷ set_now self.old) ∷ self.old) }
        ensures unchanged { OnErr result (self.new ≡ self.old) }
    {
        self.open()?;
        if self.locals.push(local).is_err() {
            self.close();
            return Err(AllocError);
        }
        Ok(())
    }

    /// Opens a frame, in which the locals of the frame around it are set.
    pub fn open(&mut self) -> Result<(), AllocError>
        ensures opened { OnOk result (self.new ≡ set_now self.old ∷ self.old) }
        ensures unchanged { OnErr result (self.new ≡ self.old) }
    {
        self.heights.push(self.locals.len())?;
        Ok(())
    }

    /// Closes the innermost frame. The locals that it set are not set after it.
    pub fn close(&mut self)
        ensures { self.new ≡ set_outside self.old }
    {
        if let Some(height) = self.heights.pop() {
            self.locals.truncate(height);
        }
    }

    /// Closes the innermost frame, or all frames.
    pub fn close_or_clear(&mut self, all: bool)
        ensures { self.new ≡ (if all then [] else set_outside self.old) }
    {
        if all {
            self.clear();
            return;
        }
        self.close();
    }

    /// Removes all frames.
    pub fn clear(&mut self)
        ensures { self.new ≡ [] }
    {
        self.locals.clear();
        self.heights.clear();
    }
}
