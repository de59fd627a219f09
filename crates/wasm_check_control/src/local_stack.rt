//! Locals, in the order in which they are set.
ghost use Rattle.std.specs.Prelude.{◌≡◌, ℕ, ◌<◌, ◌≤◌, [], ◌∷◌, ◌++◌, length, take, get_or, reverse, OnOk, OnErr};
ghost use Rattle.wasm_typing.specs.Rules.{is_member};
ghost use Rattle.wasm_check_control.specs.SetLocals.{ArePlaced};

use std::alloc::{AllocError, Global};
use std::marker::Model;

/// Locals, the last on top. Each has a place in the list, so that the test whether it is there takes
/// constant time. After `truncate`, places past the end mean nothing.
#[derive(Drop)]
pub struct LocalStack {
    locals: Vec<u32>,
    places: Vec<usize>,
}

impl Model for LocalStack {
    ghost use Rattle.std.specs.Prelude.{ℕ, List};
    ghost use Rattle.wasm_check_control.specs.SetLocals.{ArePlaced};

    ghost Value = { List ℕ };

    ghost view = { λ s. s.locals.items };

    ghost invariant = { λ s. ArePlaced s.locals.items s.places.items };
}

/// Appends zeros until there is a place for a local.
fn lengthen(places: &mut Vec<usize>, local: u32) -> Result<(), AllocError>
    ensures kept { (i : ℕ) → get_or places.new.items i 0 ≡ get_or places.old.items i 0 }
    ensures grown { length places.old.items ≤ length places.new.items }
    ensures long { OnOk result (local < length places.new.items) }
{
    'grow: while places.len() <= local as usize {
        places.push(0)?;
    }
    Ok(())
}

/// Returns whether a local is in a list in which each has a place.
fn is_placed(locals: &[u32], places: &[usize], local: u32) -> bool
    requires { ArePlaced locals.now places.now }
    ensures { result ≡ is_member local (reverse locals.now) }
{
    if local as usize >= places.len() {
        return false;
    }
    let place = places[local as usize];
    if place >= locals.len() {
        return false;
    }
    locals[place] == local
}

impl LocalStack {
    pub fn new(alloc: Global) -> LocalStack
        ensures { result ≡ [] }
    {
        LocalStack {
            locals: Vec::new(alloc),
            places: Vec::new(alloc),
        }
    }

    pub fn len(&self) -> usize
        ensures { result ≡ length self.now }
    {
        self.locals.len()
    }

    /// Returns whether a local is in the list.
    pub fn contains(&self, local: u32) -> bool
        ensures { result ≡ is_member local (reverse self.now) }
    {
        is_placed(self.locals.as_slice(), self.places.as_slice(), local)
    }

    pub fn push(&mut self, local: u32) -> Result<(), AllocError>
        ensures added { OnOk result (self.new ≡ self.old ++ local ∷ []) }
        ensures unchanged { OnErr result (self.new ≡ self.old) }
    {
        if self.contains(local) {
            self.locals.push(local)?;
            return Ok(());
        }
        lengthen(&mut self.places, local)?;
        let place = self.locals.len();
        self.locals.push(local)?;
        self.places[local as usize] = place;
        Ok(())
    }

    /// Removes locals from the top until `count` are left.
    pub fn truncate(&mut self, count: usize)
        ensures { self.new ≡ take count self.old }
    {
        self.locals.truncate(count);
    }

    pub fn clear(&mut self)
        ensures { self.new ≡ [] }
    {
        self.locals.clear();
    }
}
