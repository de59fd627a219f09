//! The names of exports.
ghost use Rattle.std.specs.Prelude.{◌≡◌, [], length, OnOk, IfErr};
ghost use Rattle.wasm_context.specs.Names.{has_name, with_name};
ghost use Rattle.wasm_context.specs.declared.error.ContextError.TheVariants as context_error;

use crate::error::ContextError;
use std::alloc::Global;
use std::collections::BTreeSet;
use std::marker::Model;

/// Names that differ; in contracts, the list of their bytes, in the order of the bytes.
#[derive(Drop)]
pub struct Names {
    names: BTreeSet<String>,
}

impl Model for Names {
    ghost use Rattle.std.specs.Prelude.{ℕ, List, map};
    ghost use Rattle.std.specs.String.{string_bytes};

    ghost Value = { List (List ℕ) };

    ghost view = { λ n. map string_bytes n.names.keys };
}

impl Names {
    /// Creates a set of no names.
    pub fn new(alloc: Global) -> Names
        ensures { result ≡ [] }
    {
        Names {
            names: BTreeSet::new(alloc),
        }
    }

    pub fn len(&self) -> usize
        ensures { result ≡ length self.now }
    {
        self.names.len()
    }

    pub fn contains(&self, name: &str) -> bool
        ensures { result ≡ has_name self.now name.now }
    {
        self.names.contains(name)
    }

    /// Adds a name.
    pub fn insert(&mut self, alloc: Global, name: &str) -> Result<(), ContextError>
        ensures added { OnOk result (self.new ≡ with_name self.old name.now) }
        ensures memory { IfErr result (λ e. e ≡ context_error.OutOfMemory) }
        ensures unchanged { IfErr result (λ e. self.new ≡ self.old) }
    {
        let Ok(name) = String::from_str(alloc, name) else {
            return Err(ContextError::OutOfMemory);
        };
        match self.names.insert(name) {
            Ok(_) => Ok(()),
            Err(_) => Err(ContextError::OutOfMemory),
        }
    }
}
