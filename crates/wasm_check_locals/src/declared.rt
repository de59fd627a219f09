ghost use Rattle.std.specs.Prelude.{◌≡◌, ◌+◌, ◌<◌, ◌^◌, [], ◌++◌, length, replicate, OnOk, OnErr};
ghost use Rattle.wasm_typing.specs.Rules.{at};

use crate::runs::{Run, type_in};
use std::alloc::{AllocError, Global};
use std::marker::Model;
use wasm_below::ValType;

/// The locals that a body declares, in runs of one type. In contracts, the list of their types.
#[derive(Drop)]
pub struct DeclaredLocals {
    runs: Vec<Run>,
    count: u32,
}

impl Model for DeclaredLocals {
    ghost use Rattle.std.specs.Prelude.{◌≡◌, List, length};
    ghost use Rattle.wasm_below.specs.declared.types.ValType.{ValType};
    ghost use Rattle.wasm_check_locals.specs.Runs.{types_from, AreRuns};

    ghost Value = { List ValType };

    ghost view = { λ s. types_from 0 s.runs.items };

    ghost invariant = { λ s. AreRuns 0 s.runs.items × (s.count ≡ length (types_from 0 s.runs.items)) };
}

impl DeclaredLocals {
    /// Creates a list of no locals.
    pub fn new(alloc: Global) -> DeclaredLocals
        ensures { result ≡ [] }
    {
        DeclaredLocals {
            runs: Vec::new(alloc),
            count: 0,
        }
    }

    /// Adds locals of one type, in one run however many they are.
    pub fn add(&mut self, count: u32, ty: ValType) -> Result<(), AllocError>
        requires { length self.old + count < 2 ^ 32 }
        ensures added { OnOk result (self.new ≡ self.old ++ replicate count ty) }
        ensures unchanged { OnErr result (self.new ≡ self.old) }
    {
        if count == 0 {
            return Ok(());
        }
        let end = self.count + count;
        self.runs.push(Run { end, ty })?;
        self.count = end;
        Ok(())
    }

    /// Returns the type of the local with this index among them.
    pub fn get(&self, index: u32) -> Option<ValType>
        ensures { result ≡ at self.now index }
    {
        type_in(self.runs.as_slice(), index)
    }
}
