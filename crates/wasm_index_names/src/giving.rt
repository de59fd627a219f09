//! The items that give names.
ghost use Rattle.std.specs.Prelude.{◌≡◌, ◌++◌, IfOk, OnOk, codes};
ghost use Rattle.wasm_index_names.specs.Giving.{names_thing, names_exported, names_local, names_locals, names_imported};

use crate::items::{Gives, give_items};
use crate::list::NameList;
use crate::locals::{FunctionLocals, LocalLists};
use std::alloc::{AllocError, Global};
use std::marker::Model;
use wasm_externals::{Export, ExternalKind, Import, TypeRef};
use wasm_names::{IndirectNaming, Naming};

impl<'a> Gives<'a, NameList> for Naming<'a> {
    ghost gives = { names_thing };

    fn give(self, alloc: Global, state: &mut NameList) -> Result<(), AllocError> {
        state.set(alloc, self.index, self.name.as_str().as_bytes())
    }
}

impl<'a> Gives<'a, NameList> for Export<'a> {
    ghost gives = { names_exported };

    fn give(self, alloc: Global, state: &mut NameList) -> Result<(), AllocError> {
        match self.kind {
            ExternalKind::Global => state.set(alloc, self.index, self.name.as_str().as_bytes()),
            _ => Ok(()),
        }
    }
}

impl<'a> Gives<'a, FunctionLocals> for Naming<'a> {
    ghost gives = { names_local };

    fn give(self, alloc: Global, state: &mut FunctionLocals) -> Result<(), AllocError> {
        state.add(alloc, self.index, self.name.as_str().as_bytes())
    }
}

impl<'a> Gives<'a, LocalLists> for IndirectNaming<'a> {
    ghost gives = { names_locals };

    fn give(self, alloc: Global, state: &mut LocalLists) -> Result<(), AllocError> {
        let mut locals = FunctionLocals::new(alloc);
        give_items(alloc, self.names, &mut locals)?;
        state.set(alloc, self.index, locals)
    }
}

/// The names of a module's things, but its functions, that are given so far.
#[derive(Drop)]
pub struct GivenNames {
    pub types: NameList,
    pub tables: NameList,
    pub globals: NameList,
    pub tags: NameList,
    pub segments: NameList,
    pub locals: LocalLists,
}

impl Model for GivenNames {
    ghost use Rattle.wasm_index_names.specs.Giving as giving;

    ghost Value = { giving.GivenNames };

    ghost view = { λ g. record {
      types = g.types;
      tables = g.tables;
      globals = g.globals;
      tags = g.tags;
      segments = g.segments;
      locals = g.locals;
    } };
}

/// Returns an import's name: its module's name, a point, and its own.
fn import_name(alloc: Global, module: &str, name: &str) -> Result<Vec<u8>, AllocError>
    ensures { IfOk result (λ bytes. bytes.items ≡ module.now ++ (codes "." ++ name.now)) }
{
    let mut bytes = Vec::new(alloc);
    bytes.extend_from_slice(module.as_bytes())?;
    bytes.push(b'.')?;
    bytes.extend_from_slice(name.as_bytes())?;
    Ok(bytes)
}

impl<'a> Gives<'a, GivenNames> for Import<'a> {
    ghost gives = { names_imported };

    fn give(self, alloc: Global, state: &mut GivenNames) -> Result<(), AllocError> {
        let name = import_name(alloc, self.module.as_str(), self.name.as_str())?;
        match self.ty {
            TypeRef::Table(_) => state.tables.import(alloc, name.as_slice()),
            TypeRef::Global(_) => state.globals.import(alloc, name.as_slice()),
            TypeRef::Tag(_) => state.tags.import(alloc, name.as_slice()),
            _ => Ok(()),
        }
    }
}
