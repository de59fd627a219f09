ghost use Rattle.std.specs.Prelude.{◌≡◌, ◌++◌, ◌∷◌, [], OnOk, string_bytes};
ghost use Rattle.wasm_escapes.specs.Escapes.{escaped};
ghost use Rattle.wasm_index_names.specs.Lists.{local_at, locals_of, padded, with_locals};

use std::alloc::{AllocError, Global};
use std::marker::Model;
use wasm_escapes::write_escaped;

/// The name of a local.
#[derive(Drop)]
pub struct LocalName {
    index: u32,
    name: String,
}

impl Model for LocalName {
    ghost use Rattle.std.specs.Prelude.{string_bytes};
    ghost use Rattle.wasm_index_names.specs.Lists.{LocalParts};

    ghost Value = { LocalParts };

    ghost view = { λ l. record { index = l.index; name = string_bytes l.name } };
}

/// The names of the locals of one function.
#[derive(Drop)]
pub struct FunctionLocals {
    names: Vec<LocalName>,
}

impl Model for FunctionLocals {
    ghost use Rattle.std.specs.Prelude.{List};
    ghost use Rattle.wasm_index_names.specs.Lists.{LocalParts};

    ghost Value = { List LocalParts };

    ghost view = { λ l. l.names.items };
}

impl FunctionLocals {
    /// Creates a list without names.
    pub fn new(alloc: Global) -> FunctionLocals
        ensures { result ≡ [] }
    {
        FunctionLocals {
            names: Vec::new(alloc),
        }
    }

    /// Adds the name of the local with this index.
    pub fn add(&mut self, alloc: Global, index: u32, name: &[u8]) -> Result<(), AllocError>
        ensures { OnOk result (self.new ≡ self.old ++ record { index = index; name = escaped name.now } ∷ []) }
    {
        let mut shown = String::new(alloc);
        write_escaped(alloc, &mut shown, name)?;
        self.names.push(LocalName { index, name: shown })?;
        Ok(())
    }
}

/// The names of locals, by the index of their function.
#[derive(Drop)]
pub struct LocalLists {
    functions: Vec<FunctionLocals>,
    limit: usize,
}

impl Model for LocalLists {
    ghost use Rattle.wasm_index_names.specs.Lists.{LocalsByFunction};

    ghost Value = { LocalsByFunction };

    ghost view = { λ l. record { functions = l.functions.items; limit = l.limit } };
}

#[tactic(auto, using(crate::proofs::Padded::item_next))]
/// Appends empty lists up to this number of lists.
fn pad(alloc: Global, lists: &mut Vec<FunctionLocals>, number: usize) -> Result<(), AllocError>
    ensures { OnOk result (lists.new.items ≡ padded [] number lists.old.items) }
{
    let missing = number.saturating_sub(lists.len());
    for _list in 0..missing {
        lists.push(FunctionLocals::new(alloc))?;
    }
    Ok(())
}

/// Returns the first name of the local with this index, or an empty one.
fn local_at(names: &[LocalName], index: u32) -> &str
    ensures { result.now ≡ local_at names.now index }
{
    let mut left = names;
    'locals: while let [local, more @ ..] = left {
        if local.index == index {
            return local.name.as_str();
        }
        left = more;
    }
    ""
}

impl LocalLists {
    /// Creates lists without names, which keep names of functions with indices below `limit`.
    pub fn new(alloc: Global, limit: usize) -> LocalLists
        ensures { result ≡ record { functions = []; limit = limit } }
    {
        LocalLists {
            functions: Vec::new(alloc),
            limit,
        }
    }

    #[tactic(auto, using(crate::proofs::Padded::items_long))]
    /// Sets the names of the locals of the function with this index.
    pub fn set(
        &mut self,
        alloc: Global,
        index: u32,
        names: FunctionLocals,
    ) -> Result<(), AllocError>
        ensures { OnOk result (self.new ≡ with_locals self.old index names) }
    {
        let at = index as usize;
        if at >= self.limit {
            return Ok(());
        }
        pad(alloc, &mut self.functions, at + 1)?;
        self.functions[at] = names;
        Ok(())
    }

    /// Returns the name of a local of the function with this index, or an empty one.
    pub fn get(&self, function: u32, index: u32) -> &str
        ensures { result.now ≡ local_at (locals_of self.now.functions function) index }
    {
        match self.functions.get(function as usize) {
            Some(locals) => local_at(locals.names.as_slice(), index),
            None => "",
        }
    }
}
