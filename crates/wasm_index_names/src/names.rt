ghost use Rattle.std.specs.Prelude.{◌≡◌, map, string_bytes};
ghost use Rattle.wasm_index_names.specs.Lists.{name_at, local_at, locals_of};

use crate::giving::GivenNames;
use crate::list::name_at;
use std::marker::Model;

/// The names of a module's things by index, as they are shown; some may be empty.
#[derive(Drop)]
pub struct Names {
    pub functions: Vec<String>,
    pub given: GivenNames,
}

impl Model for Names {
    ghost use Rattle.std.specs.Prelude.{map, string_bytes};
    ghost use Rattle.wasm_index_names.specs.Known.{ModuleNames, names_of};

    ghost Value = { ModuleNames };

    ghost view = { λ n. names_of (map string_bytes n.functions.items) n.given };
}

impl Names {
    /// Returns the name of the function with this index.
    pub fn function(&self, index: u32) -> &str
        ensures { result.now ≡ name_at self.now.functions index }
    {
        name_at(self.functions.as_slice(), index)
    }

    /// Returns the name of the type with this index.
    pub fn ty(&self, index: u32) -> &str
        ensures { result.now ≡ name_at self.now.types index }
    {
        self.given.types.get(index)
    }

    /// Returns the name of the table with this index.
    pub fn table(&self, index: u32) -> &str
        ensures { result.now ≡ name_at self.now.tables index }
    {
        self.given.tables.get(index)
    }

    /// Returns the name of the global with this index.
    pub fn global(&self, index: u32) -> &str
        ensures { result.now ≡ name_at self.now.globals index }
    {
        self.given.globals.get(index)
    }

    /// Returns the name of the tag with this index.
    pub fn tag(&self, index: u32) -> &str
        ensures { result.now ≡ name_at self.now.tags index }
    {
        self.given.tags.get(index)
    }

    /// Returns the name of the data segment with this index.
    pub fn segment(&self, index: u32) -> &str
        ensures { result.now ≡ name_at self.now.segments index }
    {
        self.given.segments.get(index)
    }

    /// Returns the name of a local of the function with this index.
    pub fn local(&self, function: u32, index: u32) -> &str
        ensures { result.now ≡ local_at (locals_of self.now.locals function) index }
    {
        self.given.locals.get(function, index)
    }
}
