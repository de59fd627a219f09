ghost use Rattle.std.specs.Prelude.{◌≡◌, ◌↔◌, [], List, length, IsTrue, IfOk, IfErr};
ghost use Rattle.wasm_below.specs.Source.{reader_of};
ghost use Rattle.wasm_module.specs.Module.{SectionParts};
ghost use Rattle.wasm_module.specs.FunctionNames.{bytes_of};
ghost use Rattle.wasm_module.specs.Refusals.{ModuleFunctionsFault};
ghost use Rattle.wasm_module.specs.Sections.{IsModule};
ghost use Rattle.wasm_module.specs.ModuleFunctions.{ModuleFunctions, DescribesFunctions, IsDefined, index_of, parameters_at, NamesModule};

use crate::fault::ModuleFault;
use crate::found::{find_function_names, find_imported, find_parameters, find_types};
use crate::function_names::FunctionName;
use crate::growing::GrowingVec;
use crate::names::name_of_module;
use crate::sections::find_names;
use std::alloc::Global;
use std::marker::Model;
use wasm_below::WasmFeatures;
use wasm_below::byte_laws::{fixed_numbers, unsigned_numbers};

/// The functions that a module defines, by their ordinals, and the names of all functions, by
/// index.
#[derive(Debug, Drop)]
pub struct Functions<'a> {
    imported: u32,
    parameters: GrowingVec<u32>,
    types: GrowingVec<u32>,
    names: GrowingVec<FunctionName<'a>>,
}

impl<'a> Model for Functions<'a> {
    ghost use Rattle.wasm_module.specs.FunctionNames.{bytes_of};
    ghost use Rattle.wasm_module.specs.ModuleFunctions.{ModuleFunctions};

    ghost Value = { ModuleFunctions };

    ghost view = { λ f. record { imported = f.imported; parameters = f.parameters.items; types = f.types.items; names = bytes_of f.names.items } };
}

impl<'a> Functions<'a> {
    /// Reads what the sections of a module say about its functions. Names of exports replace names
    /// of imports; names in the custom section `name` replace both. The last of two exports counts,
    /// and names after an error do not.
    ///
    /// Fails with the first fault of: the preamble and the sizes of sections (`NotModule`,
    /// `Refused`), types (`TypeKind`, `Refused`), imports (`ImportKind`, `Refused`), functions and
    /// exports (`Refused`).
    pub fn new(
        alloc: Global,
        features: WasmFeatures,
        bytes: &'a [u8],
    ) -> Result<Functions<'a>, ModuleFault>
        ensures ok { IfOk result (λ f. DescribesFunctions (reader_of features 0 bytes.now) f) }
        ensures refused { IfErr result (λ fault. (t : ModuleFunctions) → DescribesFunctions (reader_of features 0 bytes.now) t
            → fault ≡ ModuleFault.Memory) }
        ensures fault { IfErr result (λ fault. ModuleFunctionsFault fault (reader_of features 0 bytes.now)) }
    {
        unsigned_numbers();
        fixed_numbers();
        let parameters = find_parameters(alloc, features, bytes)?;
        let imported = find_imported(features, bytes)?;
        let types = find_types(alloc, features, bytes)?;
        let names = find_function_names(alloc, features, bytes, types.len())?;
        Ok(Functions {
            imported,
            parameters,
            types,
            names,
        })
    }

    /// Returns the number of imported functions.
    pub fn imported(&self) -> u32
        ensures { result ≡ self.now.imported }
    {
        self.imported
    }

    /// Returns the number of functions that the module defines.
    pub fn defined(&self) -> usize
        ensures { result ≡ length self.now.types }
    {
        self.types.len()
    }

    /// Returns the index of a defined function: `ordinal`, counted from 0 among these, plus the
    /// number of imported functions, or 4294967295 if that is greater.
    pub fn index(&self, ordinal: u32) -> u32
        ensures { result ≡ index_of self.now ordinal }
    {
        self.imported.saturating_add(ordinal)
    }

    /// Returns whether the module defines the function with this index.
    pub fn has(&self, index: u32) -> bool
        ensures { IsTrue result ↔ IsDefined self.now index }
    {
        index >= self.imported && ((index - self.imported) as usize) < self.types.len()
    }

    /// Returns the number of parameters of the defined function with this ordinal, or 0 if its type
    /// is no known function type.
    pub fn parameters(&self, ordinal: u32) -> u32
        ensures { result ≡ parameters_at self.now ordinal }
    {
        match self.types.as_slice().get(ordinal as usize) {
            Some(ty) => self
                .parameters
                .as_slice()
                .get(*ty as usize)
                .copied()
                .unwrap_or(0),
            None => 0,
        }
    }

    /// Returns the names of all functions, by index.
    pub fn names(&self) -> &[FunctionName<'a>]
        ensures { bytes_of result.now ≡ self.now.names }
    {
        self.names.as_slice()
    }
}

/// Returns the name of a module, or no bytes. The name need not be UTF-8.
pub fn module_name<'a>(features: WasmFeatures, bytes: &'a [u8]) -> &'a [u8]
    ensures names { (sections : List SectionParts) → IsModule (reader_of features 0 bytes.now) sections
        → NamesModule (reader_of features 0 bytes.now) result.now }
    ensures none { ((sections : List SectionParts) → IsModule (reader_of features 0 bytes.now) sections → ⊥)
        → result.now ≡ [] }
{
    match find_names(features, bytes) {
        Ok(Some(contents)) => name_of_module(contents),
        Ok(None) => &[],
        Err(_) => &[],
    }
}
