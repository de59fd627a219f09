ghost use Rattle.std.specs.Prelude.{◌≡◌, ◌⊎◌, ◌++◌, ◌<◌, ℕ, [], List, Option, Some, replicate, IfOk, IfErr, OnOk};
ghost use Rattle.wasm_below.specs.Source.{Reader, reader_of};
ghost use Rattle.wasm_module.specs.Module.{SectionParts};
ghost use Rattle.wasm_module.specs.FunctionNames.{bytes_of, NamesImported, NamesExported, NamesGiven, HasNames};
ghost use Rattle.wasm_module.specs.Parameters.{CountsParameters};
ghost use Rattle.wasm_module.specs.Refusals.{SectionsFault, OfSection, SectionFaultAt, TypesFault, ImportsFault, ImportsFunction, FunctionsFault, ExportsFault, NamesFault};
ghost use Rattle.wasm_module.specs.Sections.{IsModule, IsSection};
ghost use Rattle.wasm_module.specs.ModuleFunctions.{CountsImports, ListsTypes, NamesFunctions};

use crate::fault::ModuleFault;
use crate::function_names::FunctionName;
use crate::growing::GrowingVec;
use crate::imports::{import_names, imported_functions};
use crate::names::{name_exports, name_functions};
use crate::sections::{find_names, find_section};
use crate::types::{function_types, parameter_counts};
use std::alloc::Global;
use wasm_below::WasmFeatures;
use wasm_below::byte_laws::{fixed_numbers, unsigned_numbers};

const TYPES: u8 = 1;

const IMPORTS: u8 = 2;

const FUNCTIONS: u8 = 3;

const EXPORTS: u8 = 7;

/// Returns the number of parameters of each type. Fails as `find_section` and `parameter_counts`
/// do.
pub fn find_parameters(
    alloc: Global,
    features: WasmFeatures,
    bytes: &[u8],
) -> Result<GrowingVec<u32>, ModuleFault>
    ensures ok { IfOk result (λ counts. (section : Option Reader) × IsSection (reader_of features 0 bytes.now) 1 section
        × CountsParameters section counts.items) }
    ensures refused { IfErr result (λ fault. (section : Option Reader) → (counts : List ℕ) → IsSection (reader_of features 0 bytes.now) 1 section
        → CountsParameters section counts → fault ≡ ModuleFault.Memory) }
    ensures fault { IfErr result (λ fault. SectionFaultAt fault (reader_of features 0 bytes.now) 1 TypesFault) }
{
    unsigned_numbers();
    fixed_numbers();
    match find_section(features, bytes, TYPES)? {
        Some(contents) => parameter_counts(alloc, contents),
        None => Ok(GrowingVec::new(alloc)),
    }
}

/// Returns the number of imported functions. Fails as `find_section` and `imported_functions` do.
pub fn find_imported(features: WasmFeatures, bytes: &[u8]) -> Result<u32, ModuleFault>
    ensures ok { IfOk result (λ n. (section : Option Reader) × IsSection (reader_of features 0 bytes.now) 2 section
        × CountsImports section n) }
    ensures refused { IfErr result (λ fault. (section : Option Reader) → (n : ℕ) → IsSection (reader_of features 0 bytes.now) 2 section
        → CountsImports section n → ⊥) }
    ensures fault { IfErr result (λ fault. SectionFaultAt fault (reader_of features 0 bytes.now) 2 ImportsFault) }
{
    unsigned_numbers();
    fixed_numbers();
    match find_section(features, bytes, IMPORTS)? {
        Some(contents) => imported_functions(contents),
        None => Ok(0),
    }
}

/// Returns the defined functions' type indices. Fails as `find_section` and `function_types` do.
pub fn find_types(
    alloc: Global,
    features: WasmFeatures,
    bytes: &[u8],
) -> Result<GrowingVec<u32>, ModuleFault>
    ensures ok { IfOk result (λ types. (section : Option Reader) × IsSection (reader_of features 0 bytes.now) 3 section
        × ListsTypes section types.items) }
    ensures refused { IfErr result (λ fault. (section : Option Reader) → (types : List ℕ) → IsSection (reader_of features 0 bytes.now) 3 section
        → ListsTypes section types → fault ≡ ModuleFault.Memory) }
    ensures fault { IfErr result (λ fault. SectionFaultAt fault (reader_of features 0 bytes.now) 3 FunctionsFault) }
{
    unsigned_numbers();
    fixed_numbers();
    match find_section(features, bytes, FUNCTIONS)? {
        Some(contents) => function_types(alloc, contents),
        None => Ok(GrowingVec::new(alloc)),
    }
}

/// Returns the names of the imported functions, up to an error in the import section. Fails as
/// `find_section` does, or with `Memory`.
fn find_import_names<'a>(
    alloc: Global,
    features: WasmFeatures,
    bytes: &'a [u8],
) -> Result<GrowingVec<FunctionName<'a>>, ModuleFault>
    ensures ok { IfOk result (λ names. (section : Option Reader) × IsSection (reader_of features 0 bytes.now) 2 section
        × NamesImported section (bytes_of names.items)) }
    ensures refused { IfErr result (λ fault. (sections : List SectionParts) → IsModule (reader_of features 0 bytes.now) sections
        → fault ≡ ModuleFault.Memory) }
    ensures fault { IfErr result (λ fault. ((fault ≡ ModuleFault.Memory) × OfSection (reader_of features 0 bytes.now) 2 ImportsFunction)
        ⊎ SectionsFault fault (reader_of features 0 bytes.now)) }
{
    match find_section(features, bytes, IMPORTS)? {
        Some(contents) => import_names(alloc, contents),
        None => Ok(GrowingVec::new(alloc)),
    }
}

#[tactic(auto, using(crate::proofs::NamedFunctions::unnamed_more))]
/// Appends an empty name for each of `count` functions.
fn push_unnamed<'a>(
    names: &mut GrowingVec<FunctionName<'a>>,
    count: usize,
) -> Result<(), ModuleFault>
    ensures ok { OnOk result (bytes_of names.new.items ≡ bytes_of names.old.items ++ replicate count []) }
    ensures memory { IfErr result (λ fault. fault ≡ ModuleFault.Memory) }
    ensures some { IfErr result (λ fault. 0 < count) }
{
    for _function in 0..count {
        if names.push(FunctionName::Given(&[])).is_err() {
            return Err(ModuleFault::Memory);
        }
    }
    Ok(())
}

/// Sets the names of the functions that are exported. Fails as `find_section` and `name_exports`
/// do.
fn set_exports<'a>(
    features: WasmFeatures,
    bytes: &'a [u8],
    names: &mut GrowingVec<FunctionName<'a>>,
) -> Result<(), ModuleFault>
    ensures ok { IfOk result (λ done. (section : Option Reader) × IsSection (reader_of features 0 bytes.now) 7 section
        × NamesExported section (bytes_of names.old.items) (bytes_of names.new.items)) }
    ensures refused { IfErr result (λ fault. (section : Option Reader) → (before after : List (List ℕ)) → IsSection (reader_of features 0 bytes.now) 7 section
        → NamesExported section before after → ⊥) }
    ensures fault { IfErr result (λ fault. SectionFaultAt fault (reader_of features 0 bytes.now) 7 ExportsFault) }
{
    unsigned_numbers();
    fixed_numbers();
    match find_section(features, bytes, EXPORTS)? {
        Some(contents) => name_exports(contents, names),
        None => Ok(()),
    }
}

/// Sets the names that the last custom section `name` has. Fails as `find_names` does.
fn set_names<'a>(
    features: WasmFeatures,
    bytes: &'a [u8],
    names: &mut GrowingVec<FunctionName<'a>>,
) -> Result<(), ModuleFault>
    ensures ok { IfOk result (λ done. (section : Option Reader) × HasNames (reader_of features 0 bytes.now) section
        × NamesGiven section (bytes_of names.old.items) (bytes_of names.new.items)) }
    ensures refused { IfErr result (λ fault. (section : Option Reader) → HasNames (reader_of features 0 bytes.now) section → ⊥) }
    ensures fault { IfErr result (λ fault. SectionsFault fault (reader_of features 0 bytes.now)) }
{
    if let Some(contents) = find_names(features, bytes)? {
        name_functions(contents, names);
    }
    Ok(())
}

/// Returns the names of all functions, by index: the imported functions, then `count` defined ones.
///
/// Fails as `find_section` and `name_exports` do, or with `Memory`.
pub fn find_function_names<'a>(
    alloc: Global,
    features: WasmFeatures,
    bytes: &'a [u8],
    count: usize,
) -> Result<GrowingVec<FunctionName<'a>>, ModuleFault>
    ensures ok { IfOk result (λ names. NamesFunctions (reader_of features 0 bytes.now) count (bytes_of names.items)) }
    ensures refused { IfErr result (λ fault. (names : List (List ℕ)) → NamesFunctions (reader_of features 0 bytes.now) count names
        → fault ≡ ModuleFault.Memory) }
    ensures fault { IfErr result (λ fault. NamesFault fault (reader_of features 0 bytes.now) count) }
{
    let mut names = find_import_names(alloc, features, bytes)?;
    push_unnamed(&mut names, count)?;
    set_exports(features, bytes, &mut names)?;
    set_names(features, bytes, &mut names)?;
    Ok(names)
}
