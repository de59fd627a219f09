ghost use Rattle.std.specs.Prelude.{◌≡◌, IfOk, length, map, string_bytes};
ghost use Rattle.wasm_index_names.specs.Known.{AreNames, AreNamesOf, AreGivenIn, nothing_given, names_of};

use crate::functions::{function_names, shown_names};
use crate::giving::GivenNames;
use crate::list::NameList;
use crate::locals::LocalLists;
use crate::named_sections::give_sections;
use crate::names::Names;
use std::alloc::{AllocError, Global};
use wasm_below::WasmFeatures;
use wasm_module::{Functions, open_sections};

/// Returns no names, of indices below `limit`.
fn nothing_given(alloc: Global, limit: usize) -> GivenNames
    ensures { result ≡ nothing_given limit }
{
    GivenNames {
        types: NameList::new(alloc, limit),
        tables: NameList::new(alloc, limit),
        globals: NameList::new(alloc, limit),
        tags: NameList::new(alloc, limit),
        segments: NameList::new(alloc, limit),
        locals: LocalLists::new(alloc, limit),
    }
}

/// Returns the names that the sections of a module give.
fn given_names(
    alloc: Global,
    features: WasmFeatures,
    bytes: &[u8],
) -> Result<GivenNames, AllocError>
    ensures { IfOk result (λ given. AreGivenIn features bytes.now given) }
{
    let mut given = nothing_given(alloc, bytes.len());
    match open_sections(features, bytes) {
        Ok(sections) => {
            give_sections(alloc, sections, &mut given)?;
            Ok(given)
        }
        Err(_) => Ok(given),
    }
}

/// Returns the names that are shown: of the functions as `Functions` of `wasm_module` has them, and
/// those that imports, exports and the name section give to other things, the last before the others.
pub fn known_names(alloc: Global, features: WasmFeatures, bytes: &[u8]) -> Result<Names, AllocError>
    ensures { IfOk result (λ names. AreNames features bytes.now names) }
{
    let functions = function_names(alloc, features, bytes)?;
    let given = given_names(alloc, features, bytes)?;
    Ok(Names { functions, given })
}

/// Returns the names that are shown, like `known_names`, of a module with these functions.
pub fn names_with(
    alloc: Global,
    features: WasmFeatures,
    bytes: &[u8],
    functions: &Functions<'_>,
) -> Result<Names, AllocError>
    ensures { IfOk result (λ names. AreNamesOf functions.now features bytes.now names) }
{
    let functions = shown_names(alloc, functions)?;
    let given = given_names(alloc, features, bytes)?;
    Ok(Names { functions, given })
}

/// Returns names of functions only.
pub fn only_functions(alloc: Global, functions: Vec<String>) -> Names
    ensures { result ≡ names_of (map string_bytes functions.items) (nothing_given 0) }
{
    Names {
        functions,
        given: nothing_given(alloc, 0),
    }
}
