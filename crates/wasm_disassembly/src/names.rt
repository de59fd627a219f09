ghost use Rattle.std.specs.Prelude.{◌≡◌, IfOk, map, string_bytes};
ghost use Rattle.wasm_disassembly.specs.Names.{first_named, all_escaped};

use std::alloc::{AllocError, Global};
use wasm_index_names::shown_names;
use wasm_module::Functions;

/// Returns the index of the first of these names that is `name`.
fn first_named(names: &[String], name: &str) -> Option<usize>
    ensures { result ≡ first_named (map string_bytes names.now) name.now }
{
    names.iter().position(|shown| shown.as_str() == name)
}

/// Returns the index of the first function that is shown with this name, if there is one.
pub fn function_named(
    alloc: Global,
    functions: &Functions<'_>,
    name: &str,
) -> Result<Option<usize>, AllocError>
    ensures { IfOk result (λ found. found ≡ first_named (all_escaped functions.now.names) name.now) }
{
    let names = shown_names(alloc, functions)?;
    Ok(first_named(names.as_slice(), name))
}
