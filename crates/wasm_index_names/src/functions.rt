//! The names of functions.
ghost use Rattle.std.specs.Prelude.{◌≡◌, IfOk, map, string_bytes};
ghost use Rattle.wasm_below.specs.Source.{reader_of};
ghost use Rattle.wasm_escapes.specs.Escapes.{escaped};
ghost use Rattle.wasm_module.specs.FunctionNames.{name_bytes};
ghost use Rattle.wasm_index_names.specs.Known.{NamesKnown, is_memory};

use std::alloc::{AllocError, Global};
use wasm_below::WasmFeatures;
use wasm_escapes::write_escaped;
use wasm_module::{FunctionName, Functions, ModuleFault};

/// Returns the name of a function as shown.
fn shown_name(alloc: Global, name: &FunctionName<'_>) -> Result<String, AllocError>
    ensures { IfOk result (λ shown. string_bytes shown ≡ escaped (name_bytes name.now)) }
{
    let mut shown = String::new(alloc);
    match name {
        FunctionName::Given(name) => write_escaped(alloc, &mut shown, name)?,
        FunctionName::Imported(module, item) => {
            let mut bytes = Vec::new(alloc);
            bytes.extend_from_slice(module)?;
            bytes.push(b'.')?;
            bytes.extend_from_slice(item)?;
            write_escaped(alloc, &mut shown, bytes.as_slice())?;
        }
    }
    Ok(shown)
}

/// Returns the names of all functions as shown.
pub fn shown_names(alloc: Global, functions: &Functions<'_>) -> Result<Vec<String>, AllocError>
    ensures { IfOk result (λ names. map string_bytes names.items ≡ map escaped functions.now.names) }
{
    let given = functions.names();
    let mut names = Vec::new(alloc);
    for name in given {
        names.push(shown_name(alloc, name)?)?;
    }
    Ok(names)
}

fn is_memory(fault: ModuleFault) -> bool
    ensures { result ≡ is_memory fault }
{
    match fault {
        ModuleFault::Memory => true,
        _ => false,
    }
}

/// Returns the names of a module's functions as shown; none if the functions are not known.
pub fn function_names(
    alloc: Global,
    features: WasmFeatures,
    bytes: &[u8],
) -> Result<Vec<String>, AllocError>
    ensures { IfOk result (λ names. NamesKnown (reader_of features 0 bytes.now) (map string_bytes names.items)) }
{
    match Functions::new(alloc, features, bytes) {
        Ok(functions) => shown_names(alloc, &functions),
        Err(fault) => {
            if is_memory(fault) {
                return Err(AllocError);
            }
            Ok(Vec::new(alloc))
        }
    }
}
