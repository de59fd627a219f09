ghost use Rattle.std.specs.Prelude.{◌≡◌, Some, MatchOption, IfOk, IfErr, length};
ghost use Rattle.wasm_module.specs.ModuleFunctions.{IsDefined};
ghost use Rattle.wasm_disassembly.specs.Listing.{IsThere, OpensModule, FailsModule};

use crate::listing_fault::{Fault, MissingFunction};
use std::alloc::Global;
use wasm_module::{Functions, find_section};
use wasm_operators::{BinaryReader, WasmFeatures};

const CODE: u8 = 10;

/// Returns the requested function if the module does not define it.
fn lacking(functions: &Functions<'_>, only: Option<u32>) -> Option<MissingFunction>
    ensures { MatchOption result (IsThere functions.now only)
        (λ missing. (only ≡ Some missing.index) × (IsDefined functions.now missing.index → ⊥)
        × (missing.imported ≡ functions.now.imported) × (missing.defined ≡ length functions.now.types)) }
{
    match only {
        None => None,
        Some(index) => {
            if functions.has(index) {
                None
            } else {
                Some(MissingFunction {
                    index,
                    imported: functions.imported(),
                    defined: functions.defined(),
                })
            }
        }
    }
}

/// Returns the functions of a module, and the contents of its code section.
///
/// Fails with `Module` if the functions can't be read, and with `NoFunction` if the requested
/// function is not defined.
pub fn open_module<'a>(
    alloc: Global,
    features: WasmFeatures,
    only: Option<u32>,
    bytes: &'a [u8],
) -> Result<(Functions<'a>, Option<BinaryReader<'a>>), Fault>
    ensures opens { IfOk result (λ opened. OpensModule features only bytes.now opened.0 opened.1) }
    ensures refuses { IfErr result (λ fault. FailsModule features only bytes.now fault) }
{
    let functions = match Functions::new(alloc, features, bytes) {
        Ok(functions) => functions,
        Err(fault) => return Err(Fault::Module(fault)),
    };
    if let Some(missing) = lacking(&functions, only) {
        return Err(Fault::NoFunction(missing));
    }
    match find_section(features, bytes, CODE) {
        Ok(code) => Ok((functions, code)),
        Err(fault) => Err(Fault::Module(fault)),
    }
}
