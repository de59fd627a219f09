ghost use Rattle.std.specs.Prelude.{◌≡◌, [], IfOk, IfErr, slice_index_or, string_bytes};
ghost use Rattle.wasm_module.specs.FunctionNames.{name_bytes, bytes_of};
ghost use Rattle.wasm_module.specs.Bodies.{text_of_name, NamesFunction, FailsName};

use crate::body_fault::BodiesFault;
use crate::{FunctionName, Functions, ModuleFault};
use std::alloc::{AllocError, Global};
use std::str::from_utf8;
use wasm_below::WasmFeatures;

#[tactic(auto, using(crate::proofs::Texts::name_is_text, crate::proofs::Texts::name_is_none))]
/// Returns a name as text, which is empty if its bytes are not UTF-8.
fn text_of<'a>(name: &'a [u8]) -> &'a str
    ensures { result.now ≡ text_of_name name.now }
{
    match from_utf8(name) {
        Ok(text) => text,
        Err(_) => "",
    }
}

/// Returns a copy of a name as text.
fn copy_name(alloc: Global, name: &FunctionName<'_>) -> Result<String, AllocError>
    ensures { IfOk result (λ text. string_bytes text ≡ text_of_name (name_bytes name.now)) }
{
    let mut text = String::new(alloc);
    match name {
        FunctionName::Given(bytes) => text.push_str(text_of(bytes))?,
        FunctionName::Imported(module, item) => {
            let mut bytes = Vec::new(alloc);
            bytes.extend_from_slice(module)?;
            bytes.push(b'.')?;
            bytes.extend_from_slice(item)?;
            text.push_str(text_of(bytes.as_slice()))?;
        }
    }
    Ok(text)
}

/// Returns a copy of the name at `index`, empty if there is none in UTF-8.
fn copy_at(alloc: Global, names: &[FunctionName<'_>], index: u32) -> Result<String, AllocError>
    ensures { IfOk result (λ text. string_bytes text ≡ text_of_name (slice_index_or (bytes_of names.now) index [])) }
{
    match names.get(index as usize) {
        Some(name) => copy_name(alloc, name),
        None => Ok(String::new(alloc)),
    }
}

/// Returns the name of the function with this index. It is empty if the function has none, or if the
/// name is not UTF-8. Fails with `Functions` or `NoFunction`.
pub fn function_name(alloc: Global, bytes: &[u8], index: u32) -> Result<String, BodiesFault>
    ensures names { IfOk result (λ name. NamesFunction bytes.now index (string_bytes name)) }
    ensures fault { IfErr result (λ fault. FailsName fault bytes.now index) }
{
    let functions = match Functions::new(alloc, WasmFeatures::all(), bytes) {
        Ok(functions) => functions,
        Err(fault) => return Err(BodiesFault::Functions(fault)),
    };
    if !functions.has(index) {
        return Err(BodiesFault::NoFunction);
    }
    match copy_at(alloc, functions.names(), index) {
        Ok(name) => Ok(name),
        Err(_) => Err(BodiesFault::Functions(ModuleFault::Memory)),
    }
}
