ghost use Rattle.std.specs.Prelude.{◌≡◌, ◌++◌, ℕ, Some, IfOk, IfErr, OnOk};
ghost use Rattle.wasm_module.specs.FunctionNames.{bytes_of, function_name, NamesImported};
ghost use Rattle.wasm_module.specs.Refusals.{ImportsFault, ImportsFunction};
ghost use Rattle.wasm_module.specs.ModuleFunctions.{CountsImports};

use crate::fault::ModuleFault;
use crate::function_names::FunctionName;
use crate::growing::GrowingVec;
use crate::{Import, module_laws};
use std::alloc::Global;
use wasm_below::BinaryReader;
use wasm_below::byte_laws::unsigned_numbers;

/// The byte of the kind of functions.
const FUNCTION: u8 = 0;

/// The byte of the last kind, tags.
const TAG: u8 = 4;

/// Returns the number of functions among the imports of a section.
///
/// Fails with `ImportKind` at an import of no known kind; otherwise with the error of their number
/// or of an import.
pub fn imported_functions(contents: BinaryReader<'_>) -> Result<u32, ModuleFault>
    ensures ok { IfOk result (λ n. CountsImports (Some contents.entry) n) }
    ensures refused { IfErr result (λ fault. (n : ℕ) → CountsImports (Some contents.entry) n → ⊥) }
    ensures fault { IfErr result (λ fault. ImportsFault fault contents.entry) }
{
    unsigned_numbers();
    module_laws::imports();
    let mut reader = contents;
    let count = reader.read_var_u32()?;
    let mut functions: u32 = 0;
    for _import in 0..count {
        let offset = reader.original_position();
        let import = Import::read(&mut reader)?;
        let kind = import.kind();
        if kind > TAG {
            return Err(ModuleFault::ImportKind(kind, offset));
        }
        functions += u32::from(kind == 0);
    }
    Ok(functions)
}

#[tactic(auto, using(crate::proofs::NamedFunctions::import_pushed))]
/// Appends the name of an import, if it is a function.
fn push_import<'a>(
    names: &mut GrowingVec<FunctionName<'a>>,
    import: &Import<'a>,
) -> Result<(), ModuleFault>
    ensures ok { OnOk result (bytes_of names.new.items ≡ bytes_of names.old.items ++ function_name import.now) }
    ensures memory { IfErr result (λ fault. fault ≡ ModuleFault.Memory) }
    ensures function { IfErr result (λ fault. import.now.kind ≡ 0) }
{
    if import.kind() != FUNCTION {
        return Ok(());
    }
    let name = FunctionName::Imported(import.module_name(), import.name());
    if names.push(name).is_err() {
        return Err(ModuleFault::Memory);
    }
    Ok(())
}

/// Returns the names of the functions among the imports of a section, up to an error.
pub fn import_names<'a>(
    alloc: Global,
    contents: BinaryReader<'a>,
) -> Result<GrowingVec<FunctionName<'a>>, ModuleFault>
    ensures ok { IfOk result (λ names. NamesImported (Some contents.entry) (bytes_of names.items)) }
    ensures memory { IfErr result (λ fault. (fault ≡ ModuleFault.Memory) × ImportsFunction contents.entry) }
{
    let mut reader = contents;
    let mut names: GrowingVec<FunctionName<'a>> = GrowingVec::new(alloc);
    let count = match reader.read_var_u32() {
        Ok(count) => count,
        Err(_) => return Ok(names),
    };
    for _import in 0..count {
        let import = match Import::read(&mut reader) {
            Ok(import) => import,
            Err(_) => return Ok(names),
        };
        push_import(&mut names, &import)?;
    }
    Ok(names)
}
