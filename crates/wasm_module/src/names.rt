ghost use Rattle.std.specs.Prelude.{◌≡◌, ◌∷◌, [], List, set, Some, IfOk, IfErr};
ghost use Rattle.wasm_module.specs.Exports.{ExportParts, EncodesExport};
ghost use Rattle.wasm_module.specs.Names.{NameParts, EncodesNameAssociation};
ghost use Rattle.wasm_module.specs.Items.{IsList};
ghost use Rattle.wasm_module.specs.FunctionNames.{bytes_of, with_exports, with_names, ReadsItems, GivesNames, GivesModule};
ghost use Rattle.wasm_module.specs.Refusals.{ExportsFault};

use crate::fault::ModuleFault;
use crate::function_names::FunctionName;
use crate::growing::GrowingVec;
use crate::{Export, Name, NameAssociation, module_laws, read_section};
use wasm_below::BinaryReader;
use wasm_below::byte_laws::unsigned_numbers;

/// The byte of the kind of functions.
const FUNCTION: u8 = 0;

const MODULE_NAME: u8 = 0;

const FUNCTION_NAMES: u8 = 1;

/// Sets the name of the function with this index, if the module has it.
fn set_name<'a>(names: &mut GrowingVec<FunctionName<'a>>, index: u32, name: &'a [u8])
    ensures { bytes_of names.new.items ≡ set (bytes_of names.old.items) index name.now }
{
    let place = index as usize;
    if place < names.len() {
        names.set(place, FunctionName::Given(name));
    }
}

/// Sets the name of an exported function.
fn set_exported<'a>(names: &mut GrowingVec<FunctionName<'a>>, export: &Export<'a>)
    ensures { bytes_of names.new.items ≡ with_exports (bytes_of names.old.items) (export.now ∷ []) }
{
    if export.kind() == FUNCTION {
        set_name(names, export.index(), export.name());
    }
}

/// Sets the names of the functions that a section exports. Fails with the error of the number of
/// exports or of an export.
pub fn name_exports<'a>(
    contents: BinaryReader<'a>,
    names: &mut GrowingVec<FunctionName<'a>>,
) -> Result<(), ModuleFault>
    ensures ok { IfOk result (λ done. (exports : List ExportParts) × IsList EncodesExport contents.entry exports
        × (bytes_of names.new.items ≡ with_exports (bytes_of names.old.items) exports)) }
    ensures refused { IfErr result (λ fault. (exports : List ExportParts) → IsList EncodesExport contents.entry exports → ⊥) }
    ensures fault { IfErr result (λ fault. ExportsFault fault contents.entry) }
{
    unsigned_numbers();
    module_laws::exports();
    let mut reader = contents;
    let count = reader.read_var_u32()?;
    for _export in 0..count {
        let export = Export::read(&mut reader)?;
        set_exported(names, &export);
    }
    Ok(())
}

/// Sets the names of the functions in a subsection, up to an error.
fn name_associations<'a>(contents: BinaryReader<'a>, names: &mut GrowingVec<FunctionName<'a>>)
    ensures { (given : List NameParts) × ReadsItems EncodesNameAssociation contents.entry given
        × (bytes_of names.new.items ≡ with_names (bytes_of names.old.items) given) }
{
    let mut reader = contents;
    let count = match reader.read_var_u32() {
        Ok(count) => count,
        Err(_) => return,
    };
    for _name in 0..count {
        match NameAssociation::read(&mut reader) {
            Ok(named) => set_name(names, named.index(), named.name()),
            Err(_) => return,
        }
    }
}

/// Sets functions' names from the custom section `name`, up to an error.
pub fn name_functions<'a>(contents: BinaryReader<'a>, names: &mut GrowingVec<FunctionName<'a>>)
    ensures { (given : List NameParts) × GivesNames contents.entry given
        × (bytes_of names.new.items ≡ with_names (bytes_of names.old.items) given) }
{
    let mut reader = contents;
    'sections: while !reader.eof() {
        let section = match read_section(&mut reader) {
            Ok(section) => section,
            Err(_) => return,
        };
        if section.id() == FUNCTION_NAMES {
            name_associations(section.contents(), names);
            return;
        }
    }
}

/// Returns the name of the module if the custom section `name` starts with it, or no bytes.
pub fn name_of_module<'a>(contents: BinaryReader<'a>) -> &'a [u8]
    ensures { GivesModule (Some contents.entry) result.now }
{
    let mut reader = contents;
    let section = match read_section(&mut reader) {
        Ok(section) => section,
        Err(_) => return &[],
    };
    if section.id() != MODULE_NAME {
        return &[];
    }
    match Name::read(&mut section.contents()) {
        Ok(name) => name.bytes(),
        Err(_) => &[],
    }
}
