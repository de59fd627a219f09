ghost use Rattle.std.specs.Prelude.{◌≡◌, ⊤, IfOk};
ghost use Rattle.wasm_below.specs.declared.features.WasmFeatures.{WasmFeatures};
ghost use Rattle.wasm_below.specs.Fault.{DeterminesRefusal};
ghost use Rattle.wasm_below.specs.FromReader.{ReadsValue};
ghost use Rattle.wasm_below.specs.Sequence.{PrefixCode};
ghost use Rattle.wasm_below.specs.Source.{Reads};
ghost use Rattle.wasm_below.specs.Ahead.{ReadsAhead};
ghost use Rattle.wasm_module.specs.Imports.{IsExternTypeAfterByte, ExternTypeFaultAfterByte, EncodesExternType, ExternTypeFault, EncodesImport, ImportFault};

use crate::module_laws::imports;
use crate::name::Name;
use crate::skip::{skip_global, skip_limits, skip_table, skip_tag};
use std::alloc::Global;
use std::marker::Model;
use wasm_below::byte_laws::unsigned_numbers;
use wasm_below::{BinaryReader, FromReader, MemoryUse, Never, Result, UsesMemory};

fn skip_extern_type_after_byte(reader: &mut BinaryReader<'_>, kind: u8) -> Result<()>
    ensures { ReadsAhead (IsExternTypeAfterByte kind) (ExternTypeFaultAfterByte kind) result reader.old reader.new }
{
    match kind {
        0 => match reader.read_var_u32() {
            Ok(_) => Ok(()),
            Err(e) => Err(e),
        },
        1 => skip_table(reader),
        2 => skip_limits(reader),
        3 => skip_global(reader),
        4 => skip_tag(reader),
        _ => Ok(()),
    }
}

fn read_extern_type(reader: &mut BinaryReader<'_>) -> Result<u8>
    ensures { ReadsAhead EncodesExternType ExternTypeFault result reader.old reader.new }
{
    let kind = reader.read_u8()?;
    skip_extern_type_after_byte(reader, kind)?;
    Ok(kind)
}

/// The names of an import, and the kind of what is imported.
#[derive(Debug, Drop)]
pub struct Import<'a> {
    module_name: Name<'a>,
    name: Name<'a>,
    kind: u8,
}

impl<'a> Model for Import<'a> {
    ghost use Rattle.wasm_module.specs.Imports.{ImportParts};

    ghost Value = { ImportParts };

    ghost view = { λ import. record { module_name = import.module_name; name = import.name; kind = import.kind } };
}

impl<'a> Import<'a> {
    /// Returns the name of the module that the item is imported from.
    pub fn module_name(&self) -> &'a [u8]
        ensures { result.now ≡ self.now.module_name }
    {
        self.module_name.bytes()
    }

    /// Returns the item's name in that module.
    pub fn name(&self) -> &'a [u8]
        ensures { result.now ≡ self.now.name }
    {
        self.name.bytes()
    }

    /// Returns the kind as a byte, like `Export::kind`.
    pub fn kind(&self) -> u8
        ensures { result ≡ self.now.kind }
    {
        self.kind
    }

    /// Reads the module's name, the import's name, and a type. Specification: Import Section.
    ///
    /// After a byte that is none of the five kinds, nothing is read. Fails at the first part in
    /// error: with `EndOfData`, or like the read of a number or a type.
    pub fn read(reader: &mut BinaryReader<'a>) -> Result<Import<'a>>
        ensures { Reads EncodesImport ImportFault result reader.old reader.new }
    {
        unsigned_numbers();
        let mut ahead = reader.clone();
        let module_name = Name::read(&mut ahead)?;
        let name = Name::read(&mut ahead)?;
        let kind = read_extern_type(&mut ahead)?;
        *reader = ahead;
        Ok(Import {
            module_name,
            name,
            kind,
        })
    }
}

impl<'a> UsesMemory for Import<'a> {
    type Memory = Never;
}

impl<'a> FromReader<'a> for Import<'a> {
    ghost encodes = { λ features text import. EncodesImport text import };

    ghost fault = { λ m r offset. ImportFault m r offset };

    fn from_reader(_alloc: Global, reader: &mut BinaryReader<'a>) -> Result<Import<'a>>
        ensures reads { ReadsValue EncodesImport ImportFault (λ old. ⊥) result reader.old reader.new }
        ensures placed { IfOk result (λ value. ⊤) }
    {
        Import::read(reader)
    }

    fn is_prefix_code()
        ensures { (features : WasmFeatures) → PrefixCode EncodesImport }
    {
        imports();
    }

    fn determines_refusal()
        ensures { DeterminesRefusal ImportFault }
    {
        imports();
    }
}
