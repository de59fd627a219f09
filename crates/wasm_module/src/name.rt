ghost use Rattle.std.specs.Prelude.{◌≡◌, ⊤, IfOk};
ghost use Rattle.wasm_below.specs.declared.features.WasmFeatures.{WasmFeatures};
ghost use Rattle.wasm_below.specs.Fault.{DeterminesRefusal};
ghost use Rattle.wasm_below.specs.FromReader.{ReadsValue};
ghost use Rattle.wasm_below.specs.Sequence.{PrefixCode};
ghost use Rattle.wasm_below.specs.Source.{Reads};
ghost use Rattle.wasm_module.specs.Names.{EncodesName, NameFault, EncodesNameAssociation, NameAssociationFault};

use crate::module_laws::names;
use std::alloc::Global;
use std::marker::Model;
use wasm_below::byte_laws::unsigned_numbers;
use wasm_below::{BinaryReader, FromReader, MemoryUse, Never, Result, UsesMemory};

/// A name, which need not be UTF-8.
#[derive(Debug, Drop)]
pub struct Name<'a> {
    bytes: &'a [u8],
}

impl<'a> Model for Name<'a> {
    ghost use Rattle.std.specs.Prelude.{ℕ, List};

    ghost Value = { List ℕ };

    ghost view = { λ name. name.bytes.now };
}

impl<'a> Name<'a> {
    pub fn bytes(&self) -> &'a [u8]
        ensures { result.now ≡ self.now }
    {
        self.bytes
    }

    /// Reads a length and that many bytes. Specification: Names.
    ///
    /// Fails like `read_var_u32`, or with `EndOfData` at the start of the bytes.
    pub fn read(reader: &mut BinaryReader<'a>) -> Result<Name<'a>>
        ensures { Reads EncodesName NameFault result reader.old reader.new }
    {
        unsigned_numbers();
        let mut ahead = reader.clone();
        let length = ahead.read_var_u32()?;
        let bytes = ahead.read_bytes(length as usize)?;
        *reader = ahead;
        Ok(Name { bytes })
    }
}

#[derive(Debug, Drop)]
pub struct NameAssociation<'a> {
    index: u32,
    name: Name<'a>,
}

impl<'a> Model for NameAssociation<'a> {
    ghost use Rattle.wasm_module.specs.Names.{NameParts};

    ghost Value = { NameParts };

    ghost view = { λ a. record { index = a.index; name = a.name } };
}

impl<'a> NameAssociation<'a> {
    pub fn index(&self) -> u32
        ensures { result ≡ self.now.index }
    {
        self.index
    }

    pub fn name(&self) -> &'a [u8]
        ensures { result.now ≡ self.now.name }
    {
        self.name.bytes()
    }

    /// Reads an index and its name. Specification: Name Section, Name Maps. Fails like
    /// `read_var_u32`, then like `Name::read`.
    pub fn read(reader: &mut BinaryReader<'a>) -> Result<NameAssociation<'a>>
        ensures { Reads EncodesNameAssociation NameAssociationFault result reader.old reader.new }
    {
        unsigned_numbers();
        let mut ahead = reader.clone();
        let index = ahead.read_var_u32()?;
        let name = Name::read(&mut ahead)?;
        *reader = ahead;
        Ok(NameAssociation { index, name })
    }
}

impl<'a> UsesMemory for NameAssociation<'a> {
    type Memory = Never;
}

impl<'a> FromReader<'a> for NameAssociation<'a> {
    ghost encodes = { λ features text a. EncodesNameAssociation text a };

    ghost fault = { λ m r offset. NameAssociationFault m r offset };

    fn from_reader(_alloc: Global, reader: &mut BinaryReader<'a>) -> Result<NameAssociation<'a>>
        ensures reads { ReadsValue EncodesNameAssociation NameAssociationFault (λ old. ⊥) result reader.old reader.new }
        ensures placed { IfOk result (λ value. ⊤) }
    {
        NameAssociation::read(reader)
    }

    fn is_prefix_code()
        ensures { (features : WasmFeatures) → PrefixCode EncodesNameAssociation }
    {
        names();
    }

    fn determines_refusal()
        ensures { DeterminesRefusal NameAssociationFault }
    {
        names();
    }
}
