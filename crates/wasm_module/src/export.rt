ghost use Rattle.std.specs.Prelude.{◌≡◌, ⊤, IfOk};
ghost use Rattle.wasm_below.specs.declared.features.WasmFeatures.{WasmFeatures};
ghost use Rattle.wasm_below.specs.Fault.{DeterminesRefusal};
ghost use Rattle.wasm_below.specs.FromReader.{ReadsValue};
ghost use Rattle.wasm_below.specs.Sequence.{PrefixCode};
ghost use Rattle.wasm_below.specs.Source.{Reads};
ghost use Rattle.wasm_module.specs.Exports.{EncodesExport, ExportFault};

use crate::module_laws::exports;
use crate::name::Name;
use std::alloc::Global;
use std::marker::Model;
use wasm_below::byte_laws::unsigned_numbers;
use wasm_below::{BinaryReader, FromReader, MemoryUse, Never, Result, UsesMemory};

/// The name, kind and index of an item that the module exports.
#[derive(Debug, Drop)]
pub struct Export<'a> {
    name: Name<'a>,
    kind: u8,
    index: u32,
}

impl<'a> Model for Export<'a> {
    ghost use Rattle.wasm_module.specs.Exports.{ExportParts};

    ghost Value = { ExportParts };

    ghost view = { λ export. record { name = export.name; kind = export.kind; index = export.index } };
}

impl<'a> Export<'a> {
    pub fn name(&self) -> &'a [u8]
        ensures { result.now ≡ self.now.name }
    {
        self.name.bytes()
    }

    /// Returns the kind: 0 for a function, 1 for a table, 2 for a memory, 3 for a global, 4 for a
    /// tag, or another byte, outside the standard.
    pub fn kind(&self) -> u8
        ensures { result ≡ self.now.kind }
    {
        self.kind
    }

    /// Returns the index among the items of that kind.
    pub fn index(&self) -> u32
        ensures { result ≡ self.now.index }
    {
        self.index
    }

    /// Reads a name, the byte of a kind, with any value, and an index. Specification: Export
    /// Section.
    ///
    /// Fails like `Name::read`, with `EndOfData` at the byte, or like `read_var_u32`.
    pub fn read(reader: &mut BinaryReader<'a>) -> Result<Export<'a>>
        ensures { Reads EncodesExport ExportFault result reader.old reader.new }
    {
        unsigned_numbers();
        let mut ahead = reader.clone();
        let name = Name::read(&mut ahead)?;
        let kind = ahead.read_u8()?;
        let index = ahead.read_var_u32()?;
        *reader = ahead;
        Ok(Export { name, kind, index })
    }
}

impl<'a> UsesMemory for Export<'a> {
    type Memory = Never;
}

impl<'a> FromReader<'a> for Export<'a> {
    ghost encodes = { λ features text export. EncodesExport text export };

    ghost fault = { λ m r offset. ExportFault m r offset };

    fn from_reader(_alloc: Global, reader: &mut BinaryReader<'a>) -> Result<Export<'a>>
        ensures reads { ReadsValue EncodesExport ExportFault (λ old. ⊥) result reader.old reader.new }
        ensures placed { IfOk result (λ value. ⊤) }
    {
        Export::read(reader)
    }

    fn is_prefix_code()
        ensures { (features : WasmFeatures) → PrefixCode EncodesExport }
    {
        exports();
    }

    fn determines_refusal()
        ensures { DeterminesRefusal ExportFault }
    {
        exports();
    }
}
