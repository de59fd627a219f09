ghost use Rattle.std.specs.Prelude.{◌≡◌, Ok, IfOk, IfErr};
ghost use Rattle.wasm_below.specs.Source.{HasRead, IsRefusal};
ghost use Rattle.wasm_module.specs.Names.{EncodesName, NameFault};

use crate::name::Name;
use std::marker::Model;
use wasm_below::{BinaryReader, Result};

/// The name of a custom section, and a reader of the bytes after it.
#[derive(Debug, Drop)]
pub struct CustomSection<'a> {
    name: Name<'a>,
    contents: BinaryReader<'a>,
}

impl<'a> Model for CustomSection<'a> {
    ghost use Rattle.wasm_module.specs.Names.{CustomParts};

    ghost Value = { CustomParts };

    ghost view = { λ s. record { name = s.name; contents = s.contents } };
}

impl<'a> CustomSection<'a> {
    /// Reads the name from the contents of a section with the number 0. Specification: Custom
    /// Section. Fails like `Name::read`.
    pub fn new(mut reader: BinaryReader<'a>) -> Result<CustomSection<'a>>
        ensures name { IfOk result (λ s. HasRead EncodesName s.name reader.entry s.contents) }
        ensures refused { IfErr result (λ e. IsRefusal EncodesName e reader.entry) }
        ensures fault { IfErr result (λ e. NameFault e.message reader.entry e.offset) }
    {
        match Name::read(&mut reader) {
            Ok(name) => Ok(CustomSection {
                name,
                contents: reader,
            }),
            Err(e) => Err(e),
        }
    }

    pub fn name(&self) -> &'a [u8]
        ensures { result.now ≡ self.now.name }
    {
        self.name.bytes()
    }

    /// Returns a reader of the bytes after the name, with the offsets of the module.
    pub fn contents(&self) -> BinaryReader<'a>
        ensures { result ≡ self.now.contents }
    {
        self.contents.clone()
    }
}
