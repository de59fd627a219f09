ghost use Rattle.wasm_externals.specs.Externals.{export};

use crate::external::ExternalKind;
use crate::text::Text;
use std::alloc::Global;
use wasm_below::{BinaryReader, Result};
use wasm_grammars::Read;

/// Specification: Binary Format, Export Section.
#[derive(Debug, PartialEq, Eq, Drop)]
pub struct Export<'a> {
    pub name: Text<'a>,
    pub kind: ExternalKind,
    /// An index of this kind.
    pub index: u32,
}

impl<'a> Read<'a> for Export<'a> {
    ghost grammar = { λ features. export };

    fn read_from(alloc: Global, reader: &mut BinaryReader<'a>) -> Result<Export<'a>> {
        let mut ahead = reader.clone();
        let name = Text::read_from(alloc, &mut ahead)?;
        let kind = ExternalKind::read_from(alloc, &mut ahead)?;
        let index = ahead.read_var_u32()?;
        *reader = ahead;
        Ok(Export { name, kind, index })
    }
}
