ghost use Rattle.wasm_externals.specs.Externals.{import};

use crate::external::TypeRef;
use crate::text::Text;
use std::alloc::Global;
use wasm_below::{BinaryReader, Result};
use wasm_grammars::Read;

/// Specification: Binary Format, Import Section.
#[derive(Debug, PartialEq, Eq, Drop)]
pub struct Import<'a> {
    pub module: Text<'a>,
    pub name: Text<'a>,
    pub ty: TypeRef,
}

impl<'a> Read<'a> for Import<'a> {
    ghost grammar = { import };

    fn read_from(alloc: Global, reader: &mut BinaryReader<'a>) -> Result<Import<'a>> {
        let mut ahead = reader.clone();
        let module = Text::read_from(alloc, &mut ahead)?;
        let name = Text::read_from(alloc, &mut ahead)?;
        let ty = TypeRef::read_from(alloc, &mut ahead)?;
        *reader = ahead;
        Ok(Import { module, name, ty })
    }
}
