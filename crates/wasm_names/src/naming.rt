ghost use Rattle.wasm_names.specs.Names.{naming};

use std::alloc::Global;
use wasm_below::{BinaryReader, Result};
use wasm_externals::Text;
use wasm_grammars::Read;
use wasm_sections::SectionReader;

/// A map from indices to names, which are read one by one.
pub type NameMap<'a> = SectionReader<'a, Naming<'a>>;

/// A name, and the index of what it names.
#[derive(Debug, PartialEq, Eq, Drop)]
pub struct Naming<'a> {
    pub index: u32,
    pub name: Text<'a>,
}

/// Fails like `read_var_u32`, or like a text.
impl<'a> Read<'a> for Naming<'a> {
    ghost grammar = { λ features. naming };

    fn read_from(alloc: Global, reader: &mut BinaryReader<'a>) -> Result<Naming<'a>> {
        let mut ahead = reader.clone();
        let index = ahead.read_var_u32()?;
        let name = Text::read_from(alloc, &mut ahead)?;
        *reader = ahead;
        Ok(Naming { index, name })
    }
}
