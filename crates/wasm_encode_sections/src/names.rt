ghost use Rattle.wasm_names.specs.Names.{naming};
ghost use Rattle.wasm_encode_sections.specs.NameReasons.{listed_naming, NamingReason, ListedNamingReason};

use crate::lists::append_items;
use crate::write::Write;
use wasm_below::{Message, WasmFeatures};
use wasm_imm::Members;
use wasm_names::Naming;
use wasm_write_grammars::append_u32;

impl<'a> Write for Naming<'a> {
    ghost grammar = { λ features. naming };

    ghost reason = { λ features. NamingReason };

    fn append_to(&self, features: WasmFeatures, out: &mut Vec<u8>) -> Result<(), Message> {
        append_u32(out, self.index)?;
        self.name.append_to(features, out)?;
        Ok(())
    }
}

/// A list of names, and the index of what contains the things that they name. Specification: Custom
/// Sections, Name Section.
#[derive(Drop)]
pub struct ListedNaming<'a> {
    pub index: u32,
    pub names: Members<Naming<'a>>,
}

impl<'a> Write for ListedNaming<'a> {
    ghost grammar = { λ features. listed_naming };

    ghost reason = { λ features. ListedNamingReason };

    fn append_to(&self, features: WasmFeatures, out: &mut Vec<u8>) -> Result<(), Message> {
        append_u32(out, self.index)?;
        append_items(out, features, self.names.as_slice())?;
        Ok(())
    }
}
