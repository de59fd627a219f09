ghost use Rattle.wasm_externals.specs.Externals.{export};
ghost use Rattle.wasm_externals.specs.Texts.{text};
ghost use Rattle.wasm_encode_sections.specs.ExternalReasons.{TextReason, ExportReason};

use crate::write::Write;
use wasm_below::{Malformed, Message, WasmFeatures};
use wasm_externals::{Export, Text};
use wasm_write_grammars::{append_bytes, append_u32};

const MAX_TEXT_SIZE: usize = 100_000;

impl<'a> Write for Text<'a> {
    ghost grammar = { λ features. text };

    ghost reason = { λ features. TextReason };

    fn append_to(&self, _features: WasmFeatures, out: &mut Vec<u8>) -> Result<(), Message> {
        let bytes = self.as_str().as_bytes();
        if bytes.len() > MAX_TEXT_SIZE {
            return Err(Message::Malformed(Malformed::StringSize));
        }
        append_u32(out, bytes.len() as u32)?;
        append_bytes(out, bytes)?;
        Ok(())
    }
}

impl<'a> Write for Export<'a> {
    ghost grammar = { λ features. export };

    ghost reason = { λ features. ExportReason };

    fn append_to(&self, features: WasmFeatures, out: &mut Vec<u8>) -> Result<(), Message> {
        self.name.append_to(features, out)?;
        self.kind.append_to(features, out)?;
        append_u32(out, self.index)?;
        Ok(())
    }
}
