ghost use Rattle.wasm_externals.specs.Globals.{global_type, tag_type};
ghost use Rattle.wasm_externals.specs.Externals.{external_kind};
ghost use Rattle.wasm_write_grammars.specs.Writing.{NoReason};

use crate::flags::flag_byte;
use crate::write::Write;
use wasm_below::{Message, WasmFeatures};
use wasm_externals::{ExternalKind, GlobalType, TagType};
use wasm_write_grammars::{append_byte, append_u32};

impl Write for ExternalKind {
    ghost grammar = { λ features. external_kind };

    ghost reason = { λ features. NoReason };

    fn append_to(&self, _features: WasmFeatures, out: &mut Vec<u8>) -> Result<(), Message> {
        match *self {
            ExternalKind::Func => append_byte(out, 0),
            ExternalKind::Table => append_byte(out, 1),
            ExternalKind::Memory => append_byte(out, 2),
            ExternalKind::Global => append_byte(out, 3),
            ExternalKind::Tag => append_byte(out, 4),
        }
    }
}

impl Write for GlobalType {
    ghost grammar = { λ features. global_type };

    ghost reason = { λ features. NoReason };

    fn append_to(&self, features: WasmFeatures, out: &mut Vec<u8>) -> Result<(), Message> {
        self.content_type.append_to(features, out)?;
        append_byte(out, flag_byte(self.mutable, self.shared, false, false))?;
        Ok(())
    }
}

impl Write for TagType {
    ghost grammar = { λ features. tag_type };

    ghost reason = { λ features. NoReason };

    fn append_to(&self, _features: WasmFeatures, out: &mut Vec<u8>) -> Result<(), Message> {
        append_byte(out, 0)?;
        append_u32(out, self.func_type_idx)?;
        Ok(())
    }
}
