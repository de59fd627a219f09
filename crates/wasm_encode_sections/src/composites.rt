ghost use Rattle.wasm_types.specs.Types.{inner_type, composite_type};
ghost use Rattle.wasm_encode_sections.specs.TypeReasons.{InnerReason, CompositeReason};

use crate::write::Write;
use wasm_below::{Message, WasmFeatures};
use wasm_types::{CompositeInnerType, CompositeType};
use wasm_write_grammars::append_byte;

impl Write for CompositeInnerType {
    ghost grammar = { λ features. inner_type };

    ghost reason = { λ features. InnerReason };

    fn append_to(&self, features: WasmFeatures, out: &mut Vec<u8>) -> Result<(), Message> {
        match self {
            CompositeInnerType::Func(ty) => {
                append_byte(out, 0x60)?;
                ty.append_to(features, out)?;
                Ok(())
            }
            CompositeInnerType::Array(ty) => {
                append_byte(out, 0x5e)?;
                ty.append_to(features, out)?;
                Ok(())
            }
            CompositeInnerType::Struct(ty) => {
                append_byte(out, 0x5f)?;
                ty.append_to(features, out)?;
                Ok(())
            }
            CompositeInnerType::Cont(ty) => {
                append_byte(out, 0x5d)?;
                ty.append_to(features, out)?;
                Ok(())
            }
        }
    }
}

/// A shared type follows the byte 0x65.
impl Write for CompositeType {
    ghost grammar = { λ features. composite_type };

    ghost reason = { λ features. CompositeReason };

    fn append_to(&self, features: WasmFeatures, out: &mut Vec<u8>) -> Result<(), Message> {
        if self.shared {
            append_byte(out, 0x65)?;
            self.inner.append_to(features, out)?;
            return Ok(());
        }
        self.inner.append_to(features, out)?;
        Ok(())
    }
}
