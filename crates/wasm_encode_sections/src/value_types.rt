ghost use Rattle.wasm_grammars.specs.Parts.{val_type, ref_type};
ghost use Rattle.wasm_write_grammars.specs.Writing.{NoReason};

use crate::write::Write;
use wasm_below::{Message, RefType, ValType, WasmFeatures};
use wasm_encode_immediates::write_value_type;

impl Write for ValType {
    ghost grammar = { λ features. val_type };

    ghost reason = { λ features. NoReason };

    fn append_to(&self, _features: WasmFeatures, out: &mut Vec<u8>) -> Result<(), Message> {
        match out.reserve(12) {
            Ok(()) => {
                write_value_type(out, *self);
                Ok(())
            }
            Err(_) => Err(Message::OutOfMemory),
        }
    }
}

impl Write for RefType {
    ghost grammar = { λ features. ref_type };

    ghost reason = { λ features. NoReason };

    fn append_to(&self, _features: WasmFeatures, out: &mut Vec<u8>) -> Result<(), Message> {
        match out.reserve(12) {
            Ok(()) => {
                write_value_type(out, ValType::Ref(*self));
                Ok(())
            }
            Err(_) => Err(Message::OutOfMemory),
        }
    }
}
