ghost use Rattle.wasm_grammars.specs.Parts.{byte, u32, u64};
ghost use Rattle.wasm_write_grammars.specs.Writing.{NoReason};

use crate::write::Write;
use wasm_below::{Message, WasmFeatures};
use wasm_write_grammars::{append_byte, append_u32, append_u64};

impl Write for u8 {
    ghost grammar = { λ features. byte };

    ghost reason = { λ features. NoReason };

    fn append_to(&self, _features: WasmFeatures, out: &mut Vec<u8>) -> Result<(), Message> {
        append_byte(out, *self)
    }
}

impl Write for u32 {
    ghost grammar = { λ features. u32 };

    ghost reason = { λ features. NoReason };

    fn append_to(&self, _features: WasmFeatures, out: &mut Vec<u8>) -> Result<(), Message> {
        append_u32(out, *self)
    }
}

impl Write for u64 {
    ghost grammar = { λ features. u64 };

    ghost reason = { λ features. NoReason };

    fn append_to(&self, _features: WasmFeatures, out: &mut Vec<u8>) -> Result<(), Message> {
        append_u64(out, *self)
    }
}
