ghost use Rattle.wasm_types.specs.Types.{func_type, cont_type};
ghost use Rattle.wasm_encode_sections.specs.TypeReasons.{FuncReason, ContReason};

use crate::lists::append_list;
use crate::write::Write;
use wasm_below::{Malformed, Message, SizeName, WasmFeatures};
use wasm_encode_numbers::write_s33;
use wasm_types::{ContType, FuncType};

const MAX_PARAMS: usize = 1000;

const MAX_RESULTS: usize = 1000;

const MAX_TYPE_INDEX: u32 = 1048575;

impl Write for FuncType {
    ghost grammar = { λ features. func_type };

    ghost reason = { λ features. FuncReason };

    fn append_to(&self, features: WasmFeatures, out: &mut Vec<u8>) -> Result<(), Message> {
        append_list(
            out,
            features,
            MAX_PARAMS,
            SizeName::FunctionParams,
            self.params(),
        )?;
        append_list(
            out,
            features,
            MAX_RESULTS,
            SizeName::FunctionReturns,
            self.results(),
        )?;
        Ok(())
    }
}

impl Write for ContType {
    ghost grammar = { λ features. cont_type };

    ghost reason = { λ features. ContReason };

    fn append_to(&self, _features: WasmFeatures, out: &mut Vec<u8>) -> Result<(), Message> {
        if self.0 > MAX_TYPE_INDEX {
            return Err(Message::Malformed(Malformed::TypeIndex));
        }
        match out.reserve(10) {
            Ok(()) => {
                write_s33(out, self.0);
                Ok(())
            }
            Err(_) => Err(Message::OutOfMemory),
        }
    }
}
