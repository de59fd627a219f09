ghost use Rattle.std.specs.Prelude.{◌≡◌};
ghost use Rattle.wasm_externals.specs.declared.external.ExternalKind.TheVariants as kind;
ghost use Rattle.wasm_context.specs.Faults.{external_fault};
ghost use Rattle.wasm_module_context.specs.Parts.{function_index, AddsFunctionIndex, FailsAt};

use crate::error::PayloadError;
use crate::items::AddToContext;
use std::alloc::Global;
use wasm_below::{BinaryReader, Result};
use wasm_context::Context;
use wasm_grammars::Read;

/// The index of a function, to which an element refers.
#[derive(Clone, Copy, Debug, PartialEq, Eq)]
pub struct FunctionIndex(pub u32);

impl<'a> Read<'a> for FunctionIndex {
    ghost grammar = { λ features. function_index };

    fn read_from(_alloc: Global, reader: &mut BinaryReader<'a>) -> Result<FunctionIndex> {
        match reader.read_var_u32() {
            Ok(index) => Ok(FunctionIndex(index)),
            Err(e) => Err(e),
        }
    }
}

impl<'a> AddToContext<'a> for FunctionIndex {
    ghost adds = { AddsFunctionIndex };

    ghost refuses = { λ x c at e. FailsAt (external_fault c kind.Func x.0) at e };

    fn add_to(
        self,
        _alloc: Global,
        context: Context,
        offset: u64,
    ) -> std::result::Result<Context, PayloadError> {
        let mut context = context;
        match context.declare(self.0) {
            Ok(()) => Ok(context),
            Err(e) => Err(PayloadError::Context(e, offset)),
        }
    }
}
