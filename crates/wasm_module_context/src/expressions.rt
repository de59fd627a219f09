//! The expressions of an element segment.
ghost use Rattle.std.specs.Prelude.{IfOk, IfErr};
ghost use Rattle.wasm_below.specs.declared.types.ValType.TheVariants as value;
ghost use Rattle.wasm_constants.specs.Constants.{const_expr};
ghost use Rattle.wasm_module_context.specs.Constants.{AddsConstant, FailsConstant};
ghost use Rattle.wasm_module_context.specs.Items.{AddsItems, FailsItems};

use crate::constants::add_constant;
use crate::error::PayloadError;
use std::alloc::Global;
use wasm_below::{RefType, ValType};
use wasm_constants::Constant;
use wasm_context::Context;
use wasm_sections::SectionReader;

/// Adds constant expressions of a reference type, like `add_items`.
pub fn add_expressions<'a>(
    alloc: Global,
    context: Context,
    ty: RefType,
    section: SectionReader<'a, Constant<'a>>,
) -> Result<Context, PayloadError>
    ensures added { IfOk result (λ new. AddsItems (AddsConstant (value.Ref ty)) const_expr section.entry.count section.entry.reader context new) }
    ensures refused { IfErr result (λ e. FailsItems (AddsConstant (value.Ref ty)) (λ r c at e. FailsConstant (value.Ref ty) r c e) const_expr section.entry.count section.entry.reader context e) }
{
    let mut items = section.into_iter_with_offsets();
    let mut context = context;
    'items: while let Some(item) = items.next() {
        match item {
            Ok((_, part)) => match add_constant(alloc, context, ValType::Ref(ty), part) {
                Ok(more) => context = more,
                Err(e) => return Err(e),
            },
            Err(e) => return Err(PayloadError::Decode(e)),
        }
    }
    Ok(context)
}
