//! Constant expressions.
ghost use Rattle.std.specs.Prelude.{◌≡◌, OnOk, IfOk, IfErr};
ghost use Rattle.wasm_module_context.specs.Constants.{IsConstant, ExplainsConstant, AddsConstant, FailsConstant};
ghost use Rattle.wasm_module_context.specs.Parts.{address_type};

use crate::error::PayloadError;
use crate::items::AddToContext;
use std::alloc::Global;
use wasm_below::ValType;
use wasm_check::check_constant;
use wasm_constants::Constant;
use wasm_context::Context;

/// Returns the type of addresses in a memory, or of indices in a table.
pub fn address_type(is_64: bool) -> ValType
    ensures { result ≡ address_type is_64 }
{
    if is_64 { ValType::I64 } else { ValType::I32 }
}

/// Checks that a constant expression leaves a value of a type. Specification: Validation, Constant
/// Expressions.
///
/// Fails with `Constant` if it does not.
pub fn check_value(
    alloc: Global,
    context: &Context,
    ty: ValType,
    constant: &Constant<'_>,
) -> Result<(), PayloadError>
    ensures typed { OnOk result (IsConstant context.now ty constant.now) }
    ensures error { IfErr result (λ e. ExplainsConstant context.now ty constant.now e) }
{
    let expression = constant.expression().get_binary_reader();
    match check_constant(alloc, context, ty, expression) {
        Ok(()) => Ok(()),
        Err(e) => Err(PayloadError::Constant(e)),
    }
}

/// Declares the functions to which a constant expression refers, then checks that it leaves a value
/// of a type. Specification: Validation, Constant Expressions.
///
/// Fails with `Constant` if it does not.
pub fn add_constant<'a>(
    alloc: Global,
    context: Context,
    ty: ValType,
    constant: Constant<'a>,
) -> Result<Context, PayloadError>
    ensures added { IfOk result (λ new. AddsConstant ty constant.entry context new) }
    ensures refused { IfErr result (λ e. FailsConstant ty constant.entry context e) }
{
    let expression = constant.expression().get_binary_reader();
    let context = match constant.add_to(alloc, context, 0) {
        Ok(context) => context,
        Err(e) => return Err(e),
    };
    match check_constant(alloc, &context, ty, expression) {
        Ok(()) => Ok(context),
        Err(e) => Err(PayloadError::Constant(e)),
    }
}
