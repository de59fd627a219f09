//! The functions to which constant expressions refer.
ghost use Rattle.std.specs.Prelude.{◌≡◌, ◌≢◌, OnOk, IfOk, IfErr};
ghost use Rattle.wasm_below.specs.declared.message.Message.TheVariants as message;
ghost use Rattle.wasm_below.specs.Source.{source_of};
ghost use Rattle.wasm_operators.specs.Expression.{Placed, EncodesExpression};
ghost use Rattle.wasm_module_context.specs.References.{DeclaresOne, FailsOne, Declares, FailsToDeclare, DeclaresReferences, FailsReferences};

use crate::error::PayloadError;
use crate::items::AddToContext;
use std::alloc::Global;
use wasm_below::Result as Read;
use wasm_constants::Constant;
use wasm_context::Context;
use wasm_operators::Operator;

/// Returns the operators of a constant expression, each with its offset.
fn operators<'a>(alloc: Global, constant: &Constant<'a>) -> Read<Vec<(Operator<'a>, u64)>>
    ensures encodes { IfOk result (λ found. EncodesExpression (source_of constant.now) found.items) }
    ensures whole { IfErr result (λ e. e.message ≢ message.OutOfMemory → (placed : Placed) → EncodesExpression (source_of constant.now) placed → ⊥) }
{
    let mut found = Vec::new(alloc);
    let mut reader = constant.expression().get_operators_reader(alloc);
    match reader.read_all(&mut found) {
        Ok(()) => Ok(found),
        Err(e) => Err(e),
    }
}

/// Declares the function to which an operator refers, if it is `ref.func`.
fn declare_one(
    context: &mut Context,
    operator: &Operator<'_>,
    offset: u64,
) -> Result<(), PayloadError>
    ensures declared { OnOk result (DeclaresOne operator.now context.old context.new) }
    ensures refused { IfErr result (λ e. FailsOne operator.now offset context.old e) }
{
    if let Operator::RefFunc { function_index } = operator {
        return match context.declare(*function_index) {
            Ok(()) => Ok(()),
            Err(e) => Err(PayloadError::Context(e, offset)),
        };
    }
    Ok(())
}

/// Declares the functions to which these operators refer.
fn declare_all(context: Context, operators: &[(Operator<'_>, u64)]) -> Result<Context, PayloadError>
    ensures declared { IfOk result (λ new. Declares operators.now context new) }
    ensures refused { IfErr result (λ e. FailsToDeclare operators.now context e) }
{
    let mut context = context;
    for (operator, offset) in operators {
        if let Err(e) = declare_one(&mut context, operator, *offset) {
            return Err(e);
        }
    }
    Ok(context)
}

impl<'a> AddToContext<'a> for Constant<'a> {
    ghost adds = { DeclaresReferences };

    ghost refuses = { λ r c at e. FailsReferences r c e };

    /// Declares the functions to which the expression refers.
    fn add_to(
        self,
        alloc: Global,
        context: Context,
        _offset: u64,
    ) -> Result<Context, PayloadError> {
        match operators(alloc, &self) {
            Ok(found) => declare_all(context, found.as_slice()),
            Err(e) => Err(PayloadError::Decode(e)),
        }
    }
}
