ghost use Rattle.std.specs.Prelude.{◌≡◌, IfOk, IfErr};
ghost use Rattle.wasm_operators.specs.below.Features.{all_features};
ghost use Rattle.wasm_operators.specs.Expression.{Placed, EncodesExpression};
ghost use Rattle.uses.specs.Input.{input};

use std::alloc::Global;
use wasm_operators::{BinaryReader, Message, Operator, OperatorsReader, Result};

/// Returns the operators of an expression, each with its offset, by the clauses `tree` and `only`
/// of `read_all`.
pub fn operators<'a>(alloc: Global, bytes: &'a [u8]) -> Result<Vec<(Operator<'a>, u64)>>
    ensures encodes { IfOk result (λ found. EncodesExpression (input all_features bytes.now) found.items) }
    ensures whole { (placed : Placed) → EncodesExpression (input all_features bytes.now) placed
        → IfErr result (λ e. e.message ≡ Message.OutOfMemory) }
{
    let mut found = Vec::new(alloc);
    OperatorsReader::new(alloc, BinaryReader::new(bytes, 0)).read_all(&mut found)?;
    Ok(found)
}
