ghost use Rattle.std.specs.Prelude.{IfOk};
ghost use Rattle.wasm_operators.specs.Expression.{EncodesExpression};
ghost use Rattle.uses.specs.Input.{input};

use std::alloc::Global;
use wasm_operators::{
    BinaryReader, Error, Message, Operator, OperatorsReader, Result, WasmFeatures, expression_laws,
};

/// Returns the operators of an expression. Calls `read_all` again after allocation failed, at most
/// `tries` times in all.
///
/// The clause `beginning` of a failed call gives what `tree` of the next takes; the law `layouts`
/// joins the lists.
pub fn operators_again<'a>(
    alloc: Global,
    features: WasmFeatures,
    bytes: &'a [u8],
    tries: u32,
) -> Result<Vec<(Operator<'a>, u64)>>
    ensures { IfOk result (λ found. EncodesExpression (input features bytes.now) found.items) }
{
    expression_laws::layouts(features);
    let mut found = Vec::new(alloc);
    let mut reader = OperatorsReader::new(alloc, BinaryReader::new_features(bytes, 0, features));
    'tries: for _try in 0..tries {
        match reader.read_all(&mut found) {
            Ok(()) => return Ok(found),
            Err(error) => match error.message() {
                Message::OutOfMemory => {}
                _ => return Err(error),
            },
        }
    }
    Err(Error::new(Message::OutOfMemory, reader.original_position()))
}
