ghost use Rattle.std.specs.Prelude.{IfOk};
ghost use Rattle.uses.specs.Input.{input};
ghost use Rattle.uses.specs.Iterated.{AreAllAllowed};

use std::alloc::Global;
use wasm_operators::{
    BinaryReader, Error, Message, Operator, OperatorsReader, Result, WasmFeatures, expression_laws,
    grammar_laws, run_laws,
};

/// Returns all operators that the bytes encode, with their offsets. Frames may be open after the
/// last.
///
/// Each step of the iterator is one read (law `one_operator`). By `path_is_run`, the frames of an
/// expression allow these operators; by `rules_run_beginnings`, they begin an expression.
pub fn iterated<'a>(
    alloc: Global,
    features: WasmFeatures,
    bytes: &'a [u8],
) -> Result<Vec<(Operator<'a>, u64)>>
    ensures { IfOk result (λ found. AreAllAllowed (input features bytes.now) found.items) }
{
    run_laws::one_operator();
    expression_laws::layouts(features);
    grammar_laws::path_is_run::<Operator<'a>>();
    grammar_laws::rules_run_beginnings::<Operator<'a>>();
    let reader = OperatorsReader::new(alloc, BinaryReader::new_features(bytes, 0, features));
    let mut items = reader.into_iter_with_offsets();
    let mut found = Vec::new(alloc);
    'operators: while let Some(item) = items.next() {
        let placed = item?;
        if found.push(placed).is_err() {
            return Err(Error::new(Message::OutOfMemory, 0));
        }
    }
    Ok(found)
}
