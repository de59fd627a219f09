ghost use Rattle.std.specs.Prelude.{[], IfOk};
ghost use Rattle.wasm_operators.specs.Body.{OpensBody};
ghost use Rattle.wasm_operators.specs.MainTheorem.{ReadSoFar};
ghost use Rattle.wasm_listing.specs.Dump.{input_of};

use std::alloc::Global;
use wasm_operators::{BinaryReader, FunctionBody, OperatorsReader, Result, WasmFeatures};

/// Skips the locals and returns a reader of the operators. Fails with the error of the locals.
pub fn open_body<'a>(
    alloc: Global,
    features: WasmFeatures,
    bytes: &'a [u8],
) -> Result<OperatorsReader<'a>>
    ensures opens { OpensBody result (input_of features bytes.now) }
    ensures read_so_far { IfOk result (λ operators. ReadSoFar [] operators) }
{
    let reader = BinaryReader::new_features(bytes, 0, features);
    FunctionBody::new(reader).get_operators_reader(alloc)
}
