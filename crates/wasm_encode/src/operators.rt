ghost use Rattle.std.specs.Prelude.{◌≤◌, vec_capacity};
ghost use Rattle.wasm_operators.specs.Expression.{operators};
ghost use Rattle.wasm_encode.specs.Writing.{WritesOperators};

use wasm_encode_immediates::Unwritable;
use wasm_encode_operators::write_operator;
use wasm_operators::{Operator, WasmFeatures};

/// Appends operators, each in its shortest encoding. `ops` is what `OperatorsReader::read_all` adds
/// to a list; the offsets are ignored. The operators need not be an expression.
///
/// Fails like `write_operator`, with the reason of the first operator that is not written.
pub fn write_operators(
    out: &mut Vec<u8>,
    features: WasmFeatures,
    ops: &[(Operator<'_>, u64)],
) -> Result<(), Unwritable>
    ensures written { WritesOperators features (operators ops.now) result out.old.items out.new.items }
    ensures kept { vec_capacity out.old ≤ vec_capacity out.new }
{
    let start = out.len();
    for (op, _offset) in ops {
        match write_operator(out, features, op) {
            Ok(()) => {}
            Err(e) => {
                out.truncate(start);
                return Err(e);
            }
        }
    }
    Ok(())
}
