ghost use Rattle.std.specs.Prelude.{◌≡◌, ◌+◌, ◌*◌, ◌<◌, ◌≤◌, ◌⊎◌, length, IfOk, IfErr, vec_capacity, vec_len};
ghost use Rattle.wasm_operators.specs.below.Source.{rest};
ghost use Rattle.wasm_operators.specs.opcodes.Allowed.{EncodesAllowed};
ghost use Rattle.wasm_operators.specs.Next.{NextMayAllocate};
ghost use Rattle.uses.specs.Rest.{AddsRest};

use wasm_operators::{Message, Operator, OperatorsReader, Result, expression_laws};

/// Reads the rest of an expression that another function started to read.
///
/// The clauses `runs`, `depth` and `memory` of `read_all` say which operators are read and what
/// they need. By the law `layouts`, each has an encoding.
pub fn read_rest<'a>(
    operators: &mut OperatorsReader<'a>,
    list: &mut Vec<(Operator<'a>, u64)>,
) -> Result<()>
    ensures adds { IfOk result (λ _. AddsRest operators.old list.old.items list.new.items) }
    ensures few { 2 * length operators.new.frames ≤ 2 * length operators.old.frames + length (rest operators.old.reader) }
    ensures memory { IfErr result (λ e. e.message ≡ Message.OutOfMemory
        → NextMayAllocate EncodesAllowed operators.new ⊎ (vec_capacity list.new < vec_len list.new + 1)) }
{
    expression_laws::layouts(operators.get_binary_reader().features());
    operators.read_all(list)
}
