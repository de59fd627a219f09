ghost use Rattle.std.specs.Prelude.{◌≡◌};
ghost use Rattle.wasm_instr.specs.declared.operator.Operator.{Operator};
ghost use Rattle.wasm_visit_groups.specs.Groups.{IsOneByte};

use crate::dispatch;
use crate::made::Made;
use wasm_instr::Operator;

/// Returns the same operator, without the lifetime that only a branch table needs.
pub fn owned(op: Operator<'_>) -> Operator<'static>
    requires { IsOneByte op }
    ensures { result ≡ op.entry }
{
    dispatch::one_byte(&mut Made, op)
}
