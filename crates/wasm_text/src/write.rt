ghost use Rattle.std.specs.Prelude.{◌≡◌, ◌++◌, OnOk, string_bytes};
ghost use Rattle.wasm_text.specs.Operands.{text_of};

use crate::names::text_name;
use crate::operators::own;
use crate::values::Written;
use wasm_instr::Operator;

/// Appends the text of an operator to `out`: its name and its operands, each after a space.
pub fn write_operator(out: &mut String, op: &Operator<'_>) -> Written
    ensures { OnOk result (string_bytes out.new ≡ string_bytes out.old ++ text_of op.now) }
{
    out.push_str(text_name(op))?;
    own::own(out, op)
}
