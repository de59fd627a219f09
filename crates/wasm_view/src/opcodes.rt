//! Written by tools/lists.py from tools/operators.tsv.
ghost use Rattle.std.specs.Prelude.{◌≡◌};
ghost use Rattle.wasm_instr.specs.Row.{prefix_of, opcode_of};
ghost use Rattle.wasm_view.specs.View.{opcode_number};

use wasm_instr::Operator;

/// Returns an operator's number, the `opcode` of its C struct.
#[inline(always)]
pub fn opcode_of(op: &Operator<'_>) -> u32
    ensures { result ≡ opcode_number (prefix_of op.now) (opcode_of op.now) }
{
    match op {
        Operator::Gc(op) => 0xfb0000 + op.code(),
        Operator::Misc(op) => 0xfc0000 + op.code(),
        Operator::Simd(op) => 0xfd0000 + op.code(),
        Operator::Atomic(op) => 0xfe0000 + op.code(),
        _ => op.code(),
    }
}
