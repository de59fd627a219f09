//! Written by tools/lists.py from tools/operators.tsv.
ghost use Rattle.std.specs.Prelude.{◌≡◌};
ghost use Rattle.wasm_instr.specs.Row.{immediates_of};
ghost use Rattle.wasm_view.specs.View.{view, view_of};

use crate::opcodes::opcode_of;
use crate::shapes;
use crate::view::WasmOperator;
use crate::views::own;
use wasm_instr::Operator;

/// Converts an operator to a C struct. `offset` is the offset of its first byte.
#[inline(always)]
pub fn view_of(op: &Operator<'_>, offset: u64) -> WasmOperator
    ensures { result ≡ view_of (op.now, offset) }
{
    common(offset, opcode_of(op), op)
}

/// Converts frequent operators inline.
#[inline(always)]
fn common(offset: u64, opcode: u32, op: &Operator<'_>) -> WasmOperator
    ensures { result ≡ view offset opcode (immediates_of op.now) }
{
    match op {
        Operator::Else | Operator::End | Operator::Return | Operator::Drop | Operator::Select =>
            shapes::nothing(offset, opcode),
        Operator::Br { relative_depth: a }
        | Operator::BrIf { relative_depth: a }
        | Operator::Call { function_index: a }
        | Operator::LocalGet { local_index: a }
        | Operator::LocalSet { local_index: a }
        | Operator::LocalTee { local_index: a }
        | Operator::GlobalGet { global_index: a }
        | Operator::GlobalSet { global_index: a } => shapes::index(offset, opcode, *a),
        Operator::I32Load { memarg: a }
        | Operator::I64Load { memarg: a }
        | Operator::I32Load8S { memarg: a }
        | Operator::I32Load8U { memarg: a }
        | Operator::I32Load16U { memarg: a }
        | Operator::I32Store { memarg: a }
        | Operator::I64Store { memarg: a }
        | Operator::I32Store8 { memarg: a }
        | Operator::I32Store16 { memarg: a } => shapes::memory(offset, opcode, *a),
        Operator::I32Const { value: a } => shapes::integer_32(offset, opcode, *a),
        Operator::I64Const { value: a } => shapes::integer_64(offset, opcode, *a),
        Operator::Numeric(_) => shapes::nothing(offset, opcode),
        _ => own(offset, opcode, op),
    }
}
