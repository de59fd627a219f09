//! Written by tools/lists.py from tools/operators.tsv.
ghost use Rattle.std.specs.Prelude.{◌≡◌, ◌++◌, OnOk, string_bytes};
ghost use Rattle.wasm_instr_ops.specs.Misc.{misc_immediates};
ghost use Rattle.wasm_text.specs.Operands.{immediates_text};

use crate::operands::{self, Written};
use wasm_instr_ops::MiscOperator;

pub fn misc(out: &mut String, op: &MiscOperator) -> Written
    ensures { OnOk result (string_bytes out.new ≡ string_bytes out.old ++ immediates_text (misc_immediates op.now)) }
{
    match op {
        MiscOperator::I32TruncSatF32S
        | MiscOperator::I32TruncSatF32U
        | MiscOperator::I32TruncSatF64S
        | MiscOperator::I32TruncSatF64U
        | MiscOperator::I64TruncSatF32S
        | MiscOperator::I64TruncSatF32U
        | MiscOperator::I64TruncSatF64S
        | MiscOperator::I64TruncSatF64U
        | MiscOperator::I64Add128
        | MiscOperator::I64Sub128
        | MiscOperator::I64MulWideS
        | MiscOperator::I64MulWideU => Ok(()),
        MiscOperator::MemoryInit { data_index, mem } => operands::two_numbers(out, data_index, mem),
        MiscOperator::DataDrop { data_index } => operands::one_number(out, data_index),
        MiscOperator::MemoryCopy { dst_mem, src_mem } => operands::two_numbers(
            out, dst_mem, src_mem,
        ),
        MiscOperator::MemoryFill { mem } | MiscOperator::MemoryDiscard { mem } =>
            operands::one_number(out, mem),
        MiscOperator::TableInit { elem_index, table } => operands::two_numbers(
            out, elem_index, table,
        ),
        MiscOperator::ElemDrop { elem_index } => operands::one_number(out, elem_index),
        MiscOperator::TableCopy {
            dst_table,
            src_table,
        } => operands::two_numbers(out, dst_table, src_table),
        MiscOperator::TableFill { table }
        | MiscOperator::TableGrow { table }
        | MiscOperator::TableSize { table } => operands::one_number(out, table),
    }
}
