//! Written by tools/lists.py from tools/operators.tsv.
ghost use Rattle.std.specs.Prelude.{◌+◌, ◌≤◌, vec_len, vec_capacity};
ghost use Rattle.wasm_instr_ops.specs.Misc.{misc_immediates};
ghost use Rattle.wasm_encode_immediates.specs.Written.{WritesImmediates};

use wasm_below::WasmFeatures;
use wasm_encode_immediates::{Unwritable, Writes};
use wasm_instr_ops::MiscOperator;

/// Appends the immediates of a `MiscOperator`: at most 20 bytes.
pub fn write_misc(
    out: &mut Vec<u8>,
    features: WasmFeatures,
    op: MiscOperator,
) -> Result<(), Unwritable>
    requires { vec_len out.old + 20 ≤ vec_capacity out.old }
    ensures { WritesImmediates features (misc_immediates op) result out.old out.new }
{
    match op {
        MiscOperator::I32TruncSatF32S
        | MiscOperator::I32TruncSatF32U
        | MiscOperator::I32TruncSatF64S
        | MiscOperator::I32TruncSatF64U
        | MiscOperator::I64TruncSatF32S
        | MiscOperator::I64TruncSatF32U
        | MiscOperator::I64TruncSatF64S
        | MiscOperator::I64TruncSatF64U
        | MiscOperator::I64Add128
        | MiscOperator::I64Sub128
        | MiscOperator::I64MulWideS
        | MiscOperator::I64MulWideU => Ok(()),
        MiscOperator::MemoryInit {
            data_index: a,
            mem: b,
        }
        | MiscOperator::MemoryCopy {
            dst_mem: a,
            src_mem: b,
        }
        | MiscOperator::TableInit {
            elem_index: a,
            table: b,
        }
        | MiscOperator::TableCopy {
            dst_table: a,
            src_table: b,
        } => (a, b).write(out, features, 0),
        MiscOperator::DataDrop { data_index: a }
        | MiscOperator::MemoryFill { mem: a }
        | MiscOperator::ElemDrop { elem_index: a }
        | MiscOperator::TableFill { table: a }
        | MiscOperator::TableGrow { table: a }
        | MiscOperator::TableSize { table: a }
        | MiscOperator::MemoryDiscard { mem: a } => a.write(out, features, 0),
    }
}
