//! Written by tools/lists.py from tools/operators.tsv.
use crate::fields::shapes;
use crate::values::{self, Written};
use wasm_instr_ops::MiscOperator;

pub fn misc(out: &mut String, op: &MiscOperator) -> Written {
    match op {
        MiscOperator::MemoryInit { data_index, mem } => shapes::write_data_index_and_mem(
            out, data_index, mem,
        ),
        MiscOperator::DataDrop { data_index } => values::number(out, "data_index", data_index),
        MiscOperator::MemoryCopy { dst_mem, src_mem } => shapes::write_dst_mem_and_src_mem(
            out, dst_mem, src_mem,
        ),
        MiscOperator::MemoryFill { mem } | MiscOperator::MemoryDiscard { mem } => values::number(
            out, "mem", mem,
        ),
        MiscOperator::TableInit { elem_index, table } => shapes::write_elem_index_and_table(
            out, elem_index, table,
        ),
        MiscOperator::ElemDrop { elem_index } => values::number(out, "elem_index", elem_index),
        MiscOperator::TableCopy {
            dst_table,
            src_table,
        } => shapes::write_dst_table_and_src_table(out, dst_table, src_table),
        MiscOperator::TableFill { table }
        | MiscOperator::TableGrow { table }
        | MiscOperator::TableSize { table } => values::number(out, "table", table),
        _ => Ok(()),
    }
}
