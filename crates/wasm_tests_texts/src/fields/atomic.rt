//! Written by tools/lists.py from tools/operators.tsv.
use crate::fields::shapes;
use crate::values::{self, Written};
use wasm_instr_ops::AtomicOperator;

pub fn atomic(out: &mut String, op: &AtomicOperator) -> Written {
    match op {
        AtomicOperator::MemoryAtomicNotify { memarg }
        | AtomicOperator::MemoryAtomicWait32 { memarg }
        | AtomicOperator::MemoryAtomicWait64 { memarg }
        | AtomicOperator::I32AtomicLoad { memarg }
        | AtomicOperator::I64AtomicLoad { memarg }
        | AtomicOperator::I32AtomicLoad8U { memarg }
        | AtomicOperator::I32AtomicLoad16U { memarg }
        | AtomicOperator::I64AtomicLoad8U { memarg }
        | AtomicOperator::I64AtomicLoad16U { memarg }
        | AtomicOperator::I64AtomicLoad32U { memarg }
        | AtomicOperator::I32AtomicStore { memarg }
        | AtomicOperator::I64AtomicStore { memarg }
        | AtomicOperator::I32AtomicStore8 { memarg }
        | AtomicOperator::I32AtomicStore16 { memarg }
        | AtomicOperator::I64AtomicStore8 { memarg }
        | AtomicOperator::I64AtomicStore16 { memarg }
        | AtomicOperator::I64AtomicStore32 { memarg }
        | AtomicOperator::I32AtomicRmwAdd { memarg }
        | AtomicOperator::I64AtomicRmwAdd { memarg }
        | AtomicOperator::I32AtomicRmw8AddU { memarg }
        | AtomicOperator::I32AtomicRmw16AddU { memarg }
        | AtomicOperator::I64AtomicRmw8AddU { memarg }
        | AtomicOperator::I64AtomicRmw16AddU { memarg }
        | AtomicOperator::I64AtomicRmw32AddU { memarg }
        | AtomicOperator::I32AtomicRmwSub { memarg }
        | AtomicOperator::I64AtomicRmwSub { memarg }
        | AtomicOperator::I32AtomicRmw8SubU { memarg }
        | AtomicOperator::I32AtomicRmw16SubU { memarg }
        | AtomicOperator::I64AtomicRmw8SubU { memarg }
        | AtomicOperator::I64AtomicRmw16SubU { memarg }
        | AtomicOperator::I64AtomicRmw32SubU { memarg }
        | AtomicOperator::I32AtomicRmwAnd { memarg }
        | AtomicOperator::I64AtomicRmwAnd { memarg }
        | AtomicOperator::I32AtomicRmw8AndU { memarg }
        | AtomicOperator::I32AtomicRmw16AndU { memarg }
        | AtomicOperator::I64AtomicRmw8AndU { memarg }
        | AtomicOperator::I64AtomicRmw16AndU { memarg }
        | AtomicOperator::I64AtomicRmw32AndU { memarg }
        | AtomicOperator::I32AtomicRmwOr { memarg }
        | AtomicOperator::I64AtomicRmwOr { memarg }
        | AtomicOperator::I32AtomicRmw8OrU { memarg }
        | AtomicOperator::I32AtomicRmw16OrU { memarg }
        | AtomicOperator::I64AtomicRmw8OrU { memarg }
        | AtomicOperator::I64AtomicRmw16OrU { memarg }
        | AtomicOperator::I64AtomicRmw32OrU { memarg }
        | AtomicOperator::I32AtomicRmwXor { memarg }
        | AtomicOperator::I64AtomicRmwXor { memarg }
        | AtomicOperator::I32AtomicRmw8XorU { memarg }
        | AtomicOperator::I32AtomicRmw16XorU { memarg }
        | AtomicOperator::I64AtomicRmw8XorU { memarg }
        | AtomicOperator::I64AtomicRmw16XorU { memarg }
        | AtomicOperator::I64AtomicRmw32XorU { memarg }
        | AtomicOperator::I32AtomicRmwXchg { memarg }
        | AtomicOperator::I64AtomicRmwXchg { memarg }
        | AtomicOperator::I32AtomicRmw8XchgU { memarg }
        | AtomicOperator::I32AtomicRmw16XchgU { memarg }
        | AtomicOperator::I64AtomicRmw8XchgU { memarg }
        | AtomicOperator::I64AtomicRmw16XchgU { memarg }
        | AtomicOperator::I64AtomicRmw32XchgU { memarg }
        | AtomicOperator::I32AtomicRmwCmpxchg { memarg }
        | AtomicOperator::I64AtomicRmwCmpxchg { memarg }
        | AtomicOperator::I32AtomicRmw8CmpxchgU { memarg }
        | AtomicOperator::I32AtomicRmw16CmpxchgU { memarg }
        | AtomicOperator::I64AtomicRmw8CmpxchgU { memarg }
        | AtomicOperator::I64AtomicRmw16CmpxchgU { memarg }
        | AtomicOperator::I64AtomicRmw32CmpxchgU { memarg } => values::memory_argument(
            out, "memarg", memarg,
        ),
        AtomicOperator::AtomicFence { ordering } => values::ordering(out, "ordering", ordering),
        AtomicOperator::GlobalAtomicGet {
            ordering,
            global_index,
        }
        | AtomicOperator::GlobalAtomicSet {
            ordering,
            global_index,
        }
        | AtomicOperator::GlobalAtomicRmwAdd {
            ordering,
            global_index,
        }
        | AtomicOperator::GlobalAtomicRmwSub {
            ordering,
            global_index,
        }
        | AtomicOperator::GlobalAtomicRmwAnd {
            ordering,
            global_index,
        }
        | AtomicOperator::GlobalAtomicRmwOr {
            ordering,
            global_index,
        }
        | AtomicOperator::GlobalAtomicRmwXor {
            ordering,
            global_index,
        }
        | AtomicOperator::GlobalAtomicRmwXchg {
            ordering,
            global_index,
        }
        | AtomicOperator::GlobalAtomicRmwCmpxchg {
            ordering,
            global_index,
        } => shapes::write_ordering_and_global_index(out, ordering, global_index),
        AtomicOperator::TableAtomicGet {
            ordering,
            table_index,
        }
        | AtomicOperator::TableAtomicSet {
            ordering,
            table_index,
        }
        | AtomicOperator::TableAtomicRmwXchg {
            ordering,
            table_index,
        }
        | AtomicOperator::TableAtomicRmwCmpxchg {
            ordering,
            table_index,
        } => shapes::write_ordering_and_table_index(out, ordering, table_index),
        AtomicOperator::StructAtomicGet {
            ordering,
            struct_type_index,
            field_index,
        }
        | AtomicOperator::StructAtomicGetS {
            ordering,
            struct_type_index,
            field_index,
        }
        | AtomicOperator::StructAtomicGetU {
            ordering,
            struct_type_index,
            field_index,
        }
        | AtomicOperator::StructAtomicSet {
            ordering,
            struct_type_index,
            field_index,
        }
        | AtomicOperator::StructAtomicRmwAdd {
            ordering,
            struct_type_index,
            field_index,
        }
        | AtomicOperator::StructAtomicRmwSub {
            ordering,
            struct_type_index,
            field_index,
        }
        | AtomicOperator::StructAtomicRmwAnd {
            ordering,
            struct_type_index,
            field_index,
        }
        | AtomicOperator::StructAtomicRmwOr {
            ordering,
            struct_type_index,
            field_index,
        }
        | AtomicOperator::StructAtomicRmwXor {
            ordering,
            struct_type_index,
            field_index,
        }
        | AtomicOperator::StructAtomicRmwXchg {
            ordering,
            struct_type_index,
            field_index,
        }
        | AtomicOperator::StructAtomicRmwCmpxchg {
            ordering,
            struct_type_index,
            field_index,
        } => shapes::write_ordering_and_struct_type_index_and_field_index(
            out,
            ordering,
            struct_type_index,
            field_index,
        ),
        AtomicOperator::ArrayAtomicGet {
            ordering,
            array_type_index,
        }
        | AtomicOperator::ArrayAtomicGetS {
            ordering,
            array_type_index,
        }
        | AtomicOperator::ArrayAtomicGetU {
            ordering,
            array_type_index,
        }
        | AtomicOperator::ArrayAtomicSet {
            ordering,
            array_type_index,
        }
        | AtomicOperator::ArrayAtomicRmwAdd {
            ordering,
            array_type_index,
        }
        | AtomicOperator::ArrayAtomicRmwSub {
            ordering,
            array_type_index,
        }
        | AtomicOperator::ArrayAtomicRmwAnd {
            ordering,
            array_type_index,
        }
        | AtomicOperator::ArrayAtomicRmwOr {
            ordering,
            array_type_index,
        }
        | AtomicOperator::ArrayAtomicRmwXor {
            ordering,
            array_type_index,
        }
        | AtomicOperator::ArrayAtomicRmwXchg {
            ordering,
            array_type_index,
        }
        | AtomicOperator::ArrayAtomicRmwCmpxchg {
            ordering,
            array_type_index,
        } => shapes::write_ordering_and_array_type_index(out, ordering, array_type_index),
        _ => Ok(()),
    }
}
