//! Written by tools/lists.py from tools/operators.tsv.
ghost use Rattle.std.specs.Prelude.{◌≡◌, ◌++◌, OnOk, string_bytes};
ghost use Rattle.wasm_instr_ops.specs.Atomic.{atomic_immediates};
ghost use Rattle.wasm_text.specs.Operands.{immediates_text};

use crate::operands::{self, Written};
use wasm_instr_ops::AtomicOperator;

pub fn atomic(out: &mut String, op: &AtomicOperator) -> Written
    ensures { OnOk result (string_bytes out.new ≡ string_bytes out.old ++ immediates_text (atomic_immediates op.now)) }
{
    match op {
        AtomicOperator::MemoryAtomicNotify { memarg }
        | AtomicOperator::MemoryAtomicWait32 { memarg }
        | AtomicOperator::MemoryAtomicWait64 { memarg }
        | AtomicOperator::I32AtomicLoad { memarg }
        | AtomicOperator::I64AtomicLoad { memarg }
        | AtomicOperator::I32AtomicLoad8U { memarg }
        | AtomicOperator::I32AtomicLoad16U { memarg }
        | AtomicOperator::I64AtomicLoad8U { memarg }
        | AtomicOperator::I64AtomicLoad16U { memarg }
        | AtomicOperator::I64AtomicLoad32U { memarg }
        | AtomicOperator::I32AtomicStore { memarg }
        | AtomicOperator::I64AtomicStore { memarg }
        | AtomicOperator::I32AtomicStore8 { memarg }
        | AtomicOperator::I32AtomicStore16 { memarg }
        | AtomicOperator::I64AtomicStore8 { memarg }
        | AtomicOperator::I64AtomicStore16 { memarg }
        | AtomicOperator::I64AtomicStore32 { memarg }
        | AtomicOperator::I32AtomicRmwAdd { memarg }
        | AtomicOperator::I64AtomicRmwAdd { memarg }
        | AtomicOperator::I32AtomicRmw8AddU { memarg }
        | AtomicOperator::I32AtomicRmw16AddU { memarg }
        | AtomicOperator::I64AtomicRmw8AddU { memarg }
        | AtomicOperator::I64AtomicRmw16AddU { memarg }
        | AtomicOperator::I64AtomicRmw32AddU { memarg }
        | AtomicOperator::I32AtomicRmwSub { memarg }
        | AtomicOperator::I64AtomicRmwSub { memarg }
        | AtomicOperator::I32AtomicRmw8SubU { memarg }
        | AtomicOperator::I32AtomicRmw16SubU { memarg }
        | AtomicOperator::I64AtomicRmw8SubU { memarg }
        | AtomicOperator::I64AtomicRmw16SubU { memarg }
        | AtomicOperator::I64AtomicRmw32SubU { memarg }
        | AtomicOperator::I32AtomicRmwAnd { memarg }
        | AtomicOperator::I64AtomicRmwAnd { memarg }
        | AtomicOperator::I32AtomicRmw8AndU { memarg }
        | AtomicOperator::I32AtomicRmw16AndU { memarg }
        | AtomicOperator::I64AtomicRmw8AndU { memarg }
        | AtomicOperator::I64AtomicRmw16AndU { memarg }
        | AtomicOperator::I64AtomicRmw32AndU { memarg }
        | AtomicOperator::I32AtomicRmwOr { memarg }
        | AtomicOperator::I64AtomicRmwOr { memarg }
        | AtomicOperator::I32AtomicRmw8OrU { memarg }
        | AtomicOperator::I32AtomicRmw16OrU { memarg }
        | AtomicOperator::I64AtomicRmw8OrU { memarg }
        | AtomicOperator::I64AtomicRmw16OrU { memarg }
        | AtomicOperator::I64AtomicRmw32OrU { memarg }
        | AtomicOperator::I32AtomicRmwXor { memarg }
        | AtomicOperator::I64AtomicRmwXor { memarg }
        | AtomicOperator::I32AtomicRmw8XorU { memarg }
        | AtomicOperator::I32AtomicRmw16XorU { memarg }
        | AtomicOperator::I64AtomicRmw8XorU { memarg }
        | AtomicOperator::I64AtomicRmw16XorU { memarg }
        | AtomicOperator::I64AtomicRmw32XorU { memarg }
        | AtomicOperator::I32AtomicRmwXchg { memarg }
        | AtomicOperator::I64AtomicRmwXchg { memarg }
        | AtomicOperator::I32AtomicRmw8XchgU { memarg }
        | AtomicOperator::I32AtomicRmw16XchgU { memarg }
        | AtomicOperator::I64AtomicRmw8XchgU { memarg }
        | AtomicOperator::I64AtomicRmw16XchgU { memarg }
        | AtomicOperator::I64AtomicRmw32XchgU { memarg }
        | AtomicOperator::I32AtomicRmwCmpxchg { memarg }
        | AtomicOperator::I64AtomicRmwCmpxchg { memarg }
        | AtomicOperator::I32AtomicRmw8CmpxchgU { memarg }
        | AtomicOperator::I32AtomicRmw16CmpxchgU { memarg }
        | AtomicOperator::I64AtomicRmw8CmpxchgU { memarg }
        | AtomicOperator::I64AtomicRmw16CmpxchgU { memarg }
        | AtomicOperator::I64AtomicRmw32CmpxchgU { memarg } => operands::memory_argument(
            out, memarg,
        ),
        AtomicOperator::AtomicFence { ordering } => operands::fence(out, ordering),
        AtomicOperator::GlobalAtomicGet {
            ordering,
            global_index,
        }
        | AtomicOperator::GlobalAtomicSet {
            ordering,
            global_index,
        }
        | AtomicOperator::GlobalAtomicRmwAdd {
            ordering,
            global_index,
        }
        | AtomicOperator::GlobalAtomicRmwSub {
            ordering,
            global_index,
        }
        | AtomicOperator::GlobalAtomicRmwAnd {
            ordering,
            global_index,
        }
        | AtomicOperator::GlobalAtomicRmwOr {
            ordering,
            global_index,
        }
        | AtomicOperator::GlobalAtomicRmwXor {
            ordering,
            global_index,
        }
        | AtomicOperator::GlobalAtomicRmwXchg {
            ordering,
            global_index,
        }
        | AtomicOperator::GlobalAtomicRmwCmpxchg {
            ordering,
            global_index,
        } => operands::ordered_number(out, ordering, global_index),
        AtomicOperator::TableAtomicGet {
            ordering,
            table_index,
        }
        | AtomicOperator::TableAtomicSet {
            ordering,
            table_index,
        }
        | AtomicOperator::TableAtomicRmwXchg {
            ordering,
            table_index,
        }
        | AtomicOperator::TableAtomicRmwCmpxchg {
            ordering,
            table_index,
        } => operands::ordered_number(out, ordering, table_index),
        AtomicOperator::StructAtomicGet {
            ordering,
            struct_type_index,
            field_index,
        }
        | AtomicOperator::StructAtomicGetS {
            ordering,
            struct_type_index,
            field_index,
        }
        | AtomicOperator::StructAtomicGetU {
            ordering,
            struct_type_index,
            field_index,
        }
        | AtomicOperator::StructAtomicSet {
            ordering,
            struct_type_index,
            field_index,
        }
        | AtomicOperator::StructAtomicRmwAdd {
            ordering,
            struct_type_index,
            field_index,
        }
        | AtomicOperator::StructAtomicRmwSub {
            ordering,
            struct_type_index,
            field_index,
        }
        | AtomicOperator::StructAtomicRmwAnd {
            ordering,
            struct_type_index,
            field_index,
        }
        | AtomicOperator::StructAtomicRmwOr {
            ordering,
            struct_type_index,
            field_index,
        }
        | AtomicOperator::StructAtomicRmwXor {
            ordering,
            struct_type_index,
            field_index,
        }
        | AtomicOperator::StructAtomicRmwXchg {
            ordering,
            struct_type_index,
            field_index,
        }
        | AtomicOperator::StructAtomicRmwCmpxchg {
            ordering,
            struct_type_index,
            field_index,
        } => operands::ordered_numbers(out, ordering, struct_type_index, field_index),
        AtomicOperator::ArrayAtomicGet {
            ordering,
            array_type_index,
        }
        | AtomicOperator::ArrayAtomicGetS {
            ordering,
            array_type_index,
        }
        | AtomicOperator::ArrayAtomicGetU {
            ordering,
            array_type_index,
        }
        | AtomicOperator::ArrayAtomicSet {
            ordering,
            array_type_index,
        }
        | AtomicOperator::ArrayAtomicRmwAdd {
            ordering,
            array_type_index,
        }
        | AtomicOperator::ArrayAtomicRmwSub {
            ordering,
            array_type_index,
        }
        | AtomicOperator::ArrayAtomicRmwAnd {
            ordering,
            array_type_index,
        }
        | AtomicOperator::ArrayAtomicRmwOr {
            ordering,
            array_type_index,
        }
        | AtomicOperator::ArrayAtomicRmwXor {
            ordering,
            array_type_index,
        }
        | AtomicOperator::ArrayAtomicRmwXchg {
            ordering,
            array_type_index,
        }
        | AtomicOperator::ArrayAtomicRmwCmpxchg {
            ordering,
            array_type_index,
        } => operands::ordered_number(out, ordering, array_type_index),
        AtomicOperator::RefI31Shared | AtomicOperator::Pause => Ok(()),
    }
}
