//! Written by tools/lists.py from tools/operators.tsv.
ghost use Rattle.std.specs.Prelude.{◌+◌, ◌≤◌, vec_len, vec_capacity};
ghost use Rattle.wasm_instr_ops.specs.Atomic.{atomic_immediates};
ghost use Rattle.wasm_encode_immediates.specs.Written.{WritesImmediates};

use wasm_below::WasmFeatures;
use wasm_decode_opcodes::{FenceOrdering, OpMemArg, PlainMemArg, RmwMemArg};
use wasm_encode_immediates::{Unwritable, Writes};
use wasm_instr_ops::AtomicOperator;

/// Appends the immediates of an `AtomicOperator`: at most 22 bytes.
pub fn write_atomic(
    out: &mut Vec<u8>,
    features: WasmFeatures,
    op: AtomicOperator,
) -> Result<(), Unwritable>
    requires { vec_len out.old + 22 ≤ vec_capacity out.old }
    ensures { WritesImmediates features (atomic_immediates op) result out.old out.new }
{
    match op {
        AtomicOperator::MemoryAtomicNotify { memarg: a }
        | AtomicOperator::MemoryAtomicWait32 { memarg: a } => PlainMemArg(a).write(
            out, features, 2,
        ),
        AtomicOperator::MemoryAtomicWait64 { memarg: a } => PlainMemArg(a).write(out, features, 3),
        AtomicOperator::AtomicFence { ordering: a } => FenceOrdering(a).write(out, features, 0),
        AtomicOperator::I32AtomicLoad { memarg: a }
        | AtomicOperator::I64AtomicLoad32U { memarg: a }
        | AtomicOperator::I32AtomicStore { memarg: a }
        | AtomicOperator::I64AtomicStore32 { memarg: a } => OpMemArg(a).write(out, features, 2),
        AtomicOperator::I64AtomicLoad { memarg: a }
        | AtomicOperator::I64AtomicStore { memarg: a } => OpMemArg(a).write(out, features, 3),
        AtomicOperator::I32AtomicLoad8U { memarg: a }
        | AtomicOperator::I64AtomicLoad8U { memarg: a }
        | AtomicOperator::I32AtomicStore8 { memarg: a }
        | AtomicOperator::I64AtomicStore8 { memarg: a } => OpMemArg(a).write(out, features, 0),
        AtomicOperator::I32AtomicLoad16U { memarg: a }
        | AtomicOperator::I64AtomicLoad16U { memarg: a }
        | AtomicOperator::I32AtomicStore16 { memarg: a }
        | AtomicOperator::I64AtomicStore16 { memarg: a } => OpMemArg(a).write(out, features, 1),
        AtomicOperator::I32AtomicRmwAdd { memarg: a }
        | AtomicOperator::I64AtomicRmw32AddU { memarg: a }
        | AtomicOperator::I32AtomicRmwSub { memarg: a }
        | AtomicOperator::I64AtomicRmw32SubU { memarg: a }
        | AtomicOperator::I32AtomicRmwAnd { memarg: a }
        | AtomicOperator::I64AtomicRmw32AndU { memarg: a }
        | AtomicOperator::I32AtomicRmwOr { memarg: a }
        | AtomicOperator::I64AtomicRmw32OrU { memarg: a }
        | AtomicOperator::I32AtomicRmwXor { memarg: a }
        | AtomicOperator::I64AtomicRmw32XorU { memarg: a }
        | AtomicOperator::I32AtomicRmwXchg { memarg: a }
        | AtomicOperator::I64AtomicRmw32XchgU { memarg: a }
        | AtomicOperator::I32AtomicRmwCmpxchg { memarg: a }
        | AtomicOperator::I64AtomicRmw32CmpxchgU { memarg: a } => RmwMemArg(a).write(
            out, features, 2,
        ),
        AtomicOperator::I64AtomicRmwAdd { memarg: a }
        | AtomicOperator::I64AtomicRmwSub { memarg: a }
        | AtomicOperator::I64AtomicRmwAnd { memarg: a }
        | AtomicOperator::I64AtomicRmwOr { memarg: a }
        | AtomicOperator::I64AtomicRmwXor { memarg: a }
        | AtomicOperator::I64AtomicRmwXchg { memarg: a }
        | AtomicOperator::I64AtomicRmwCmpxchg { memarg: a } => RmwMemArg(a).write(out, features, 3),
        AtomicOperator::I32AtomicRmw8AddU { memarg: a }
        | AtomicOperator::I64AtomicRmw8AddU { memarg: a }
        | AtomicOperator::I32AtomicRmw8SubU { memarg: a }
        | AtomicOperator::I64AtomicRmw8SubU { memarg: a }
        | AtomicOperator::I32AtomicRmw8AndU { memarg: a }
        | AtomicOperator::I64AtomicRmw8AndU { memarg: a }
        | AtomicOperator::I32AtomicRmw8OrU { memarg: a }
        | AtomicOperator::I64AtomicRmw8OrU { memarg: a }
        | AtomicOperator::I32AtomicRmw8XorU { memarg: a }
        | AtomicOperator::I64AtomicRmw8XorU { memarg: a }
        | AtomicOperator::I32AtomicRmw8XchgU { memarg: a }
        | AtomicOperator::I64AtomicRmw8XchgU { memarg: a }
        | AtomicOperator::I32AtomicRmw8CmpxchgU { memarg: a }
        | AtomicOperator::I64AtomicRmw8CmpxchgU { memarg: a } => RmwMemArg(a).write(
            out, features, 0,
        ),
        AtomicOperator::I32AtomicRmw16AddU { memarg: a }
        | AtomicOperator::I64AtomicRmw16AddU { memarg: a }
        | AtomicOperator::I32AtomicRmw16SubU { memarg: a }
        | AtomicOperator::I64AtomicRmw16SubU { memarg: a }
        | AtomicOperator::I32AtomicRmw16AndU { memarg: a }
        | AtomicOperator::I64AtomicRmw16AndU { memarg: a }
        | AtomicOperator::I32AtomicRmw16OrU { memarg: a }
        | AtomicOperator::I64AtomicRmw16OrU { memarg: a }
        | AtomicOperator::I32AtomicRmw16XorU { memarg: a }
        | AtomicOperator::I64AtomicRmw16XorU { memarg: a }
        | AtomicOperator::I32AtomicRmw16XchgU { memarg: a }
        | AtomicOperator::I64AtomicRmw16XchgU { memarg: a }
        | AtomicOperator::I32AtomicRmw16CmpxchgU { memarg: a }
        | AtomicOperator::I64AtomicRmw16CmpxchgU { memarg: a } => RmwMemArg(a).write(
            out, features, 1,
        ),
        AtomicOperator::GlobalAtomicGet {
            ordering: a,
            global_index: b,
        }
        | AtomicOperator::GlobalAtomicSet {
            ordering: a,
            global_index: b,
        }
        | AtomicOperator::GlobalAtomicRmwAdd {
            ordering: a,
            global_index: b,
        }
        | AtomicOperator::GlobalAtomicRmwSub {
            ordering: a,
            global_index: b,
        }
        | AtomicOperator::GlobalAtomicRmwAnd {
            ordering: a,
            global_index: b,
        }
        | AtomicOperator::GlobalAtomicRmwOr {
            ordering: a,
            global_index: b,
        }
        | AtomicOperator::GlobalAtomicRmwXor {
            ordering: a,
            global_index: b,
        }
        | AtomicOperator::GlobalAtomicRmwXchg {
            ordering: a,
            global_index: b,
        }
        | AtomicOperator::GlobalAtomicRmwCmpxchg {
            ordering: a,
            global_index: b,
        }
        | AtomicOperator::TableAtomicGet {
            ordering: a,
            table_index: b,
        }
        | AtomicOperator::TableAtomicSet {
            ordering: a,
            table_index: b,
        }
        | AtomicOperator::TableAtomicRmwXchg {
            ordering: a,
            table_index: b,
        }
        | AtomicOperator::TableAtomicRmwCmpxchg {
            ordering: a,
            table_index: b,
        }
        | AtomicOperator::ArrayAtomicGet {
            ordering: a,
            array_type_index: b,
        }
        | AtomicOperator::ArrayAtomicGetS {
            ordering: a,
            array_type_index: b,
        }
        | AtomicOperator::ArrayAtomicGetU {
            ordering: a,
            array_type_index: b,
        }
        | AtomicOperator::ArrayAtomicSet {
            ordering: a,
            array_type_index: b,
        }
        | AtomicOperator::ArrayAtomicRmwAdd {
            ordering: a,
            array_type_index: b,
        }
        | AtomicOperator::ArrayAtomicRmwSub {
            ordering: a,
            array_type_index: b,
        }
        | AtomicOperator::ArrayAtomicRmwAnd {
            ordering: a,
            array_type_index: b,
        }
        | AtomicOperator::ArrayAtomicRmwOr {
            ordering: a,
            array_type_index: b,
        }
        | AtomicOperator::ArrayAtomicRmwXor {
            ordering: a,
            array_type_index: b,
        }
        | AtomicOperator::ArrayAtomicRmwXchg {
            ordering: a,
            array_type_index: b,
        }
        | AtomicOperator::ArrayAtomicRmwCmpxchg {
            ordering: a,
            array_type_index: b,
        } => (a, b).write(out, features, 0),
        AtomicOperator::StructAtomicGet {
            ordering: a,
            struct_type_index: b,
            field_index: c,
        }
        | AtomicOperator::StructAtomicGetS {
            ordering: a,
            struct_type_index: b,
            field_index: c,
        }
        | AtomicOperator::StructAtomicGetU {
            ordering: a,
            struct_type_index: b,
            field_index: c,
        }
        | AtomicOperator::StructAtomicSet {
            ordering: a,
            struct_type_index: b,
            field_index: c,
        }
        | AtomicOperator::StructAtomicRmwAdd {
            ordering: a,
            struct_type_index: b,
            field_index: c,
        }
        | AtomicOperator::StructAtomicRmwSub {
            ordering: a,
            struct_type_index: b,
            field_index: c,
        }
        | AtomicOperator::StructAtomicRmwAnd {
            ordering: a,
            struct_type_index: b,
            field_index: c,
        }
        | AtomicOperator::StructAtomicRmwOr {
            ordering: a,
            struct_type_index: b,
            field_index: c,
        }
        | AtomicOperator::StructAtomicRmwXor {
            ordering: a,
            struct_type_index: b,
            field_index: c,
        }
        | AtomicOperator::StructAtomicRmwXchg {
            ordering: a,
            struct_type_index: b,
            field_index: c,
        }
        | AtomicOperator::StructAtomicRmwCmpxchg {
            ordering: a,
            struct_type_index: b,
            field_index: c,
        } => (a, (b, c)).write(out, features, 0),
        AtomicOperator::RefI31Shared | AtomicOperator::Pause => Ok(()),
    }
}
