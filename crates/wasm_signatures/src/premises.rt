//! Written by tools/lists.py from tools/operators.tsv.
ghost use Rattle.std.specs.Prelude.{◌≡◌};
ghost use Rattle.wasm_signatures.specs.Premises.{simd_argument, atomic_argument, argument_of, lane_of};

use wasm_imm::MemArg;
use wasm_instr::Operator;
use wasm_instr_ops::AtomicOperator;
use wasm_instr_simd::SimdOperator;

/// Returns the memory argument of a load, a store or an atomic access.
pub fn memory_argument(op: &Operator<'_>) -> Option<MemArg>
    ensures { result ≡ argument_of op.now }
{
    match op {
        Operator::I32Load { memarg }
        | Operator::I64Load { memarg }
        | Operator::F32Load { memarg }
        | Operator::F64Load { memarg }
        | Operator::I32Load8S { memarg }
        | Operator::I32Load8U { memarg }
        | Operator::I32Load16S { memarg }
        | Operator::I32Load16U { memarg }
        | Operator::I64Load8S { memarg }
        | Operator::I64Load8U { memarg }
        | Operator::I64Load16S { memarg }
        | Operator::I64Load16U { memarg }
        | Operator::I64Load32S { memarg }
        | Operator::I64Load32U { memarg }
        | Operator::I32Store { memarg }
        | Operator::I64Store { memarg }
        | Operator::F32Store { memarg }
        | Operator::F64Store { memarg }
        | Operator::I32Store8 { memarg }
        | Operator::I32Store16 { memarg }
        | Operator::I64Store8 { memarg }
        | Operator::I64Store16 { memarg }
        | Operator::I64Store32 { memarg } => Some(*memarg),
        Operator::Simd(op) => simd_memory_argument(op),
        Operator::Atomic(op) => atomic_memory_argument(op),
        _ => None,
    }
}

fn simd_memory_argument(op: &SimdOperator) -> Option<MemArg>
    ensures { result ≡ simd_argument op.now }
{
    match op {
        SimdOperator::V128Load { memarg }
        | SimdOperator::V128Load8x8S { memarg }
        | SimdOperator::V128Load8x8U { memarg }
        | SimdOperator::V128Load16x4S { memarg }
        | SimdOperator::V128Load16x4U { memarg }
        | SimdOperator::V128Load32x2S { memarg }
        | SimdOperator::V128Load32x2U { memarg }
        | SimdOperator::V128Load8Splat { memarg }
        | SimdOperator::V128Load16Splat { memarg }
        | SimdOperator::V128Load32Splat { memarg }
        | SimdOperator::V128Load64Splat { memarg }
        | SimdOperator::V128Load32Zero { memarg }
        | SimdOperator::V128Load64Zero { memarg }
        | SimdOperator::V128Store { memarg }
        | SimdOperator::V128Load8Lane { memarg, .. }
        | SimdOperator::V128Load16Lane { memarg, .. }
        | SimdOperator::V128Load32Lane { memarg, .. }
        | SimdOperator::V128Load64Lane { memarg, .. }
        | SimdOperator::V128Store8Lane { memarg, .. }
        | SimdOperator::V128Store16Lane { memarg, .. }
        | SimdOperator::V128Store32Lane { memarg, .. }
        | SimdOperator::V128Store64Lane { memarg, .. } => Some(*memarg),
        _ => None,
    }
}

fn atomic_memory_argument(op: &AtomicOperator) -> Option<MemArg>
    ensures { result ≡ atomic_argument op.now }
{
    match op {
        AtomicOperator::MemoryAtomicNotify { memarg }
        | AtomicOperator::MemoryAtomicWait32 { memarg }
        | AtomicOperator::MemoryAtomicWait64 { memarg }
        | AtomicOperator::I32AtomicLoad { memarg }
        | AtomicOperator::I64AtomicLoad { memarg }
        | AtomicOperator::I32AtomicLoad8U { memarg }
        | AtomicOperator::I32AtomicLoad16U { memarg }
        | AtomicOperator::I64AtomicLoad8U { memarg }
        | AtomicOperator::I64AtomicLoad16U { memarg }
        | AtomicOperator::I64AtomicLoad32U { memarg }
        | AtomicOperator::I32AtomicStore { memarg }
        | AtomicOperator::I64AtomicStore { memarg }
        | AtomicOperator::I32AtomicStore8 { memarg }
        | AtomicOperator::I32AtomicStore16 { memarg }
        | AtomicOperator::I64AtomicStore8 { memarg }
        | AtomicOperator::I64AtomicStore16 { memarg }
        | AtomicOperator::I64AtomicStore32 { memarg }
        | AtomicOperator::I32AtomicRmwAdd { memarg }
        | AtomicOperator::I64AtomicRmwAdd { memarg }
        | AtomicOperator::I32AtomicRmw8AddU { memarg }
        | AtomicOperator::I32AtomicRmw16AddU { memarg }
        | AtomicOperator::I64AtomicRmw8AddU { memarg }
        | AtomicOperator::I64AtomicRmw16AddU { memarg }
        | AtomicOperator::I64AtomicRmw32AddU { memarg }
        | AtomicOperator::I32AtomicRmwSub { memarg }
        | AtomicOperator::I64AtomicRmwSub { memarg }
        | AtomicOperator::I32AtomicRmw8SubU { memarg }
        | AtomicOperator::I32AtomicRmw16SubU { memarg }
        | AtomicOperator::I64AtomicRmw8SubU { memarg }
        | AtomicOperator::I64AtomicRmw16SubU { memarg }
        | AtomicOperator::I64AtomicRmw32SubU { memarg }
        | AtomicOperator::I32AtomicRmwAnd { memarg }
        | AtomicOperator::I64AtomicRmwAnd { memarg }
        | AtomicOperator::I32AtomicRmw8AndU { memarg }
        | AtomicOperator::I32AtomicRmw16AndU { memarg }
        | AtomicOperator::I64AtomicRmw8AndU { memarg }
        | AtomicOperator::I64AtomicRmw16AndU { memarg }
        | AtomicOperator::I64AtomicRmw32AndU { memarg }
        | AtomicOperator::I32AtomicRmwOr { memarg }
        | AtomicOperator::I64AtomicRmwOr { memarg }
        | AtomicOperator::I32AtomicRmw8OrU { memarg }
        | AtomicOperator::I32AtomicRmw16OrU { memarg }
        | AtomicOperator::I64AtomicRmw8OrU { memarg }
        | AtomicOperator::I64AtomicRmw16OrU { memarg }
        | AtomicOperator::I64AtomicRmw32OrU { memarg }
        | AtomicOperator::I32AtomicRmwXor { memarg }
        | AtomicOperator::I64AtomicRmwXor { memarg }
        | AtomicOperator::I32AtomicRmw8XorU { memarg }
        | AtomicOperator::I32AtomicRmw16XorU { memarg }
        | AtomicOperator::I64AtomicRmw8XorU { memarg }
        | AtomicOperator::I64AtomicRmw16XorU { memarg }
        | AtomicOperator::I64AtomicRmw32XorU { memarg }
        | AtomicOperator::I32AtomicRmwXchg { memarg }
        | AtomicOperator::I64AtomicRmwXchg { memarg }
        | AtomicOperator::I32AtomicRmw8XchgU { memarg }
        | AtomicOperator::I32AtomicRmw16XchgU { memarg }
        | AtomicOperator::I64AtomicRmw8XchgU { memarg }
        | AtomicOperator::I64AtomicRmw16XchgU { memarg }
        | AtomicOperator::I64AtomicRmw32XchgU { memarg }
        | AtomicOperator::I32AtomicRmwCmpxchg { memarg }
        | AtomicOperator::I64AtomicRmwCmpxchg { memarg }
        | AtomicOperator::I32AtomicRmw8CmpxchgU { memarg }
        | AtomicOperator::I32AtomicRmw16CmpxchgU { memarg }
        | AtomicOperator::I64AtomicRmw8CmpxchgU { memarg }
        | AtomicOperator::I64AtomicRmw16CmpxchgU { memarg }
        | AtomicOperator::I64AtomicRmw32CmpxchgU { memarg } => Some(*memarg),
        AtomicOperator::AtomicFence { .. }
        | AtomicOperator::GlobalAtomicGet { .. }
        | AtomicOperator::GlobalAtomicSet { .. }
        | AtomicOperator::GlobalAtomicRmwAdd { .. }
        | AtomicOperator::GlobalAtomicRmwSub { .. }
        | AtomicOperator::GlobalAtomicRmwAnd { .. }
        | AtomicOperator::GlobalAtomicRmwOr { .. }
        | AtomicOperator::GlobalAtomicRmwXor { .. }
        | AtomicOperator::GlobalAtomicRmwXchg { .. }
        | AtomicOperator::GlobalAtomicRmwCmpxchg { .. }
        | AtomicOperator::TableAtomicGet { .. }
        | AtomicOperator::TableAtomicSet { .. }
        | AtomicOperator::TableAtomicRmwXchg { .. }
        | AtomicOperator::TableAtomicRmwCmpxchg { .. }
        | AtomicOperator::StructAtomicGet { .. }
        | AtomicOperator::StructAtomicGetS { .. }
        | AtomicOperator::StructAtomicGetU { .. }
        | AtomicOperator::StructAtomicSet { .. }
        | AtomicOperator::StructAtomicRmwAdd { .. }
        | AtomicOperator::StructAtomicRmwSub { .. }
        | AtomicOperator::StructAtomicRmwAnd { .. }
        | AtomicOperator::StructAtomicRmwOr { .. }
        | AtomicOperator::StructAtomicRmwXor { .. }
        | AtomicOperator::StructAtomicRmwXchg { .. }
        | AtomicOperator::StructAtomicRmwCmpxchg { .. }
        | AtomicOperator::ArrayAtomicGet { .. }
        | AtomicOperator::ArrayAtomicGetS { .. }
        | AtomicOperator::ArrayAtomicGetU { .. }
        | AtomicOperator::ArrayAtomicSet { .. }
        | AtomicOperator::ArrayAtomicRmwAdd { .. }
        | AtomicOperator::ArrayAtomicRmwSub { .. }
        | AtomicOperator::ArrayAtomicRmwAnd { .. }
        | AtomicOperator::ArrayAtomicRmwOr { .. }
        | AtomicOperator::ArrayAtomicRmwXor { .. }
        | AtomicOperator::ArrayAtomicRmwXchg { .. }
        | AtomicOperator::ArrayAtomicRmwCmpxchg { .. }
        | AtomicOperator::RefI31Shared
        | AtomicOperator::Pause => None,
    }
}

/// Returns the lane index of an operator with one, and the number of lanes, which is at most 16.
pub fn lane_index(op: &SimdOperator) -> Option<(u8, u8)>
    ensures { result ≡ lane_of op.now }
{
    match op {
        SimdOperator::V128Load8Lane { lane, .. }
        | SimdOperator::V128Store8Lane { lane, .. }
        | SimdOperator::I8x16ExtractLaneS { lane }
        | SimdOperator::I8x16ExtractLaneU { lane }
        | SimdOperator::I8x16ReplaceLane { lane } => Some((*lane, 16)),
        SimdOperator::V128Load16Lane { lane, .. }
        | SimdOperator::V128Store16Lane { lane, .. }
        | SimdOperator::I16x8ExtractLaneS { lane }
        | SimdOperator::I16x8ExtractLaneU { lane }
        | SimdOperator::I16x8ReplaceLane { lane } => Some((*lane, 8)),
        SimdOperator::V128Load32Lane { lane, .. }
        | SimdOperator::V128Store32Lane { lane, .. }
        | SimdOperator::I32x4ExtractLane { lane }
        | SimdOperator::I32x4ReplaceLane { lane }
        | SimdOperator::F32x4ExtractLane { lane }
        | SimdOperator::F32x4ReplaceLane { lane } => Some((*lane, 4)),
        SimdOperator::V128Load64Lane { lane, .. }
        | SimdOperator::V128Store64Lane { lane, .. }
        | SimdOperator::I64x2ExtractLane { lane }
        | SimdOperator::I64x2ReplaceLane { lane }
        | SimdOperator::F64x2ExtractLane { lane }
        | SimdOperator::F64x2ReplaceLane { lane } => Some((*lane, 2)),
        _ => None,
    }
}
