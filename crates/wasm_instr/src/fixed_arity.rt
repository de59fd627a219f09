//! Written by tools/lists.py from tools/operators.tsv.
ghost use Rattle.std.specs.Prelude.{◌≡◌, ◌<◌};
ghost use Rattle.wasm_instr.specs.FixedArity.{reaching as reaching_of, numeric_pair, gc_pair, misc_pair, simd_pair, atomic_pair, fixed_arity as pair_of};

use crate::operator::Operator;
use wasm_imm::{MemArg, MemArgTarget};
use wasm_instr_ops::{AtomicOperator, GcOperator, MiscOperator, NumericOperator};
use wasm_instr_simd::SimdOperator;

/// Returns the number of operands of an access: `takes`, or one more if its target is an array.
fn reaching(memarg: &MemArg, takes: u32) -> u32
    requires { takes < 8 }
    ensures { result ≡ reaching_of memarg.now takes }
{
    match memarg.target {
        MemArgTarget::Array(_) => takes + 1,
        MemArgTarget::Memory(_) => takes,
    }
}

pub fn numeric_fixed_arity(op: &NumericOperator) -> (u32, u32)
    ensures { result ≡ numeric_pair op.now }
{
    match op {
        NumericOperator::I32Eqz
        | NumericOperator::I64Eqz
        | NumericOperator::I32Clz
        | NumericOperator::I32Ctz
        | NumericOperator::I32Popcnt
        | NumericOperator::I64Clz
        | NumericOperator::I64Ctz
        | NumericOperator::I64Popcnt
        | NumericOperator::F32Abs
        | NumericOperator::F32Neg
        | NumericOperator::F32Ceil
        | NumericOperator::F32Floor
        | NumericOperator::F32Trunc
        | NumericOperator::F32Nearest
        | NumericOperator::F32Sqrt
        | NumericOperator::F64Abs
        | NumericOperator::F64Neg
        | NumericOperator::F64Ceil
        | NumericOperator::F64Floor
        | NumericOperator::F64Trunc
        | NumericOperator::F64Nearest
        | NumericOperator::F64Sqrt
        | NumericOperator::I32WrapI64
        | NumericOperator::I32TruncF32S
        | NumericOperator::I32TruncF32U
        | NumericOperator::I32TruncF64S
        | NumericOperator::I32TruncF64U
        | NumericOperator::I64ExtendI32S
        | NumericOperator::I64ExtendI32U
        | NumericOperator::I64TruncF32S
        | NumericOperator::I64TruncF32U
        | NumericOperator::I64TruncF64S
        | NumericOperator::I64TruncF64U
        | NumericOperator::F32ConvertI32S
        | NumericOperator::F32ConvertI32U
        | NumericOperator::F32ConvertI64S
        | NumericOperator::F32ConvertI64U
        | NumericOperator::F32DemoteF64
        | NumericOperator::F64ConvertI32S
        | NumericOperator::F64ConvertI32U
        | NumericOperator::F64ConvertI64S
        | NumericOperator::F64ConvertI64U
        | NumericOperator::F64PromoteF32
        | NumericOperator::I32ReinterpretF32
        | NumericOperator::I64ReinterpretF64
        | NumericOperator::F32ReinterpretI32
        | NumericOperator::F64ReinterpretI64
        | NumericOperator::I32Extend8S
        | NumericOperator::I32Extend16S
        | NumericOperator::I64Extend8S
        | NumericOperator::I64Extend16S
        | NumericOperator::I64Extend32S => (1, 1),
        _ => (2, 1),
    }
}

pub fn gc_fixed_arity(op: &GcOperator) -> Option<(u32, u32)>
    ensures { result ≡ gc_pair op.now }
{
    match op {
        GcOperator::StructNewDefault { .. } => Some((0, 1)),
        GcOperator::StructSet { .. } => Some((2, 0)),
        GcOperator::ArrayNew { .. }
        | GcOperator::ArrayNewData { .. }
        | GcOperator::ArrayNewElem { .. }
        | GcOperator::ArrayGet { .. }
        | GcOperator::ArrayGetS { .. }
        | GcOperator::ArrayGetU { .. }
        | GcOperator::RefCastDescEqNonNull { .. }
        | GcOperator::RefCastDescEqNullable { .. } => Some((2, 1)),
        GcOperator::ArraySet { .. } => Some((3, 0)),
        GcOperator::ArrayFill { .. }
        | GcOperator::ArrayInitData { .. }
        | GcOperator::ArrayInitElem { .. } => Some((4, 0)),
        GcOperator::ArrayCopy { .. } => Some((5, 0)),
        GcOperator::StructNew { .. }
        | GcOperator::ArrayNewFixed { .. }
        | GcOperator::BrOnCast { .. }
        | GcOperator::BrOnCastFail { .. }
        | GcOperator::StructNewDesc { .. }
        | GcOperator::BrOnCastDescEq { .. }
        | GcOperator::BrOnCastDescEqFail { .. } => None,
        _ => Some((1, 1)),
    }
}

pub fn misc_fixed_arity(op: &MiscOperator) -> (u32, u32)
    ensures { result ≡ misc_pair op.now }
{
    match op {
        MiscOperator::MemoryInit { .. }
        | MiscOperator::MemoryCopy { .. }
        | MiscOperator::MemoryFill { .. }
        | MiscOperator::TableInit { .. }
        | MiscOperator::TableCopy { .. }
        | MiscOperator::TableFill { .. } => (3, 0),
        MiscOperator::DataDrop { .. } | MiscOperator::ElemDrop { .. } => (0, 0),
        MiscOperator::TableGrow { .. } => (2, 1),
        MiscOperator::TableSize { .. } => (0, 1),
        MiscOperator::MemoryDiscard { .. } => (2, 0),
        MiscOperator::I64Add128 | MiscOperator::I64Sub128 => (4, 2),
        MiscOperator::I64MulWideS | MiscOperator::I64MulWideU => (2, 2),
        _ => (1, 1),
    }
}

pub fn simd_fixed_arity(op: &SimdOperator) -> (u32, u32)
    ensures { result ≡ simd_pair op.now }
{
    match op {
        SimdOperator::V128Load { memarg }
        | SimdOperator::V128Load8x8S { memarg }
        | SimdOperator::V128Load8x8U { memarg }
        | SimdOperator::V128Load16x4S { memarg }
        | SimdOperator::V128Load16x4U { memarg }
        | SimdOperator::V128Load32x2S { memarg }
        | SimdOperator::V128Load32x2U { memarg }
        | SimdOperator::V128Load8Splat { memarg }
        | SimdOperator::V128Load16Splat { memarg }
        | SimdOperator::V128Load32Splat { memarg }
        | SimdOperator::V128Load64Splat { memarg }
        | SimdOperator::V128Load32Zero { memarg }
        | SimdOperator::V128Load64Zero { memarg } => (reaching(memarg, 1), 1),
        SimdOperator::V128Store { memarg }
        | SimdOperator::V128Store8Lane { memarg, .. }
        | SimdOperator::V128Store16Lane { memarg, .. }
        | SimdOperator::V128Store32Lane { memarg, .. }
        | SimdOperator::V128Store64Lane { memarg, .. } => (reaching(memarg, 2), 0),
        SimdOperator::V128Load8Lane { memarg, .. }
        | SimdOperator::V128Load16Lane { memarg, .. }
        | SimdOperator::V128Load32Lane { memarg, .. }
        | SimdOperator::V128Load64Lane { memarg, .. } => (reaching(memarg, 2), 1),
        SimdOperator::V128Const { .. } => (0, 1),
        SimdOperator::I8x16ExtractLaneS { .. }
        | SimdOperator::I8x16ExtractLaneU { .. }
        | SimdOperator::I16x8ExtractLaneS { .. }
        | SimdOperator::I16x8ExtractLaneU { .. }
        | SimdOperator::I32x4ExtractLane { .. }
        | SimdOperator::I64x2ExtractLane { .. }
        | SimdOperator::F32x4ExtractLane { .. }
        | SimdOperator::F64x2ExtractLane { .. }
        | SimdOperator::I8x16Splat
        | SimdOperator::I16x8Splat
        | SimdOperator::I32x4Splat
        | SimdOperator::I64x2Splat
        | SimdOperator::F32x4Splat
        | SimdOperator::F64x2Splat
        | SimdOperator::V128Not
        | SimdOperator::V128AnyTrue
        | SimdOperator::I8x16Abs
        | SimdOperator::I8x16Neg
        | SimdOperator::I8x16Popcnt
        | SimdOperator::I8x16AllTrue
        | SimdOperator::I8x16Bitmask
        | SimdOperator::I16x8ExtAddPairwiseI8x16S
        | SimdOperator::I16x8ExtAddPairwiseI8x16U
        | SimdOperator::I16x8Abs
        | SimdOperator::I16x8Neg
        | SimdOperator::I16x8AllTrue
        | SimdOperator::I16x8Bitmask
        | SimdOperator::I16x8ExtendLowI8x16S
        | SimdOperator::I16x8ExtendHighI8x16S
        | SimdOperator::I16x8ExtendLowI8x16U
        | SimdOperator::I16x8ExtendHighI8x16U
        | SimdOperator::I32x4ExtAddPairwiseI16x8S
        | SimdOperator::I32x4ExtAddPairwiseI16x8U
        | SimdOperator::I32x4Abs
        | SimdOperator::I32x4Neg
        | SimdOperator::I32x4AllTrue
        | SimdOperator::I32x4Bitmask
        | SimdOperator::I32x4ExtendLowI16x8S
        | SimdOperator::I32x4ExtendHighI16x8S
        | SimdOperator::I32x4ExtendLowI16x8U
        | SimdOperator::I32x4ExtendHighI16x8U
        | SimdOperator::I64x2Abs
        | SimdOperator::I64x2Neg
        | SimdOperator::I64x2AllTrue
        | SimdOperator::I64x2Bitmask
        | SimdOperator::I64x2ExtendLowI32x4S
        | SimdOperator::I64x2ExtendHighI32x4S
        | SimdOperator::I64x2ExtendLowI32x4U
        | SimdOperator::I64x2ExtendHighI32x4U
        | SimdOperator::F32x4Ceil
        | SimdOperator::F32x4Floor
        | SimdOperator::F32x4Trunc
        | SimdOperator::F32x4Nearest
        | SimdOperator::F32x4Abs
        | SimdOperator::F32x4Neg
        | SimdOperator::F32x4Sqrt
        | SimdOperator::F64x2Ceil
        | SimdOperator::F64x2Floor
        | SimdOperator::F64x2Trunc
        | SimdOperator::F64x2Nearest
        | SimdOperator::F64x2Abs
        | SimdOperator::F64x2Neg
        | SimdOperator::F64x2Sqrt
        | SimdOperator::I32x4TruncSatF32x4S
        | SimdOperator::I32x4TruncSatF32x4U
        | SimdOperator::F32x4ConvertI32x4S
        | SimdOperator::F32x4ConvertI32x4U
        | SimdOperator::I32x4TruncSatF64x2SZero
        | SimdOperator::I32x4TruncSatF64x2UZero
        | SimdOperator::F64x2ConvertLowI32x4S
        | SimdOperator::F64x2ConvertLowI32x4U
        | SimdOperator::F32x4DemoteF64x2Zero
        | SimdOperator::F64x2PromoteLowF32x4
        | SimdOperator::I32x4RelaxedTruncF32x4S
        | SimdOperator::I32x4RelaxedTruncF32x4U
        | SimdOperator::I32x4RelaxedTruncF64x2SZero
        | SimdOperator::I32x4RelaxedTruncF64x2UZero => (1, 1),
        SimdOperator::V128Bitselect
        | SimdOperator::F32x4RelaxedMadd
        | SimdOperator::F32x4RelaxedNmadd
        | SimdOperator::F64x2RelaxedMadd
        | SimdOperator::F64x2RelaxedNmadd
        | SimdOperator::I8x16RelaxedLaneselect
        | SimdOperator::I16x8RelaxedLaneselect
        | SimdOperator::I32x4RelaxedLaneselect
        | SimdOperator::I64x2RelaxedLaneselect
        | SimdOperator::I32x4RelaxedDotI8x16I7x16AddS => (3, 1),
        _ => (2, 1),
    }
}

pub fn atomic_fixed_arity(op: &AtomicOperator) -> (u32, u32)
    ensures { result ≡ atomic_pair op.now }
{
    match op {
        AtomicOperator::MemoryAtomicWait32 { .. }
        | AtomicOperator::MemoryAtomicWait64 { .. }
        | AtomicOperator::I32AtomicRmwCmpxchg { .. }
        | AtomicOperator::I64AtomicRmwCmpxchg { .. }
        | AtomicOperator::I32AtomicRmw8CmpxchgU { .. }
        | AtomicOperator::I32AtomicRmw16CmpxchgU { .. }
        | AtomicOperator::I64AtomicRmw8CmpxchgU { .. }
        | AtomicOperator::I64AtomicRmw16CmpxchgU { .. }
        | AtomicOperator::I64AtomicRmw32CmpxchgU { .. }
        | AtomicOperator::TableAtomicRmwCmpxchg { .. }
        | AtomicOperator::StructAtomicRmwCmpxchg { .. }
        | AtomicOperator::ArrayAtomicRmwAdd { .. }
        | AtomicOperator::ArrayAtomicRmwSub { .. }
        | AtomicOperator::ArrayAtomicRmwAnd { .. }
        | AtomicOperator::ArrayAtomicRmwOr { .. }
        | AtomicOperator::ArrayAtomicRmwXor { .. }
        | AtomicOperator::ArrayAtomicRmwXchg { .. } => (3, 1),
        AtomicOperator::AtomicFence { .. } | AtomicOperator::Pause => (0, 0),
        AtomicOperator::I32AtomicLoad { .. }
        | AtomicOperator::I64AtomicLoad { .. }
        | AtomicOperator::I32AtomicLoad8U { .. }
        | AtomicOperator::I32AtomicLoad16U { .. }
        | AtomicOperator::I64AtomicLoad8U { .. }
        | AtomicOperator::I64AtomicLoad16U { .. }
        | AtomicOperator::I64AtomicLoad32U { .. }
        | AtomicOperator::GlobalAtomicRmwAdd { .. }
        | AtomicOperator::GlobalAtomicRmwSub { .. }
        | AtomicOperator::GlobalAtomicRmwAnd { .. }
        | AtomicOperator::GlobalAtomicRmwOr { .. }
        | AtomicOperator::GlobalAtomicRmwXor { .. }
        | AtomicOperator::GlobalAtomicRmwXchg { .. }
        | AtomicOperator::TableAtomicGet { .. }
        | AtomicOperator::StructAtomicGet { .. }
        | AtomicOperator::StructAtomicGetS { .. }
        | AtomicOperator::StructAtomicGetU { .. }
        | AtomicOperator::RefI31Shared => (1, 1),
        AtomicOperator::I32AtomicStore { .. }
        | AtomicOperator::I64AtomicStore { .. }
        | AtomicOperator::I32AtomicStore8 { .. }
        | AtomicOperator::I32AtomicStore16 { .. }
        | AtomicOperator::I64AtomicStore8 { .. }
        | AtomicOperator::I64AtomicStore16 { .. }
        | AtomicOperator::I64AtomicStore32 { .. }
        | AtomicOperator::TableAtomicSet { .. }
        | AtomicOperator::StructAtomicSet { .. } => (2, 0),
        AtomicOperator::GlobalAtomicGet { .. } => (0, 1),
        AtomicOperator::GlobalAtomicSet { .. } => (1, 0),
        AtomicOperator::ArrayAtomicSet { .. } => (3, 0),
        AtomicOperator::ArrayAtomicRmwCmpxchg { .. } => (4, 1),
        _ => (2, 1),
    }
}

impl<'a> Operator<'a> {
    /// Returns the numbers of operands and results, or `None` if `operator_arity` computes them.
    pub(crate) fn fixed_arity(&self) -> Option<(u32, u32)>
        ensures { result ≡ pair_of self.now }
    {
        match self {
            Operator::Unreachable | Operator::Nop | Operator::Rethrow { .. } => Some((0, 0)),
            Operator::Drop
            | Operator::LocalSet { .. }
            | Operator::GlobalSet { .. }
            | Operator::ThrowRef => Some((1, 0)),
            Operator::Select | Operator::TypedSelect { .. } => Some((3, 1)),
            Operator::LocalGet { .. }
            | Operator::GlobalGet { .. }
            | Operator::MemorySize { .. }
            | Operator::I32Const { .. }
            | Operator::I64Const { .. }
            | Operator::F32Const { .. }
            | Operator::F64Const { .. }
            | Operator::RefNull { .. }
            | Operator::RefFunc { .. } => Some((0, 1)),
            Operator::LocalTee { .. }
            | Operator::MemoryGrow { .. }
            | Operator::RefIsNull
            | Operator::TableGet { .. }
            | Operator::RefAsNonNull
            | Operator::ContNew { .. } => Some((1, 1)),
            Operator::I32Store { memarg }
            | Operator::I64Store { memarg }
            | Operator::F32Store { memarg }
            | Operator::F64Store { memarg }
            | Operator::I32Store8 { memarg }
            | Operator::I32Store16 { memarg }
            | Operator::I64Store8 { memarg }
            | Operator::I64Store16 { memarg }
            | Operator::I64Store32 { memarg } => Some((reaching(memarg, 2), 0)),
            Operator::RefEq => Some((2, 1)),
            Operator::TableSet { .. } => Some((2, 0)),
            Operator::I32Load { memarg }
            | Operator::I64Load { memarg }
            | Operator::F32Load { memarg }
            | Operator::F64Load { memarg }
            | Operator::I32Load8S { memarg }
            | Operator::I32Load8U { memarg }
            | Operator::I32Load16S { memarg }
            | Operator::I32Load16U { memarg }
            | Operator::I64Load8S { memarg }
            | Operator::I64Load8U { memarg }
            | Operator::I64Load16S { memarg }
            | Operator::I64Load16U { memarg }
            | Operator::I64Load32S { memarg }
            | Operator::I64Load32U { memarg } => Some((reaching(memarg, 1), 1)),
            Operator::Numeric(op) => Some(numeric_fixed_arity(op)),
            Operator::Gc(op) => gc_fixed_arity(op),
            Operator::Misc(op) => Some(misc_fixed_arity(op)),
            Operator::Simd(op) => Some(simd_fixed_arity(op)),
            Operator::Atomic(op) => Some(atomic_fixed_arity(op)),
            Operator::Block { .. }
            | Operator::Loop { .. }
            | Operator::If { .. }
            | Operator::Else
            | Operator::End
            | Operator::Br { .. }
            | Operator::BrIf { .. }
            | Operator::BrTable { .. }
            | Operator::Return
            | Operator::Call { .. }
            | Operator::CallIndirect { .. }
            | Operator::TypedSelectMulti { .. }
            | Operator::ReturnCall { .. }
            | Operator::ReturnCallIndirect { .. }
            | Operator::TryTable { .. }
            | Operator::Throw { .. }
            | Operator::Try { .. }
            | Operator::Catch { .. }
            | Operator::Delegate { .. }
            | Operator::CatchAll
            | Operator::CallRef { .. }
            | Operator::ReturnCallRef { .. }
            | Operator::BrOnNull { .. }
            | Operator::BrOnNonNull { .. }
            | Operator::ContBind { .. }
            | Operator::Suspend { .. }
            | Operator::Resume { .. }
            | Operator::ResumeThrow { .. }
            | Operator::ResumeThrowRef { .. }
            | Operator::Switch { .. } => None,
        }
    }
}
