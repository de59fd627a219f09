//! Written by tools/lists.py from tools/operators.tsv.
ghost use Rattle.wasm_instr.specs.declared.operator.Operator.{Operator};
ghost use Rattle.wasm_instr_ops.specs.declared.atomic.AtomicOperator.{AtomicOperator};

use crate::route::ToOwn;
use crate::routes::Routes;
use crate::visitor::Visitor;
use wasm_imm::{MemArg, Ordering};
use wasm_instr::Operator;
use wasm_instr_ops::AtomicOperator;

/// Visits of the operators with the prefix byte 0xfe. Proposal threads. By default they call
/// `visit_any`. A visitor that overrides visits names `OwnAtomic` in its `Visits`.
pub trait VisitAtomic: Visitor<Visits: Routes<Atomic: ToOwn>> {
    #[inline(always)]
    fn visit_memory_atomic_notify(&mut self, memarg: MemArg) -> Self::Output
        ensures { Self.visits self.old (Operator.Atomic (AtomicOperator.MemoryAtomicNotify memarg)) result self.new }
    {
        self.visit_any(Operator::Atomic(AtomicOperator::MemoryAtomicNotify { memarg }))
    }

    #[inline(always)]
    fn visit_memory_atomic_wait32(&mut self, memarg: MemArg) -> Self::Output
        ensures { Self.visits self.old (Operator.Atomic (AtomicOperator.MemoryAtomicWait32 memarg)) result self.new }
    {
        self.visit_any(Operator::Atomic(AtomicOperator::MemoryAtomicWait32 { memarg }))
    }

    #[inline(always)]
    fn visit_memory_atomic_wait64(&mut self, memarg: MemArg) -> Self::Output
        ensures { Self.visits self.old (Operator.Atomic (AtomicOperator.MemoryAtomicWait64 memarg)) result self.new }
    {
        self.visit_any(Operator::Atomic(AtomicOperator::MemoryAtomicWait64 { memarg }))
    }

    #[inline(always)]
    fn visit_atomic_fence(&mut self, ordering: Ordering) -> Self::Output
        ensures { Self.visits self.old (Operator.Atomic (AtomicOperator.AtomicFence ordering)) result self.new }
    {
        self.visit_any(Operator::Atomic(AtomicOperator::AtomicFence { ordering }))
    }

    #[inline(always)]
    fn visit_i32_atomic_load(&mut self, memarg: MemArg) -> Self::Output
        ensures { Self.visits self.old (Operator.Atomic (AtomicOperator.I32AtomicLoad memarg)) result self.new }
    {
        self.visit_any(Operator::Atomic(AtomicOperator::I32AtomicLoad { memarg }))
    }

    #[inline(always)]
    fn visit_i64_atomic_load(&mut self, memarg: MemArg) -> Self::Output
        ensures { Self.visits self.old (Operator.Atomic (AtomicOperator.I64AtomicLoad memarg)) result self.new }
    {
        self.visit_any(Operator::Atomic(AtomicOperator::I64AtomicLoad { memarg }))
    }

    #[inline(always)]
    fn visit_i32_atomic_load8_u(&mut self, memarg: MemArg) -> Self::Output
        ensures { Self.visits self.old (Operator.Atomic (AtomicOperator.I32AtomicLoad8U memarg)) result self.new }
    {
        self.visit_any(Operator::Atomic(AtomicOperator::I32AtomicLoad8U { memarg }))
    }

    #[inline(always)]
    fn visit_i32_atomic_load16_u(&mut self, memarg: MemArg) -> Self::Output
        ensures { Self.visits self.old (Operator.Atomic (AtomicOperator.I32AtomicLoad16U memarg)) result self.new }
    {
        self.visit_any(Operator::Atomic(AtomicOperator::I32AtomicLoad16U { memarg }))
    }

    #[inline(always)]
    fn visit_i64_atomic_load8_u(&mut self, memarg: MemArg) -> Self::Output
        ensures { Self.visits self.old (Operator.Atomic (AtomicOperator.I64AtomicLoad8U memarg)) result self.new }
    {
        self.visit_any(Operator::Atomic(AtomicOperator::I64AtomicLoad8U { memarg }))
    }

    #[inline(always)]
    fn visit_i64_atomic_load16_u(&mut self, memarg: MemArg) -> Self::Output
        ensures { Self.visits self.old (Operator.Atomic (AtomicOperator.I64AtomicLoad16U memarg)) result self.new }
    {
        self.visit_any(Operator::Atomic(AtomicOperator::I64AtomicLoad16U { memarg }))
    }

    #[inline(always)]
    fn visit_i64_atomic_load32_u(&mut self, memarg: MemArg) -> Self::Output
        ensures { Self.visits self.old (Operator.Atomic (AtomicOperator.I64AtomicLoad32U memarg)) result self.new }
    {
        self.visit_any(Operator::Atomic(AtomicOperator::I64AtomicLoad32U { memarg }))
    }

    #[inline(always)]
    fn visit_i32_atomic_store(&mut self, memarg: MemArg) -> Self::Output
        ensures { Self.visits self.old (Operator.Atomic (AtomicOperator.I32AtomicStore memarg)) result self.new }
    {
        self.visit_any(Operator::Atomic(AtomicOperator::I32AtomicStore { memarg }))
    }

    #[inline(always)]
    fn visit_i64_atomic_store(&mut self, memarg: MemArg) -> Self::Output
        ensures { Self.visits self.old (Operator.Atomic (AtomicOperator.I64AtomicStore memarg)) result self.new }
    {
        self.visit_any(Operator::Atomic(AtomicOperator::I64AtomicStore { memarg }))
    }

    #[inline(always)]
    fn visit_i32_atomic_store8(&mut self, memarg: MemArg) -> Self::Output
        ensures { Self.visits self.old (Operator.Atomic (AtomicOperator.I32AtomicStore8 memarg)) result self.new }
    {
        self.visit_any(Operator::Atomic(AtomicOperator::I32AtomicStore8 { memarg }))
    }

    #[inline(always)]
    fn visit_i32_atomic_store16(&mut self, memarg: MemArg) -> Self::Output
        ensures { Self.visits self.old (Operator.Atomic (AtomicOperator.I32AtomicStore16 memarg)) result self.new }
    {
        self.visit_any(Operator::Atomic(AtomicOperator::I32AtomicStore16 { memarg }))
    }

    #[inline(always)]
    fn visit_i64_atomic_store8(&mut self, memarg: MemArg) -> Self::Output
        ensures { Self.visits self.old (Operator.Atomic (AtomicOperator.I64AtomicStore8 memarg)) result self.new }
    {
        self.visit_any(Operator::Atomic(AtomicOperator::I64AtomicStore8 { memarg }))
    }

    #[inline(always)]
    fn visit_i64_atomic_store16(&mut self, memarg: MemArg) -> Self::Output
        ensures { Self.visits self.old (Operator.Atomic (AtomicOperator.I64AtomicStore16 memarg)) result self.new }
    {
        self.visit_any(Operator::Atomic(AtomicOperator::I64AtomicStore16 { memarg }))
    }

    #[inline(always)]
    fn visit_i64_atomic_store32(&mut self, memarg: MemArg) -> Self::Output
        ensures { Self.visits self.old (Operator.Atomic (AtomicOperator.I64AtomicStore32 memarg)) result self.new }
    {
        self.visit_any(Operator::Atomic(AtomicOperator::I64AtomicStore32 { memarg }))
    }

    #[inline(always)]
    fn visit_i32_atomic_rmw_add(&mut self, memarg: MemArg) -> Self::Output
        ensures { Self.visits self.old (Operator.Atomic (AtomicOperator.I32AtomicRmwAdd memarg)) result self.new }
    {
        self.visit_any(Operator::Atomic(AtomicOperator::I32AtomicRmwAdd { memarg }))
    }

    #[inline(always)]
    fn visit_i64_atomic_rmw_add(&mut self, memarg: MemArg) -> Self::Output
        ensures { Self.visits self.old (Operator.Atomic (AtomicOperator.I64AtomicRmwAdd memarg)) result self.new }
    {
        self.visit_any(Operator::Atomic(AtomicOperator::I64AtomicRmwAdd { memarg }))
    }

    #[inline(always)]
    fn visit_i32_atomic_rmw8_add_u(&mut self, memarg: MemArg) -> Self::Output
        ensures { Self.visits self.old (Operator.Atomic (AtomicOperator.I32AtomicRmw8AddU memarg)) result self.new }
    {
        self.visit_any(Operator::Atomic(AtomicOperator::I32AtomicRmw8AddU { memarg }))
    }

    #[inline(always)]
    fn visit_i32_atomic_rmw16_add_u(&mut self, memarg: MemArg) -> Self::Output
        ensures { Self.visits self.old (Operator.Atomic (AtomicOperator.I32AtomicRmw16AddU memarg)) result self.new }
    {
        self.visit_any(Operator::Atomic(AtomicOperator::I32AtomicRmw16AddU { memarg }))
    }

    #[inline(always)]
    fn visit_i64_atomic_rmw8_add_u(&mut self, memarg: MemArg) -> Self::Output
        ensures { Self.visits self.old (Operator.Atomic (AtomicOperator.I64AtomicRmw8AddU memarg)) result self.new }
    {
        self.visit_any(Operator::Atomic(AtomicOperator::I64AtomicRmw8AddU { memarg }))
    }

    #[inline(always)]
    fn visit_i64_atomic_rmw16_add_u(&mut self, memarg: MemArg) -> Self::Output
        ensures { Self.visits self.old (Operator.Atomic (AtomicOperator.I64AtomicRmw16AddU memarg)) result self.new }
    {
        self.visit_any(Operator::Atomic(AtomicOperator::I64AtomicRmw16AddU { memarg }))
    }

    #[inline(always)]
    fn visit_i64_atomic_rmw32_add_u(&mut self, memarg: MemArg) -> Self::Output
        ensures { Self.visits self.old (Operator.Atomic (AtomicOperator.I64AtomicRmw32AddU memarg)) result self.new }
    {
        self.visit_any(Operator::Atomic(AtomicOperator::I64AtomicRmw32AddU { memarg }))
    }

    #[inline(always)]
    fn visit_i32_atomic_rmw_sub(&mut self, memarg: MemArg) -> Self::Output
        ensures { Self.visits self.old (Operator.Atomic (AtomicOperator.I32AtomicRmwSub memarg)) result self.new }
    {
        self.visit_any(Operator::Atomic(AtomicOperator::I32AtomicRmwSub { memarg }))
    }

    #[inline(always)]
    fn visit_i64_atomic_rmw_sub(&mut self, memarg: MemArg) -> Self::Output
        ensures { Self.visits self.old (Operator.Atomic (AtomicOperator.I64AtomicRmwSub memarg)) result self.new }
    {
        self.visit_any(Operator::Atomic(AtomicOperator::I64AtomicRmwSub { memarg }))
    }

    #[inline(always)]
    fn visit_i32_atomic_rmw8_sub_u(&mut self, memarg: MemArg) -> Self::Output
        ensures { Self.visits self.old (Operator.Atomic (AtomicOperator.I32AtomicRmw8SubU memarg)) result self.new }
    {
        self.visit_any(Operator::Atomic(AtomicOperator::I32AtomicRmw8SubU { memarg }))
    }

    #[inline(always)]
    fn visit_i32_atomic_rmw16_sub_u(&mut self, memarg: MemArg) -> Self::Output
        ensures { Self.visits self.old (Operator.Atomic (AtomicOperator.I32AtomicRmw16SubU memarg)) result self.new }
    {
        self.visit_any(Operator::Atomic(AtomicOperator::I32AtomicRmw16SubU { memarg }))
    }

    #[inline(always)]
    fn visit_i64_atomic_rmw8_sub_u(&mut self, memarg: MemArg) -> Self::Output
        ensures { Self.visits self.old (Operator.Atomic (AtomicOperator.I64AtomicRmw8SubU memarg)) result self.new }
    {
        self.visit_any(Operator::Atomic(AtomicOperator::I64AtomicRmw8SubU { memarg }))
    }

    #[inline(always)]
    fn visit_i64_atomic_rmw16_sub_u(&mut self, memarg: MemArg) -> Self::Output
        ensures { Self.visits self.old (Operator.Atomic (AtomicOperator.I64AtomicRmw16SubU memarg)) result self.new }
    {
        self.visit_any(Operator::Atomic(AtomicOperator::I64AtomicRmw16SubU { memarg }))
    }

    #[inline(always)]
    fn visit_i64_atomic_rmw32_sub_u(&mut self, memarg: MemArg) -> Self::Output
        ensures { Self.visits self.old (Operator.Atomic (AtomicOperator.I64AtomicRmw32SubU memarg)) result self.new }
    {
        self.visit_any(Operator::Atomic(AtomicOperator::I64AtomicRmw32SubU { memarg }))
    }

    #[inline(always)]
    fn visit_i32_atomic_rmw_and(&mut self, memarg: MemArg) -> Self::Output
        ensures { Self.visits self.old (Operator.Atomic (AtomicOperator.I32AtomicRmwAnd memarg)) result self.new }
    {
        self.visit_any(Operator::Atomic(AtomicOperator::I32AtomicRmwAnd { memarg }))
    }

    #[inline(always)]
    fn visit_i64_atomic_rmw_and(&mut self, memarg: MemArg) -> Self::Output
        ensures { Self.visits self.old (Operator.Atomic (AtomicOperator.I64AtomicRmwAnd memarg)) result self.new }
    {
        self.visit_any(Operator::Atomic(AtomicOperator::I64AtomicRmwAnd { memarg }))
    }

    #[inline(always)]
    fn visit_i32_atomic_rmw8_and_u(&mut self, memarg: MemArg) -> Self::Output
        ensures { Self.visits self.old (Operator.Atomic (AtomicOperator.I32AtomicRmw8AndU memarg)) result self.new }
    {
        self.visit_any(Operator::Atomic(AtomicOperator::I32AtomicRmw8AndU { memarg }))
    }

    #[inline(always)]
    fn visit_i32_atomic_rmw16_and_u(&mut self, memarg: MemArg) -> Self::Output
        ensures { Self.visits self.old (Operator.Atomic (AtomicOperator.I32AtomicRmw16AndU memarg)) result self.new }
    {
        self.visit_any(Operator::Atomic(AtomicOperator::I32AtomicRmw16AndU { memarg }))
    }

    #[inline(always)]
    fn visit_i64_atomic_rmw8_and_u(&mut self, memarg: MemArg) -> Self::Output
        ensures { Self.visits self.old (Operator.Atomic (AtomicOperator.I64AtomicRmw8AndU memarg)) result self.new }
    {
        self.visit_any(Operator::Atomic(AtomicOperator::I64AtomicRmw8AndU { memarg }))
    }

    #[inline(always)]
    fn visit_i64_atomic_rmw16_and_u(&mut self, memarg: MemArg) -> Self::Output
        ensures { Self.visits self.old (Operator.Atomic (AtomicOperator.I64AtomicRmw16AndU memarg)) result self.new }
    {
        self.visit_any(Operator::Atomic(AtomicOperator::I64AtomicRmw16AndU { memarg }))
    }

    #[inline(always)]
    fn visit_i64_atomic_rmw32_and_u(&mut self, memarg: MemArg) -> Self::Output
        ensures { Self.visits self.old (Operator.Atomic (AtomicOperator.I64AtomicRmw32AndU memarg)) result self.new }
    {
        self.visit_any(Operator::Atomic(AtomicOperator::I64AtomicRmw32AndU { memarg }))
    }

    #[inline(always)]
    fn visit_i32_atomic_rmw_or(&mut self, memarg: MemArg) -> Self::Output
        ensures { Self.visits self.old (Operator.Atomic (AtomicOperator.I32AtomicRmwOr memarg)) result self.new }
    {
        self.visit_any(Operator::Atomic(AtomicOperator::I32AtomicRmwOr { memarg }))
    }

    #[inline(always)]
    fn visit_i64_atomic_rmw_or(&mut self, memarg: MemArg) -> Self::Output
        ensures { Self.visits self.old (Operator.Atomic (AtomicOperator.I64AtomicRmwOr memarg)) result self.new }
    {
        self.visit_any(Operator::Atomic(AtomicOperator::I64AtomicRmwOr { memarg }))
    }

    #[inline(always)]
    fn visit_i32_atomic_rmw8_or_u(&mut self, memarg: MemArg) -> Self::Output
        ensures { Self.visits self.old (Operator.Atomic (AtomicOperator.I32AtomicRmw8OrU memarg)) result self.new }
    {
        self.visit_any(Operator::Atomic(AtomicOperator::I32AtomicRmw8OrU { memarg }))
    }

    #[inline(always)]
    fn visit_i32_atomic_rmw16_or_u(&mut self, memarg: MemArg) -> Self::Output
        ensures { Self.visits self.old (Operator.Atomic (AtomicOperator.I32AtomicRmw16OrU memarg)) result self.new }
    {
        self.visit_any(Operator::Atomic(AtomicOperator::I32AtomicRmw16OrU { memarg }))
    }

    #[inline(always)]
    fn visit_i64_atomic_rmw8_or_u(&mut self, memarg: MemArg) -> Self::Output
        ensures { Self.visits self.old (Operator.Atomic (AtomicOperator.I64AtomicRmw8OrU memarg)) result self.new }
    {
        self.visit_any(Operator::Atomic(AtomicOperator::I64AtomicRmw8OrU { memarg }))
    }

    #[inline(always)]
    fn visit_i64_atomic_rmw16_or_u(&mut self, memarg: MemArg) -> Self::Output
        ensures { Self.visits self.old (Operator.Atomic (AtomicOperator.I64AtomicRmw16OrU memarg)) result self.new }
    {
        self.visit_any(Operator::Atomic(AtomicOperator::I64AtomicRmw16OrU { memarg }))
    }

    #[inline(always)]
    fn visit_i64_atomic_rmw32_or_u(&mut self, memarg: MemArg) -> Self::Output
        ensures { Self.visits self.old (Operator.Atomic (AtomicOperator.I64AtomicRmw32OrU memarg)) result self.new }
    {
        self.visit_any(Operator::Atomic(AtomicOperator::I64AtomicRmw32OrU { memarg }))
    }

    #[inline(always)]
    fn visit_i32_atomic_rmw_xor(&mut self, memarg: MemArg) -> Self::Output
        ensures { Self.visits self.old (Operator.Atomic (AtomicOperator.I32AtomicRmwXor memarg)) result self.new }
    {
        self.visit_any(Operator::Atomic(AtomicOperator::I32AtomicRmwXor { memarg }))
    }

    #[inline(always)]
    fn visit_i64_atomic_rmw_xor(&mut self, memarg: MemArg) -> Self::Output
        ensures { Self.visits self.old (Operator.Atomic (AtomicOperator.I64AtomicRmwXor memarg)) result self.new }
    {
        self.visit_any(Operator::Atomic(AtomicOperator::I64AtomicRmwXor { memarg }))
    }

    #[inline(always)]
    fn visit_i32_atomic_rmw8_xor_u(&mut self, memarg: MemArg) -> Self::Output
        ensures { Self.visits self.old (Operator.Atomic (AtomicOperator.I32AtomicRmw8XorU memarg)) result self.new }
    {
        self.visit_any(Operator::Atomic(AtomicOperator::I32AtomicRmw8XorU { memarg }))
    }

    #[inline(always)]
    fn visit_i32_atomic_rmw16_xor_u(&mut self, memarg: MemArg) -> Self::Output
        ensures { Self.visits self.old (Operator.Atomic (AtomicOperator.I32AtomicRmw16XorU memarg)) result self.new }
    {
        self.visit_any(Operator::Atomic(AtomicOperator::I32AtomicRmw16XorU { memarg }))
    }

    #[inline(always)]
    fn visit_i64_atomic_rmw8_xor_u(&mut self, memarg: MemArg) -> Self::Output
        ensures { Self.visits self.old (Operator.Atomic (AtomicOperator.I64AtomicRmw8XorU memarg)) result self.new }
    {
        self.visit_any(Operator::Atomic(AtomicOperator::I64AtomicRmw8XorU { memarg }))
    }

    #[inline(always)]
    fn visit_i64_atomic_rmw16_xor_u(&mut self, memarg: MemArg) -> Self::Output
        ensures { Self.visits self.old (Operator.Atomic (AtomicOperator.I64AtomicRmw16XorU memarg)) result self.new }
    {
        self.visit_any(Operator::Atomic(AtomicOperator::I64AtomicRmw16XorU { memarg }))
    }

    #[inline(always)]
    fn visit_i64_atomic_rmw32_xor_u(&mut self, memarg: MemArg) -> Self::Output
        ensures { Self.visits self.old (Operator.Atomic (AtomicOperator.I64AtomicRmw32XorU memarg)) result self.new }
    {
        self.visit_any(Operator::Atomic(AtomicOperator::I64AtomicRmw32XorU { memarg }))
    }

    #[inline(always)]
    fn visit_i32_atomic_rmw_xchg(&mut self, memarg: MemArg) -> Self::Output
        ensures { Self.visits self.old (Operator.Atomic (AtomicOperator.I32AtomicRmwXchg memarg)) result self.new }
    {
        self.visit_any(Operator::Atomic(AtomicOperator::I32AtomicRmwXchg { memarg }))
    }

    #[inline(always)]
    fn visit_i64_atomic_rmw_xchg(&mut self, memarg: MemArg) -> Self::Output
        ensures { Self.visits self.old (Operator.Atomic (AtomicOperator.I64AtomicRmwXchg memarg)) result self.new }
    {
        self.visit_any(Operator::Atomic(AtomicOperator::I64AtomicRmwXchg { memarg }))
    }

    #[inline(always)]
    fn visit_i32_atomic_rmw8_xchg_u(&mut self, memarg: MemArg) -> Self::Output
        ensures { Self.visits self.old (Operator.Atomic (AtomicOperator.I32AtomicRmw8XchgU memarg)) result self.new }
    {
        self.visit_any(Operator::Atomic(AtomicOperator::I32AtomicRmw8XchgU { memarg }))
    }

    #[inline(always)]
    fn visit_i32_atomic_rmw16_xchg_u(&mut self, memarg: MemArg) -> Self::Output
        ensures { Self.visits self.old (Operator.Atomic (AtomicOperator.I32AtomicRmw16XchgU memarg)) result self.new }
    {
        self.visit_any(Operator::Atomic(AtomicOperator::I32AtomicRmw16XchgU { memarg }))
    }

    #[inline(always)]
    fn visit_i64_atomic_rmw8_xchg_u(&mut self, memarg: MemArg) -> Self::Output
        ensures { Self.visits self.old (Operator.Atomic (AtomicOperator.I64AtomicRmw8XchgU memarg)) result self.new }
    {
        self.visit_any(Operator::Atomic(AtomicOperator::I64AtomicRmw8XchgU { memarg }))
    }

    #[inline(always)]
    fn visit_i64_atomic_rmw16_xchg_u(&mut self, memarg: MemArg) -> Self::Output
        ensures { Self.visits self.old (Operator.Atomic (AtomicOperator.I64AtomicRmw16XchgU memarg)) result self.new }
    {
        self.visit_any(Operator::Atomic(AtomicOperator::I64AtomicRmw16XchgU { memarg }))
    }

    #[inline(always)]
    fn visit_i64_atomic_rmw32_xchg_u(&mut self, memarg: MemArg) -> Self::Output
        ensures { Self.visits self.old (Operator.Atomic (AtomicOperator.I64AtomicRmw32XchgU memarg)) result self.new }
    {
        self.visit_any(Operator::Atomic(AtomicOperator::I64AtomicRmw32XchgU { memarg }))
    }

    #[inline(always)]
    fn visit_i32_atomic_rmw_cmpxchg(&mut self, memarg: MemArg) -> Self::Output
        ensures { Self.visits self.old (Operator.Atomic (AtomicOperator.I32AtomicRmwCmpxchg memarg)) result self.new }
    {
        self.visit_any(Operator::Atomic(AtomicOperator::I32AtomicRmwCmpxchg { memarg }))
    }

    #[inline(always)]
    fn visit_i64_atomic_rmw_cmpxchg(&mut self, memarg: MemArg) -> Self::Output
        ensures { Self.visits self.old (Operator.Atomic (AtomicOperator.I64AtomicRmwCmpxchg memarg)) result self.new }
    {
        self.visit_any(Operator::Atomic(AtomicOperator::I64AtomicRmwCmpxchg { memarg }))
    }

    #[inline(always)]
    fn visit_i32_atomic_rmw8_cmpxchg_u(&mut self, memarg: MemArg) -> Self::Output
        ensures { Self.visits self.old (Operator.Atomic (AtomicOperator.I32AtomicRmw8CmpxchgU memarg)) result self.new }
    {
        self.visit_any(Operator::Atomic(AtomicOperator::I32AtomicRmw8CmpxchgU { memarg }))
    }

    #[inline(always)]
    fn visit_i32_atomic_rmw16_cmpxchg_u(&mut self, memarg: MemArg) -> Self::Output
        ensures { Self.visits self.old (Operator.Atomic (AtomicOperator.I32AtomicRmw16CmpxchgU memarg))
            result self.new }
    {
        self.visit_any(Operator::Atomic(AtomicOperator::I32AtomicRmw16CmpxchgU { memarg }))
    }

    #[inline(always)]
    fn visit_i64_atomic_rmw8_cmpxchg_u(&mut self, memarg: MemArg) -> Self::Output
        ensures { Self.visits self.old (Operator.Atomic (AtomicOperator.I64AtomicRmw8CmpxchgU memarg)) result self.new }
    {
        self.visit_any(Operator::Atomic(AtomicOperator::I64AtomicRmw8CmpxchgU { memarg }))
    }

    #[inline(always)]
    fn visit_i64_atomic_rmw16_cmpxchg_u(&mut self, memarg: MemArg) -> Self::Output
        ensures { Self.visits self.old (Operator.Atomic (AtomicOperator.I64AtomicRmw16CmpxchgU memarg))
            result self.new }
    {
        self.visit_any(Operator::Atomic(AtomicOperator::I64AtomicRmw16CmpxchgU { memarg }))
    }

    #[inline(always)]
    fn visit_i64_atomic_rmw32_cmpxchg_u(&mut self, memarg: MemArg) -> Self::Output
        ensures { Self.visits self.old (Operator.Atomic (AtomicOperator.I64AtomicRmw32CmpxchgU memarg))
            result self.new }
    {
        self.visit_any(Operator::Atomic(AtomicOperator::I64AtomicRmw32CmpxchgU { memarg }))
    }

    #[inline(always)]
    fn visit_global_atomic_get(&mut self, ordering: Ordering, global_index: u32) -> Self::Output
        ensures { Self.visits self.old (Operator.Atomic (AtomicOperator.GlobalAtomicGet ordering global_index))
            result self.new }
    {
        self.visit_any(Operator::Atomic(AtomicOperator::GlobalAtomicGet {
            ordering,
            global_index,
        }))
    }

    #[inline(always)]
    fn visit_global_atomic_set(&mut self, ordering: Ordering, global_index: u32) -> Self::Output
        ensures { Self.visits self.old (Operator.Atomic (AtomicOperator.GlobalAtomicSet ordering global_index))
            result self.new }
    {
        self.visit_any(Operator::Atomic(AtomicOperator::GlobalAtomicSet {
            ordering,
            global_index,
        }))
    }

    #[inline(always)]
    fn visit_global_atomic_rmw_add(&mut self, ordering: Ordering, global_index: u32) -> Self::Output
        ensures { Self.visits self.old (Operator.Atomic (AtomicOperator.GlobalAtomicRmwAdd ordering global_index))
            result self.new }
    {
        self.visit_any(Operator::Atomic(AtomicOperator::GlobalAtomicRmwAdd {
            ordering,
            global_index,
        }))
    }

    #[inline(always)]
    fn visit_global_atomic_rmw_sub(&mut self, ordering: Ordering, global_index: u32) -> Self::Output
        ensures { Self.visits self.old (Operator.Atomic (AtomicOperator.GlobalAtomicRmwSub ordering global_index))
            result self.new }
    {
        self.visit_any(Operator::Atomic(AtomicOperator::GlobalAtomicRmwSub {
            ordering,
            global_index,
        }))
    }

    #[inline(always)]
    fn visit_global_atomic_rmw_and(&mut self, ordering: Ordering, global_index: u32) -> Self::Output
        ensures { Self.visits self.old (Operator.Atomic (AtomicOperator.GlobalAtomicRmwAnd ordering global_index))
            result self.new }
    {
        self.visit_any(Operator::Atomic(AtomicOperator::GlobalAtomicRmwAnd {
            ordering,
            global_index,
        }))
    }

    #[inline(always)]
    fn visit_global_atomic_rmw_or(&mut self, ordering: Ordering, global_index: u32) -> Self::Output
        ensures { Self.visits self.old (Operator.Atomic (AtomicOperator.GlobalAtomicRmwOr ordering global_index))
            result self.new }
    {
        self.visit_any(Operator::Atomic(AtomicOperator::GlobalAtomicRmwOr {
            ordering,
            global_index,
        }))
    }

    #[inline(always)]
    fn visit_global_atomic_rmw_xor(&mut self, ordering: Ordering, global_index: u32) -> Self::Output
        ensures { Self.visits self.old (Operator.Atomic (AtomicOperator.GlobalAtomicRmwXor ordering global_index))
            result self.new }
    {
        self.visit_any(Operator::Atomic(AtomicOperator::GlobalAtomicRmwXor {
            ordering,
            global_index,
        }))
    }

    #[inline(always)]
    fn visit_global_atomic_rmw_xchg(
        &mut self,
        ordering: Ordering,
        global_index: u32,
    ) -> Self::Output
        ensures { Self.visits self.old (Operator.Atomic (AtomicOperator.GlobalAtomicRmwXchg ordering global_index))
            result self.new }
    {
        self.visit_any(Operator::Atomic(AtomicOperator::GlobalAtomicRmwXchg {
            ordering,
            global_index,
        }))
    }

    #[inline(always)]
    fn visit_global_atomic_rmw_cmpxchg(
        &mut self,
        ordering: Ordering,
        global_index: u32,
    ) -> Self::Output
        ensures { Self.visits self.old (Operator.Atomic (AtomicOperator.GlobalAtomicRmwCmpxchg ordering global_index))
            result self.new }
    {
        self.visit_any(Operator::Atomic(AtomicOperator::GlobalAtomicRmwCmpxchg {
            ordering,
            global_index,
        }))
    }

    #[inline(always)]
    fn visit_table_atomic_get(&mut self, ordering: Ordering, table_index: u32) -> Self::Output
        ensures { Self.visits self.old (Operator.Atomic (AtomicOperator.TableAtomicGet ordering table_index))
            result self.new }
    {
        self.visit_any(Operator::Atomic(AtomicOperator::TableAtomicGet {
            ordering,
            table_index,
        }))
    }

    #[inline(always)]
    fn visit_table_atomic_set(&mut self, ordering: Ordering, table_index: u32) -> Self::Output
        ensures { Self.visits self.old (Operator.Atomic (AtomicOperator.TableAtomicSet ordering table_index))
            result self.new }
    {
        self.visit_any(Operator::Atomic(AtomicOperator::TableAtomicSet {
            ordering,
            table_index,
        }))
    }

    #[inline(always)]
    fn visit_table_atomic_rmw_xchg(&mut self, ordering: Ordering, table_index: u32) -> Self::Output
        ensures { Self.visits self.old (Operator.Atomic (AtomicOperator.TableAtomicRmwXchg ordering table_index))
            result self.new }
    {
        self.visit_any(Operator::Atomic(AtomicOperator::TableAtomicRmwXchg {
            ordering,
            table_index,
        }))
    }

    #[inline(always)]
    fn visit_table_atomic_rmw_cmpxchg(
        &mut self,
        ordering: Ordering,
        table_index: u32,
    ) -> Self::Output
        ensures { Self.visits self.old (Operator.Atomic (AtomicOperator.TableAtomicRmwCmpxchg ordering table_index))
            result self.new }
    {
        self.visit_any(Operator::Atomic(AtomicOperator::TableAtomicRmwCmpxchg {
            ordering,
            table_index,
        }))
    }

    #[inline(always)]
    fn visit_struct_atomic_get(
        &mut self,
        ordering: Ordering,
        struct_type_index: u32,
        field_index: u32,
    ) -> Self::Output
        ensures { Self.visits self.old
            (Operator.Atomic (AtomicOperator.StructAtomicGet ordering struct_type_index field_index)) result self.new }
    {
        self.visit_any(Operator::Atomic(AtomicOperator::StructAtomicGet {
            ordering,
            struct_type_index,
            field_index,
        }))
    }

    #[inline(always)]
    fn visit_struct_atomic_get_s(
        &mut self,
        ordering: Ordering,
        struct_type_index: u32,
        field_index: u32,
    ) -> Self::Output
        ensures { Self.visits self.old
            (Operator.Atomic (AtomicOperator.StructAtomicGetS ordering struct_type_index field_index)) result self.new }
    {
        self.visit_any(Operator::Atomic(AtomicOperator::StructAtomicGetS {
            ordering,
            struct_type_index,
            field_index,
        }))
    }

    #[inline(always)]
    fn visit_struct_atomic_get_u(
        &mut self,
        ordering: Ordering,
        struct_type_index: u32,
        field_index: u32,
    ) -> Self::Output
        ensures { Self.visits self.old
            (Operator.Atomic (AtomicOperator.StructAtomicGetU ordering struct_type_index field_index)) result self.new }
    {
        self.visit_any(Operator::Atomic(AtomicOperator::StructAtomicGetU {
            ordering,
            struct_type_index,
            field_index,
        }))
    }

    #[inline(always)]
    fn visit_struct_atomic_set(
        &mut self,
        ordering: Ordering,
        struct_type_index: u32,
        field_index: u32,
    ) -> Self::Output
        ensures { Self.visits self.old
            (Operator.Atomic (AtomicOperator.StructAtomicSet ordering struct_type_index field_index)) result self.new }
    {
        self.visit_any(Operator::Atomic(AtomicOperator::StructAtomicSet {
            ordering,
            struct_type_index,
            field_index,
        }))
    }

    #[inline(always)]
    fn visit_struct_atomic_rmw_add(
        &mut self,
        ordering: Ordering,
        struct_type_index: u32,
        field_index: u32,
    ) -> Self::Output
        ensures { Self.visits self.old
            (Operator.Atomic (AtomicOperator.StructAtomicRmwAdd ordering struct_type_index field_index))
            result self.new }
    {
        self.visit_any(Operator::Atomic(AtomicOperator::StructAtomicRmwAdd {
            ordering,
            struct_type_index,
            field_index,
        }))
    }

    #[inline(always)]
    fn visit_struct_atomic_rmw_sub(
        &mut self,
        ordering: Ordering,
        struct_type_index: u32,
        field_index: u32,
    ) -> Self::Output
        ensures { Self.visits self.old
            (Operator.Atomic (AtomicOperator.StructAtomicRmwSub ordering struct_type_index field_index))
            result self.new }
    {
        self.visit_any(Operator::Atomic(AtomicOperator::StructAtomicRmwSub {
            ordering,
            struct_type_index,
            field_index,
        }))
    }

    #[inline(always)]
    fn visit_struct_atomic_rmw_and(
        &mut self,
        ordering: Ordering,
        struct_type_index: u32,
        field_index: u32,
    ) -> Self::Output
        ensures { Self.visits self.old
            (Operator.Atomic (AtomicOperator.StructAtomicRmwAnd ordering struct_type_index field_index))
            result self.new }
    {
        self.visit_any(Operator::Atomic(AtomicOperator::StructAtomicRmwAnd {
            ordering,
            struct_type_index,
            field_index,
        }))
    }

    #[inline(always)]
    fn visit_struct_atomic_rmw_or(
        &mut self,
        ordering: Ordering,
        struct_type_index: u32,
        field_index: u32,
    ) -> Self::Output
        ensures { Self.visits self.old
            (Operator.Atomic (AtomicOperator.StructAtomicRmwOr ordering struct_type_index field_index))
            result self.new }
    {
        self.visit_any(Operator::Atomic(AtomicOperator::StructAtomicRmwOr {
            ordering,
            struct_type_index,
            field_index,
        }))
    }

    #[inline(always)]
    fn visit_struct_atomic_rmw_xor(
        &mut self,
        ordering: Ordering,
        struct_type_index: u32,
        field_index: u32,
    ) -> Self::Output
        ensures { Self.visits self.old
            (Operator.Atomic (AtomicOperator.StructAtomicRmwXor ordering struct_type_index field_index))
            result self.new }
    {
        self.visit_any(Operator::Atomic(AtomicOperator::StructAtomicRmwXor {
            ordering,
            struct_type_index,
            field_index,
        }))
    }

    #[inline(always)]
    fn visit_struct_atomic_rmw_xchg(
        &mut self,
        ordering: Ordering,
        struct_type_index: u32,
        field_index: u32,
    ) -> Self::Output
        ensures { Self.visits self.old
            (Operator.Atomic (AtomicOperator.StructAtomicRmwXchg ordering struct_type_index field_index))
            result self.new }
    {
        self.visit_any(Operator::Atomic(AtomicOperator::StructAtomicRmwXchg {
            ordering,
            struct_type_index,
            field_index,
        }))
    }

    #[inline(always)]
    fn visit_struct_atomic_rmw_cmpxchg(
        &mut self,
        ordering: Ordering,
        struct_type_index: u32,
        field_index: u32,
    ) -> Self::Output
        ensures { Self.visits self.old
            (Operator.Atomic (AtomicOperator.StructAtomicRmwCmpxchg ordering struct_type_index field_index))
            result self.new }
    {
        self.visit_any(Operator::Atomic(AtomicOperator::StructAtomicRmwCmpxchg {
            ordering,
            struct_type_index,
            field_index,
        }))
    }

    #[inline(always)]
    fn visit_array_atomic_get(&mut self, ordering: Ordering, array_type_index: u32) -> Self::Output
        ensures { Self.visits self.old (Operator.Atomic (AtomicOperator.ArrayAtomicGet ordering array_type_index))
            result self.new }
    {
        self.visit_any(Operator::Atomic(AtomicOperator::ArrayAtomicGet {
            ordering,
            array_type_index,
        }))
    }

    #[inline(always)]
    fn visit_array_atomic_get_s(
        &mut self,
        ordering: Ordering,
        array_type_index: u32,
    ) -> Self::Output
        ensures { Self.visits self.old (Operator.Atomic (AtomicOperator.ArrayAtomicGetS ordering array_type_index))
            result self.new }
    {
        self.visit_any(Operator::Atomic(AtomicOperator::ArrayAtomicGetS {
            ordering,
            array_type_index,
        }))
    }

    #[inline(always)]
    fn visit_array_atomic_get_u(
        &mut self,
        ordering: Ordering,
        array_type_index: u32,
    ) -> Self::Output
        ensures { Self.visits self.old (Operator.Atomic (AtomicOperator.ArrayAtomicGetU ordering array_type_index))
            result self.new }
    {
        self.visit_any(Operator::Atomic(AtomicOperator::ArrayAtomicGetU {
            ordering,
            array_type_index,
        }))
    }

    #[inline(always)]
    fn visit_array_atomic_set(&mut self, ordering: Ordering, array_type_index: u32) -> Self::Output
        ensures { Self.visits self.old (Operator.Atomic (AtomicOperator.ArrayAtomicSet ordering array_type_index))
            result self.new }
    {
        self.visit_any(Operator::Atomic(AtomicOperator::ArrayAtomicSet {
            ordering,
            array_type_index,
        }))
    }

    #[inline(always)]
    fn visit_array_atomic_rmw_add(
        &mut self,
        ordering: Ordering,
        array_type_index: u32,
    ) -> Self::Output
        ensures { Self.visits self.old (Operator.Atomic (AtomicOperator.ArrayAtomicRmwAdd ordering array_type_index))
            result self.new }
    {
        self.visit_any(Operator::Atomic(AtomicOperator::ArrayAtomicRmwAdd {
            ordering,
            array_type_index,
        }))
    }

    #[inline(always)]
    fn visit_array_atomic_rmw_sub(
        &mut self,
        ordering: Ordering,
        array_type_index: u32,
    ) -> Self::Output
        ensures { Self.visits self.old (Operator.Atomic (AtomicOperator.ArrayAtomicRmwSub ordering array_type_index))
            result self.new }
    {
        self.visit_any(Operator::Atomic(AtomicOperator::ArrayAtomicRmwSub {
            ordering,
            array_type_index,
        }))
    }

    #[inline(always)]
    fn visit_array_atomic_rmw_and(
        &mut self,
        ordering: Ordering,
        array_type_index: u32,
    ) -> Self::Output
        ensures { Self.visits self.old (Operator.Atomic (AtomicOperator.ArrayAtomicRmwAnd ordering array_type_index))
            result self.new }
    {
        self.visit_any(Operator::Atomic(AtomicOperator::ArrayAtomicRmwAnd {
            ordering,
            array_type_index,
        }))
    }

    #[inline(always)]
    fn visit_array_atomic_rmw_or(
        &mut self,
        ordering: Ordering,
        array_type_index: u32,
    ) -> Self::Output
        ensures { Self.visits self.old (Operator.Atomic (AtomicOperator.ArrayAtomicRmwOr ordering array_type_index))
            result self.new }
    {
        self.visit_any(Operator::Atomic(AtomicOperator::ArrayAtomicRmwOr {
            ordering,
            array_type_index,
        }))
    }

    #[inline(always)]
    fn visit_array_atomic_rmw_xor(
        &mut self,
        ordering: Ordering,
        array_type_index: u32,
    ) -> Self::Output
        ensures { Self.visits self.old (Operator.Atomic (AtomicOperator.ArrayAtomicRmwXor ordering array_type_index))
            result self.new }
    {
        self.visit_any(Operator::Atomic(AtomicOperator::ArrayAtomicRmwXor {
            ordering,
            array_type_index,
        }))
    }

    #[inline(always)]
    fn visit_array_atomic_rmw_xchg(
        &mut self,
        ordering: Ordering,
        array_type_index: u32,
    ) -> Self::Output
        ensures { Self.visits self.old (Operator.Atomic (AtomicOperator.ArrayAtomicRmwXchg ordering array_type_index))
            result self.new }
    {
        self.visit_any(Operator::Atomic(AtomicOperator::ArrayAtomicRmwXchg {
            ordering,
            array_type_index,
        }))
    }

    #[inline(always)]
    fn visit_array_atomic_rmw_cmpxchg(
        &mut self,
        ordering: Ordering,
        array_type_index: u32,
    ) -> Self::Output
        ensures { Self.visits self.old
            (Operator.Atomic (AtomicOperator.ArrayAtomicRmwCmpxchg ordering array_type_index)) result self.new }
    {
        self.visit_any(Operator::Atomic(AtomicOperator::ArrayAtomicRmwCmpxchg {
            ordering,
            array_type_index,
        }))
    }

    #[inline(always)]
    fn visit_ref_i31_shared(&mut self) -> Self::Output
        ensures { Self.visits self.old (Operator.Atomic AtomicOperator.RefI31Shared) result self.new }
    {
        self.visit_any(Operator::Atomic(AtomicOperator::RefI31Shared))
    }

    #[inline(always)]
    fn visit_pause(&mut self) -> Self::Output
        ensures { Self.visits self.old (Operator.Atomic AtomicOperator.Pause) result self.new }
    {
        self.visit_any(Operator::Atomic(AtomicOperator::Pause))
    }
}
