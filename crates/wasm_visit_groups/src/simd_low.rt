//! Written by tools/lists.py from tools/operators.tsv.
ghost use Rattle.wasm_instr.specs.declared.operator.Operator.{Operator};
ghost use Rattle.wasm_instr_simd.specs.declared.simd.SimdOperator.{SimdOperator};

use crate::route::ToOwn;
use crate::routes::Routes;
use crate::visitor::Visitor;
use wasm_imm::{MemArg, V128};
use wasm_instr::Operator;
use wasm_instr_simd::SimdOperator;

/// Visits of the SIMD operators with a subopcode below 0x80. Specification: Vector Instructions. By
/// default they call `visit_any`. A visitor that overrides visits names `OwnSimdLow` in its
/// `Visits`.
pub trait VisitSimdLow: Visitor<Visits: Routes<SimdLow: ToOwn>> {
    #[inline(always)]
    fn visit_v128_load(&mut self, memarg: MemArg) -> Self::Output
        ensures { Self.visits self.old (Operator.Simd (SimdOperator.V128Load memarg)) result self.new }
    {
        self.visit_any(Operator::Simd(SimdOperator::V128Load { memarg }))
    }

    #[inline(always)]
    fn visit_v128_load8x8_s(&mut self, memarg: MemArg) -> Self::Output
        ensures { Self.visits self.old (Operator.Simd (SimdOperator.V128Load8x8S memarg)) result self.new }
    {
        self.visit_any(Operator::Simd(SimdOperator::V128Load8x8S { memarg }))
    }

    #[inline(always)]
    fn visit_v128_load8x8_u(&mut self, memarg: MemArg) -> Self::Output
        ensures { Self.visits self.old (Operator.Simd (SimdOperator.V128Load8x8U memarg)) result self.new }
    {
        self.visit_any(Operator::Simd(SimdOperator::V128Load8x8U { memarg }))
    }

    #[inline(always)]
    fn visit_v128_load16x4_s(&mut self, memarg: MemArg) -> Self::Output
        ensures { Self.visits self.old (Operator.Simd (SimdOperator.V128Load16x4S memarg)) result self.new }
    {
        self.visit_any(Operator::Simd(SimdOperator::V128Load16x4S { memarg }))
    }

    #[inline(always)]
    fn visit_v128_load16x4_u(&mut self, memarg: MemArg) -> Self::Output
        ensures { Self.visits self.old (Operator.Simd (SimdOperator.V128Load16x4U memarg)) result self.new }
    {
        self.visit_any(Operator::Simd(SimdOperator::V128Load16x4U { memarg }))
    }

    #[inline(always)]
    fn visit_v128_load32x2_s(&mut self, memarg: MemArg) -> Self::Output
        ensures { Self.visits self.old (Operator.Simd (SimdOperator.V128Load32x2S memarg)) result self.new }
    {
        self.visit_any(Operator::Simd(SimdOperator::V128Load32x2S { memarg }))
    }

    #[inline(always)]
    fn visit_v128_load32x2_u(&mut self, memarg: MemArg) -> Self::Output
        ensures { Self.visits self.old (Operator.Simd (SimdOperator.V128Load32x2U memarg)) result self.new }
    {
        self.visit_any(Operator::Simd(SimdOperator::V128Load32x2U { memarg }))
    }

    #[inline(always)]
    fn visit_v128_load8_splat(&mut self, memarg: MemArg) -> Self::Output
        ensures { Self.visits self.old (Operator.Simd (SimdOperator.V128Load8Splat memarg)) result self.new }
    {
        self.visit_any(Operator::Simd(SimdOperator::V128Load8Splat { memarg }))
    }

    #[inline(always)]
    fn visit_v128_load16_splat(&mut self, memarg: MemArg) -> Self::Output
        ensures { Self.visits self.old (Operator.Simd (SimdOperator.V128Load16Splat memarg)) result self.new }
    {
        self.visit_any(Operator::Simd(SimdOperator::V128Load16Splat { memarg }))
    }

    #[inline(always)]
    fn visit_v128_load32_splat(&mut self, memarg: MemArg) -> Self::Output
        ensures { Self.visits self.old (Operator.Simd (SimdOperator.V128Load32Splat memarg)) result self.new }
    {
        self.visit_any(Operator::Simd(SimdOperator::V128Load32Splat { memarg }))
    }

    #[inline(always)]
    fn visit_v128_load64_splat(&mut self, memarg: MemArg) -> Self::Output
        ensures { Self.visits self.old (Operator.Simd (SimdOperator.V128Load64Splat memarg)) result self.new }
    {
        self.visit_any(Operator::Simd(SimdOperator::V128Load64Splat { memarg }))
    }

    #[inline(always)]
    fn visit_v128_load32_zero(&mut self, memarg: MemArg) -> Self::Output
        ensures { Self.visits self.old (Operator.Simd (SimdOperator.V128Load32Zero memarg)) result self.new }
    {
        self.visit_any(Operator::Simd(SimdOperator::V128Load32Zero { memarg }))
    }

    #[inline(always)]
    fn visit_v128_load64_zero(&mut self, memarg: MemArg) -> Self::Output
        ensures { Self.visits self.old (Operator.Simd (SimdOperator.V128Load64Zero memarg)) result self.new }
    {
        self.visit_any(Operator::Simd(SimdOperator::V128Load64Zero { memarg }))
    }

    #[inline(always)]
    fn visit_v128_store(&mut self, memarg: MemArg) -> Self::Output
        ensures { Self.visits self.old (Operator.Simd (SimdOperator.V128Store memarg)) result self.new }
    {
        self.visit_any(Operator::Simd(SimdOperator::V128Store { memarg }))
    }

    #[inline(always)]
    fn visit_v128_load8_lane(&mut self, memarg: MemArg, lane: u8) -> Self::Output
        ensures { Self.visits self.old (Operator.Simd (SimdOperator.V128Load8Lane memarg lane)) result self.new }
    {
        self.visit_any(Operator::Simd(SimdOperator::V128Load8Lane { memarg, lane }))
    }

    #[inline(always)]
    fn visit_v128_load16_lane(&mut self, memarg: MemArg, lane: u8) -> Self::Output
        ensures { Self.visits self.old (Operator.Simd (SimdOperator.V128Load16Lane memarg lane)) result self.new }
    {
        self.visit_any(Operator::Simd(SimdOperator::V128Load16Lane { memarg, lane }))
    }

    #[inline(always)]
    fn visit_v128_load32_lane(&mut self, memarg: MemArg, lane: u8) -> Self::Output
        ensures { Self.visits self.old (Operator.Simd (SimdOperator.V128Load32Lane memarg lane)) result self.new }
    {
        self.visit_any(Operator::Simd(SimdOperator::V128Load32Lane { memarg, lane }))
    }

    #[inline(always)]
    fn visit_v128_load64_lane(&mut self, memarg: MemArg, lane: u8) -> Self::Output
        ensures { Self.visits self.old (Operator.Simd (SimdOperator.V128Load64Lane memarg lane)) result self.new }
    {
        self.visit_any(Operator::Simd(SimdOperator::V128Load64Lane { memarg, lane }))
    }

    #[inline(always)]
    fn visit_v128_store8_lane(&mut self, memarg: MemArg, lane: u8) -> Self::Output
        ensures { Self.visits self.old (Operator.Simd (SimdOperator.V128Store8Lane memarg lane)) result self.new }
    {
        self.visit_any(Operator::Simd(SimdOperator::V128Store8Lane { memarg, lane }))
    }

    #[inline(always)]
    fn visit_v128_store16_lane(&mut self, memarg: MemArg, lane: u8) -> Self::Output
        ensures { Self.visits self.old (Operator.Simd (SimdOperator.V128Store16Lane memarg lane)) result self.new }
    {
        self.visit_any(Operator::Simd(SimdOperator::V128Store16Lane { memarg, lane }))
    }

    #[inline(always)]
    fn visit_v128_store32_lane(&mut self, memarg: MemArg, lane: u8) -> Self::Output
        ensures { Self.visits self.old (Operator.Simd (SimdOperator.V128Store32Lane memarg lane)) result self.new }
    {
        self.visit_any(Operator::Simd(SimdOperator::V128Store32Lane { memarg, lane }))
    }

    #[inline(always)]
    fn visit_v128_store64_lane(&mut self, memarg: MemArg, lane: u8) -> Self::Output
        ensures { Self.visits self.old (Operator.Simd (SimdOperator.V128Store64Lane memarg lane)) result self.new }
    {
        self.visit_any(Operator::Simd(SimdOperator::V128Store64Lane { memarg, lane }))
    }

    #[inline(always)]
    fn visit_v128_const(&mut self, value: V128) -> Self::Output
        ensures { Self.visits self.old (Operator.Simd (SimdOperator.V128Const value)) result self.new }
    {
        self.visit_any(Operator::Simd(SimdOperator::V128Const { value }))
    }

    #[inline(always)]
    fn visit_i8x16_shuffle(&mut self, lanes: [u8; 16]) -> Self::Output
        ensures { Self.visits self.old (Operator.Simd (SimdOperator.I8x16Shuffle lanes)) result self.new }
    {
        self.visit_any(Operator::Simd(SimdOperator::I8x16Shuffle { lanes }))
    }

    #[inline(always)]
    fn visit_i8x16_extract_lane_s(&mut self, lane: u8) -> Self::Output
        ensures { Self.visits self.old (Operator.Simd (SimdOperator.I8x16ExtractLaneS lane)) result self.new }
    {
        self.visit_any(Operator::Simd(SimdOperator::I8x16ExtractLaneS { lane }))
    }

    #[inline(always)]
    fn visit_i8x16_extract_lane_u(&mut self, lane: u8) -> Self::Output
        ensures { Self.visits self.old (Operator.Simd (SimdOperator.I8x16ExtractLaneU lane)) result self.new }
    {
        self.visit_any(Operator::Simd(SimdOperator::I8x16ExtractLaneU { lane }))
    }

    #[inline(always)]
    fn visit_i8x16_replace_lane(&mut self, lane: u8) -> Self::Output
        ensures { Self.visits self.old (Operator.Simd (SimdOperator.I8x16ReplaceLane lane)) result self.new }
    {
        self.visit_any(Operator::Simd(SimdOperator::I8x16ReplaceLane { lane }))
    }

    #[inline(always)]
    fn visit_i16x8_extract_lane_s(&mut self, lane: u8) -> Self::Output
        ensures { Self.visits self.old (Operator.Simd (SimdOperator.I16x8ExtractLaneS lane)) result self.new }
    {
        self.visit_any(Operator::Simd(SimdOperator::I16x8ExtractLaneS { lane }))
    }

    #[inline(always)]
    fn visit_i16x8_extract_lane_u(&mut self, lane: u8) -> Self::Output
        ensures { Self.visits self.old (Operator.Simd (SimdOperator.I16x8ExtractLaneU lane)) result self.new }
    {
        self.visit_any(Operator::Simd(SimdOperator::I16x8ExtractLaneU { lane }))
    }

    #[inline(always)]
    fn visit_i16x8_replace_lane(&mut self, lane: u8) -> Self::Output
        ensures { Self.visits self.old (Operator.Simd (SimdOperator.I16x8ReplaceLane lane)) result self.new }
    {
        self.visit_any(Operator::Simd(SimdOperator::I16x8ReplaceLane { lane }))
    }

    #[inline(always)]
    fn visit_i32x4_extract_lane(&mut self, lane: u8) -> Self::Output
        ensures { Self.visits self.old (Operator.Simd (SimdOperator.I32x4ExtractLane lane)) result self.new }
    {
        self.visit_any(Operator::Simd(SimdOperator::I32x4ExtractLane { lane }))
    }

    #[inline(always)]
    fn visit_i32x4_replace_lane(&mut self, lane: u8) -> Self::Output
        ensures { Self.visits self.old (Operator.Simd (SimdOperator.I32x4ReplaceLane lane)) result self.new }
    {
        self.visit_any(Operator::Simd(SimdOperator::I32x4ReplaceLane { lane }))
    }

    #[inline(always)]
    fn visit_i64x2_extract_lane(&mut self, lane: u8) -> Self::Output
        ensures { Self.visits self.old (Operator.Simd (SimdOperator.I64x2ExtractLane lane)) result self.new }
    {
        self.visit_any(Operator::Simd(SimdOperator::I64x2ExtractLane { lane }))
    }

    #[inline(always)]
    fn visit_i64x2_replace_lane(&mut self, lane: u8) -> Self::Output
        ensures { Self.visits self.old (Operator.Simd (SimdOperator.I64x2ReplaceLane lane)) result self.new }
    {
        self.visit_any(Operator::Simd(SimdOperator::I64x2ReplaceLane { lane }))
    }

    #[inline(always)]
    fn visit_f32x4_extract_lane(&mut self, lane: u8) -> Self::Output
        ensures { Self.visits self.old (Operator.Simd (SimdOperator.F32x4ExtractLane lane)) result self.new }
    {
        self.visit_any(Operator::Simd(SimdOperator::F32x4ExtractLane { lane }))
    }

    #[inline(always)]
    fn visit_f32x4_replace_lane(&mut self, lane: u8) -> Self::Output
        ensures { Self.visits self.old (Operator.Simd (SimdOperator.F32x4ReplaceLane lane)) result self.new }
    {
        self.visit_any(Operator::Simd(SimdOperator::F32x4ReplaceLane { lane }))
    }

    #[inline(always)]
    fn visit_f64x2_extract_lane(&mut self, lane: u8) -> Self::Output
        ensures { Self.visits self.old (Operator.Simd (SimdOperator.F64x2ExtractLane lane)) result self.new }
    {
        self.visit_any(Operator::Simd(SimdOperator::F64x2ExtractLane { lane }))
    }

    #[inline(always)]
    fn visit_f64x2_replace_lane(&mut self, lane: u8) -> Self::Output
        ensures { Self.visits self.old (Operator.Simd (SimdOperator.F64x2ReplaceLane lane)) result self.new }
    {
        self.visit_any(Operator::Simd(SimdOperator::F64x2ReplaceLane { lane }))
    }

    #[inline(always)]
    fn visit_i8x16_swizzle(&mut self) -> Self::Output
        ensures { Self.visits self.old (Operator.Simd SimdOperator.I8x16Swizzle) result self.new }
    {
        self.visit_any(Operator::Simd(SimdOperator::I8x16Swizzle))
    }

    #[inline(always)]
    fn visit_i8x16_splat(&mut self) -> Self::Output
        ensures { Self.visits self.old (Operator.Simd SimdOperator.I8x16Splat) result self.new }
    {
        self.visit_any(Operator::Simd(SimdOperator::I8x16Splat))
    }

    #[inline(always)]
    fn visit_i16x8_splat(&mut self) -> Self::Output
        ensures { Self.visits self.old (Operator.Simd SimdOperator.I16x8Splat) result self.new }
    {
        self.visit_any(Operator::Simd(SimdOperator::I16x8Splat))
    }

    #[inline(always)]
    fn visit_i32x4_splat(&mut self) -> Self::Output
        ensures { Self.visits self.old (Operator.Simd SimdOperator.I32x4Splat) result self.new }
    {
        self.visit_any(Operator::Simd(SimdOperator::I32x4Splat))
    }

    #[inline(always)]
    fn visit_i64x2_splat(&mut self) -> Self::Output
        ensures { Self.visits self.old (Operator.Simd SimdOperator.I64x2Splat) result self.new }
    {
        self.visit_any(Operator::Simd(SimdOperator::I64x2Splat))
    }

    #[inline(always)]
    fn visit_f32x4_splat(&mut self) -> Self::Output
        ensures { Self.visits self.old (Operator.Simd SimdOperator.F32x4Splat) result self.new }
    {
        self.visit_any(Operator::Simd(SimdOperator::F32x4Splat))
    }

    #[inline(always)]
    fn visit_f64x2_splat(&mut self) -> Self::Output
        ensures { Self.visits self.old (Operator.Simd SimdOperator.F64x2Splat) result self.new }
    {
        self.visit_any(Operator::Simd(SimdOperator::F64x2Splat))
    }

    #[inline(always)]
    fn visit_i8x16_eq(&mut self) -> Self::Output
        ensures { Self.visits self.old (Operator.Simd SimdOperator.I8x16Eq) result self.new }
    {
        self.visit_any(Operator::Simd(SimdOperator::I8x16Eq))
    }

    #[inline(always)]
    fn visit_i8x16_ne(&mut self) -> Self::Output
        ensures { Self.visits self.old (Operator.Simd SimdOperator.I8x16Ne) result self.new }
    {
        self.visit_any(Operator::Simd(SimdOperator::I8x16Ne))
    }

    #[inline(always)]
    fn visit_i8x16_lt_s(&mut self) -> Self::Output
        ensures { Self.visits self.old (Operator.Simd SimdOperator.I8x16LtS) result self.new }
    {
        self.visit_any(Operator::Simd(SimdOperator::I8x16LtS))
    }

    #[inline(always)]
    fn visit_i8x16_lt_u(&mut self) -> Self::Output
        ensures { Self.visits self.old (Operator.Simd SimdOperator.I8x16LtU) result self.new }
    {
        self.visit_any(Operator::Simd(SimdOperator::I8x16LtU))
    }

    #[inline(always)]
    fn visit_i8x16_gt_s(&mut self) -> Self::Output
        ensures { Self.visits self.old (Operator.Simd SimdOperator.I8x16GtS) result self.new }
    {
        self.visit_any(Operator::Simd(SimdOperator::I8x16GtS))
    }

    #[inline(always)]
    fn visit_i8x16_gt_u(&mut self) -> Self::Output
        ensures { Self.visits self.old (Operator.Simd SimdOperator.I8x16GtU) result self.new }
    {
        self.visit_any(Operator::Simd(SimdOperator::I8x16GtU))
    }

    #[inline(always)]
    fn visit_i8x16_le_s(&mut self) -> Self::Output
        ensures { Self.visits self.old (Operator.Simd SimdOperator.I8x16LeS) result self.new }
    {
        self.visit_any(Operator::Simd(SimdOperator::I8x16LeS))
    }

    #[inline(always)]
    fn visit_i8x16_le_u(&mut self) -> Self::Output
        ensures { Self.visits self.old (Operator.Simd SimdOperator.I8x16LeU) result self.new }
    {
        self.visit_any(Operator::Simd(SimdOperator::I8x16LeU))
    }

    #[inline(always)]
    fn visit_i8x16_ge_s(&mut self) -> Self::Output
        ensures { Self.visits self.old (Operator.Simd SimdOperator.I8x16GeS) result self.new }
    {
        self.visit_any(Operator::Simd(SimdOperator::I8x16GeS))
    }

    #[inline(always)]
    fn visit_i8x16_ge_u(&mut self) -> Self::Output
        ensures { Self.visits self.old (Operator.Simd SimdOperator.I8x16GeU) result self.new }
    {
        self.visit_any(Operator::Simd(SimdOperator::I8x16GeU))
    }

    #[inline(always)]
    fn visit_i16x8_eq(&mut self) -> Self::Output
        ensures { Self.visits self.old (Operator.Simd SimdOperator.I16x8Eq) result self.new }
    {
        self.visit_any(Operator::Simd(SimdOperator::I16x8Eq))
    }

    #[inline(always)]
    fn visit_i16x8_ne(&mut self) -> Self::Output
        ensures { Self.visits self.old (Operator.Simd SimdOperator.I16x8Ne) result self.new }
    {
        self.visit_any(Operator::Simd(SimdOperator::I16x8Ne))
    }

    #[inline(always)]
    fn visit_i16x8_lt_s(&mut self) -> Self::Output
        ensures { Self.visits self.old (Operator.Simd SimdOperator.I16x8LtS) result self.new }
    {
        self.visit_any(Operator::Simd(SimdOperator::I16x8LtS))
    }

    #[inline(always)]
    fn visit_i16x8_lt_u(&mut self) -> Self::Output
        ensures { Self.visits self.old (Operator.Simd SimdOperator.I16x8LtU) result self.new }
    {
        self.visit_any(Operator::Simd(SimdOperator::I16x8LtU))
    }

    #[inline(always)]
    fn visit_i16x8_gt_s(&mut self) -> Self::Output
        ensures { Self.visits self.old (Operator.Simd SimdOperator.I16x8GtS) result self.new }
    {
        self.visit_any(Operator::Simd(SimdOperator::I16x8GtS))
    }

    #[inline(always)]
    fn visit_i16x8_gt_u(&mut self) -> Self::Output
        ensures { Self.visits self.old (Operator.Simd SimdOperator.I16x8GtU) result self.new }
    {
        self.visit_any(Operator::Simd(SimdOperator::I16x8GtU))
    }

    #[inline(always)]
    fn visit_i16x8_le_s(&mut self) -> Self::Output
        ensures { Self.visits self.old (Operator.Simd SimdOperator.I16x8LeS) result self.new }
    {
        self.visit_any(Operator::Simd(SimdOperator::I16x8LeS))
    }

    #[inline(always)]
    fn visit_i16x8_le_u(&mut self) -> Self::Output
        ensures { Self.visits self.old (Operator.Simd SimdOperator.I16x8LeU) result self.new }
    {
        self.visit_any(Operator::Simd(SimdOperator::I16x8LeU))
    }

    #[inline(always)]
    fn visit_i16x8_ge_s(&mut self) -> Self::Output
        ensures { Self.visits self.old (Operator.Simd SimdOperator.I16x8GeS) result self.new }
    {
        self.visit_any(Operator::Simd(SimdOperator::I16x8GeS))
    }

    #[inline(always)]
    fn visit_i16x8_ge_u(&mut self) -> Self::Output
        ensures { Self.visits self.old (Operator.Simd SimdOperator.I16x8GeU) result self.new }
    {
        self.visit_any(Operator::Simd(SimdOperator::I16x8GeU))
    }

    #[inline(always)]
    fn visit_i32x4_eq(&mut self) -> Self::Output
        ensures { Self.visits self.old (Operator.Simd SimdOperator.I32x4Eq) result self.new }
    {
        self.visit_any(Operator::Simd(SimdOperator::I32x4Eq))
    }

    #[inline(always)]
    fn visit_i32x4_ne(&mut self) -> Self::Output
        ensures { Self.visits self.old (Operator.Simd SimdOperator.I32x4Ne) result self.new }
    {
        self.visit_any(Operator::Simd(SimdOperator::I32x4Ne))
    }

    #[inline(always)]
    fn visit_i32x4_lt_s(&mut self) -> Self::Output
        ensures { Self.visits self.old (Operator.Simd SimdOperator.I32x4LtS) result self.new }
    {
        self.visit_any(Operator::Simd(SimdOperator::I32x4LtS))
    }

    #[inline(always)]
    fn visit_i32x4_lt_u(&mut self) -> Self::Output
        ensures { Self.visits self.old (Operator.Simd SimdOperator.I32x4LtU) result self.new }
    {
        self.visit_any(Operator::Simd(SimdOperator::I32x4LtU))
    }

    #[inline(always)]
    fn visit_i32x4_gt_s(&mut self) -> Self::Output
        ensures { Self.visits self.old (Operator.Simd SimdOperator.I32x4GtS) result self.new }
    {
        self.visit_any(Operator::Simd(SimdOperator::I32x4GtS))
    }

    #[inline(always)]
    fn visit_i32x4_gt_u(&mut self) -> Self::Output
        ensures { Self.visits self.old (Operator.Simd SimdOperator.I32x4GtU) result self.new }
    {
        self.visit_any(Operator::Simd(SimdOperator::I32x4GtU))
    }

    #[inline(always)]
    fn visit_i32x4_le_s(&mut self) -> Self::Output
        ensures { Self.visits self.old (Operator.Simd SimdOperator.I32x4LeS) result self.new }
    {
        self.visit_any(Operator::Simd(SimdOperator::I32x4LeS))
    }

    #[inline(always)]
    fn visit_i32x4_le_u(&mut self) -> Self::Output
        ensures { Self.visits self.old (Operator.Simd SimdOperator.I32x4LeU) result self.new }
    {
        self.visit_any(Operator::Simd(SimdOperator::I32x4LeU))
    }

    #[inline(always)]
    fn visit_i32x4_ge_s(&mut self) -> Self::Output
        ensures { Self.visits self.old (Operator.Simd SimdOperator.I32x4GeS) result self.new }
    {
        self.visit_any(Operator::Simd(SimdOperator::I32x4GeS))
    }

    #[inline(always)]
    fn visit_i32x4_ge_u(&mut self) -> Self::Output
        ensures { Self.visits self.old (Operator.Simd SimdOperator.I32x4GeU) result self.new }
    {
        self.visit_any(Operator::Simd(SimdOperator::I32x4GeU))
    }

    #[inline(always)]
    fn visit_f32x4_eq(&mut self) -> Self::Output
        ensures { Self.visits self.old (Operator.Simd SimdOperator.F32x4Eq) result self.new }
    {
        self.visit_any(Operator::Simd(SimdOperator::F32x4Eq))
    }

    #[inline(always)]
    fn visit_f32x4_ne(&mut self) -> Self::Output
        ensures { Self.visits self.old (Operator.Simd SimdOperator.F32x4Ne) result self.new }
    {
        self.visit_any(Operator::Simd(SimdOperator::F32x4Ne))
    }

    #[inline(always)]
    fn visit_f32x4_lt(&mut self) -> Self::Output
        ensures { Self.visits self.old (Operator.Simd SimdOperator.F32x4Lt) result self.new }
    {
        self.visit_any(Operator::Simd(SimdOperator::F32x4Lt))
    }

    #[inline(always)]
    fn visit_f32x4_gt(&mut self) -> Self::Output
        ensures { Self.visits self.old (Operator.Simd SimdOperator.F32x4Gt) result self.new }
    {
        self.visit_any(Operator::Simd(SimdOperator::F32x4Gt))
    }

    #[inline(always)]
    fn visit_f32x4_le(&mut self) -> Self::Output
        ensures { Self.visits self.old (Operator.Simd SimdOperator.F32x4Le) result self.new }
    {
        self.visit_any(Operator::Simd(SimdOperator::F32x4Le))
    }

    #[inline(always)]
    fn visit_f32x4_ge(&mut self) -> Self::Output
        ensures { Self.visits self.old (Operator.Simd SimdOperator.F32x4Ge) result self.new }
    {
        self.visit_any(Operator::Simd(SimdOperator::F32x4Ge))
    }

    #[inline(always)]
    fn visit_f64x2_eq(&mut self) -> Self::Output
        ensures { Self.visits self.old (Operator.Simd SimdOperator.F64x2Eq) result self.new }
    {
        self.visit_any(Operator::Simd(SimdOperator::F64x2Eq))
    }

    #[inline(always)]
    fn visit_f64x2_ne(&mut self) -> Self::Output
        ensures { Self.visits self.old (Operator.Simd SimdOperator.F64x2Ne) result self.new }
    {
        self.visit_any(Operator::Simd(SimdOperator::F64x2Ne))
    }

    #[inline(always)]
    fn visit_f64x2_lt(&mut self) -> Self::Output
        ensures { Self.visits self.old (Operator.Simd SimdOperator.F64x2Lt) result self.new }
    {
        self.visit_any(Operator::Simd(SimdOperator::F64x2Lt))
    }

    #[inline(always)]
    fn visit_f64x2_gt(&mut self) -> Self::Output
        ensures { Self.visits self.old (Operator.Simd SimdOperator.F64x2Gt) result self.new }
    {
        self.visit_any(Operator::Simd(SimdOperator::F64x2Gt))
    }

    #[inline(always)]
    fn visit_f64x2_le(&mut self) -> Self::Output
        ensures { Self.visits self.old (Operator.Simd SimdOperator.F64x2Le) result self.new }
    {
        self.visit_any(Operator::Simd(SimdOperator::F64x2Le))
    }

    #[inline(always)]
    fn visit_f64x2_ge(&mut self) -> Self::Output
        ensures { Self.visits self.old (Operator.Simd SimdOperator.F64x2Ge) result self.new }
    {
        self.visit_any(Operator::Simd(SimdOperator::F64x2Ge))
    }

    #[inline(always)]
    fn visit_v128_not(&mut self) -> Self::Output
        ensures { Self.visits self.old (Operator.Simd SimdOperator.V128Not) result self.new }
    {
        self.visit_any(Operator::Simd(SimdOperator::V128Not))
    }

    #[inline(always)]
    fn visit_v128_and(&mut self) -> Self::Output
        ensures { Self.visits self.old (Operator.Simd SimdOperator.V128And) result self.new }
    {
        self.visit_any(Operator::Simd(SimdOperator::V128And))
    }

    #[inline(always)]
    fn visit_v128_andnot(&mut self) -> Self::Output
        ensures { Self.visits self.old (Operator.Simd SimdOperator.V128AndNot) result self.new }
    {
        self.visit_any(Operator::Simd(SimdOperator::V128AndNot))
    }

    #[inline(always)]
    fn visit_v128_or(&mut self) -> Self::Output
        ensures { Self.visits self.old (Operator.Simd SimdOperator.V128Or) result self.new }
    {
        self.visit_any(Operator::Simd(SimdOperator::V128Or))
    }

    #[inline(always)]
    fn visit_v128_xor(&mut self) -> Self::Output
        ensures { Self.visits self.old (Operator.Simd SimdOperator.V128Xor) result self.new }
    {
        self.visit_any(Operator::Simd(SimdOperator::V128Xor))
    }

    #[inline(always)]
    fn visit_v128_bitselect(&mut self) -> Self::Output
        ensures { Self.visits self.old (Operator.Simd SimdOperator.V128Bitselect) result self.new }
    {
        self.visit_any(Operator::Simd(SimdOperator::V128Bitselect))
    }

    #[inline(always)]
    fn visit_v128_any_true(&mut self) -> Self::Output
        ensures { Self.visits self.old (Operator.Simd SimdOperator.V128AnyTrue) result self.new }
    {
        self.visit_any(Operator::Simd(SimdOperator::V128AnyTrue))
    }

    #[inline(always)]
    fn visit_i8x16_abs(&mut self) -> Self::Output
        ensures { Self.visits self.old (Operator.Simd SimdOperator.I8x16Abs) result self.new }
    {
        self.visit_any(Operator::Simd(SimdOperator::I8x16Abs))
    }

    #[inline(always)]
    fn visit_i8x16_neg(&mut self) -> Self::Output
        ensures { Self.visits self.old (Operator.Simd SimdOperator.I8x16Neg) result self.new }
    {
        self.visit_any(Operator::Simd(SimdOperator::I8x16Neg))
    }

    #[inline(always)]
    fn visit_i8x16_popcnt(&mut self) -> Self::Output
        ensures { Self.visits self.old (Operator.Simd SimdOperator.I8x16Popcnt) result self.new }
    {
        self.visit_any(Operator::Simd(SimdOperator::I8x16Popcnt))
    }

    #[inline(always)]
    fn visit_i8x16_all_true(&mut self) -> Self::Output
        ensures { Self.visits self.old (Operator.Simd SimdOperator.I8x16AllTrue) result self.new }
    {
        self.visit_any(Operator::Simd(SimdOperator::I8x16AllTrue))
    }

    #[inline(always)]
    fn visit_i8x16_bitmask(&mut self) -> Self::Output
        ensures { Self.visits self.old (Operator.Simd SimdOperator.I8x16Bitmask) result self.new }
    {
        self.visit_any(Operator::Simd(SimdOperator::I8x16Bitmask))
    }

    #[inline(always)]
    fn visit_i8x16_narrow_i16x8_s(&mut self) -> Self::Output
        ensures { Self.visits self.old (Operator.Simd SimdOperator.I8x16NarrowI16x8S) result self.new }
    {
        self.visit_any(Operator::Simd(SimdOperator::I8x16NarrowI16x8S))
    }

    #[inline(always)]
    fn visit_i8x16_narrow_i16x8_u(&mut self) -> Self::Output
        ensures { Self.visits self.old (Operator.Simd SimdOperator.I8x16NarrowI16x8U) result self.new }
    {
        self.visit_any(Operator::Simd(SimdOperator::I8x16NarrowI16x8U))
    }

    #[inline(always)]
    fn visit_i8x16_shl(&mut self) -> Self::Output
        ensures { Self.visits self.old (Operator.Simd SimdOperator.I8x16Shl) result self.new }
    {
        self.visit_any(Operator::Simd(SimdOperator::I8x16Shl))
    }

    #[inline(always)]
    fn visit_i8x16_shr_s(&mut self) -> Self::Output
        ensures { Self.visits self.old (Operator.Simd SimdOperator.I8x16ShrS) result self.new }
    {
        self.visit_any(Operator::Simd(SimdOperator::I8x16ShrS))
    }

    #[inline(always)]
    fn visit_i8x16_shr_u(&mut self) -> Self::Output
        ensures { Self.visits self.old (Operator.Simd SimdOperator.I8x16ShrU) result self.new }
    {
        self.visit_any(Operator::Simd(SimdOperator::I8x16ShrU))
    }

    #[inline(always)]
    fn visit_i8x16_add(&mut self) -> Self::Output
        ensures { Self.visits self.old (Operator.Simd SimdOperator.I8x16Add) result self.new }
    {
        self.visit_any(Operator::Simd(SimdOperator::I8x16Add))
    }

    #[inline(always)]
    fn visit_i8x16_add_sat_s(&mut self) -> Self::Output
        ensures { Self.visits self.old (Operator.Simd SimdOperator.I8x16AddSatS) result self.new }
    {
        self.visit_any(Operator::Simd(SimdOperator::I8x16AddSatS))
    }

    #[inline(always)]
    fn visit_i8x16_add_sat_u(&mut self) -> Self::Output
        ensures { Self.visits self.old (Operator.Simd SimdOperator.I8x16AddSatU) result self.new }
    {
        self.visit_any(Operator::Simd(SimdOperator::I8x16AddSatU))
    }

    #[inline(always)]
    fn visit_i8x16_sub(&mut self) -> Self::Output
        ensures { Self.visits self.old (Operator.Simd SimdOperator.I8x16Sub) result self.new }
    {
        self.visit_any(Operator::Simd(SimdOperator::I8x16Sub))
    }

    #[inline(always)]
    fn visit_i8x16_sub_sat_s(&mut self) -> Self::Output
        ensures { Self.visits self.old (Operator.Simd SimdOperator.I8x16SubSatS) result self.new }
    {
        self.visit_any(Operator::Simd(SimdOperator::I8x16SubSatS))
    }

    #[inline(always)]
    fn visit_i8x16_sub_sat_u(&mut self) -> Self::Output
        ensures { Self.visits self.old (Operator.Simd SimdOperator.I8x16SubSatU) result self.new }
    {
        self.visit_any(Operator::Simd(SimdOperator::I8x16SubSatU))
    }

    #[inline(always)]
    fn visit_i8x16_min_s(&mut self) -> Self::Output
        ensures { Self.visits self.old (Operator.Simd SimdOperator.I8x16MinS) result self.new }
    {
        self.visit_any(Operator::Simd(SimdOperator::I8x16MinS))
    }

    #[inline(always)]
    fn visit_i8x16_min_u(&mut self) -> Self::Output
        ensures { Self.visits self.old (Operator.Simd SimdOperator.I8x16MinU) result self.new }
    {
        self.visit_any(Operator::Simd(SimdOperator::I8x16MinU))
    }

    #[inline(always)]
    fn visit_i8x16_max_s(&mut self) -> Self::Output
        ensures { Self.visits self.old (Operator.Simd SimdOperator.I8x16MaxS) result self.new }
    {
        self.visit_any(Operator::Simd(SimdOperator::I8x16MaxS))
    }

    #[inline(always)]
    fn visit_i8x16_max_u(&mut self) -> Self::Output
        ensures { Self.visits self.old (Operator.Simd SimdOperator.I8x16MaxU) result self.new }
    {
        self.visit_any(Operator::Simd(SimdOperator::I8x16MaxU))
    }

    #[inline(always)]
    fn visit_i8x16_avgr_u(&mut self) -> Self::Output
        ensures { Self.visits self.old (Operator.Simd SimdOperator.I8x16AvgrU) result self.new }
    {
        self.visit_any(Operator::Simd(SimdOperator::I8x16AvgrU))
    }

    #[inline(always)]
    fn visit_i16x8_extadd_pairwise_i8x16_s(&mut self) -> Self::Output
        ensures { Self.visits self.old (Operator.Simd SimdOperator.I16x8ExtAddPairwiseI8x16S) result self.new }
    {
        self.visit_any(Operator::Simd(SimdOperator::I16x8ExtAddPairwiseI8x16S))
    }

    #[inline(always)]
    fn visit_i16x8_extadd_pairwise_i8x16_u(&mut self) -> Self::Output
        ensures { Self.visits self.old (Operator.Simd SimdOperator.I16x8ExtAddPairwiseI8x16U) result self.new }
    {
        self.visit_any(Operator::Simd(SimdOperator::I16x8ExtAddPairwiseI8x16U))
    }

    #[inline(always)]
    fn visit_i32x4_extadd_pairwise_i16x8_s(&mut self) -> Self::Output
        ensures { Self.visits self.old (Operator.Simd SimdOperator.I32x4ExtAddPairwiseI16x8S) result self.new }
    {
        self.visit_any(Operator::Simd(SimdOperator::I32x4ExtAddPairwiseI16x8S))
    }

    #[inline(always)]
    fn visit_i32x4_extadd_pairwise_i16x8_u(&mut self) -> Self::Output
        ensures { Self.visits self.old (Operator.Simd SimdOperator.I32x4ExtAddPairwiseI16x8U) result self.new }
    {
        self.visit_any(Operator::Simd(SimdOperator::I32x4ExtAddPairwiseI16x8U))
    }

    #[inline(always)]
    fn visit_f32x4_ceil(&mut self) -> Self::Output
        ensures { Self.visits self.old (Operator.Simd SimdOperator.F32x4Ceil) result self.new }
    {
        self.visit_any(Operator::Simd(SimdOperator::F32x4Ceil))
    }

    #[inline(always)]
    fn visit_f32x4_floor(&mut self) -> Self::Output
        ensures { Self.visits self.old (Operator.Simd SimdOperator.F32x4Floor) result self.new }
    {
        self.visit_any(Operator::Simd(SimdOperator::F32x4Floor))
    }

    #[inline(always)]
    fn visit_f32x4_trunc(&mut self) -> Self::Output
        ensures { Self.visits self.old (Operator.Simd SimdOperator.F32x4Trunc) result self.new }
    {
        self.visit_any(Operator::Simd(SimdOperator::F32x4Trunc))
    }

    #[inline(always)]
    fn visit_f32x4_nearest(&mut self) -> Self::Output
        ensures { Self.visits self.old (Operator.Simd SimdOperator.F32x4Nearest) result self.new }
    {
        self.visit_any(Operator::Simd(SimdOperator::F32x4Nearest))
    }

    #[inline(always)]
    fn visit_f64x2_ceil(&mut self) -> Self::Output
        ensures { Self.visits self.old (Operator.Simd SimdOperator.F64x2Ceil) result self.new }
    {
        self.visit_any(Operator::Simd(SimdOperator::F64x2Ceil))
    }

    #[inline(always)]
    fn visit_f64x2_floor(&mut self) -> Self::Output
        ensures { Self.visits self.old (Operator.Simd SimdOperator.F64x2Floor) result self.new }
    {
        self.visit_any(Operator::Simd(SimdOperator::F64x2Floor))
    }

    #[inline(always)]
    fn visit_f64x2_trunc(&mut self) -> Self::Output
        ensures { Self.visits self.old (Operator.Simd SimdOperator.F64x2Trunc) result self.new }
    {
        self.visit_any(Operator::Simd(SimdOperator::F64x2Trunc))
    }

    #[inline(always)]
    fn visit_f32x4_demote_f64x2_zero(&mut self) -> Self::Output
        ensures { Self.visits self.old (Operator.Simd SimdOperator.F32x4DemoteF64x2Zero) result self.new }
    {
        self.visit_any(Operator::Simd(SimdOperator::F32x4DemoteF64x2Zero))
    }

    #[inline(always)]
    fn visit_f64x2_promote_low_f32x4(&mut self) -> Self::Output
        ensures { Self.visits self.old (Operator.Simd SimdOperator.F64x2PromoteLowF32x4) result self.new }
    {
        self.visit_any(Operator::Simd(SimdOperator::F64x2PromoteLowF32x4))
    }
}
