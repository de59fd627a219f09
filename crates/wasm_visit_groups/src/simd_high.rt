//! Written by tools/lists.py from tools/operators.tsv.
ghost use Rattle.wasm_instr.specs.declared.operator.Operator.{Operator};
ghost use Rattle.wasm_instr_simd.specs.declared.simd.SimdOperator.{SimdOperator};

use crate::route::ToOwn;
use crate::routes::Routes;
use crate::visitor::Visitor;
use wasm_instr::Operator;
use wasm_instr_simd::SimdOperator;

/// Visits of the SIMD operators with a subopcode of at least 0x80. Specification: Vector
/// Instructions. By default they call `visit_any`. A visitor that overrides visits names
/// `OwnSimdHigh` in its `Visits`.
pub trait VisitSimdHigh: Visitor<Visits: Routes<SimdHigh: ToOwn>> {
    #[inline(always)]
    fn visit_i64x2_eq(&mut self) -> Self::Output
        ensures { Self.visits self.old (Operator.Simd SimdOperator.I64x2Eq) result self.new }
    {
        self.visit_any(Operator::Simd(SimdOperator::I64x2Eq))
    }

    #[inline(always)]
    fn visit_i64x2_ne(&mut self) -> Self::Output
        ensures { Self.visits self.old (Operator.Simd SimdOperator.I64x2Ne) result self.new }
    {
        self.visit_any(Operator::Simd(SimdOperator::I64x2Ne))
    }

    #[inline(always)]
    fn visit_i64x2_lt_s(&mut self) -> Self::Output
        ensures { Self.visits self.old (Operator.Simd SimdOperator.I64x2LtS) result self.new }
    {
        self.visit_any(Operator::Simd(SimdOperator::I64x2LtS))
    }

    #[inline(always)]
    fn visit_i64x2_gt_s(&mut self) -> Self::Output
        ensures { Self.visits self.old (Operator.Simd SimdOperator.I64x2GtS) result self.new }
    {
        self.visit_any(Operator::Simd(SimdOperator::I64x2GtS))
    }

    #[inline(always)]
    fn visit_i64x2_le_s(&mut self) -> Self::Output
        ensures { Self.visits self.old (Operator.Simd SimdOperator.I64x2LeS) result self.new }
    {
        self.visit_any(Operator::Simd(SimdOperator::I64x2LeS))
    }

    #[inline(always)]
    fn visit_i64x2_ge_s(&mut self) -> Self::Output
        ensures { Self.visits self.old (Operator.Simd SimdOperator.I64x2GeS) result self.new }
    {
        self.visit_any(Operator::Simd(SimdOperator::I64x2GeS))
    }

    #[inline(always)]
    fn visit_i16x8_abs(&mut self) -> Self::Output
        ensures { Self.visits self.old (Operator.Simd SimdOperator.I16x8Abs) result self.new }
    {
        self.visit_any(Operator::Simd(SimdOperator::I16x8Abs))
    }

    #[inline(always)]
    fn visit_i16x8_neg(&mut self) -> Self::Output
        ensures { Self.visits self.old (Operator.Simd SimdOperator.I16x8Neg) result self.new }
    {
        self.visit_any(Operator::Simd(SimdOperator::I16x8Neg))
    }

    #[inline(always)]
    fn visit_i16x8_q15mulr_sat_s(&mut self) -> Self::Output
        ensures { Self.visits self.old (Operator.Simd SimdOperator.I16x8Q15MulrSatS) result self.new }
    {
        self.visit_any(Operator::Simd(SimdOperator::I16x8Q15MulrSatS))
    }

    #[inline(always)]
    fn visit_i16x8_all_true(&mut self) -> Self::Output
        ensures { Self.visits self.old (Operator.Simd SimdOperator.I16x8AllTrue) result self.new }
    {
        self.visit_any(Operator::Simd(SimdOperator::I16x8AllTrue))
    }

    #[inline(always)]
    fn visit_i16x8_bitmask(&mut self) -> Self::Output
        ensures { Self.visits self.old (Operator.Simd SimdOperator.I16x8Bitmask) result self.new }
    {
        self.visit_any(Operator::Simd(SimdOperator::I16x8Bitmask))
    }

    #[inline(always)]
    fn visit_i16x8_narrow_i32x4_s(&mut self) -> Self::Output
        ensures { Self.visits self.old (Operator.Simd SimdOperator.I16x8NarrowI32x4S) result self.new }
    {
        self.visit_any(Operator::Simd(SimdOperator::I16x8NarrowI32x4S))
    }

    #[inline(always)]
    fn visit_i16x8_narrow_i32x4_u(&mut self) -> Self::Output
        ensures { Self.visits self.old (Operator.Simd SimdOperator.I16x8NarrowI32x4U) result self.new }
    {
        self.visit_any(Operator::Simd(SimdOperator::I16x8NarrowI32x4U))
    }

    #[inline(always)]
    fn visit_i16x8_extend_low_i8x16_s(&mut self) -> Self::Output
        ensures { Self.visits self.old (Operator.Simd SimdOperator.I16x8ExtendLowI8x16S) result self.new }
    {
        self.visit_any(Operator::Simd(SimdOperator::I16x8ExtendLowI8x16S))
    }

    #[inline(always)]
    fn visit_i16x8_extend_high_i8x16_s(&mut self) -> Self::Output
        ensures { Self.visits self.old (Operator.Simd SimdOperator.I16x8ExtendHighI8x16S) result self.new }
    {
        self.visit_any(Operator::Simd(SimdOperator::I16x8ExtendHighI8x16S))
    }

    #[inline(always)]
    fn visit_i16x8_extend_low_i8x16_u(&mut self) -> Self::Output
        ensures { Self.visits self.old (Operator.Simd SimdOperator.I16x8ExtendLowI8x16U) result self.new }
    {
        self.visit_any(Operator::Simd(SimdOperator::I16x8ExtendLowI8x16U))
    }

    #[inline(always)]
    fn visit_i16x8_extend_high_i8x16_u(&mut self) -> Self::Output
        ensures { Self.visits self.old (Operator.Simd SimdOperator.I16x8ExtendHighI8x16U) result self.new }
    {
        self.visit_any(Operator::Simd(SimdOperator::I16x8ExtendHighI8x16U))
    }

    #[inline(always)]
    fn visit_i16x8_shl(&mut self) -> Self::Output
        ensures { Self.visits self.old (Operator.Simd SimdOperator.I16x8Shl) result self.new }
    {
        self.visit_any(Operator::Simd(SimdOperator::I16x8Shl))
    }

    #[inline(always)]
    fn visit_i16x8_shr_s(&mut self) -> Self::Output
        ensures { Self.visits self.old (Operator.Simd SimdOperator.I16x8ShrS) result self.new }
    {
        self.visit_any(Operator::Simd(SimdOperator::I16x8ShrS))
    }

    #[inline(always)]
    fn visit_i16x8_shr_u(&mut self) -> Self::Output
        ensures { Self.visits self.old (Operator.Simd SimdOperator.I16x8ShrU) result self.new }
    {
        self.visit_any(Operator::Simd(SimdOperator::I16x8ShrU))
    }

    #[inline(always)]
    fn visit_i16x8_add(&mut self) -> Self::Output
        ensures { Self.visits self.old (Operator.Simd SimdOperator.I16x8Add) result self.new }
    {
        self.visit_any(Operator::Simd(SimdOperator::I16x8Add))
    }

    #[inline(always)]
    fn visit_i16x8_add_sat_s(&mut self) -> Self::Output
        ensures { Self.visits self.old (Operator.Simd SimdOperator.I16x8AddSatS) result self.new }
    {
        self.visit_any(Operator::Simd(SimdOperator::I16x8AddSatS))
    }

    #[inline(always)]
    fn visit_i16x8_add_sat_u(&mut self) -> Self::Output
        ensures { Self.visits self.old (Operator.Simd SimdOperator.I16x8AddSatU) result self.new }
    {
        self.visit_any(Operator::Simd(SimdOperator::I16x8AddSatU))
    }

    #[inline(always)]
    fn visit_i16x8_sub(&mut self) -> Self::Output
        ensures { Self.visits self.old (Operator.Simd SimdOperator.I16x8Sub) result self.new }
    {
        self.visit_any(Operator::Simd(SimdOperator::I16x8Sub))
    }

    #[inline(always)]
    fn visit_i16x8_sub_sat_s(&mut self) -> Self::Output
        ensures { Self.visits self.old (Operator.Simd SimdOperator.I16x8SubSatS) result self.new }
    {
        self.visit_any(Operator::Simd(SimdOperator::I16x8SubSatS))
    }

    #[inline(always)]
    fn visit_i16x8_sub_sat_u(&mut self) -> Self::Output
        ensures { Self.visits self.old (Operator.Simd SimdOperator.I16x8SubSatU) result self.new }
    {
        self.visit_any(Operator::Simd(SimdOperator::I16x8SubSatU))
    }

    #[inline(always)]
    fn visit_i16x8_mul(&mut self) -> Self::Output
        ensures { Self.visits self.old (Operator.Simd SimdOperator.I16x8Mul) result self.new }
    {
        self.visit_any(Operator::Simd(SimdOperator::I16x8Mul))
    }

    #[inline(always)]
    fn visit_i16x8_min_s(&mut self) -> Self::Output
        ensures { Self.visits self.old (Operator.Simd SimdOperator.I16x8MinS) result self.new }
    {
        self.visit_any(Operator::Simd(SimdOperator::I16x8MinS))
    }

    #[inline(always)]
    fn visit_i16x8_min_u(&mut self) -> Self::Output
        ensures { Self.visits self.old (Operator.Simd SimdOperator.I16x8MinU) result self.new }
    {
        self.visit_any(Operator::Simd(SimdOperator::I16x8MinU))
    }

    #[inline(always)]
    fn visit_i16x8_max_s(&mut self) -> Self::Output
        ensures { Self.visits self.old (Operator.Simd SimdOperator.I16x8MaxS) result self.new }
    {
        self.visit_any(Operator::Simd(SimdOperator::I16x8MaxS))
    }

    #[inline(always)]
    fn visit_i16x8_max_u(&mut self) -> Self::Output
        ensures { Self.visits self.old (Operator.Simd SimdOperator.I16x8MaxU) result self.new }
    {
        self.visit_any(Operator::Simd(SimdOperator::I16x8MaxU))
    }

    #[inline(always)]
    fn visit_i16x8_avgr_u(&mut self) -> Self::Output
        ensures { Self.visits self.old (Operator.Simd SimdOperator.I16x8AvgrU) result self.new }
    {
        self.visit_any(Operator::Simd(SimdOperator::I16x8AvgrU))
    }

    #[inline(always)]
    fn visit_i16x8_extmul_low_i8x16_s(&mut self) -> Self::Output
        ensures { Self.visits self.old (Operator.Simd SimdOperator.I16x8ExtMulLowI8x16S) result self.new }
    {
        self.visit_any(Operator::Simd(SimdOperator::I16x8ExtMulLowI8x16S))
    }

    #[inline(always)]
    fn visit_i16x8_extmul_high_i8x16_s(&mut self) -> Self::Output
        ensures { Self.visits self.old (Operator.Simd SimdOperator.I16x8ExtMulHighI8x16S) result self.new }
    {
        self.visit_any(Operator::Simd(SimdOperator::I16x8ExtMulHighI8x16S))
    }

    #[inline(always)]
    fn visit_i16x8_extmul_low_i8x16_u(&mut self) -> Self::Output
        ensures { Self.visits self.old (Operator.Simd SimdOperator.I16x8ExtMulLowI8x16U) result self.new }
    {
        self.visit_any(Operator::Simd(SimdOperator::I16x8ExtMulLowI8x16U))
    }

    #[inline(always)]
    fn visit_i16x8_extmul_high_i8x16_u(&mut self) -> Self::Output
        ensures { Self.visits self.old (Operator.Simd SimdOperator.I16x8ExtMulHighI8x16U) result self.new }
    {
        self.visit_any(Operator::Simd(SimdOperator::I16x8ExtMulHighI8x16U))
    }

    #[inline(always)]
    fn visit_i32x4_abs(&mut self) -> Self::Output
        ensures { Self.visits self.old (Operator.Simd SimdOperator.I32x4Abs) result self.new }
    {
        self.visit_any(Operator::Simd(SimdOperator::I32x4Abs))
    }

    #[inline(always)]
    fn visit_i32x4_neg(&mut self) -> Self::Output
        ensures { Self.visits self.old (Operator.Simd SimdOperator.I32x4Neg) result self.new }
    {
        self.visit_any(Operator::Simd(SimdOperator::I32x4Neg))
    }

    #[inline(always)]
    fn visit_i32x4_all_true(&mut self) -> Self::Output
        ensures { Self.visits self.old (Operator.Simd SimdOperator.I32x4AllTrue) result self.new }
    {
        self.visit_any(Operator::Simd(SimdOperator::I32x4AllTrue))
    }

    #[inline(always)]
    fn visit_i32x4_bitmask(&mut self) -> Self::Output
        ensures { Self.visits self.old (Operator.Simd SimdOperator.I32x4Bitmask) result self.new }
    {
        self.visit_any(Operator::Simd(SimdOperator::I32x4Bitmask))
    }

    #[inline(always)]
    fn visit_i32x4_extend_low_i16x8_s(&mut self) -> Self::Output
        ensures { Self.visits self.old (Operator.Simd SimdOperator.I32x4ExtendLowI16x8S) result self.new }
    {
        self.visit_any(Operator::Simd(SimdOperator::I32x4ExtendLowI16x8S))
    }

    #[inline(always)]
    fn visit_i32x4_extend_high_i16x8_s(&mut self) -> Self::Output
        ensures { Self.visits self.old (Operator.Simd SimdOperator.I32x4ExtendHighI16x8S) result self.new }
    {
        self.visit_any(Operator::Simd(SimdOperator::I32x4ExtendHighI16x8S))
    }

    #[inline(always)]
    fn visit_i32x4_extend_low_i16x8_u(&mut self) -> Self::Output
        ensures { Self.visits self.old (Operator.Simd SimdOperator.I32x4ExtendLowI16x8U) result self.new }
    {
        self.visit_any(Operator::Simd(SimdOperator::I32x4ExtendLowI16x8U))
    }

    #[inline(always)]
    fn visit_i32x4_extend_high_i16x8_u(&mut self) -> Self::Output
        ensures { Self.visits self.old (Operator.Simd SimdOperator.I32x4ExtendHighI16x8U) result self.new }
    {
        self.visit_any(Operator::Simd(SimdOperator::I32x4ExtendHighI16x8U))
    }

    #[inline(always)]
    fn visit_i32x4_shl(&mut self) -> Self::Output
        ensures { Self.visits self.old (Operator.Simd SimdOperator.I32x4Shl) result self.new }
    {
        self.visit_any(Operator::Simd(SimdOperator::I32x4Shl))
    }

    #[inline(always)]
    fn visit_i32x4_shr_s(&mut self) -> Self::Output
        ensures { Self.visits self.old (Operator.Simd SimdOperator.I32x4ShrS) result self.new }
    {
        self.visit_any(Operator::Simd(SimdOperator::I32x4ShrS))
    }

    #[inline(always)]
    fn visit_i32x4_shr_u(&mut self) -> Self::Output
        ensures { Self.visits self.old (Operator.Simd SimdOperator.I32x4ShrU) result self.new }
    {
        self.visit_any(Operator::Simd(SimdOperator::I32x4ShrU))
    }

    #[inline(always)]
    fn visit_i32x4_add(&mut self) -> Self::Output
        ensures { Self.visits self.old (Operator.Simd SimdOperator.I32x4Add) result self.new }
    {
        self.visit_any(Operator::Simd(SimdOperator::I32x4Add))
    }

    #[inline(always)]
    fn visit_i32x4_sub(&mut self) -> Self::Output
        ensures { Self.visits self.old (Operator.Simd SimdOperator.I32x4Sub) result self.new }
    {
        self.visit_any(Operator::Simd(SimdOperator::I32x4Sub))
    }

    #[inline(always)]
    fn visit_i32x4_mul(&mut self) -> Self::Output
        ensures { Self.visits self.old (Operator.Simd SimdOperator.I32x4Mul) result self.new }
    {
        self.visit_any(Operator::Simd(SimdOperator::I32x4Mul))
    }

    #[inline(always)]
    fn visit_i32x4_min_s(&mut self) -> Self::Output
        ensures { Self.visits self.old (Operator.Simd SimdOperator.I32x4MinS) result self.new }
    {
        self.visit_any(Operator::Simd(SimdOperator::I32x4MinS))
    }

    #[inline(always)]
    fn visit_i32x4_min_u(&mut self) -> Self::Output
        ensures { Self.visits self.old (Operator.Simd SimdOperator.I32x4MinU) result self.new }
    {
        self.visit_any(Operator::Simd(SimdOperator::I32x4MinU))
    }

    #[inline(always)]
    fn visit_i32x4_max_s(&mut self) -> Self::Output
        ensures { Self.visits self.old (Operator.Simd SimdOperator.I32x4MaxS) result self.new }
    {
        self.visit_any(Operator::Simd(SimdOperator::I32x4MaxS))
    }

    #[inline(always)]
    fn visit_i32x4_max_u(&mut self) -> Self::Output
        ensures { Self.visits self.old (Operator.Simd SimdOperator.I32x4MaxU) result self.new }
    {
        self.visit_any(Operator::Simd(SimdOperator::I32x4MaxU))
    }

    #[inline(always)]
    fn visit_i32x4_dot_i16x8_s(&mut self) -> Self::Output
        ensures { Self.visits self.old (Operator.Simd SimdOperator.I32x4DotI16x8S) result self.new }
    {
        self.visit_any(Operator::Simd(SimdOperator::I32x4DotI16x8S))
    }

    #[inline(always)]
    fn visit_i32x4_extmul_low_i16x8_s(&mut self) -> Self::Output
        ensures { Self.visits self.old (Operator.Simd SimdOperator.I32x4ExtMulLowI16x8S) result self.new }
    {
        self.visit_any(Operator::Simd(SimdOperator::I32x4ExtMulLowI16x8S))
    }

    #[inline(always)]
    fn visit_i32x4_extmul_high_i16x8_s(&mut self) -> Self::Output
        ensures { Self.visits self.old (Operator.Simd SimdOperator.I32x4ExtMulHighI16x8S) result self.new }
    {
        self.visit_any(Operator::Simd(SimdOperator::I32x4ExtMulHighI16x8S))
    }

    #[inline(always)]
    fn visit_i32x4_extmul_low_i16x8_u(&mut self) -> Self::Output
        ensures { Self.visits self.old (Operator.Simd SimdOperator.I32x4ExtMulLowI16x8U) result self.new }
    {
        self.visit_any(Operator::Simd(SimdOperator::I32x4ExtMulLowI16x8U))
    }

    #[inline(always)]
    fn visit_i32x4_extmul_high_i16x8_u(&mut self) -> Self::Output
        ensures { Self.visits self.old (Operator.Simd SimdOperator.I32x4ExtMulHighI16x8U) result self.new }
    {
        self.visit_any(Operator::Simd(SimdOperator::I32x4ExtMulHighI16x8U))
    }

    #[inline(always)]
    fn visit_i64x2_abs(&mut self) -> Self::Output
        ensures { Self.visits self.old (Operator.Simd SimdOperator.I64x2Abs) result self.new }
    {
        self.visit_any(Operator::Simd(SimdOperator::I64x2Abs))
    }

    #[inline(always)]
    fn visit_i64x2_neg(&mut self) -> Self::Output
        ensures { Self.visits self.old (Operator.Simd SimdOperator.I64x2Neg) result self.new }
    {
        self.visit_any(Operator::Simd(SimdOperator::I64x2Neg))
    }

    #[inline(always)]
    fn visit_i64x2_all_true(&mut self) -> Self::Output
        ensures { Self.visits self.old (Operator.Simd SimdOperator.I64x2AllTrue) result self.new }
    {
        self.visit_any(Operator::Simd(SimdOperator::I64x2AllTrue))
    }

    #[inline(always)]
    fn visit_i64x2_bitmask(&mut self) -> Self::Output
        ensures { Self.visits self.old (Operator.Simd SimdOperator.I64x2Bitmask) result self.new }
    {
        self.visit_any(Operator::Simd(SimdOperator::I64x2Bitmask))
    }

    #[inline(always)]
    fn visit_i64x2_extend_low_i32x4_s(&mut self) -> Self::Output
        ensures { Self.visits self.old (Operator.Simd SimdOperator.I64x2ExtendLowI32x4S) result self.new }
    {
        self.visit_any(Operator::Simd(SimdOperator::I64x2ExtendLowI32x4S))
    }

    #[inline(always)]
    fn visit_i64x2_extend_high_i32x4_s(&mut self) -> Self::Output
        ensures { Self.visits self.old (Operator.Simd SimdOperator.I64x2ExtendHighI32x4S) result self.new }
    {
        self.visit_any(Operator::Simd(SimdOperator::I64x2ExtendHighI32x4S))
    }

    #[inline(always)]
    fn visit_i64x2_extend_low_i32x4_u(&mut self) -> Self::Output
        ensures { Self.visits self.old (Operator.Simd SimdOperator.I64x2ExtendLowI32x4U) result self.new }
    {
        self.visit_any(Operator::Simd(SimdOperator::I64x2ExtendLowI32x4U))
    }

    #[inline(always)]
    fn visit_i64x2_extend_high_i32x4_u(&mut self) -> Self::Output
        ensures { Self.visits self.old (Operator.Simd SimdOperator.I64x2ExtendHighI32x4U) result self.new }
    {
        self.visit_any(Operator::Simd(SimdOperator::I64x2ExtendHighI32x4U))
    }

    #[inline(always)]
    fn visit_i64x2_shl(&mut self) -> Self::Output
        ensures { Self.visits self.old (Operator.Simd SimdOperator.I64x2Shl) result self.new }
    {
        self.visit_any(Operator::Simd(SimdOperator::I64x2Shl))
    }

    #[inline(always)]
    fn visit_i64x2_shr_s(&mut self) -> Self::Output
        ensures { Self.visits self.old (Operator.Simd SimdOperator.I64x2ShrS) result self.new }
    {
        self.visit_any(Operator::Simd(SimdOperator::I64x2ShrS))
    }

    #[inline(always)]
    fn visit_i64x2_shr_u(&mut self) -> Self::Output
        ensures { Self.visits self.old (Operator.Simd SimdOperator.I64x2ShrU) result self.new }
    {
        self.visit_any(Operator::Simd(SimdOperator::I64x2ShrU))
    }

    #[inline(always)]
    fn visit_i64x2_add(&mut self) -> Self::Output
        ensures { Self.visits self.old (Operator.Simd SimdOperator.I64x2Add) result self.new }
    {
        self.visit_any(Operator::Simd(SimdOperator::I64x2Add))
    }

    #[inline(always)]
    fn visit_i64x2_sub(&mut self) -> Self::Output
        ensures { Self.visits self.old (Operator.Simd SimdOperator.I64x2Sub) result self.new }
    {
        self.visit_any(Operator::Simd(SimdOperator::I64x2Sub))
    }

    #[inline(always)]
    fn visit_i64x2_mul(&mut self) -> Self::Output
        ensures { Self.visits self.old (Operator.Simd SimdOperator.I64x2Mul) result self.new }
    {
        self.visit_any(Operator::Simd(SimdOperator::I64x2Mul))
    }

    #[inline(always)]
    fn visit_i64x2_extmul_low_i32x4_s(&mut self) -> Self::Output
        ensures { Self.visits self.old (Operator.Simd SimdOperator.I64x2ExtMulLowI32x4S) result self.new }
    {
        self.visit_any(Operator::Simd(SimdOperator::I64x2ExtMulLowI32x4S))
    }

    #[inline(always)]
    fn visit_i64x2_extmul_high_i32x4_s(&mut self) -> Self::Output
        ensures { Self.visits self.old (Operator.Simd SimdOperator.I64x2ExtMulHighI32x4S) result self.new }
    {
        self.visit_any(Operator::Simd(SimdOperator::I64x2ExtMulHighI32x4S))
    }

    #[inline(always)]
    fn visit_i64x2_extmul_low_i32x4_u(&mut self) -> Self::Output
        ensures { Self.visits self.old (Operator.Simd SimdOperator.I64x2ExtMulLowI32x4U) result self.new }
    {
        self.visit_any(Operator::Simd(SimdOperator::I64x2ExtMulLowI32x4U))
    }

    #[inline(always)]
    fn visit_i64x2_extmul_high_i32x4_u(&mut self) -> Self::Output
        ensures { Self.visits self.old (Operator.Simd SimdOperator.I64x2ExtMulHighI32x4U) result self.new }
    {
        self.visit_any(Operator::Simd(SimdOperator::I64x2ExtMulHighI32x4U))
    }

    #[inline(always)]
    fn visit_f32x4_abs(&mut self) -> Self::Output
        ensures { Self.visits self.old (Operator.Simd SimdOperator.F32x4Abs) result self.new }
    {
        self.visit_any(Operator::Simd(SimdOperator::F32x4Abs))
    }

    #[inline(always)]
    fn visit_f32x4_neg(&mut self) -> Self::Output
        ensures { Self.visits self.old (Operator.Simd SimdOperator.F32x4Neg) result self.new }
    {
        self.visit_any(Operator::Simd(SimdOperator::F32x4Neg))
    }

    #[inline(always)]
    fn visit_f32x4_sqrt(&mut self) -> Self::Output
        ensures { Self.visits self.old (Operator.Simd SimdOperator.F32x4Sqrt) result self.new }
    {
        self.visit_any(Operator::Simd(SimdOperator::F32x4Sqrt))
    }

    #[inline(always)]
    fn visit_f32x4_add(&mut self) -> Self::Output
        ensures { Self.visits self.old (Operator.Simd SimdOperator.F32x4Add) result self.new }
    {
        self.visit_any(Operator::Simd(SimdOperator::F32x4Add))
    }

    #[inline(always)]
    fn visit_f32x4_sub(&mut self) -> Self::Output
        ensures { Self.visits self.old (Operator.Simd SimdOperator.F32x4Sub) result self.new }
    {
        self.visit_any(Operator::Simd(SimdOperator::F32x4Sub))
    }

    #[inline(always)]
    fn visit_f32x4_mul(&mut self) -> Self::Output
        ensures { Self.visits self.old (Operator.Simd SimdOperator.F32x4Mul) result self.new }
    {
        self.visit_any(Operator::Simd(SimdOperator::F32x4Mul))
    }

    #[inline(always)]
    fn visit_f32x4_div(&mut self) -> Self::Output
        ensures { Self.visits self.old (Operator.Simd SimdOperator.F32x4Div) result self.new }
    {
        self.visit_any(Operator::Simd(SimdOperator::F32x4Div))
    }

    #[inline(always)]
    fn visit_f32x4_min(&mut self) -> Self::Output
        ensures { Self.visits self.old (Operator.Simd SimdOperator.F32x4Min) result self.new }
    {
        self.visit_any(Operator::Simd(SimdOperator::F32x4Min))
    }

    #[inline(always)]
    fn visit_f32x4_max(&mut self) -> Self::Output
        ensures { Self.visits self.old (Operator.Simd SimdOperator.F32x4Max) result self.new }
    {
        self.visit_any(Operator::Simd(SimdOperator::F32x4Max))
    }

    #[inline(always)]
    fn visit_f32x4_pmin(&mut self) -> Self::Output
        ensures { Self.visits self.old (Operator.Simd SimdOperator.F32x4PMin) result self.new }
    {
        self.visit_any(Operator::Simd(SimdOperator::F32x4PMin))
    }

    #[inline(always)]
    fn visit_f32x4_pmax(&mut self) -> Self::Output
        ensures { Self.visits self.old (Operator.Simd SimdOperator.F32x4PMax) result self.new }
    {
        self.visit_any(Operator::Simd(SimdOperator::F32x4PMax))
    }

    #[inline(always)]
    fn visit_f64x2_nearest(&mut self) -> Self::Output
        ensures { Self.visits self.old (Operator.Simd SimdOperator.F64x2Nearest) result self.new }
    {
        self.visit_any(Operator::Simd(SimdOperator::F64x2Nearest))
    }

    #[inline(always)]
    fn visit_f64x2_abs(&mut self) -> Self::Output
        ensures { Self.visits self.old (Operator.Simd SimdOperator.F64x2Abs) result self.new }
    {
        self.visit_any(Operator::Simd(SimdOperator::F64x2Abs))
    }

    #[inline(always)]
    fn visit_f64x2_neg(&mut self) -> Self::Output
        ensures { Self.visits self.old (Operator.Simd SimdOperator.F64x2Neg) result self.new }
    {
        self.visit_any(Operator::Simd(SimdOperator::F64x2Neg))
    }

    #[inline(always)]
    fn visit_f64x2_sqrt(&mut self) -> Self::Output
        ensures { Self.visits self.old (Operator.Simd SimdOperator.F64x2Sqrt) result self.new }
    {
        self.visit_any(Operator::Simd(SimdOperator::F64x2Sqrt))
    }

    #[inline(always)]
    fn visit_f64x2_add(&mut self) -> Self::Output
        ensures { Self.visits self.old (Operator.Simd SimdOperator.F64x2Add) result self.new }
    {
        self.visit_any(Operator::Simd(SimdOperator::F64x2Add))
    }

    #[inline(always)]
    fn visit_f64x2_sub(&mut self) -> Self::Output
        ensures { Self.visits self.old (Operator.Simd SimdOperator.F64x2Sub) result self.new }
    {
        self.visit_any(Operator::Simd(SimdOperator::F64x2Sub))
    }

    #[inline(always)]
    fn visit_f64x2_mul(&mut self) -> Self::Output
        ensures { Self.visits self.old (Operator.Simd SimdOperator.F64x2Mul) result self.new }
    {
        self.visit_any(Operator::Simd(SimdOperator::F64x2Mul))
    }

    #[inline(always)]
    fn visit_f64x2_div(&mut self) -> Self::Output
        ensures { Self.visits self.old (Operator.Simd SimdOperator.F64x2Div) result self.new }
    {
        self.visit_any(Operator::Simd(SimdOperator::F64x2Div))
    }

    #[inline(always)]
    fn visit_f64x2_min(&mut self) -> Self::Output
        ensures { Self.visits self.old (Operator.Simd SimdOperator.F64x2Min) result self.new }
    {
        self.visit_any(Operator::Simd(SimdOperator::F64x2Min))
    }

    #[inline(always)]
    fn visit_f64x2_max(&mut self) -> Self::Output
        ensures { Self.visits self.old (Operator.Simd SimdOperator.F64x2Max) result self.new }
    {
        self.visit_any(Operator::Simd(SimdOperator::F64x2Max))
    }

    #[inline(always)]
    fn visit_f64x2_pmin(&mut self) -> Self::Output
        ensures { Self.visits self.old (Operator.Simd SimdOperator.F64x2PMin) result self.new }
    {
        self.visit_any(Operator::Simd(SimdOperator::F64x2PMin))
    }

    #[inline(always)]
    fn visit_f64x2_pmax(&mut self) -> Self::Output
        ensures { Self.visits self.old (Operator.Simd SimdOperator.F64x2PMax) result self.new }
    {
        self.visit_any(Operator::Simd(SimdOperator::F64x2PMax))
    }

    #[inline(always)]
    fn visit_i32x4_trunc_sat_f32x4_s(&mut self) -> Self::Output
        ensures { Self.visits self.old (Operator.Simd SimdOperator.I32x4TruncSatF32x4S) result self.new }
    {
        self.visit_any(Operator::Simd(SimdOperator::I32x4TruncSatF32x4S))
    }

    #[inline(always)]
    fn visit_i32x4_trunc_sat_f32x4_u(&mut self) -> Self::Output
        ensures { Self.visits self.old (Operator.Simd SimdOperator.I32x4TruncSatF32x4U) result self.new }
    {
        self.visit_any(Operator::Simd(SimdOperator::I32x4TruncSatF32x4U))
    }

    #[inline(always)]
    fn visit_f32x4_convert_i32x4_s(&mut self) -> Self::Output
        ensures { Self.visits self.old (Operator.Simd SimdOperator.F32x4ConvertI32x4S) result self.new }
    {
        self.visit_any(Operator::Simd(SimdOperator::F32x4ConvertI32x4S))
    }

    #[inline(always)]
    fn visit_f32x4_convert_i32x4_u(&mut self) -> Self::Output
        ensures { Self.visits self.old (Operator.Simd SimdOperator.F32x4ConvertI32x4U) result self.new }
    {
        self.visit_any(Operator::Simd(SimdOperator::F32x4ConvertI32x4U))
    }

    #[inline(always)]
    fn visit_i32x4_trunc_sat_f64x2_s_zero(&mut self) -> Self::Output
        ensures { Self.visits self.old (Operator.Simd SimdOperator.I32x4TruncSatF64x2SZero) result self.new }
    {
        self.visit_any(Operator::Simd(SimdOperator::I32x4TruncSatF64x2SZero))
    }

    #[inline(always)]
    fn visit_i32x4_trunc_sat_f64x2_u_zero(&mut self) -> Self::Output
        ensures { Self.visits self.old (Operator.Simd SimdOperator.I32x4TruncSatF64x2UZero) result self.new }
    {
        self.visit_any(Operator::Simd(SimdOperator::I32x4TruncSatF64x2UZero))
    }

    #[inline(always)]
    fn visit_f64x2_convert_low_i32x4_s(&mut self) -> Self::Output
        ensures { Self.visits self.old (Operator.Simd SimdOperator.F64x2ConvertLowI32x4S) result self.new }
    {
        self.visit_any(Operator::Simd(SimdOperator::F64x2ConvertLowI32x4S))
    }

    #[inline(always)]
    fn visit_f64x2_convert_low_i32x4_u(&mut self) -> Self::Output
        ensures { Self.visits self.old (Operator.Simd SimdOperator.F64x2ConvertLowI32x4U) result self.new }
    {
        self.visit_any(Operator::Simd(SimdOperator::F64x2ConvertLowI32x4U))
    }

    #[inline(always)]
    fn visit_i8x16_relaxed_swizzle(&mut self) -> Self::Output
        ensures { Self.visits self.old (Operator.Simd SimdOperator.I8x16RelaxedSwizzle) result self.new }
    {
        self.visit_any(Operator::Simd(SimdOperator::I8x16RelaxedSwizzle))
    }

    #[inline(always)]
    fn visit_i32x4_relaxed_trunc_f32x4_s(&mut self) -> Self::Output
        ensures { Self.visits self.old (Operator.Simd SimdOperator.I32x4RelaxedTruncF32x4S) result self.new }
    {
        self.visit_any(Operator::Simd(SimdOperator::I32x4RelaxedTruncF32x4S))
    }

    #[inline(always)]
    fn visit_i32x4_relaxed_trunc_f32x4_u(&mut self) -> Self::Output
        ensures { Self.visits self.old (Operator.Simd SimdOperator.I32x4RelaxedTruncF32x4U) result self.new }
    {
        self.visit_any(Operator::Simd(SimdOperator::I32x4RelaxedTruncF32x4U))
    }

    #[inline(always)]
    fn visit_i32x4_relaxed_trunc_f64x2_s_zero(&mut self) -> Self::Output
        ensures { Self.visits self.old (Operator.Simd SimdOperator.I32x4RelaxedTruncF64x2SZero) result self.new }
    {
        self.visit_any(Operator::Simd(SimdOperator::I32x4RelaxedTruncF64x2SZero))
    }

    #[inline(always)]
    fn visit_i32x4_relaxed_trunc_f64x2_u_zero(&mut self) -> Self::Output
        ensures { Self.visits self.old (Operator.Simd SimdOperator.I32x4RelaxedTruncF64x2UZero) result self.new }
    {
        self.visit_any(Operator::Simd(SimdOperator::I32x4RelaxedTruncF64x2UZero))
    }

    #[inline(always)]
    fn visit_f32x4_relaxed_madd(&mut self) -> Self::Output
        ensures { Self.visits self.old (Operator.Simd SimdOperator.F32x4RelaxedMadd) result self.new }
    {
        self.visit_any(Operator::Simd(SimdOperator::F32x4RelaxedMadd))
    }

    #[inline(always)]
    fn visit_f32x4_relaxed_nmadd(&mut self) -> Self::Output
        ensures { Self.visits self.old (Operator.Simd SimdOperator.F32x4RelaxedNmadd) result self.new }
    {
        self.visit_any(Operator::Simd(SimdOperator::F32x4RelaxedNmadd))
    }

    #[inline(always)]
    fn visit_f64x2_relaxed_madd(&mut self) -> Self::Output
        ensures { Self.visits self.old (Operator.Simd SimdOperator.F64x2RelaxedMadd) result self.new }
    {
        self.visit_any(Operator::Simd(SimdOperator::F64x2RelaxedMadd))
    }

    #[inline(always)]
    fn visit_f64x2_relaxed_nmadd(&mut self) -> Self::Output
        ensures { Self.visits self.old (Operator.Simd SimdOperator.F64x2RelaxedNmadd) result self.new }
    {
        self.visit_any(Operator::Simd(SimdOperator::F64x2RelaxedNmadd))
    }

    #[inline(always)]
    fn visit_i8x16_relaxed_laneselect(&mut self) -> Self::Output
        ensures { Self.visits self.old (Operator.Simd SimdOperator.I8x16RelaxedLaneselect) result self.new }
    {
        self.visit_any(Operator::Simd(SimdOperator::I8x16RelaxedLaneselect))
    }

    #[inline(always)]
    fn visit_i16x8_relaxed_laneselect(&mut self) -> Self::Output
        ensures { Self.visits self.old (Operator.Simd SimdOperator.I16x8RelaxedLaneselect) result self.new }
    {
        self.visit_any(Operator::Simd(SimdOperator::I16x8RelaxedLaneselect))
    }

    #[inline(always)]
    fn visit_i32x4_relaxed_laneselect(&mut self) -> Self::Output
        ensures { Self.visits self.old (Operator.Simd SimdOperator.I32x4RelaxedLaneselect) result self.new }
    {
        self.visit_any(Operator::Simd(SimdOperator::I32x4RelaxedLaneselect))
    }

    #[inline(always)]
    fn visit_i64x2_relaxed_laneselect(&mut self) -> Self::Output
        ensures { Self.visits self.old (Operator.Simd SimdOperator.I64x2RelaxedLaneselect) result self.new }
    {
        self.visit_any(Operator::Simd(SimdOperator::I64x2RelaxedLaneselect))
    }

    #[inline(always)]
    fn visit_f32x4_relaxed_min(&mut self) -> Self::Output
        ensures { Self.visits self.old (Operator.Simd SimdOperator.F32x4RelaxedMin) result self.new }
    {
        self.visit_any(Operator::Simd(SimdOperator::F32x4RelaxedMin))
    }

    #[inline(always)]
    fn visit_f32x4_relaxed_max(&mut self) -> Self::Output
        ensures { Self.visits self.old (Operator.Simd SimdOperator.F32x4RelaxedMax) result self.new }
    {
        self.visit_any(Operator::Simd(SimdOperator::F32x4RelaxedMax))
    }

    #[inline(always)]
    fn visit_f64x2_relaxed_min(&mut self) -> Self::Output
        ensures { Self.visits self.old (Operator.Simd SimdOperator.F64x2RelaxedMin) result self.new }
    {
        self.visit_any(Operator::Simd(SimdOperator::F64x2RelaxedMin))
    }

    #[inline(always)]
    fn visit_f64x2_relaxed_max(&mut self) -> Self::Output
        ensures { Self.visits self.old (Operator.Simd SimdOperator.F64x2RelaxedMax) result self.new }
    {
        self.visit_any(Operator::Simd(SimdOperator::F64x2RelaxedMax))
    }

    #[inline(always)]
    fn visit_i16x8_relaxed_q15mulr_s(&mut self) -> Self::Output
        ensures { Self.visits self.old (Operator.Simd SimdOperator.I16x8RelaxedQ15mulrS) result self.new }
    {
        self.visit_any(Operator::Simd(SimdOperator::I16x8RelaxedQ15mulrS))
    }

    #[inline(always)]
    fn visit_i16x8_relaxed_dot_i8x16_i7x16_s(&mut self) -> Self::Output
        ensures { Self.visits self.old (Operator.Simd SimdOperator.I16x8RelaxedDotI8x16I7x16S) result self.new }
    {
        self.visit_any(Operator::Simd(SimdOperator::I16x8RelaxedDotI8x16I7x16S))
    }

    #[inline(always)]
    fn visit_i32x4_relaxed_dot_i8x16_i7x16_add_s(&mut self) -> Self::Output
        ensures { Self.visits self.old (Operator.Simd SimdOperator.I32x4RelaxedDotI8x16I7x16AddS) result self.new }
    {
        self.visit_any(Operator::Simd(SimdOperator::I32x4RelaxedDotI8x16I7x16AddS))
    }
}
