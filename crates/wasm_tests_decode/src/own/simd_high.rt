//! Overridden visits of the SIMD operators from 0x80 on. Written by tools/lists.py from tools/operators.tsv.
use crate::teller::Teller;
use wasm_instr_simd::SimdOperator;
use wasm_visit_groups::{VisitSimdHigh, Visitor};

impl VisitSimdHigh for Teller {
    fn visit_i64x2_eq(&mut self) -> Self::Output {
        self.own_simd(SimdOperator::I64x2Eq)
    }

    fn visit_i64x2_ne(&mut self) -> Self::Output {
        self.own_simd(SimdOperator::I64x2Ne)
    }

    fn visit_i64x2_lt_s(&mut self) -> Self::Output {
        self.own_simd(SimdOperator::I64x2LtS)
    }

    fn visit_i64x2_gt_s(&mut self) -> Self::Output {
        self.own_simd(SimdOperator::I64x2GtS)
    }

    fn visit_i64x2_le_s(&mut self) -> Self::Output {
        self.own_simd(SimdOperator::I64x2LeS)
    }

    fn visit_i64x2_ge_s(&mut self) -> Self::Output {
        self.own_simd(SimdOperator::I64x2GeS)
    }

    fn visit_i16x8_abs(&mut self) -> Self::Output {
        self.own_simd(SimdOperator::I16x8Abs)
    }

    fn visit_i16x8_neg(&mut self) -> Self::Output {
        self.own_simd(SimdOperator::I16x8Neg)
    }

    fn visit_i16x8_q15mulr_sat_s(&mut self) -> Self::Output {
        self.own_simd(SimdOperator::I16x8Q15MulrSatS)
    }

    fn visit_i16x8_all_true(&mut self) -> Self::Output {
        self.own_simd(SimdOperator::I16x8AllTrue)
    }

    fn visit_i16x8_bitmask(&mut self) -> Self::Output {
        self.own_simd(SimdOperator::I16x8Bitmask)
    }

    fn visit_i16x8_narrow_i32x4_s(&mut self) -> Self::Output {
        self.own_simd(SimdOperator::I16x8NarrowI32x4S)
    }

    fn visit_i16x8_narrow_i32x4_u(&mut self) -> Self::Output {
        self.own_simd(SimdOperator::I16x8NarrowI32x4U)
    }

    fn visit_i16x8_extend_low_i8x16_s(&mut self) -> Self::Output {
        self.own_simd(SimdOperator::I16x8ExtendLowI8x16S)
    }

    fn visit_i16x8_extend_high_i8x16_s(&mut self) -> Self::Output {
        self.own_simd(SimdOperator::I16x8ExtendHighI8x16S)
    }

    fn visit_i16x8_extend_low_i8x16_u(&mut self) -> Self::Output {
        self.own_simd(SimdOperator::I16x8ExtendLowI8x16U)
    }

    fn visit_i16x8_extend_high_i8x16_u(&mut self) -> Self::Output {
        self.own_simd(SimdOperator::I16x8ExtendHighI8x16U)
    }

    fn visit_i16x8_shl(&mut self) -> Self::Output {
        self.own_simd(SimdOperator::I16x8Shl)
    }

    fn visit_i16x8_shr_s(&mut self) -> Self::Output {
        self.own_simd(SimdOperator::I16x8ShrS)
    }

    fn visit_i16x8_shr_u(&mut self) -> Self::Output {
        self.own_simd(SimdOperator::I16x8ShrU)
    }

    fn visit_i16x8_add(&mut self) -> Self::Output {
        self.own_simd(SimdOperator::I16x8Add)
    }

    fn visit_i16x8_add_sat_s(&mut self) -> Self::Output {
        self.own_simd(SimdOperator::I16x8AddSatS)
    }

    fn visit_i16x8_add_sat_u(&mut self) -> Self::Output {
        self.own_simd(SimdOperator::I16x8AddSatU)
    }

    fn visit_i16x8_sub(&mut self) -> Self::Output {
        self.own_simd(SimdOperator::I16x8Sub)
    }

    fn visit_i16x8_sub_sat_s(&mut self) -> Self::Output {
        self.own_simd(SimdOperator::I16x8SubSatS)
    }

    fn visit_i16x8_sub_sat_u(&mut self) -> Self::Output {
        self.own_simd(SimdOperator::I16x8SubSatU)
    }

    fn visit_i16x8_mul(&mut self) -> Self::Output {
        self.own_simd(SimdOperator::I16x8Mul)
    }

    fn visit_i16x8_min_s(&mut self) -> Self::Output {
        self.own_simd(SimdOperator::I16x8MinS)
    }

    fn visit_i16x8_min_u(&mut self) -> Self::Output {
        self.own_simd(SimdOperator::I16x8MinU)
    }

    fn visit_i16x8_max_s(&mut self) -> Self::Output {
        self.own_simd(SimdOperator::I16x8MaxS)
    }

    fn visit_i16x8_max_u(&mut self) -> Self::Output {
        self.own_simd(SimdOperator::I16x8MaxU)
    }

    fn visit_i16x8_avgr_u(&mut self) -> Self::Output {
        self.own_simd(SimdOperator::I16x8AvgrU)
    }

    fn visit_i16x8_extmul_low_i8x16_s(&mut self) -> Self::Output {
        self.own_simd(SimdOperator::I16x8ExtMulLowI8x16S)
    }

    fn visit_i16x8_extmul_high_i8x16_s(&mut self) -> Self::Output {
        self.own_simd(SimdOperator::I16x8ExtMulHighI8x16S)
    }

    fn visit_i16x8_extmul_low_i8x16_u(&mut self) -> Self::Output {
        self.own_simd(SimdOperator::I16x8ExtMulLowI8x16U)
    }

    fn visit_i16x8_extmul_high_i8x16_u(&mut self) -> Self::Output {
        self.own_simd(SimdOperator::I16x8ExtMulHighI8x16U)
    }

    fn visit_i32x4_abs(&mut self) -> Self::Output {
        self.own_simd(SimdOperator::I32x4Abs)
    }

    fn visit_i32x4_neg(&mut self) -> Self::Output {
        self.own_simd(SimdOperator::I32x4Neg)
    }

    fn visit_i32x4_all_true(&mut self) -> Self::Output {
        self.own_simd(SimdOperator::I32x4AllTrue)
    }

    fn visit_i32x4_bitmask(&mut self) -> Self::Output {
        self.own_simd(SimdOperator::I32x4Bitmask)
    }

    fn visit_i32x4_extend_low_i16x8_s(&mut self) -> Self::Output {
        self.own_simd(SimdOperator::I32x4ExtendLowI16x8S)
    }

    fn visit_i32x4_extend_high_i16x8_s(&mut self) -> Self::Output {
        self.own_simd(SimdOperator::I32x4ExtendHighI16x8S)
    }

    fn visit_i32x4_extend_low_i16x8_u(&mut self) -> Self::Output {
        self.own_simd(SimdOperator::I32x4ExtendLowI16x8U)
    }

    fn visit_i32x4_extend_high_i16x8_u(&mut self) -> Self::Output {
        self.own_simd(SimdOperator::I32x4ExtendHighI16x8U)
    }

    fn visit_i32x4_shl(&mut self) -> Self::Output {
        self.own_simd(SimdOperator::I32x4Shl)
    }

    fn visit_i32x4_shr_s(&mut self) -> Self::Output {
        self.own_simd(SimdOperator::I32x4ShrS)
    }

    fn visit_i32x4_shr_u(&mut self) -> Self::Output {
        self.own_simd(SimdOperator::I32x4ShrU)
    }

    fn visit_i32x4_add(&mut self) -> Self::Output {
        self.own_simd(SimdOperator::I32x4Add)
    }

    fn visit_i32x4_sub(&mut self) -> Self::Output {
        self.own_simd(SimdOperator::I32x4Sub)
    }

    fn visit_i32x4_mul(&mut self) -> Self::Output {
        self.own_simd(SimdOperator::I32x4Mul)
    }

    fn visit_i32x4_min_s(&mut self) -> Self::Output {
        self.own_simd(SimdOperator::I32x4MinS)
    }

    fn visit_i32x4_min_u(&mut self) -> Self::Output {
        self.own_simd(SimdOperator::I32x4MinU)
    }

    fn visit_i32x4_max_s(&mut self) -> Self::Output {
        self.own_simd(SimdOperator::I32x4MaxS)
    }

    fn visit_i32x4_max_u(&mut self) -> Self::Output {
        self.own_simd(SimdOperator::I32x4MaxU)
    }

    fn visit_i32x4_dot_i16x8_s(&mut self) -> Self::Output {
        self.own_simd(SimdOperator::I32x4DotI16x8S)
    }

    fn visit_i32x4_extmul_low_i16x8_s(&mut self) -> Self::Output {
        self.own_simd(SimdOperator::I32x4ExtMulLowI16x8S)
    }

    fn visit_i32x4_extmul_high_i16x8_s(&mut self) -> Self::Output {
        self.own_simd(SimdOperator::I32x4ExtMulHighI16x8S)
    }

    fn visit_i32x4_extmul_low_i16x8_u(&mut self) -> Self::Output {
        self.own_simd(SimdOperator::I32x4ExtMulLowI16x8U)
    }

    fn visit_i32x4_extmul_high_i16x8_u(&mut self) -> Self::Output {
        self.own_simd(SimdOperator::I32x4ExtMulHighI16x8U)
    }

    fn visit_i64x2_abs(&mut self) -> Self::Output {
        self.own_simd(SimdOperator::I64x2Abs)
    }

    fn visit_i64x2_neg(&mut self) -> Self::Output {
        self.own_simd(SimdOperator::I64x2Neg)
    }

    fn visit_i64x2_all_true(&mut self) -> Self::Output {
        self.own_simd(SimdOperator::I64x2AllTrue)
    }

    fn visit_i64x2_bitmask(&mut self) -> Self::Output {
        self.own_simd(SimdOperator::I64x2Bitmask)
    }

    fn visit_i64x2_extend_low_i32x4_s(&mut self) -> Self::Output {
        self.own_simd(SimdOperator::I64x2ExtendLowI32x4S)
    }

    fn visit_i64x2_extend_high_i32x4_s(&mut self) -> Self::Output {
        self.own_simd(SimdOperator::I64x2ExtendHighI32x4S)
    }

    fn visit_i64x2_extend_low_i32x4_u(&mut self) -> Self::Output {
        self.own_simd(SimdOperator::I64x2ExtendLowI32x4U)
    }

    fn visit_i64x2_extend_high_i32x4_u(&mut self) -> Self::Output {
        self.own_simd(SimdOperator::I64x2ExtendHighI32x4U)
    }

    fn visit_i64x2_shl(&mut self) -> Self::Output {
        self.own_simd(SimdOperator::I64x2Shl)
    }

    fn visit_i64x2_shr_s(&mut self) -> Self::Output {
        self.own_simd(SimdOperator::I64x2ShrS)
    }

    fn visit_i64x2_shr_u(&mut self) -> Self::Output {
        self.own_simd(SimdOperator::I64x2ShrU)
    }

    fn visit_i64x2_add(&mut self) -> Self::Output {
        self.own_simd(SimdOperator::I64x2Add)
    }

    fn visit_i64x2_sub(&mut self) -> Self::Output {
        self.own_simd(SimdOperator::I64x2Sub)
    }

    fn visit_i64x2_mul(&mut self) -> Self::Output {
        self.own_simd(SimdOperator::I64x2Mul)
    }

    fn visit_i64x2_extmul_low_i32x4_s(&mut self) -> Self::Output {
        self.own_simd(SimdOperator::I64x2ExtMulLowI32x4S)
    }

    fn visit_i64x2_extmul_high_i32x4_s(&mut self) -> Self::Output {
        self.own_simd(SimdOperator::I64x2ExtMulHighI32x4S)
    }

    fn visit_i64x2_extmul_low_i32x4_u(&mut self) -> Self::Output {
        self.own_simd(SimdOperator::I64x2ExtMulLowI32x4U)
    }

    fn visit_i64x2_extmul_high_i32x4_u(&mut self) -> Self::Output {
        self.own_simd(SimdOperator::I64x2ExtMulHighI32x4U)
    }

    fn visit_f32x4_abs(&mut self) -> Self::Output {
        self.own_simd(SimdOperator::F32x4Abs)
    }

    fn visit_f32x4_neg(&mut self) -> Self::Output {
        self.own_simd(SimdOperator::F32x4Neg)
    }

    fn visit_f32x4_sqrt(&mut self) -> Self::Output {
        self.own_simd(SimdOperator::F32x4Sqrt)
    }

    fn visit_f32x4_add(&mut self) -> Self::Output {
        self.own_simd(SimdOperator::F32x4Add)
    }

    fn visit_f32x4_sub(&mut self) -> Self::Output {
        self.own_simd(SimdOperator::F32x4Sub)
    }

    fn visit_f32x4_mul(&mut self) -> Self::Output {
        self.own_simd(SimdOperator::F32x4Mul)
    }

    fn visit_f32x4_div(&mut self) -> Self::Output {
        self.own_simd(SimdOperator::F32x4Div)
    }

    fn visit_f32x4_min(&mut self) -> Self::Output {
        self.own_simd(SimdOperator::F32x4Min)
    }

    fn visit_f32x4_max(&mut self) -> Self::Output {
        self.own_simd(SimdOperator::F32x4Max)
    }

    fn visit_f32x4_pmin(&mut self) -> Self::Output {
        self.own_simd(SimdOperator::F32x4PMin)
    }

    fn visit_f32x4_pmax(&mut self) -> Self::Output {
        self.own_simd(SimdOperator::F32x4PMax)
    }

    fn visit_f64x2_nearest(&mut self) -> Self::Output {
        self.own_simd(SimdOperator::F64x2Nearest)
    }

    fn visit_f64x2_abs(&mut self) -> Self::Output {
        self.own_simd(SimdOperator::F64x2Abs)
    }

    fn visit_f64x2_neg(&mut self) -> Self::Output {
        self.own_simd(SimdOperator::F64x2Neg)
    }

    fn visit_f64x2_sqrt(&mut self) -> Self::Output {
        self.own_simd(SimdOperator::F64x2Sqrt)
    }

    fn visit_f64x2_add(&mut self) -> Self::Output {
        self.own_simd(SimdOperator::F64x2Add)
    }

    fn visit_f64x2_sub(&mut self) -> Self::Output {
        self.own_simd(SimdOperator::F64x2Sub)
    }

    fn visit_f64x2_mul(&mut self) -> Self::Output {
        self.own_simd(SimdOperator::F64x2Mul)
    }

    fn visit_f64x2_div(&mut self) -> Self::Output {
        self.own_simd(SimdOperator::F64x2Div)
    }

    fn visit_f64x2_min(&mut self) -> Self::Output {
        self.own_simd(SimdOperator::F64x2Min)
    }

    fn visit_f64x2_max(&mut self) -> Self::Output {
        self.own_simd(SimdOperator::F64x2Max)
    }

    fn visit_f64x2_pmin(&mut self) -> Self::Output {
        self.own_simd(SimdOperator::F64x2PMin)
    }

    fn visit_f64x2_pmax(&mut self) -> Self::Output {
        self.own_simd(SimdOperator::F64x2PMax)
    }

    fn visit_i32x4_trunc_sat_f32x4_s(&mut self) -> Self::Output {
        self.own_simd(SimdOperator::I32x4TruncSatF32x4S)
    }

    fn visit_i32x4_trunc_sat_f32x4_u(&mut self) -> Self::Output {
        self.own_simd(SimdOperator::I32x4TruncSatF32x4U)
    }

    fn visit_f32x4_convert_i32x4_s(&mut self) -> Self::Output {
        self.own_simd(SimdOperator::F32x4ConvertI32x4S)
    }

    fn visit_f32x4_convert_i32x4_u(&mut self) -> Self::Output {
        self.own_simd(SimdOperator::F32x4ConvertI32x4U)
    }

    fn visit_i32x4_trunc_sat_f64x2_s_zero(&mut self) -> Self::Output {
        self.own_simd(SimdOperator::I32x4TruncSatF64x2SZero)
    }

    fn visit_i32x4_trunc_sat_f64x2_u_zero(&mut self) -> Self::Output {
        self.own_simd(SimdOperator::I32x4TruncSatF64x2UZero)
    }

    fn visit_f64x2_convert_low_i32x4_s(&mut self) -> Self::Output {
        self.own_simd(SimdOperator::F64x2ConvertLowI32x4S)
    }

    fn visit_f64x2_convert_low_i32x4_u(&mut self) -> Self::Output {
        self.own_simd(SimdOperator::F64x2ConvertLowI32x4U)
    }

    fn visit_i8x16_relaxed_swizzle(&mut self) -> Self::Output {
        self.own_simd(SimdOperator::I8x16RelaxedSwizzle)
    }

    fn visit_i32x4_relaxed_trunc_f32x4_s(&mut self) -> Self::Output {
        self.own_simd(SimdOperator::I32x4RelaxedTruncF32x4S)
    }

    fn visit_i32x4_relaxed_trunc_f32x4_u(&mut self) -> Self::Output {
        self.own_simd(SimdOperator::I32x4RelaxedTruncF32x4U)
    }

    fn visit_i32x4_relaxed_trunc_f64x2_s_zero(&mut self) -> Self::Output {
        self.own_simd(SimdOperator::I32x4RelaxedTruncF64x2SZero)
    }

    fn visit_i32x4_relaxed_trunc_f64x2_u_zero(&mut self) -> Self::Output {
        self.own_simd(SimdOperator::I32x4RelaxedTruncF64x2UZero)
    }

    fn visit_f32x4_relaxed_madd(&mut self) -> Self::Output {
        self.own_simd(SimdOperator::F32x4RelaxedMadd)
    }

    fn visit_f32x4_relaxed_nmadd(&mut self) -> Self::Output {
        self.own_simd(SimdOperator::F32x4RelaxedNmadd)
    }

    fn visit_f64x2_relaxed_madd(&mut self) -> Self::Output {
        self.own_simd(SimdOperator::F64x2RelaxedMadd)
    }

    fn visit_f64x2_relaxed_nmadd(&mut self) -> Self::Output {
        self.own_simd(SimdOperator::F64x2RelaxedNmadd)
    }

    fn visit_i8x16_relaxed_laneselect(&mut self) -> Self::Output {
        self.own_simd(SimdOperator::I8x16RelaxedLaneselect)
    }

    fn visit_i16x8_relaxed_laneselect(&mut self) -> Self::Output {
        self.own_simd(SimdOperator::I16x8RelaxedLaneselect)
    }

    fn visit_i32x4_relaxed_laneselect(&mut self) -> Self::Output {
        self.own_simd(SimdOperator::I32x4RelaxedLaneselect)
    }

    fn visit_i64x2_relaxed_laneselect(&mut self) -> Self::Output {
        self.own_simd(SimdOperator::I64x2RelaxedLaneselect)
    }

    fn visit_f32x4_relaxed_min(&mut self) -> Self::Output {
        self.own_simd(SimdOperator::F32x4RelaxedMin)
    }

    fn visit_f32x4_relaxed_max(&mut self) -> Self::Output {
        self.own_simd(SimdOperator::F32x4RelaxedMax)
    }

    fn visit_f64x2_relaxed_min(&mut self) -> Self::Output {
        self.own_simd(SimdOperator::F64x2RelaxedMin)
    }

    fn visit_f64x2_relaxed_max(&mut self) -> Self::Output {
        self.own_simd(SimdOperator::F64x2RelaxedMax)
    }

    fn visit_i16x8_relaxed_q15mulr_s(&mut self) -> Self::Output {
        self.own_simd(SimdOperator::I16x8RelaxedQ15mulrS)
    }

    fn visit_i16x8_relaxed_dot_i8x16_i7x16_s(&mut self) -> Self::Output {
        self.own_simd(SimdOperator::I16x8RelaxedDotI8x16I7x16S)
    }

    fn visit_i32x4_relaxed_dot_i8x16_i7x16_add_s(&mut self) -> Self::Output {
        self.own_simd(SimdOperator::I32x4RelaxedDotI8x16I7x16AddS)
    }
}
