//! Overridden visits of the SIMD operators below 0x80. Written by tools/lists.py from tools/operators.tsv.
use crate::teller::Teller;
use wasm_imm::{MemArg, V128};
use wasm_instr_simd::SimdOperator;
use wasm_visit_groups::{VisitSimdLow, Visitor};

impl VisitSimdLow for Teller {
    fn visit_v128_load(&mut self, memarg: MemArg) -> Self::Output {
        self.own_simd(SimdOperator::V128Load { memarg })
    }

    fn visit_v128_load8x8_s(&mut self, memarg: MemArg) -> Self::Output {
        self.own_simd(SimdOperator::V128Load8x8S { memarg })
    }

    fn visit_v128_load8x8_u(&mut self, memarg: MemArg) -> Self::Output {
        self.own_simd(SimdOperator::V128Load8x8U { memarg })
    }

    fn visit_v128_load16x4_s(&mut self, memarg: MemArg) -> Self::Output {
        self.own_simd(SimdOperator::V128Load16x4S { memarg })
    }

    fn visit_v128_load16x4_u(&mut self, memarg: MemArg) -> Self::Output {
        self.own_simd(SimdOperator::V128Load16x4U { memarg })
    }

    fn visit_v128_load32x2_s(&mut self, memarg: MemArg) -> Self::Output {
        self.own_simd(SimdOperator::V128Load32x2S { memarg })
    }

    fn visit_v128_load32x2_u(&mut self, memarg: MemArg) -> Self::Output {
        self.own_simd(SimdOperator::V128Load32x2U { memarg })
    }

    fn visit_v128_load8_splat(&mut self, memarg: MemArg) -> Self::Output {
        self.own_simd(SimdOperator::V128Load8Splat { memarg })
    }

    fn visit_v128_load16_splat(&mut self, memarg: MemArg) -> Self::Output {
        self.own_simd(SimdOperator::V128Load16Splat { memarg })
    }

    fn visit_v128_load32_splat(&mut self, memarg: MemArg) -> Self::Output {
        self.own_simd(SimdOperator::V128Load32Splat { memarg })
    }

    fn visit_v128_load64_splat(&mut self, memarg: MemArg) -> Self::Output {
        self.own_simd(SimdOperator::V128Load64Splat { memarg })
    }

    fn visit_v128_load32_zero(&mut self, memarg: MemArg) -> Self::Output {
        self.own_simd(SimdOperator::V128Load32Zero { memarg })
    }

    fn visit_v128_load64_zero(&mut self, memarg: MemArg) -> Self::Output {
        self.own_simd(SimdOperator::V128Load64Zero { memarg })
    }

    fn visit_v128_store(&mut self, memarg: MemArg) -> Self::Output {
        self.own_simd(SimdOperator::V128Store { memarg })
    }

    fn visit_v128_load8_lane(&mut self, memarg: MemArg, lane: u8) -> Self::Output {
        self.own_simd(SimdOperator::V128Load8Lane { memarg, lane })
    }

    fn visit_v128_load16_lane(&mut self, memarg: MemArg, lane: u8) -> Self::Output {
        self.own_simd(SimdOperator::V128Load16Lane { memarg, lane })
    }

    fn visit_v128_load32_lane(&mut self, memarg: MemArg, lane: u8) -> Self::Output {
        self.own_simd(SimdOperator::V128Load32Lane { memarg, lane })
    }

    fn visit_v128_load64_lane(&mut self, memarg: MemArg, lane: u8) -> Self::Output {
        self.own_simd(SimdOperator::V128Load64Lane { memarg, lane })
    }

    fn visit_v128_store8_lane(&mut self, memarg: MemArg, lane: u8) -> Self::Output {
        self.own_simd(SimdOperator::V128Store8Lane { memarg, lane })
    }

    fn visit_v128_store16_lane(&mut self, memarg: MemArg, lane: u8) -> Self::Output {
        self.own_simd(SimdOperator::V128Store16Lane { memarg, lane })
    }

    fn visit_v128_store32_lane(&mut self, memarg: MemArg, lane: u8) -> Self::Output {
        self.own_simd(SimdOperator::V128Store32Lane { memarg, lane })
    }

    fn visit_v128_store64_lane(&mut self, memarg: MemArg, lane: u8) -> Self::Output {
        self.own_simd(SimdOperator::V128Store64Lane { memarg, lane })
    }

    fn visit_v128_const(&mut self, value: V128) -> Self::Output {
        self.own_simd(SimdOperator::V128Const { value })
    }

    fn visit_i8x16_shuffle(&mut self, lanes: [u8; 16]) -> Self::Output {
        self.own_simd(SimdOperator::I8x16Shuffle { lanes })
    }

    fn visit_i8x16_extract_lane_s(&mut self, lane: u8) -> Self::Output {
        self.own_simd(SimdOperator::I8x16ExtractLaneS { lane })
    }

    fn visit_i8x16_extract_lane_u(&mut self, lane: u8) -> Self::Output {
        self.own_simd(SimdOperator::I8x16ExtractLaneU { lane })
    }

    fn visit_i8x16_replace_lane(&mut self, lane: u8) -> Self::Output {
        self.own_simd(SimdOperator::I8x16ReplaceLane { lane })
    }

    fn visit_i16x8_extract_lane_s(&mut self, lane: u8) -> Self::Output {
        self.own_simd(SimdOperator::I16x8ExtractLaneS { lane })
    }

    fn visit_i16x8_extract_lane_u(&mut self, lane: u8) -> Self::Output {
        self.own_simd(SimdOperator::I16x8ExtractLaneU { lane })
    }

    fn visit_i16x8_replace_lane(&mut self, lane: u8) -> Self::Output {
        self.own_simd(SimdOperator::I16x8ReplaceLane { lane })
    }

    fn visit_i32x4_extract_lane(&mut self, lane: u8) -> Self::Output {
        self.own_simd(SimdOperator::I32x4ExtractLane { lane })
    }

    fn visit_i32x4_replace_lane(&mut self, lane: u8) -> Self::Output {
        self.own_simd(SimdOperator::I32x4ReplaceLane { lane })
    }

    fn visit_i64x2_extract_lane(&mut self, lane: u8) -> Self::Output {
        self.own_simd(SimdOperator::I64x2ExtractLane { lane })
    }

    fn visit_i64x2_replace_lane(&mut self, lane: u8) -> Self::Output {
        self.own_simd(SimdOperator::I64x2ReplaceLane { lane })
    }

    fn visit_f32x4_extract_lane(&mut self, lane: u8) -> Self::Output {
        self.own_simd(SimdOperator::F32x4ExtractLane { lane })
    }

    fn visit_f32x4_replace_lane(&mut self, lane: u8) -> Self::Output {
        self.own_simd(SimdOperator::F32x4ReplaceLane { lane })
    }

    fn visit_f64x2_extract_lane(&mut self, lane: u8) -> Self::Output {
        self.own_simd(SimdOperator::F64x2ExtractLane { lane })
    }

    fn visit_f64x2_replace_lane(&mut self, lane: u8) -> Self::Output {
        self.own_simd(SimdOperator::F64x2ReplaceLane { lane })
    }

    fn visit_i8x16_swizzle(&mut self) -> Self::Output {
        self.own_simd(SimdOperator::I8x16Swizzle)
    }

    fn visit_i8x16_splat(&mut self) -> Self::Output {
        self.own_simd(SimdOperator::I8x16Splat)
    }

    fn visit_i16x8_splat(&mut self) -> Self::Output {
        self.own_simd(SimdOperator::I16x8Splat)
    }

    fn visit_i32x4_splat(&mut self) -> Self::Output {
        self.own_simd(SimdOperator::I32x4Splat)
    }

    fn visit_i64x2_splat(&mut self) -> Self::Output {
        self.own_simd(SimdOperator::I64x2Splat)
    }

    fn visit_f32x4_splat(&mut self) -> Self::Output {
        self.own_simd(SimdOperator::F32x4Splat)
    }

    fn visit_f64x2_splat(&mut self) -> Self::Output {
        self.own_simd(SimdOperator::F64x2Splat)
    }

    fn visit_i8x16_eq(&mut self) -> Self::Output {
        self.own_simd(SimdOperator::I8x16Eq)
    }

    fn visit_i8x16_ne(&mut self) -> Self::Output {
        self.own_simd(SimdOperator::I8x16Ne)
    }

    fn visit_i8x16_lt_s(&mut self) -> Self::Output {
        self.own_simd(SimdOperator::I8x16LtS)
    }

    fn visit_i8x16_lt_u(&mut self) -> Self::Output {
        self.own_simd(SimdOperator::I8x16LtU)
    }

    fn visit_i8x16_gt_s(&mut self) -> Self::Output {
        self.own_simd(SimdOperator::I8x16GtS)
    }

    fn visit_i8x16_gt_u(&mut self) -> Self::Output {
        self.own_simd(SimdOperator::I8x16GtU)
    }

    fn visit_i8x16_le_s(&mut self) -> Self::Output {
        self.own_simd(SimdOperator::I8x16LeS)
    }

    fn visit_i8x16_le_u(&mut self) -> Self::Output {
        self.own_simd(SimdOperator::I8x16LeU)
    }

    fn visit_i8x16_ge_s(&mut self) -> Self::Output {
        self.own_simd(SimdOperator::I8x16GeS)
    }

    fn visit_i8x16_ge_u(&mut self) -> Self::Output {
        self.own_simd(SimdOperator::I8x16GeU)
    }

    fn visit_i16x8_eq(&mut self) -> Self::Output {
        self.own_simd(SimdOperator::I16x8Eq)
    }

    fn visit_i16x8_ne(&mut self) -> Self::Output {
        self.own_simd(SimdOperator::I16x8Ne)
    }

    fn visit_i16x8_lt_s(&mut self) -> Self::Output {
        self.own_simd(SimdOperator::I16x8LtS)
    }

    fn visit_i16x8_lt_u(&mut self) -> Self::Output {
        self.own_simd(SimdOperator::I16x8LtU)
    }

    fn visit_i16x8_gt_s(&mut self) -> Self::Output {
        self.own_simd(SimdOperator::I16x8GtS)
    }

    fn visit_i16x8_gt_u(&mut self) -> Self::Output {
        self.own_simd(SimdOperator::I16x8GtU)
    }

    fn visit_i16x8_le_s(&mut self) -> Self::Output {
        self.own_simd(SimdOperator::I16x8LeS)
    }

    fn visit_i16x8_le_u(&mut self) -> Self::Output {
        self.own_simd(SimdOperator::I16x8LeU)
    }

    fn visit_i16x8_ge_s(&mut self) -> Self::Output {
        self.own_simd(SimdOperator::I16x8GeS)
    }

    fn visit_i16x8_ge_u(&mut self) -> Self::Output {
        self.own_simd(SimdOperator::I16x8GeU)
    }

    fn visit_i32x4_eq(&mut self) -> Self::Output {
        self.own_simd(SimdOperator::I32x4Eq)
    }

    fn visit_i32x4_ne(&mut self) -> Self::Output {
        self.own_simd(SimdOperator::I32x4Ne)
    }

    fn visit_i32x4_lt_s(&mut self) -> Self::Output {
        self.own_simd(SimdOperator::I32x4LtS)
    }

    fn visit_i32x4_lt_u(&mut self) -> Self::Output {
        self.own_simd(SimdOperator::I32x4LtU)
    }

    fn visit_i32x4_gt_s(&mut self) -> Self::Output {
        self.own_simd(SimdOperator::I32x4GtS)
    }

    fn visit_i32x4_gt_u(&mut self) -> Self::Output {
        self.own_simd(SimdOperator::I32x4GtU)
    }

    fn visit_i32x4_le_s(&mut self) -> Self::Output {
        self.own_simd(SimdOperator::I32x4LeS)
    }

    fn visit_i32x4_le_u(&mut self) -> Self::Output {
        self.own_simd(SimdOperator::I32x4LeU)
    }

    fn visit_i32x4_ge_s(&mut self) -> Self::Output {
        self.own_simd(SimdOperator::I32x4GeS)
    }

    fn visit_i32x4_ge_u(&mut self) -> Self::Output {
        self.own_simd(SimdOperator::I32x4GeU)
    }

    fn visit_f32x4_eq(&mut self) -> Self::Output {
        self.own_simd(SimdOperator::F32x4Eq)
    }

    fn visit_f32x4_ne(&mut self) -> Self::Output {
        self.own_simd(SimdOperator::F32x4Ne)
    }

    fn visit_f32x4_lt(&mut self) -> Self::Output {
        self.own_simd(SimdOperator::F32x4Lt)
    }

    fn visit_f32x4_gt(&mut self) -> Self::Output {
        self.own_simd(SimdOperator::F32x4Gt)
    }

    fn visit_f32x4_le(&mut self) -> Self::Output {
        self.own_simd(SimdOperator::F32x4Le)
    }

    fn visit_f32x4_ge(&mut self) -> Self::Output {
        self.own_simd(SimdOperator::F32x4Ge)
    }

    fn visit_f64x2_eq(&mut self) -> Self::Output {
        self.own_simd(SimdOperator::F64x2Eq)
    }

    fn visit_f64x2_ne(&mut self) -> Self::Output {
        self.own_simd(SimdOperator::F64x2Ne)
    }

    fn visit_f64x2_lt(&mut self) -> Self::Output {
        self.own_simd(SimdOperator::F64x2Lt)
    }

    fn visit_f64x2_gt(&mut self) -> Self::Output {
        self.own_simd(SimdOperator::F64x2Gt)
    }

    fn visit_f64x2_le(&mut self) -> Self::Output {
        self.own_simd(SimdOperator::F64x2Le)
    }

    fn visit_f64x2_ge(&mut self) -> Self::Output {
        self.own_simd(SimdOperator::F64x2Ge)
    }

    fn visit_v128_not(&mut self) -> Self::Output {
        self.own_simd(SimdOperator::V128Not)
    }

    fn visit_v128_and(&mut self) -> Self::Output {
        self.own_simd(SimdOperator::V128And)
    }

    fn visit_v128_andnot(&mut self) -> Self::Output {
        self.own_simd(SimdOperator::V128AndNot)
    }

    fn visit_v128_or(&mut self) -> Self::Output {
        self.own_simd(SimdOperator::V128Or)
    }

    fn visit_v128_xor(&mut self) -> Self::Output {
        self.own_simd(SimdOperator::V128Xor)
    }

    fn visit_v128_bitselect(&mut self) -> Self::Output {
        self.own_simd(SimdOperator::V128Bitselect)
    }

    fn visit_v128_any_true(&mut self) -> Self::Output {
        self.own_simd(SimdOperator::V128AnyTrue)
    }

    fn visit_i8x16_abs(&mut self) -> Self::Output {
        self.own_simd(SimdOperator::I8x16Abs)
    }

    fn visit_i8x16_neg(&mut self) -> Self::Output {
        self.own_simd(SimdOperator::I8x16Neg)
    }

    fn visit_i8x16_popcnt(&mut self) -> Self::Output {
        self.own_simd(SimdOperator::I8x16Popcnt)
    }

    fn visit_i8x16_all_true(&mut self) -> Self::Output {
        self.own_simd(SimdOperator::I8x16AllTrue)
    }

    fn visit_i8x16_bitmask(&mut self) -> Self::Output {
        self.own_simd(SimdOperator::I8x16Bitmask)
    }

    fn visit_i8x16_narrow_i16x8_s(&mut self) -> Self::Output {
        self.own_simd(SimdOperator::I8x16NarrowI16x8S)
    }

    fn visit_i8x16_narrow_i16x8_u(&mut self) -> Self::Output {
        self.own_simd(SimdOperator::I8x16NarrowI16x8U)
    }

    fn visit_i8x16_shl(&mut self) -> Self::Output {
        self.own_simd(SimdOperator::I8x16Shl)
    }

    fn visit_i8x16_shr_s(&mut self) -> Self::Output {
        self.own_simd(SimdOperator::I8x16ShrS)
    }

    fn visit_i8x16_shr_u(&mut self) -> Self::Output {
        self.own_simd(SimdOperator::I8x16ShrU)
    }

    fn visit_i8x16_add(&mut self) -> Self::Output {
        self.own_simd(SimdOperator::I8x16Add)
    }

    fn visit_i8x16_add_sat_s(&mut self) -> Self::Output {
        self.own_simd(SimdOperator::I8x16AddSatS)
    }

    fn visit_i8x16_add_sat_u(&mut self) -> Self::Output {
        self.own_simd(SimdOperator::I8x16AddSatU)
    }

    fn visit_i8x16_sub(&mut self) -> Self::Output {
        self.own_simd(SimdOperator::I8x16Sub)
    }

    fn visit_i8x16_sub_sat_s(&mut self) -> Self::Output {
        self.own_simd(SimdOperator::I8x16SubSatS)
    }

    fn visit_i8x16_sub_sat_u(&mut self) -> Self::Output {
        self.own_simd(SimdOperator::I8x16SubSatU)
    }

    fn visit_i8x16_min_s(&mut self) -> Self::Output {
        self.own_simd(SimdOperator::I8x16MinS)
    }

    fn visit_i8x16_min_u(&mut self) -> Self::Output {
        self.own_simd(SimdOperator::I8x16MinU)
    }

    fn visit_i8x16_max_s(&mut self) -> Self::Output {
        self.own_simd(SimdOperator::I8x16MaxS)
    }

    fn visit_i8x16_max_u(&mut self) -> Self::Output {
        self.own_simd(SimdOperator::I8x16MaxU)
    }

    fn visit_i8x16_avgr_u(&mut self) -> Self::Output {
        self.own_simd(SimdOperator::I8x16AvgrU)
    }

    fn visit_i16x8_extadd_pairwise_i8x16_s(&mut self) -> Self::Output {
        self.own_simd(SimdOperator::I16x8ExtAddPairwiseI8x16S)
    }

    fn visit_i16x8_extadd_pairwise_i8x16_u(&mut self) -> Self::Output {
        self.own_simd(SimdOperator::I16x8ExtAddPairwiseI8x16U)
    }

    fn visit_i32x4_extadd_pairwise_i16x8_s(&mut self) -> Self::Output {
        self.own_simd(SimdOperator::I32x4ExtAddPairwiseI16x8S)
    }

    fn visit_i32x4_extadd_pairwise_i16x8_u(&mut self) -> Self::Output {
        self.own_simd(SimdOperator::I32x4ExtAddPairwiseI16x8U)
    }

    fn visit_f32x4_ceil(&mut self) -> Self::Output {
        self.own_simd(SimdOperator::F32x4Ceil)
    }

    fn visit_f32x4_floor(&mut self) -> Self::Output {
        self.own_simd(SimdOperator::F32x4Floor)
    }

    fn visit_f32x4_trunc(&mut self) -> Self::Output {
        self.own_simd(SimdOperator::F32x4Trunc)
    }

    fn visit_f32x4_nearest(&mut self) -> Self::Output {
        self.own_simd(SimdOperator::F32x4Nearest)
    }

    fn visit_f64x2_ceil(&mut self) -> Self::Output {
        self.own_simd(SimdOperator::F64x2Ceil)
    }

    fn visit_f64x2_floor(&mut self) -> Self::Output {
        self.own_simd(SimdOperator::F64x2Floor)
    }

    fn visit_f64x2_trunc(&mut self) -> Self::Output {
        self.own_simd(SimdOperator::F64x2Trunc)
    }

    fn visit_f32x4_demote_f64x2_zero(&mut self) -> Self::Output {
        self.own_simd(SimdOperator::F32x4DemoteF64x2Zero)
    }

    fn visit_f64x2_promote_low_f32x4(&mut self) -> Self::Output {
        self.own_simd(SimdOperator::F64x2PromoteLowF32x4)
    }
}
