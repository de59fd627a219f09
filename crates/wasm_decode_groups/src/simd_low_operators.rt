//! Decoding of SIMD operators below 0x80. Written by tools/lists.py from tools/operators.tsv.
ghost use Rattle.std.specs.Prelude.{◌≡◌, ◌<◌, [], ◌∷◌, Some};
ghost use Rattle.wasm_grammar.specs.declared.frame_kind.FrameKind.{FrameKind};
ghost use Rattle.wasm_imm.specs.Immediate.{is_one_lane, is_memory_argument};
ghost use Rattle.wasm_decode_opcodes.specs.Decoding.{DecodesAt, IsAfterCode};
ghost use Rattle.wasm_decode_opcodes.specs.Entries.{align_at};
ghost use Rattle.wasm_decode_groups.specs.Arms.{HasKindsAt};

use crate::arm::{At, Maker, Makes, SimdLow, arm};
use wasm_below::{BinaryReader, Result};
use wasm_decode_opcodes::PlainMemArg;
use wasm_imm::{MemArgKind, V128};
use wasm_instr_simd::SimdOperator;
use wasm_visit_groups::{ByAny, Own, VisitSimdLow, Visitor};

/// Reads the immediates of a SIMD operator below 0x80 and visits it.
#[inline(always)]
pub fn simd_low<V: VisitSimdLow>(
    v: &mut V,
    reader: &mut BinaryReader<'_>,
    start: usize,
    code: u32,
) -> Result<V::Output>
    requires after { IsAfterCode start (Some 0xfd) code reader.old }
    requires half { code < 0x80 }
    ensures { (frame : FrameKind) → DecodesAt V.visits frame start result reader.old reader.new v.old v.new }
{
    simd_low_by::<V, Own>(v, reader, start, code)
}

/// Reads the immediates of a SIMD operator below 0x80 and passes them to `R`.
#[inline(always)]
pub fn simd_low_by<V: Visitor, R: AtSimdLow<V>>(
    v: &mut V,
    reader: &mut BinaryReader<'_>,
    start: usize,
    code: u32,
) -> Result<V::Output>
    requires after { IsAfterCode start (Some 0xfd) code reader.old }
    requires half { code < 0x80 }
    ensures { (frame : FrameKind) → DecodesAt V.visits frame start result reader.old reader.new v.old v.new }
{
    match code {
        0x00..=0x0b => arm::<V, SimdLow, PlainMemArg, R>(
            v,
            reader,
            start,
            code,
            align_of_memory(code),
        ),
        0x5c..=0x5d => arm::<V, SimdLow, PlainMemArg, R>(
            v,
            reader,
            start,
            code,
            align_of_memory(code),
        ),
        0x54..=0x5b => arm::<V, SimdLow, (PlainMemArg, u8), R>(
            v,
            reader,
            start,
            code,
            align_of_memory_lane_index(code),
        ),
        0x0c => arm::<V, SimdLow, V128, R>(v, reader, start, 0x0c, 0),
        0x0d => arm::<V, SimdLow, [u8; 16], R>(v, reader, start, 0x0d, 0),
        0x15..=0x22 => arm::<V, SimdLow, u8, R>(v, reader, start, code, 0),
        _ => arm::<V, SimdLow, (), R>(v, reader, start, code, 0),
    }
}

/// A route for the SIMD operators below 0x80.
pub trait AtSimdLow<V: Visitor>: At<V, SimdLow, PlainMemArg>
    + At<V, SimdLow, (PlainMemArg, u8)>
    + At<V, SimdLow, V128>
    + At<V, SimdLow, [u8; 16]>
    + At<V, SimdLow, u8>
    + At<V, SimdLow, ()> {}

impl<V: VisitSimdLow> AtSimdLow<V> for Own {}

impl<V: Visitor> AtSimdLow<V> for ByAny {}

/// Returns the natural alignment as an exponent.
#[inline(always)]
fn align_of_memory(code: u32) -> u8
    requires { HasKindsAt (Some 0xfd) code (λ bound. is_memory_argument MemArgKind.Plain bound ∷ []) }
    ensures { result ≡ align_at (Some 0xfd) code }
{
    match code {
        0x00 => 4,
        0x01 => 3,
        0x02 => 3,
        0x03 => 3,
        0x04 => 3,
        0x05 => 3,
        0x06 => 3,
        0x07 => 0,
        0x08 => 1,
        0x09 => 2,
        0x0a => 3,
        0x0b => 4,
        0x5d => 3,
        _ => 2,
    }
}

impl Makes<SimdLow, PlainMemArg> for Maker {
    #[inline(always)]
    fn make(code: u32, it: PlainMemArg) -> SimdOperator {
        match code {
            0x00 => SimdOperator::V128Load { memarg: it.0 },
            0x01 => SimdOperator::V128Load8x8S { memarg: it.0 },
            0x02 => SimdOperator::V128Load8x8U { memarg: it.0 },
            0x03 => SimdOperator::V128Load16x4S { memarg: it.0 },
            0x04 => SimdOperator::V128Load16x4U { memarg: it.0 },
            0x05 => SimdOperator::V128Load32x2S { memarg: it.0 },
            0x06 => SimdOperator::V128Load32x2U { memarg: it.0 },
            0x07 => SimdOperator::V128Load8Splat { memarg: it.0 },
            0x08 => SimdOperator::V128Load16Splat { memarg: it.0 },
            0x09 => SimdOperator::V128Load32Splat { memarg: it.0 },
            0x0a => SimdOperator::V128Load64Splat { memarg: it.0 },
            0x0b => SimdOperator::V128Store { memarg: it.0 },
            0x5c => SimdOperator::V128Load32Zero { memarg: it.0 },
            _ => SimdOperator::V128Load64Zero { memarg: it.0 },
        }
    }
}

impl<V: VisitSimdLow> At<V, SimdLow, PlainMemArg> for Own {
    #[inline(always)]
    fn at(v: &mut V, code: u32, it: PlainMemArg) -> V::Output {
        match code {
            0x00 => v.visit_v128_load(it.0),
            0x01 => v.visit_v128_load8x8_s(it.0),
            0x02 => v.visit_v128_load8x8_u(it.0),
            0x03 => v.visit_v128_load16x4_s(it.0),
            0x04 => v.visit_v128_load16x4_u(it.0),
            0x05 => v.visit_v128_load32x2_s(it.0),
            0x06 => v.visit_v128_load32x2_u(it.0),
            0x07 => v.visit_v128_load8_splat(it.0),
            0x08 => v.visit_v128_load16_splat(it.0),
            0x09 => v.visit_v128_load32_splat(it.0),
            0x0a => v.visit_v128_load64_splat(it.0),
            0x0b => v.visit_v128_store(it.0),
            0x5c => v.visit_v128_load32_zero(it.0),
            _ => v.visit_v128_load64_zero(it.0),
        }
    }
}

/// Returns the natural alignment as an exponent.
#[inline(always)]
fn align_of_memory_lane_index(code: u32) -> u8
    requires { HasKindsAt (Some 0xfd) code (λ bound. is_memory_argument MemArgKind.Plain bound ∷ is_one_lane ∷ []) }
    ensures { result ≡ align_at (Some 0xfd) code }
{
    match code {
        0x54 => 0,
        0x55 => 1,
        0x56 => 2,
        0x57 => 3,
        0x58 => 0,
        0x59 => 1,
        0x5b => 3,
        _ => 2,
    }
}

impl Makes<SimdLow, (PlainMemArg, u8)> for Maker {
    #[inline(always)]
    fn make(code: u32, it: (PlainMemArg, u8)) -> SimdOperator {
        match code {
            0x54 => SimdOperator::V128Load8Lane {
                memarg: it.0.0,
                lane: it.1,
            },
            0x55 => SimdOperator::V128Load16Lane {
                memarg: it.0.0,
                lane: it.1,
            },
            0x56 => SimdOperator::V128Load32Lane {
                memarg: it.0.0,
                lane: it.1,
            },
            0x57 => SimdOperator::V128Load64Lane {
                memarg: it.0.0,
                lane: it.1,
            },
            0x58 => SimdOperator::V128Store8Lane {
                memarg: it.0.0,
                lane: it.1,
            },
            0x59 => SimdOperator::V128Store16Lane {
                memarg: it.0.0,
                lane: it.1,
            },
            0x5a => SimdOperator::V128Store32Lane {
                memarg: it.0.0,
                lane: it.1,
            },
            _ => SimdOperator::V128Store64Lane {
                memarg: it.0.0,
                lane: it.1,
            },
        }
    }
}

impl<V: VisitSimdLow> At<V, SimdLow, (PlainMemArg, u8)> for Own {
    #[inline(always)]
    fn at(v: &mut V, code: u32, it: (PlainMemArg, u8)) -> V::Output {
        match code {
            0x54 => v.visit_v128_load8_lane(it.0.0, it.1),
            0x55 => v.visit_v128_load16_lane(it.0.0, it.1),
            0x56 => v.visit_v128_load32_lane(it.0.0, it.1),
            0x57 => v.visit_v128_load64_lane(it.0.0, it.1),
            0x58 => v.visit_v128_store8_lane(it.0.0, it.1),
            0x59 => v.visit_v128_store16_lane(it.0.0, it.1),
            0x5a => v.visit_v128_store32_lane(it.0.0, it.1),
            _ => v.visit_v128_store64_lane(it.0.0, it.1),
        }
    }
}

impl Makes<SimdLow, V128> for Maker {
    #[inline(always)]
    fn make(_code: u32, it: V128) -> SimdOperator {
        SimdOperator::V128Const { value: it }
    }
}

impl<V: VisitSimdLow> At<V, SimdLow, V128> for Own {
    #[inline(always)]
    fn at(v: &mut V, _code: u32, it: V128) -> V::Output {
        v.visit_v128_const(it)
    }
}

impl Makes<SimdLow, [u8; 16]> for Maker {
    #[inline(always)]
    fn make(_code: u32, it: [u8; 16]) -> SimdOperator {
        SimdOperator::I8x16Shuffle { lanes: it }
    }
}

impl<V: VisitSimdLow> At<V, SimdLow, [u8; 16]> for Own {
    #[inline(always)]
    fn at(v: &mut V, _code: u32, it: [u8; 16]) -> V::Output {
        v.visit_i8x16_shuffle(it)
    }
}

impl Makes<SimdLow, u8> for Maker {
    #[inline(always)]
    fn make(code: u32, it: u8) -> SimdOperator {
        match code {
            0x15 => SimdOperator::I8x16ExtractLaneS { lane: it },
            0x16 => SimdOperator::I8x16ExtractLaneU { lane: it },
            0x17 => SimdOperator::I8x16ReplaceLane { lane: it },
            0x18 => SimdOperator::I16x8ExtractLaneS { lane: it },
            0x19 => SimdOperator::I16x8ExtractLaneU { lane: it },
            0x1a => SimdOperator::I16x8ReplaceLane { lane: it },
            0x1b => SimdOperator::I32x4ExtractLane { lane: it },
            0x1c => SimdOperator::I32x4ReplaceLane { lane: it },
            0x1d => SimdOperator::I64x2ExtractLane { lane: it },
            0x1e => SimdOperator::I64x2ReplaceLane { lane: it },
            0x1f => SimdOperator::F32x4ExtractLane { lane: it },
            0x20 => SimdOperator::F32x4ReplaceLane { lane: it },
            0x21 => SimdOperator::F64x2ExtractLane { lane: it },
            _ => SimdOperator::F64x2ReplaceLane { lane: it },
        }
    }
}

impl<V: VisitSimdLow> At<V, SimdLow, u8> for Own {
    #[inline(always)]
    fn at(v: &mut V, code: u32, it: u8) -> V::Output {
        match code {
            0x15 => v.visit_i8x16_extract_lane_s(it),
            0x16 => v.visit_i8x16_extract_lane_u(it),
            0x17 => v.visit_i8x16_replace_lane(it),
            0x18 => v.visit_i16x8_extract_lane_s(it),
            0x19 => v.visit_i16x8_extract_lane_u(it),
            0x1a => v.visit_i16x8_replace_lane(it),
            0x1b => v.visit_i32x4_extract_lane(it),
            0x1c => v.visit_i32x4_replace_lane(it),
            0x1d => v.visit_i64x2_extract_lane(it),
            0x1e => v.visit_i64x2_replace_lane(it),
            0x1f => v.visit_f32x4_extract_lane(it),
            0x20 => v.visit_f32x4_replace_lane(it),
            0x21 => v.visit_f64x2_extract_lane(it),
            _ => v.visit_f64x2_replace_lane(it),
        }
    }
}

impl Makes<SimdLow, ()> for Maker {
    #[inline(always)]
    fn make(code: u32, _it: ()) -> SimdOperator {
        match code {
            0x0e => SimdOperator::I8x16Swizzle,
            0x0f => SimdOperator::I8x16Splat,
            0x10 => SimdOperator::I16x8Splat,
            0x11 => SimdOperator::I32x4Splat,
            0x12 => SimdOperator::I64x2Splat,
            0x13 => SimdOperator::F32x4Splat,
            0x14 => SimdOperator::F64x2Splat,
            0x23 => SimdOperator::I8x16Eq,
            0x24 => SimdOperator::I8x16Ne,
            0x25 => SimdOperator::I8x16LtS,
            0x26 => SimdOperator::I8x16LtU,
            0x27 => SimdOperator::I8x16GtS,
            0x28 => SimdOperator::I8x16GtU,
            0x29 => SimdOperator::I8x16LeS,
            0x2a => SimdOperator::I8x16LeU,
            0x2b => SimdOperator::I8x16GeS,
            0x2c => SimdOperator::I8x16GeU,
            0x2d => SimdOperator::I16x8Eq,
            0x2e => SimdOperator::I16x8Ne,
            0x2f => SimdOperator::I16x8LtS,
            0x30 => SimdOperator::I16x8LtU,
            0x31 => SimdOperator::I16x8GtS,
            0x32 => SimdOperator::I16x8GtU,
            0x33 => SimdOperator::I16x8LeS,
            0x34 => SimdOperator::I16x8LeU,
            0x35 => SimdOperator::I16x8GeS,
            0x36 => SimdOperator::I16x8GeU,
            0x37 => SimdOperator::I32x4Eq,
            0x38 => SimdOperator::I32x4Ne,
            0x39 => SimdOperator::I32x4LtS,
            0x3a => SimdOperator::I32x4LtU,
            0x3b => SimdOperator::I32x4GtS,
            0x3c => SimdOperator::I32x4GtU,
            0x3d => SimdOperator::I32x4LeS,
            0x3e => SimdOperator::I32x4LeU,
            0x3f => SimdOperator::I32x4GeS,
            0x40 => SimdOperator::I32x4GeU,
            0x41 => SimdOperator::F32x4Eq,
            0x42 => SimdOperator::F32x4Ne,
            0x43 => SimdOperator::F32x4Lt,
            0x44 => SimdOperator::F32x4Gt,
            0x45 => SimdOperator::F32x4Le,
            0x46 => SimdOperator::F32x4Ge,
            0x47 => SimdOperator::F64x2Eq,
            0x48 => SimdOperator::F64x2Ne,
            0x49 => SimdOperator::F64x2Lt,
            0x4a => SimdOperator::F64x2Gt,
            0x4b => SimdOperator::F64x2Le,
            0x4c => SimdOperator::F64x2Ge,
            0x4d => SimdOperator::V128Not,
            0x4e => SimdOperator::V128And,
            0x4f => SimdOperator::V128AndNot,
            0x50 => SimdOperator::V128Or,
            0x51 => SimdOperator::V128Xor,
            0x52 => SimdOperator::V128Bitselect,
            0x53 => SimdOperator::V128AnyTrue,
            0x5e => SimdOperator::F32x4DemoteF64x2Zero,
            0x5f => SimdOperator::F64x2PromoteLowF32x4,
            0x60 => SimdOperator::I8x16Abs,
            0x61 => SimdOperator::I8x16Neg,
            0x62 => SimdOperator::I8x16Popcnt,
            0x63 => SimdOperator::I8x16AllTrue,
            0x64 => SimdOperator::I8x16Bitmask,
            0x65 => SimdOperator::I8x16NarrowI16x8S,
            0x66 => SimdOperator::I8x16NarrowI16x8U,
            0x67 => SimdOperator::F32x4Ceil,
            0x68 => SimdOperator::F32x4Floor,
            0x69 => SimdOperator::F32x4Trunc,
            0x6a => SimdOperator::F32x4Nearest,
            0x6b => SimdOperator::I8x16Shl,
            0x6c => SimdOperator::I8x16ShrS,
            0x6d => SimdOperator::I8x16ShrU,
            0x6e => SimdOperator::I8x16Add,
            0x6f => SimdOperator::I8x16AddSatS,
            0x70 => SimdOperator::I8x16AddSatU,
            0x71 => SimdOperator::I8x16Sub,
            0x72 => SimdOperator::I8x16SubSatS,
            0x73 => SimdOperator::I8x16SubSatU,
            0x74 => SimdOperator::F64x2Ceil,
            0x75 => SimdOperator::F64x2Floor,
            0x76 => SimdOperator::I8x16MinS,
            0x77 => SimdOperator::I8x16MinU,
            0x78 => SimdOperator::I8x16MaxS,
            0x79 => SimdOperator::I8x16MaxU,
            0x7a => SimdOperator::F64x2Trunc,
            0x7b => SimdOperator::I8x16AvgrU,
            0x7c => SimdOperator::I16x8ExtAddPairwiseI8x16S,
            0x7d => SimdOperator::I16x8ExtAddPairwiseI8x16U,
            0x7e => SimdOperator::I32x4ExtAddPairwiseI16x8S,
            _ => SimdOperator::I32x4ExtAddPairwiseI16x8U,
        }
    }
}

impl<V: VisitSimdLow> At<V, SimdLow, ()> for Own {
    #[inline(always)]
    fn at(v: &mut V, code: u32, _it: ()) -> V::Output {
        match code {
            0x0e => v.visit_i8x16_swizzle(),
            0x0f => v.visit_i8x16_splat(),
            0x10 => v.visit_i16x8_splat(),
            0x11 => v.visit_i32x4_splat(),
            0x12 => v.visit_i64x2_splat(),
            0x13 => v.visit_f32x4_splat(),
            0x14 => v.visit_f64x2_splat(),
            0x23 => v.visit_i8x16_eq(),
            0x24 => v.visit_i8x16_ne(),
            0x25 => v.visit_i8x16_lt_s(),
            0x26 => v.visit_i8x16_lt_u(),
            0x27 => v.visit_i8x16_gt_s(),
            0x28 => v.visit_i8x16_gt_u(),
            0x29 => v.visit_i8x16_le_s(),
            0x2a => v.visit_i8x16_le_u(),
            0x2b => v.visit_i8x16_ge_s(),
            0x2c => v.visit_i8x16_ge_u(),
            0x2d => v.visit_i16x8_eq(),
            0x2e => v.visit_i16x8_ne(),
            0x2f => v.visit_i16x8_lt_s(),
            0x30 => v.visit_i16x8_lt_u(),
            0x31 => v.visit_i16x8_gt_s(),
            0x32 => v.visit_i16x8_gt_u(),
            0x33 => v.visit_i16x8_le_s(),
            0x34 => v.visit_i16x8_le_u(),
            0x35 => v.visit_i16x8_ge_s(),
            0x36 => v.visit_i16x8_ge_u(),
            0x37 => v.visit_i32x4_eq(),
            0x38 => v.visit_i32x4_ne(),
            0x39 => v.visit_i32x4_lt_s(),
            0x3a => v.visit_i32x4_lt_u(),
            0x3b => v.visit_i32x4_gt_s(),
            0x3c => v.visit_i32x4_gt_u(),
            0x3d => v.visit_i32x4_le_s(),
            0x3e => v.visit_i32x4_le_u(),
            0x3f => v.visit_i32x4_ge_s(),
            0x40 => v.visit_i32x4_ge_u(),
            0x41 => v.visit_f32x4_eq(),
            0x42 => v.visit_f32x4_ne(),
            0x43 => v.visit_f32x4_lt(),
            0x44 => v.visit_f32x4_gt(),
            0x45 => v.visit_f32x4_le(),
            0x46 => v.visit_f32x4_ge(),
            0x47 => v.visit_f64x2_eq(),
            0x48 => v.visit_f64x2_ne(),
            0x49 => v.visit_f64x2_lt(),
            0x4a => v.visit_f64x2_gt(),
            0x4b => v.visit_f64x2_le(),
            0x4c => v.visit_f64x2_ge(),
            0x4d => v.visit_v128_not(),
            0x4e => v.visit_v128_and(),
            0x4f => v.visit_v128_andnot(),
            0x50 => v.visit_v128_or(),
            0x51 => v.visit_v128_xor(),
            0x52 => v.visit_v128_bitselect(),
            0x53 => v.visit_v128_any_true(),
            0x5e => v.visit_f32x4_demote_f64x2_zero(),
            0x5f => v.visit_f64x2_promote_low_f32x4(),
            0x60 => v.visit_i8x16_abs(),
            0x61 => v.visit_i8x16_neg(),
            0x62 => v.visit_i8x16_popcnt(),
            0x63 => v.visit_i8x16_all_true(),
            0x64 => v.visit_i8x16_bitmask(),
            0x65 => v.visit_i8x16_narrow_i16x8_s(),
            0x66 => v.visit_i8x16_narrow_i16x8_u(),
            0x67 => v.visit_f32x4_ceil(),
            0x68 => v.visit_f32x4_floor(),
            0x69 => v.visit_f32x4_trunc(),
            0x6a => v.visit_f32x4_nearest(),
            0x6b => v.visit_i8x16_shl(),
            0x6c => v.visit_i8x16_shr_s(),
            0x6d => v.visit_i8x16_shr_u(),
            0x6e => v.visit_i8x16_add(),
            0x6f => v.visit_i8x16_add_sat_s(),
            0x70 => v.visit_i8x16_add_sat_u(),
            0x71 => v.visit_i8x16_sub(),
            0x72 => v.visit_i8x16_sub_sat_s(),
            0x73 => v.visit_i8x16_sub_sat_u(),
            0x74 => v.visit_f64x2_ceil(),
            0x75 => v.visit_f64x2_floor(),
            0x76 => v.visit_i8x16_min_s(),
            0x77 => v.visit_i8x16_min_u(),
            0x78 => v.visit_i8x16_max_s(),
            0x79 => v.visit_i8x16_max_u(),
            0x7a => v.visit_f64x2_trunc(),
            0x7b => v.visit_i8x16_avgr_u(),
            0x7c => v.visit_i16x8_extadd_pairwise_i8x16_s(),
            0x7d => v.visit_i16x8_extadd_pairwise_i8x16_u(),
            0x7e => v.visit_i32x4_extadd_pairwise_i16x8_s(),
            _ => v.visit_i32x4_extadd_pairwise_i16x8_u(),
        }
    }
}
