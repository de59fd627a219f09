//! Written by tools/lists.py from tools/operators.tsv.
ghost use Rattle.std.specs.Prelude.{◌+◌, ◌≤◌, vec_len, vec_capacity};
ghost use Rattle.wasm_instr_simd.specs.Simd.{simd_immediates};
ghost use Rattle.wasm_encode_immediates.specs.Written.{WritesImmediates};

use wasm_below::WasmFeatures;
use wasm_decode_opcodes::PlainMemArg;
use wasm_encode_immediates::{Unwritable, Writes};
use wasm_instr_simd::SimdOperator;

/// Appends the immediates of a `SimdOperator`: at most 23 bytes.
pub fn write_simd(
    out: &mut Vec<u8>,
    features: WasmFeatures,
    op: SimdOperator,
) -> Result<(), Unwritable>
    requires { vec_len out.old + 23 ≤ vec_capacity out.old }
    ensures { WritesImmediates features (simd_immediates op) result out.old out.new }
{
    match op {
        SimdOperator::V128Load { memarg: a } | SimdOperator::V128Store { memarg: a } => PlainMemArg(
            a,
        ).write(out, features, 4),
        SimdOperator::V128Load8x8S { memarg: a }
        | SimdOperator::V128Load8x8U { memarg: a }
        | SimdOperator::V128Load16x4S { memarg: a }
        | SimdOperator::V128Load16x4U { memarg: a }
        | SimdOperator::V128Load32x2S { memarg: a }
        | SimdOperator::V128Load32x2U { memarg: a }
        | SimdOperator::V128Load64Splat { memarg: a }
        | SimdOperator::V128Load64Zero { memarg: a } => PlainMemArg(a).write(out, features, 3),
        SimdOperator::V128Load8Splat { memarg: a } => PlainMemArg(a).write(out, features, 0),
        SimdOperator::V128Load16Splat { memarg: a } => PlainMemArg(a).write(out, features, 1),
        SimdOperator::V128Load32Splat { memarg: a } | SimdOperator::V128Load32Zero { memarg: a } =>
            PlainMemArg(a).write(out, features, 2),
        SimdOperator::V128Load8Lane { memarg: a, lane: b }
        | SimdOperator::V128Store8Lane { memarg: a, lane: b } => (PlainMemArg(a), b).write(
            out, features, 0,
        ),
        SimdOperator::V128Load16Lane { memarg: a, lane: b }
        | SimdOperator::V128Store16Lane { memarg: a, lane: b } => (PlainMemArg(a), b).write(
            out, features, 1,
        ),
        SimdOperator::V128Load32Lane { memarg: a, lane: b }
        | SimdOperator::V128Store32Lane { memarg: a, lane: b } => (PlainMemArg(a), b).write(
            out, features, 2,
        ),
        SimdOperator::V128Load64Lane { memarg: a, lane: b }
        | SimdOperator::V128Store64Lane { memarg: a, lane: b } => (PlainMemArg(a), b).write(
            out, features, 3,
        ),
        SimdOperator::V128Const { value: a } => a.write(out, features, 0),
        SimdOperator::I8x16Shuffle { lanes: a } => a.write(out, features, 0),
        SimdOperator::I8x16ExtractLaneS { lane: a }
        | SimdOperator::I8x16ExtractLaneU { lane: a }
        | SimdOperator::I8x16ReplaceLane { lane: a }
        | SimdOperator::I16x8ExtractLaneS { lane: a }
        | SimdOperator::I16x8ExtractLaneU { lane: a }
        | SimdOperator::I16x8ReplaceLane { lane: a }
        | SimdOperator::I32x4ExtractLane { lane: a }
        | SimdOperator::I32x4ReplaceLane { lane: a }
        | SimdOperator::I64x2ExtractLane { lane: a }
        | SimdOperator::I64x2ReplaceLane { lane: a }
        | SimdOperator::F32x4ExtractLane { lane: a }
        | SimdOperator::F32x4ReplaceLane { lane: a }
        | SimdOperator::F64x2ExtractLane { lane: a }
        | SimdOperator::F64x2ReplaceLane { lane: a } => a.write(out, features, 0),
        SimdOperator::I8x16Swizzle
        | SimdOperator::I8x16Splat
        | SimdOperator::I16x8Splat
        | SimdOperator::I32x4Splat
        | SimdOperator::I64x2Splat
        | SimdOperator::F32x4Splat
        | SimdOperator::F64x2Splat
        | SimdOperator::I8x16Eq
        | SimdOperator::I8x16Ne
        | SimdOperator::I8x16LtS
        | SimdOperator::I8x16LtU
        | SimdOperator::I8x16GtS
        | SimdOperator::I8x16GtU
        | SimdOperator::I8x16LeS
        | SimdOperator::I8x16LeU
        | SimdOperator::I8x16GeS
        | SimdOperator::I8x16GeU
        | SimdOperator::I16x8Eq
        | SimdOperator::I16x8Ne
        | SimdOperator::I16x8LtS
        | SimdOperator::I16x8LtU
        | SimdOperator::I16x8GtS
        | SimdOperator::I16x8GtU
        | SimdOperator::I16x8LeS
        | SimdOperator::I16x8LeU
        | SimdOperator::I16x8GeS
        | SimdOperator::I16x8GeU
        | SimdOperator::I32x4Eq
        | SimdOperator::I32x4Ne
        | SimdOperator::I32x4LtS
        | SimdOperator::I32x4LtU
        | SimdOperator::I32x4GtS
        | SimdOperator::I32x4GtU
        | SimdOperator::I32x4LeS
        | SimdOperator::I32x4LeU
        | SimdOperator::I32x4GeS
        | SimdOperator::I32x4GeU
        | SimdOperator::I64x2Eq
        | SimdOperator::I64x2Ne
        | SimdOperator::I64x2LtS
        | SimdOperator::I64x2GtS
        | SimdOperator::I64x2LeS
        | SimdOperator::I64x2GeS
        | SimdOperator::F32x4Eq
        | SimdOperator::F32x4Ne
        | SimdOperator::F32x4Lt
        | SimdOperator::F32x4Gt
        | SimdOperator::F32x4Le
        | SimdOperator::F32x4Ge
        | SimdOperator::F64x2Eq
        | SimdOperator::F64x2Ne
        | SimdOperator::F64x2Lt
        | SimdOperator::F64x2Gt
        | SimdOperator::F64x2Le
        | SimdOperator::F64x2Ge
        | SimdOperator::V128Not
        | SimdOperator::V128And
        | SimdOperator::V128AndNot
        | SimdOperator::V128Or
        | SimdOperator::V128Xor
        | SimdOperator::V128Bitselect
        | SimdOperator::V128AnyTrue
        | SimdOperator::I8x16Abs
        | SimdOperator::I8x16Neg
        | SimdOperator::I8x16Popcnt
        | SimdOperator::I8x16AllTrue
        | SimdOperator::I8x16Bitmask
        | SimdOperator::I8x16NarrowI16x8S
        | SimdOperator::I8x16NarrowI16x8U
        | SimdOperator::I8x16Shl
        | SimdOperator::I8x16ShrS
        | SimdOperator::I8x16ShrU
        | SimdOperator::I8x16Add
        | SimdOperator::I8x16AddSatS
        | SimdOperator::I8x16AddSatU
        | SimdOperator::I8x16Sub
        | SimdOperator::I8x16SubSatS
        | SimdOperator::I8x16SubSatU
        | SimdOperator::I8x16MinS
        | SimdOperator::I8x16MinU
        | SimdOperator::I8x16MaxS
        | SimdOperator::I8x16MaxU
        | SimdOperator::I8x16AvgrU
        | SimdOperator::I16x8ExtAddPairwiseI8x16S
        | SimdOperator::I16x8ExtAddPairwiseI8x16U
        | SimdOperator::I16x8Abs
        | SimdOperator::I16x8Neg
        | SimdOperator::I16x8Q15MulrSatS
        | SimdOperator::I16x8AllTrue
        | SimdOperator::I16x8Bitmask
        | SimdOperator::I16x8NarrowI32x4S
        | SimdOperator::I16x8NarrowI32x4U
        | SimdOperator::I16x8ExtendLowI8x16S
        | SimdOperator::I16x8ExtendHighI8x16S
        | SimdOperator::I16x8ExtendLowI8x16U
        | SimdOperator::I16x8ExtendHighI8x16U
        | SimdOperator::I16x8Shl
        | SimdOperator::I16x8ShrS
        | SimdOperator::I16x8ShrU
        | SimdOperator::I16x8Add
        | SimdOperator::I16x8AddSatS
        | SimdOperator::I16x8AddSatU
        | SimdOperator::I16x8Sub
        | SimdOperator::I16x8SubSatS
        | SimdOperator::I16x8SubSatU
        | SimdOperator::I16x8Mul
        | SimdOperator::I16x8MinS
        | SimdOperator::I16x8MinU
        | SimdOperator::I16x8MaxS
        | SimdOperator::I16x8MaxU
        | SimdOperator::I16x8AvgrU
        | SimdOperator::I16x8ExtMulLowI8x16S
        | SimdOperator::I16x8ExtMulHighI8x16S
        | SimdOperator::I16x8ExtMulLowI8x16U
        | SimdOperator::I16x8ExtMulHighI8x16U
        | SimdOperator::I32x4ExtAddPairwiseI16x8S
        | SimdOperator::I32x4ExtAddPairwiseI16x8U
        | SimdOperator::I32x4Abs
        | SimdOperator::I32x4Neg
        | SimdOperator::I32x4AllTrue
        | SimdOperator::I32x4Bitmask
        | SimdOperator::I32x4ExtendLowI16x8S
        | SimdOperator::I32x4ExtendHighI16x8S
        | SimdOperator::I32x4ExtendLowI16x8U
        | SimdOperator::I32x4ExtendHighI16x8U
        | SimdOperator::I32x4Shl
        | SimdOperator::I32x4ShrS
        | SimdOperator::I32x4ShrU
        | SimdOperator::I32x4Add
        | SimdOperator::I32x4Sub
        | SimdOperator::I32x4Mul
        | SimdOperator::I32x4MinS
        | SimdOperator::I32x4MinU
        | SimdOperator::I32x4MaxS
        | SimdOperator::I32x4MaxU
        | SimdOperator::I32x4DotI16x8S
        | SimdOperator::I32x4ExtMulLowI16x8S
        | SimdOperator::I32x4ExtMulHighI16x8S
        | SimdOperator::I32x4ExtMulLowI16x8U
        | SimdOperator::I32x4ExtMulHighI16x8U
        | SimdOperator::I64x2Abs
        | SimdOperator::I64x2Neg
        | SimdOperator::I64x2AllTrue
        | SimdOperator::I64x2Bitmask
        | SimdOperator::I64x2ExtendLowI32x4S
        | SimdOperator::I64x2ExtendHighI32x4S
        | SimdOperator::I64x2ExtendLowI32x4U
        | SimdOperator::I64x2ExtendHighI32x4U
        | SimdOperator::I64x2Shl
        | SimdOperator::I64x2ShrS
        | SimdOperator::I64x2ShrU
        | SimdOperator::I64x2Add
        | SimdOperator::I64x2Sub
        | SimdOperator::I64x2Mul
        | SimdOperator::I64x2ExtMulLowI32x4S
        | SimdOperator::I64x2ExtMulHighI32x4S
        | SimdOperator::I64x2ExtMulLowI32x4U
        | SimdOperator::I64x2ExtMulHighI32x4U
        | SimdOperator::F32x4Ceil
        | SimdOperator::F32x4Floor
        | SimdOperator::F32x4Trunc
        | SimdOperator::F32x4Nearest
        | SimdOperator::F32x4Abs
        | SimdOperator::F32x4Neg
        | SimdOperator::F32x4Sqrt
        | SimdOperator::F32x4Add
        | SimdOperator::F32x4Sub
        | SimdOperator::F32x4Mul
        | SimdOperator::F32x4Div
        | SimdOperator::F32x4Min
        | SimdOperator::F32x4Max
        | SimdOperator::F32x4PMin
        | SimdOperator::F32x4PMax
        | SimdOperator::F64x2Ceil
        | SimdOperator::F64x2Floor
        | SimdOperator::F64x2Trunc
        | SimdOperator::F64x2Nearest
        | SimdOperator::F64x2Abs
        | SimdOperator::F64x2Neg
        | SimdOperator::F64x2Sqrt
        | SimdOperator::F64x2Add
        | SimdOperator::F64x2Sub
        | SimdOperator::F64x2Mul
        | SimdOperator::F64x2Div
        | SimdOperator::F64x2Min
        | SimdOperator::F64x2Max
        | SimdOperator::F64x2PMin
        | SimdOperator::F64x2PMax
        | SimdOperator::I32x4TruncSatF32x4S
        | SimdOperator::I32x4TruncSatF32x4U
        | SimdOperator::F32x4ConvertI32x4S
        | SimdOperator::F32x4ConvertI32x4U
        | SimdOperator::I32x4TruncSatF64x2SZero
        | SimdOperator::I32x4TruncSatF64x2UZero
        | SimdOperator::F64x2ConvertLowI32x4S
        | SimdOperator::F64x2ConvertLowI32x4U
        | SimdOperator::F32x4DemoteF64x2Zero
        | SimdOperator::F64x2PromoteLowF32x4
        | SimdOperator::I8x16RelaxedSwizzle
        | SimdOperator::I32x4RelaxedTruncF32x4S
        | SimdOperator::I32x4RelaxedTruncF32x4U
        | SimdOperator::I32x4RelaxedTruncF64x2SZero
        | SimdOperator::I32x4RelaxedTruncF64x2UZero
        | SimdOperator::F32x4RelaxedMadd
        | SimdOperator::F32x4RelaxedNmadd
        | SimdOperator::F64x2RelaxedMadd
        | SimdOperator::F64x2RelaxedNmadd
        | SimdOperator::I8x16RelaxedLaneselect
        | SimdOperator::I16x8RelaxedLaneselect
        | SimdOperator::I32x4RelaxedLaneselect
        | SimdOperator::I64x2RelaxedLaneselect
        | SimdOperator::F32x4RelaxedMin
        | SimdOperator::F32x4RelaxedMax
        | SimdOperator::F64x2RelaxedMin
        | SimdOperator::F64x2RelaxedMax
        | SimdOperator::I16x8RelaxedQ15mulrS
        | SimdOperator::I16x8RelaxedDotI8x16I7x16S
        | SimdOperator::I32x4RelaxedDotI8x16I7x16AddS => Ok(()),
    }
}
