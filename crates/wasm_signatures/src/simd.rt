//! Written by tools/lists.py from tools/operators.tsv.
ghost use Rattle.std.specs.Prelude.{◌≡◌};
ghost use Rattle.wasm_signatures.specs.Simd.{simd_type};
ghost use Rattle.wasm_signatures.specs.Types.{type_of};

use crate::operand_type::OperandType;
use crate::signature::Signature;
use wasm_instr_simd::SimdOperator;

/// Returns the types of an operator with the prefix byte 0xfd.
pub fn simd_signature(op: &SimdOperator) -> Signature<'static>
    ensures { type_of result ≡ simd_type op.now }
{
    match op {
        SimdOperator::V128Load { .. }
        | SimdOperator::V128Load8x8S { .. }
        | SimdOperator::V128Load8x8U { .. }
        | SimdOperator::V128Load16x4S { .. }
        | SimdOperator::V128Load16x4U { .. }
        | SimdOperator::V128Load32x2S { .. }
        | SimdOperator::V128Load32x2U { .. }
        | SimdOperator::V128Load8Splat { .. }
        | SimdOperator::V128Load16Splat { .. }
        | SimdOperator::V128Load32Splat { .. }
        | SimdOperator::V128Load64Splat { .. }
        | SimdOperator::V128Load32Zero { .. }
        | SimdOperator::V128Load64Zero { .. } => Signature {
            takes: &[OperandType::Address],
            leaves: &[OperandType::V128],
        },
        SimdOperator::V128Store { .. }
        | SimdOperator::V128Store8Lane { .. }
        | SimdOperator::V128Store16Lane { .. }
        | SimdOperator::V128Store32Lane { .. }
        | SimdOperator::V128Store64Lane { .. } => Signature {
            takes: &[OperandType::Address, OperandType::V128],
            leaves: &[],
        },
        SimdOperator::V128Load8Lane { .. }
        | SimdOperator::V128Load16Lane { .. }
        | SimdOperator::V128Load32Lane { .. }
        | SimdOperator::V128Load64Lane { .. } => Signature {
            takes: &[OperandType::Address, OperandType::V128],
            leaves: &[OperandType::V128],
        },
        SimdOperator::V128Const { .. } => Signature {
            takes: &[],
            leaves: &[OperandType::V128],
        },
        SimdOperator::I8x16Shuffle { .. }
        | SimdOperator::I8x16Swizzle
        | SimdOperator::I8x16Eq
        | SimdOperator::I8x16Ne
        | SimdOperator::I8x16LtS
        | SimdOperator::I8x16LtU
        | SimdOperator::I8x16GtS
        | SimdOperator::I8x16GtU
        | SimdOperator::I8x16LeS
        | SimdOperator::I8x16LeU
        | SimdOperator::I8x16GeS
        | SimdOperator::I8x16GeU
        | SimdOperator::I16x8Eq
        | SimdOperator::I16x8Ne
        | SimdOperator::I16x8LtS
        | SimdOperator::I16x8LtU
        | SimdOperator::I16x8GtS
        | SimdOperator::I16x8GtU
        | SimdOperator::I16x8LeS
        | SimdOperator::I16x8LeU
        | SimdOperator::I16x8GeS
        | SimdOperator::I16x8GeU
        | SimdOperator::I32x4Eq
        | SimdOperator::I32x4Ne
        | SimdOperator::I32x4LtS
        | SimdOperator::I32x4LtU
        | SimdOperator::I32x4GtS
        | SimdOperator::I32x4GtU
        | SimdOperator::I32x4LeS
        | SimdOperator::I32x4LeU
        | SimdOperator::I32x4GeS
        | SimdOperator::I32x4GeU
        | SimdOperator::I64x2Eq
        | SimdOperator::I64x2Ne
        | SimdOperator::I64x2LtS
        | SimdOperator::I64x2GtS
        | SimdOperator::I64x2LeS
        | SimdOperator::I64x2GeS
        | SimdOperator::F32x4Eq
        | SimdOperator::F32x4Ne
        | SimdOperator::F32x4Lt
        | SimdOperator::F32x4Gt
        | SimdOperator::F32x4Le
        | SimdOperator::F32x4Ge
        | SimdOperator::F64x2Eq
        | SimdOperator::F64x2Ne
        | SimdOperator::F64x2Lt
        | SimdOperator::F64x2Gt
        | SimdOperator::F64x2Le
        | SimdOperator::F64x2Ge
        | SimdOperator::V128And
        | SimdOperator::V128AndNot
        | SimdOperator::V128Or
        | SimdOperator::V128Xor
        | SimdOperator::I8x16NarrowI16x8S
        | SimdOperator::I8x16NarrowI16x8U
        | SimdOperator::I8x16Add
        | SimdOperator::I8x16AddSatS
        | SimdOperator::I8x16AddSatU
        | SimdOperator::I8x16Sub
        | SimdOperator::I8x16SubSatS
        | SimdOperator::I8x16SubSatU
        | SimdOperator::I8x16MinS
        | SimdOperator::I8x16MinU
        | SimdOperator::I8x16MaxS
        | SimdOperator::I8x16MaxU
        | SimdOperator::I8x16AvgrU
        | SimdOperator::I16x8Q15MulrSatS
        | SimdOperator::I16x8NarrowI32x4S
        | SimdOperator::I16x8NarrowI32x4U
        | SimdOperator::I16x8Add
        | SimdOperator::I16x8AddSatS
        | SimdOperator::I16x8AddSatU
        | SimdOperator::I16x8Sub
        | SimdOperator::I16x8SubSatS
        | SimdOperator::I16x8SubSatU
        | SimdOperator::I16x8Mul
        | SimdOperator::I16x8MinS
        | SimdOperator::I16x8MinU
        | SimdOperator::I16x8MaxS
        | SimdOperator::I16x8MaxU
        | SimdOperator::I16x8AvgrU
        | SimdOperator::I16x8ExtMulLowI8x16S
        | SimdOperator::I16x8ExtMulHighI8x16S
        | SimdOperator::I16x8ExtMulLowI8x16U
        | SimdOperator::I16x8ExtMulHighI8x16U
        | SimdOperator::I32x4Add
        | SimdOperator::I32x4Sub
        | SimdOperator::I32x4Mul
        | SimdOperator::I32x4MinS
        | SimdOperator::I32x4MinU
        | SimdOperator::I32x4MaxS
        | SimdOperator::I32x4MaxU
        | SimdOperator::I32x4DotI16x8S
        | SimdOperator::I32x4ExtMulLowI16x8S
        | SimdOperator::I32x4ExtMulHighI16x8S
        | SimdOperator::I32x4ExtMulLowI16x8U
        | SimdOperator::I32x4ExtMulHighI16x8U
        | SimdOperator::I64x2Add
        | SimdOperator::I64x2Sub
        | SimdOperator::I64x2Mul
        | SimdOperator::I64x2ExtMulLowI32x4S
        | SimdOperator::I64x2ExtMulHighI32x4S
        | SimdOperator::I64x2ExtMulLowI32x4U
        | SimdOperator::I64x2ExtMulHighI32x4U
        | SimdOperator::F32x4Add
        | SimdOperator::F32x4Sub
        | SimdOperator::F32x4Mul
        | SimdOperator::F32x4Div
        | SimdOperator::F32x4Min
        | SimdOperator::F32x4Max
        | SimdOperator::F32x4PMin
        | SimdOperator::F32x4PMax
        | SimdOperator::F64x2Add
        | SimdOperator::F64x2Sub
        | SimdOperator::F64x2Mul
        | SimdOperator::F64x2Div
        | SimdOperator::F64x2Min
        | SimdOperator::F64x2Max
        | SimdOperator::F64x2PMin
        | SimdOperator::F64x2PMax
        | SimdOperator::I8x16RelaxedSwizzle
        | SimdOperator::F32x4RelaxedMin
        | SimdOperator::F32x4RelaxedMax
        | SimdOperator::F64x2RelaxedMin
        | SimdOperator::F64x2RelaxedMax
        | SimdOperator::I16x8RelaxedQ15mulrS
        | SimdOperator::I16x8RelaxedDotI8x16I7x16S => Signature {
            takes: &[OperandType::V128, OperandType::V128],
            leaves: &[OperandType::V128],
        },
        SimdOperator::I8x16ExtractLaneS { .. }
        | SimdOperator::I8x16ExtractLaneU { .. }
        | SimdOperator::I16x8ExtractLaneS { .. }
        | SimdOperator::I16x8ExtractLaneU { .. }
        | SimdOperator::I32x4ExtractLane { .. }
        | SimdOperator::V128AnyTrue
        | SimdOperator::I8x16AllTrue
        | SimdOperator::I8x16Bitmask
        | SimdOperator::I16x8AllTrue
        | SimdOperator::I16x8Bitmask
        | SimdOperator::I32x4AllTrue
        | SimdOperator::I32x4Bitmask
        | SimdOperator::I64x2AllTrue
        | SimdOperator::I64x2Bitmask => Signature {
            takes: &[OperandType::V128],
            leaves: &[OperandType::I32],
        },
        SimdOperator::I8x16ReplaceLane { .. }
        | SimdOperator::I16x8ReplaceLane { .. }
        | SimdOperator::I32x4ReplaceLane { .. }
        | SimdOperator::I8x16Shl
        | SimdOperator::I8x16ShrS
        | SimdOperator::I8x16ShrU
        | SimdOperator::I16x8Shl
        | SimdOperator::I16x8ShrS
        | SimdOperator::I16x8ShrU
        | SimdOperator::I32x4Shl
        | SimdOperator::I32x4ShrS
        | SimdOperator::I32x4ShrU
        | SimdOperator::I64x2Shl
        | SimdOperator::I64x2ShrS
        | SimdOperator::I64x2ShrU => Signature {
            takes: &[OperandType::V128, OperandType::I32],
            leaves: &[OperandType::V128],
        },
        SimdOperator::I64x2ExtractLane { .. } => Signature {
            takes: &[OperandType::V128],
            leaves: &[OperandType::I64],
        },
        SimdOperator::I64x2ReplaceLane { .. } => Signature {
            takes: &[OperandType::V128, OperandType::I64],
            leaves: &[OperandType::V128],
        },
        SimdOperator::F32x4ExtractLane { .. } => Signature {
            takes: &[OperandType::V128],
            leaves: &[OperandType::F32],
        },
        SimdOperator::F32x4ReplaceLane { .. } => Signature {
            takes: &[OperandType::V128, OperandType::F32],
            leaves: &[OperandType::V128],
        },
        SimdOperator::F64x2ExtractLane { .. } => Signature {
            takes: &[OperandType::V128],
            leaves: &[OperandType::F64],
        },
        SimdOperator::F64x2ReplaceLane { .. } => Signature {
            takes: &[OperandType::V128, OperandType::F64],
            leaves: &[OperandType::V128],
        },
        SimdOperator::I8x16Splat | SimdOperator::I16x8Splat | SimdOperator::I32x4Splat =>
            Signature {
                takes: &[OperandType::I32],
                leaves: &[OperandType::V128],
            },
        SimdOperator::I64x2Splat => Signature {
            takes: &[OperandType::I64],
            leaves: &[OperandType::V128],
        },
        SimdOperator::F32x4Splat => Signature {
            takes: &[OperandType::F32],
            leaves: &[OperandType::V128],
        },
        SimdOperator::F64x2Splat => Signature {
            takes: &[OperandType::F64],
            leaves: &[OperandType::V128],
        },
        SimdOperator::V128Not
        | SimdOperator::I8x16Abs
        | SimdOperator::I8x16Neg
        | SimdOperator::I8x16Popcnt
        | SimdOperator::I16x8ExtAddPairwiseI8x16S
        | SimdOperator::I16x8ExtAddPairwiseI8x16U
        | SimdOperator::I16x8Abs
        | SimdOperator::I16x8Neg
        | SimdOperator::I16x8ExtendLowI8x16S
        | SimdOperator::I16x8ExtendHighI8x16S
        | SimdOperator::I16x8ExtendLowI8x16U
        | SimdOperator::I16x8ExtendHighI8x16U
        | SimdOperator::I32x4ExtAddPairwiseI16x8S
        | SimdOperator::I32x4ExtAddPairwiseI16x8U
        | SimdOperator::I32x4Abs
        | SimdOperator::I32x4Neg
        | SimdOperator::I32x4ExtendLowI16x8S
        | SimdOperator::I32x4ExtendHighI16x8S
        | SimdOperator::I32x4ExtendLowI16x8U
        | SimdOperator::I32x4ExtendHighI16x8U
        | SimdOperator::I64x2Abs
        | SimdOperator::I64x2Neg
        | SimdOperator::I64x2ExtendLowI32x4S
        | SimdOperator::I64x2ExtendHighI32x4S
        | SimdOperator::I64x2ExtendLowI32x4U
        | SimdOperator::I64x2ExtendHighI32x4U
        | SimdOperator::F32x4Ceil
        | SimdOperator::F32x4Floor
        | SimdOperator::F32x4Trunc
        | SimdOperator::F32x4Nearest
        | SimdOperator::F32x4Abs
        | SimdOperator::F32x4Neg
        | SimdOperator::F32x4Sqrt
        | SimdOperator::F64x2Ceil
        | SimdOperator::F64x2Floor
        | SimdOperator::F64x2Trunc
        | SimdOperator::F64x2Nearest
        | SimdOperator::F64x2Abs
        | SimdOperator::F64x2Neg
        | SimdOperator::F64x2Sqrt
        | SimdOperator::I32x4TruncSatF32x4S
        | SimdOperator::I32x4TruncSatF32x4U
        | SimdOperator::F32x4ConvertI32x4S
        | SimdOperator::F32x4ConvertI32x4U
        | SimdOperator::I32x4TruncSatF64x2SZero
        | SimdOperator::I32x4TruncSatF64x2UZero
        | SimdOperator::F64x2ConvertLowI32x4S
        | SimdOperator::F64x2ConvertLowI32x4U
        | SimdOperator::F32x4DemoteF64x2Zero
        | SimdOperator::F64x2PromoteLowF32x4
        | SimdOperator::I32x4RelaxedTruncF32x4S
        | SimdOperator::I32x4RelaxedTruncF32x4U
        | SimdOperator::I32x4RelaxedTruncF64x2SZero
        | SimdOperator::I32x4RelaxedTruncF64x2UZero => Signature {
            takes: &[OperandType::V128],
            leaves: &[OperandType::V128],
        },
        SimdOperator::V128Bitselect
        | SimdOperator::F32x4RelaxedMadd
        | SimdOperator::F32x4RelaxedNmadd
        | SimdOperator::F64x2RelaxedMadd
        | SimdOperator::F64x2RelaxedNmadd
        | SimdOperator::I8x16RelaxedLaneselect
        | SimdOperator::I16x8RelaxedLaneselect
        | SimdOperator::I32x4RelaxedLaneselect
        | SimdOperator::I64x2RelaxedLaneselect
        | SimdOperator::I32x4RelaxedDotI8x16I7x16AddS => Signature {
            takes: &[OperandType::V128, OperandType::V128, OperandType::V128],
            leaves: &[OperandType::V128],
        },
    }
}
