//! Written by tools/lists.py from tools/operators.tsv.
ghost use Rattle.std.specs.Prelude.{◌≡◌};
ghost use Rattle.wasm_instr_ops.specs.Gc.{gc_immediates};
ghost use Rattle.wasm_instr_ops.specs.Misc.{misc_immediates};
ghost use Rattle.wasm_instr_simd.specs.Simd.{simd_immediates};
ghost use Rattle.wasm_instr_ops.specs.Atomic.{atomic_immediates};
ghost use Rattle.wasm_instr.specs.Row.{immediates_of};
ghost use Rattle.wasm_view.specs.View.{view};

use crate::shapes;
use crate::view::WasmOperator;
use wasm_instr::Operator;
use wasm_instr_ops::{AtomicOperator, GcOperator, MiscOperator};
use wasm_instr_simd::SimdOperator;

pub fn own(offset: u64, opcode: u32, op: &Operator<'_>) -> WasmOperator
    ensures { result ≡ view offset opcode (immediates_of op.now) }
{
    match op {
        Operator::Unreachable
        | Operator::Nop
        | Operator::Else
        | Operator::End
        | Operator::Return
        | Operator::Drop
        | Operator::Select
        | Operator::RefEq
        | Operator::RefIsNull
        | Operator::ThrowRef
        | Operator::CatchAll
        | Operator::RefAsNonNull => shapes::nothing(offset, opcode),
        Operator::Br { relative_depth: a }
        | Operator::BrIf { relative_depth: a }
        | Operator::Call { function_index: a }
        | Operator::LocalGet { local_index: a }
        | Operator::LocalSet { local_index: a }
        | Operator::LocalTee { local_index: a }
        | Operator::GlobalGet { global_index: a }
        | Operator::GlobalSet { global_index: a }
        | Operator::RefFunc { function_index: a }
        | Operator::TableGet { table: a }
        | Operator::TableSet { table: a }
        | Operator::ReturnCall { function_index: a }
        | Operator::Throw { tag_index: a }
        | Operator::Catch { tag_index: a }
        | Operator::Rethrow { relative_depth: a }
        | Operator::Delegate { relative_depth: a }
        | Operator::CallRef { type_index: a }
        | Operator::ReturnCallRef { type_index: a }
        | Operator::BrOnNull { relative_depth: a }
        | Operator::BrOnNonNull { relative_depth: a }
        | Operator::ContNew { cont_type_index: a }
        | Operator::Suspend { tag_index: a } => shapes::index(offset, opcode, *a),
        Operator::MemorySize { mem: a } | Operator::MemoryGrow { mem: a } => shapes::index(
            offset, opcode, *a,
        ),
        Operator::ReturnCallIndirect {
            type_index: a,
            table_index: b,
        }
        | Operator::ContBind {
            argument_index: a,
            result_index: b,
        }
        | Operator::Switch {
            cont_type_index: a,
            tag_index: b,
        } => shapes::two_indices(offset, opcode, *a, *b),
        Operator::CallIndirect {
            type_index: a,
            table_index: b,
        } => shapes::two_indices(offset, opcode, *a, *b),
        Operator::I32Load { memarg: a }
        | Operator::I64Load { memarg: a }
        | Operator::F32Load { memarg: a }
        | Operator::F64Load { memarg: a }
        | Operator::I32Load8S { memarg: a }
        | Operator::I32Load8U { memarg: a }
        | Operator::I32Load16S { memarg: a }
        | Operator::I32Load16U { memarg: a }
        | Operator::I64Load8S { memarg: a }
        | Operator::I64Load8U { memarg: a }
        | Operator::I64Load16S { memarg: a }
        | Operator::I64Load16U { memarg: a }
        | Operator::I64Load32S { memarg: a }
        | Operator::I64Load32U { memarg: a }
        | Operator::I32Store { memarg: a }
        | Operator::I64Store { memarg: a }
        | Operator::F32Store { memarg: a }
        | Operator::F64Store { memarg: a }
        | Operator::I32Store8 { memarg: a }
        | Operator::I32Store16 { memarg: a }
        | Operator::I64Store8 { memarg: a }
        | Operator::I64Store16 { memarg: a }
        | Operator::I64Store32 { memarg: a } => shapes::memory(offset, opcode, *a),
        Operator::I32Const { value: a } => shapes::integer_32(offset, opcode, *a),
        Operator::I64Const { value: a } => shapes::integer_64(offset, opcode, *a),
        Operator::F32Const { value: a } => shapes::float_32(offset, opcode, *a),
        Operator::F64Const { value: a } => shapes::float_64(offset, opcode, *a),
        Operator::RefNull { hty: a } => shapes::heap(offset, opcode, *a),
        Operator::Block { blockty: a }
        | Operator::Loop { blockty: a }
        | Operator::If { blockty: a }
        | Operator::Try { blockty: a } => shapes::block(offset, opcode, a),
        Operator::BrTable { targets: a } => shapes::table(offset, opcode, a),
        Operator::TypedSelect { ty: a } => shapes::select_one(offset, opcode, a),
        Operator::TypedSelectMulti { tys: a } => shapes::select_many(offset, opcode, a),
        Operator::TryTable { try_table: a } => shapes::try_table(offset, opcode, a),
        Operator::Resume {
            cont_type_index: a,
            resume_table: b,
        }
        | Operator::ResumeThrowRef {
            cont_type_index: a,
            resume_table: b,
        } => shapes::resume(offset, opcode, *a, b),
        Operator::ResumeThrow {
            cont_type_index: a,
            tag_index: b,
            resume_table: c,
        } => shapes::resume_throw(offset, opcode, *a, *b, c),
        Operator::Numeric(_) => shapes::nothing(offset, opcode),
        Operator::Gc(op) => gc(offset, opcode, *op),
        Operator::Misc(op) => misc(offset, opcode, *op),
        Operator::Simd(op) => simd(offset, opcode, *op),
        Operator::Atomic(op) => atomic(offset, opcode, *op),
    }
}

fn gc(offset: u64, opcode: u32, op: GcOperator) -> WasmOperator
    ensures { result ≡ view offset opcode (gc_immediates op) }
{
    match op {
        GcOperator::ArrayLen
        | GcOperator::AnyConvertExtern
        | GcOperator::ExternConvertAny
        | GcOperator::RefI31
        | GcOperator::I31GetS
        | GcOperator::I31GetU => shapes::nothing(offset, opcode),
        GcOperator::StructNew {
            struct_type_index: a,
        }
        | GcOperator::StructNewDefault {
            struct_type_index: a,
        }
        | GcOperator::ArrayNew {
            array_type_index: a,
        }
        | GcOperator::ArrayNewDefault {
            array_type_index: a,
        }
        | GcOperator::ArrayGet {
            array_type_index: a,
        }
        | GcOperator::ArrayGetS {
            array_type_index: a,
        }
        | GcOperator::ArrayGetU {
            array_type_index: a,
        }
        | GcOperator::ArraySet {
            array_type_index: a,
        }
        | GcOperator::ArrayFill {
            array_type_index: a,
        }
        | GcOperator::StructNewDesc {
            struct_type_index: a,
        }
        | GcOperator::StructNewDefaultDesc {
            struct_type_index: a,
        }
        | GcOperator::RefGetDesc { type_index: a } => shapes::index(offset, opcode, a),
        GcOperator::StructGet {
            struct_type_index: a,
            field_index: b,
        }
        | GcOperator::StructGetS {
            struct_type_index: a,
            field_index: b,
        }
        | GcOperator::StructGetU {
            struct_type_index: a,
            field_index: b,
        }
        | GcOperator::StructSet {
            struct_type_index: a,
            field_index: b,
        }
        | GcOperator::ArrayNewFixed {
            array_type_index: a,
            array_size: b,
        }
        | GcOperator::ArrayNewData {
            array_type_index: a,
            array_data_index: b,
        }
        | GcOperator::ArrayNewElem {
            array_type_index: a,
            array_elem_index: b,
        }
        | GcOperator::ArrayCopy {
            array_type_index_dst: a,
            array_type_index_src: b,
        }
        | GcOperator::ArrayInitData {
            array_type_index: a,
            array_data_index: b,
        }
        | GcOperator::ArrayInitElem {
            array_type_index: a,
            array_elem_index: b,
        } => shapes::two_indices(offset, opcode, a, b),
        GcOperator::RefTestNonNull { hty: a }
        | GcOperator::RefTestNullable { hty: a }
        | GcOperator::RefCastNonNull { hty: a }
        | GcOperator::RefCastNullable { hty: a }
        | GcOperator::RefCastDescEqNonNull { hty: a }
        | GcOperator::RefCastDescEqNullable { hty: a } => shapes::heap(offset, opcode, a),
        GcOperator::BrOnCast {
            relative_depth: a,
            from_ref_type: b,
            to_ref_type: c,
        }
        | GcOperator::BrOnCastFail {
            relative_depth: a,
            from_ref_type: b,
            to_ref_type: c,
        }
        | GcOperator::BrOnCastDescEq {
            relative_depth: a,
            from_ref_type: b,
            to_ref_type: c,
        }
        | GcOperator::BrOnCastDescEqFail {
            relative_depth: a,
            from_ref_type: b,
            to_ref_type: c,
        } => shapes::cast(offset, opcode, a, b, c),
    }
}

fn misc(offset: u64, opcode: u32, op: MiscOperator) -> WasmOperator
    ensures { result ≡ view offset opcode (misc_immediates op) }
{
    match op {
        MiscOperator::I32TruncSatF32S
        | MiscOperator::I32TruncSatF32U
        | MiscOperator::I32TruncSatF64S
        | MiscOperator::I32TruncSatF64U
        | MiscOperator::I64TruncSatF32S
        | MiscOperator::I64TruncSatF32U
        | MiscOperator::I64TruncSatF64S
        | MiscOperator::I64TruncSatF64U
        | MiscOperator::I64Add128
        | MiscOperator::I64Sub128
        | MiscOperator::I64MulWideS
        | MiscOperator::I64MulWideU => shapes::nothing(offset, opcode),
        MiscOperator::DataDrop { data_index: a }
        | MiscOperator::MemoryFill { mem: a }
        | MiscOperator::ElemDrop { elem_index: a }
        | MiscOperator::TableFill { table: a }
        | MiscOperator::TableGrow { table: a }
        | MiscOperator::TableSize { table: a }
        | MiscOperator::MemoryDiscard { mem: a } => shapes::index(offset, opcode, a),
        MiscOperator::MemoryInit {
            data_index: a,
            mem: b,
        }
        | MiscOperator::MemoryCopy {
            dst_mem: a,
            src_mem: b,
        }
        | MiscOperator::TableInit {
            elem_index: a,
            table: b,
        }
        | MiscOperator::TableCopy {
            dst_table: a,
            src_table: b,
        } => shapes::two_indices(offset, opcode, a, b),
    }
}

fn simd(offset: u64, opcode: u32, op: SimdOperator) -> WasmOperator
    ensures { result ≡ view offset opcode (simd_immediates op) }
{
    match op {
        SimdOperator::I8x16Swizzle
        | SimdOperator::I8x16Splat
        | SimdOperator::I16x8Splat
        | SimdOperator::I32x4Splat
        | SimdOperator::I64x2Splat
        | SimdOperator::F32x4Splat
        | SimdOperator::F64x2Splat
        | SimdOperator::I8x16Eq
        | SimdOperator::I8x16Ne
        | SimdOperator::I8x16LtS
        | SimdOperator::I8x16LtU
        | SimdOperator::I8x16GtS
        | SimdOperator::I8x16GtU
        | SimdOperator::I8x16LeS
        | SimdOperator::I8x16LeU
        | SimdOperator::I8x16GeS
        | SimdOperator::I8x16GeU
        | SimdOperator::I16x8Eq
        | SimdOperator::I16x8Ne
        | SimdOperator::I16x8LtS
        | SimdOperator::I16x8LtU
        | SimdOperator::I16x8GtS
        | SimdOperator::I16x8GtU
        | SimdOperator::I16x8LeS
        | SimdOperator::I16x8LeU
        | SimdOperator::I16x8GeS
        | SimdOperator::I16x8GeU
        | SimdOperator::I32x4Eq
        | SimdOperator::I32x4Ne
        | SimdOperator::I32x4LtS
        | SimdOperator::I32x4LtU
        | SimdOperator::I32x4GtS
        | SimdOperator::I32x4GtU
        | SimdOperator::I32x4LeS
        | SimdOperator::I32x4LeU
        | SimdOperator::I32x4GeS
        | SimdOperator::I32x4GeU
        | SimdOperator::I64x2Eq
        | SimdOperator::I64x2Ne
        | SimdOperator::I64x2LtS
        | SimdOperator::I64x2GtS
        | SimdOperator::I64x2LeS
        | SimdOperator::I64x2GeS
        | SimdOperator::F32x4Eq
        | SimdOperator::F32x4Ne
        | SimdOperator::F32x4Lt
        | SimdOperator::F32x4Gt
        | SimdOperator::F32x4Le
        | SimdOperator::F32x4Ge
        | SimdOperator::F64x2Eq
        | SimdOperator::F64x2Ne
        | SimdOperator::F64x2Lt
        | SimdOperator::F64x2Gt
        | SimdOperator::F64x2Le
        | SimdOperator::F64x2Ge
        | SimdOperator::V128Not
        | SimdOperator::V128And
        | SimdOperator::V128AndNot
        | SimdOperator::V128Or
        | SimdOperator::V128Xor
        | SimdOperator::V128Bitselect
        | SimdOperator::V128AnyTrue
        | SimdOperator::I8x16Abs
        | SimdOperator::I8x16Neg
        | SimdOperator::I8x16Popcnt
        | SimdOperator::I8x16AllTrue
        | SimdOperator::I8x16Bitmask
        | SimdOperator::I8x16NarrowI16x8S
        | SimdOperator::I8x16NarrowI16x8U
        | SimdOperator::I8x16Shl
        | SimdOperator::I8x16ShrS
        | SimdOperator::I8x16ShrU
        | SimdOperator::I8x16Add
        | SimdOperator::I8x16AddSatS
        | SimdOperator::I8x16AddSatU
        | SimdOperator::I8x16Sub
        | SimdOperator::I8x16SubSatS
        | SimdOperator::I8x16SubSatU
        | SimdOperator::I8x16MinS
        | SimdOperator::I8x16MinU
        | SimdOperator::I8x16MaxS
        | SimdOperator::I8x16MaxU
        | SimdOperator::I8x16AvgrU
        | SimdOperator::I16x8ExtAddPairwiseI8x16S
        | SimdOperator::I16x8ExtAddPairwiseI8x16U
        | SimdOperator::I16x8Abs
        | SimdOperator::I16x8Neg
        | SimdOperator::I16x8Q15MulrSatS
        | SimdOperator::I16x8AllTrue
        | SimdOperator::I16x8Bitmask
        | SimdOperator::I16x8NarrowI32x4S
        | SimdOperator::I16x8NarrowI32x4U
        | SimdOperator::I16x8ExtendLowI8x16S
        | SimdOperator::I16x8ExtendHighI8x16S
        | SimdOperator::I16x8ExtendLowI8x16U
        | SimdOperator::I16x8ExtendHighI8x16U
        | SimdOperator::I16x8Shl
        | SimdOperator::I16x8ShrS
        | SimdOperator::I16x8ShrU
        | SimdOperator::I16x8Add
        | SimdOperator::I16x8AddSatS
        | SimdOperator::I16x8AddSatU
        | SimdOperator::I16x8Sub
        | SimdOperator::I16x8SubSatS
        | SimdOperator::I16x8SubSatU
        | SimdOperator::I16x8Mul
        | SimdOperator::I16x8MinS
        | SimdOperator::I16x8MinU
        | SimdOperator::I16x8MaxS
        | SimdOperator::I16x8MaxU
        | SimdOperator::I16x8AvgrU
        | SimdOperator::I16x8ExtMulLowI8x16S
        | SimdOperator::I16x8ExtMulHighI8x16S
        | SimdOperator::I16x8ExtMulLowI8x16U
        | SimdOperator::I16x8ExtMulHighI8x16U
        | SimdOperator::I32x4ExtAddPairwiseI16x8S
        | SimdOperator::I32x4ExtAddPairwiseI16x8U
        | SimdOperator::I32x4Abs
        | SimdOperator::I32x4Neg
        | SimdOperator::I32x4AllTrue
        | SimdOperator::I32x4Bitmask
        | SimdOperator::I32x4ExtendLowI16x8S
        | SimdOperator::I32x4ExtendHighI16x8S
        | SimdOperator::I32x4ExtendLowI16x8U
        | SimdOperator::I32x4ExtendHighI16x8U
        | SimdOperator::I32x4Shl
        | SimdOperator::I32x4ShrS
        | SimdOperator::I32x4ShrU
        | SimdOperator::I32x4Add
        | SimdOperator::I32x4Sub
        | SimdOperator::I32x4Mul
        | SimdOperator::I32x4MinS
        | SimdOperator::I32x4MinU
        | SimdOperator::I32x4MaxS
        | SimdOperator::I32x4MaxU
        | SimdOperator::I32x4DotI16x8S
        | SimdOperator::I32x4ExtMulLowI16x8S
        | SimdOperator::I32x4ExtMulHighI16x8S
        | SimdOperator::I32x4ExtMulLowI16x8U
        | SimdOperator::I32x4ExtMulHighI16x8U
        | SimdOperator::I64x2Abs
        | SimdOperator::I64x2Neg
        | SimdOperator::I64x2AllTrue
        | SimdOperator::I64x2Bitmask
        | SimdOperator::I64x2ExtendLowI32x4S
        | SimdOperator::I64x2ExtendHighI32x4S
        | SimdOperator::I64x2ExtendLowI32x4U
        | SimdOperator::I64x2ExtendHighI32x4U
        | SimdOperator::I64x2Shl
        | SimdOperator::I64x2ShrS
        | SimdOperator::I64x2ShrU
        | SimdOperator::I64x2Add
        | SimdOperator::I64x2Sub
        | SimdOperator::I64x2Mul
        | SimdOperator::I64x2ExtMulLowI32x4S
        | SimdOperator::I64x2ExtMulHighI32x4S
        | SimdOperator::I64x2ExtMulLowI32x4U
        | SimdOperator::I64x2ExtMulHighI32x4U
        | SimdOperator::F32x4Ceil
        | SimdOperator::F32x4Floor
        | SimdOperator::F32x4Trunc
        | SimdOperator::F32x4Nearest
        | SimdOperator::F32x4Abs
        | SimdOperator::F32x4Neg
        | SimdOperator::F32x4Sqrt
        | SimdOperator::F32x4Add
        | SimdOperator::F32x4Sub
        | SimdOperator::F32x4Mul
        | SimdOperator::F32x4Div
        | SimdOperator::F32x4Min
        | SimdOperator::F32x4Max
        | SimdOperator::F32x4PMin
        | SimdOperator::F32x4PMax
        | SimdOperator::F64x2Ceil
        | SimdOperator::F64x2Floor
        | SimdOperator::F64x2Trunc
        | SimdOperator::F64x2Nearest
        | SimdOperator::F64x2Abs
        | SimdOperator::F64x2Neg
        | SimdOperator::F64x2Sqrt
        | SimdOperator::F64x2Add
        | SimdOperator::F64x2Sub
        | SimdOperator::F64x2Mul
        | SimdOperator::F64x2Div
        | SimdOperator::F64x2Min
        | SimdOperator::F64x2Max
        | SimdOperator::F64x2PMin
        | SimdOperator::F64x2PMax
        | SimdOperator::I32x4TruncSatF32x4S
        | SimdOperator::I32x4TruncSatF32x4U
        | SimdOperator::F32x4ConvertI32x4S
        | SimdOperator::F32x4ConvertI32x4U
        | SimdOperator::I32x4TruncSatF64x2SZero
        | SimdOperator::I32x4TruncSatF64x2UZero
        | SimdOperator::F64x2ConvertLowI32x4S
        | SimdOperator::F64x2ConvertLowI32x4U
        | SimdOperator::F32x4DemoteF64x2Zero
        | SimdOperator::F64x2PromoteLowF32x4
        | SimdOperator::I8x16RelaxedSwizzle
        | SimdOperator::I32x4RelaxedTruncF32x4S
        | SimdOperator::I32x4RelaxedTruncF32x4U
        | SimdOperator::I32x4RelaxedTruncF64x2SZero
        | SimdOperator::I32x4RelaxedTruncF64x2UZero
        | SimdOperator::F32x4RelaxedMadd
        | SimdOperator::F32x4RelaxedNmadd
        | SimdOperator::F64x2RelaxedMadd
        | SimdOperator::F64x2RelaxedNmadd
        | SimdOperator::I8x16RelaxedLaneselect
        | SimdOperator::I16x8RelaxedLaneselect
        | SimdOperator::I32x4RelaxedLaneselect
        | SimdOperator::I64x2RelaxedLaneselect
        | SimdOperator::F32x4RelaxedMin
        | SimdOperator::F32x4RelaxedMax
        | SimdOperator::F64x2RelaxedMin
        | SimdOperator::F64x2RelaxedMax
        | SimdOperator::I16x8RelaxedQ15mulrS
        | SimdOperator::I16x8RelaxedDotI8x16I7x16S
        | SimdOperator::I32x4RelaxedDotI8x16I7x16AddS => shapes::nothing(offset, opcode),
        SimdOperator::V128Load { memarg: a }
        | SimdOperator::V128Load8x8S { memarg: a }
        | SimdOperator::V128Load8x8U { memarg: a }
        | SimdOperator::V128Load16x4S { memarg: a }
        | SimdOperator::V128Load16x4U { memarg: a }
        | SimdOperator::V128Load32x2S { memarg: a }
        | SimdOperator::V128Load32x2U { memarg: a }
        | SimdOperator::V128Load8Splat { memarg: a }
        | SimdOperator::V128Load16Splat { memarg: a }
        | SimdOperator::V128Load32Splat { memarg: a }
        | SimdOperator::V128Load64Splat { memarg: a }
        | SimdOperator::V128Load32Zero { memarg: a }
        | SimdOperator::V128Load64Zero { memarg: a }
        | SimdOperator::V128Store { memarg: a } => shapes::memory(offset, opcode, a),
        SimdOperator::V128Load8Lane { memarg: a, lane: b }
        | SimdOperator::V128Load16Lane { memarg: a, lane: b }
        | SimdOperator::V128Load32Lane { memarg: a, lane: b }
        | SimdOperator::V128Load64Lane { memarg: a, lane: b }
        | SimdOperator::V128Store8Lane { memarg: a, lane: b }
        | SimdOperator::V128Store16Lane { memarg: a, lane: b }
        | SimdOperator::V128Store32Lane { memarg: a, lane: b }
        | SimdOperator::V128Store64Lane { memarg: a, lane: b } => shapes::memory_lane(
            offset, opcode, a, b,
        ),
        SimdOperator::I8x16ExtractLaneS { lane: a }
        | SimdOperator::I8x16ExtractLaneU { lane: a }
        | SimdOperator::I8x16ReplaceLane { lane: a }
        | SimdOperator::I16x8ExtractLaneS { lane: a }
        | SimdOperator::I16x8ExtractLaneU { lane: a }
        | SimdOperator::I16x8ReplaceLane { lane: a }
        | SimdOperator::I32x4ExtractLane { lane: a }
        | SimdOperator::I32x4ReplaceLane { lane: a }
        | SimdOperator::I64x2ExtractLane { lane: a }
        | SimdOperator::I64x2ReplaceLane { lane: a }
        | SimdOperator::F32x4ExtractLane { lane: a }
        | SimdOperator::F32x4ReplaceLane { lane: a }
        | SimdOperator::F64x2ExtractLane { lane: a }
        | SimdOperator::F64x2ReplaceLane { lane: a } => shapes::lane(offset, opcode, a),
        SimdOperator::V128Const { value: a } => shapes::vector(offset, opcode, a),
        SimdOperator::I8x16Shuffle { lanes: a } => shapes::lanes(offset, opcode, a),
    }
}

fn atomic(offset: u64, opcode: u32, op: AtomicOperator) -> WasmOperator
    ensures { result ≡ view offset opcode (atomic_immediates op) }
{
    match op {
        AtomicOperator::RefI31Shared | AtomicOperator::Pause => shapes::nothing(offset, opcode),
        AtomicOperator::MemoryAtomicNotify { memarg: a }
        | AtomicOperator::MemoryAtomicWait32 { memarg: a }
        | AtomicOperator::MemoryAtomicWait64 { memarg: a }
        | AtomicOperator::I32AtomicLoad { memarg: a }
        | AtomicOperator::I64AtomicLoad { memarg: a }
        | AtomicOperator::I32AtomicLoad8U { memarg: a }
        | AtomicOperator::I32AtomicLoad16U { memarg: a }
        | AtomicOperator::I64AtomicLoad8U { memarg: a }
        | AtomicOperator::I64AtomicLoad16U { memarg: a }
        | AtomicOperator::I64AtomicLoad32U { memarg: a }
        | AtomicOperator::I32AtomicStore { memarg: a }
        | AtomicOperator::I64AtomicStore { memarg: a }
        | AtomicOperator::I32AtomicStore8 { memarg: a }
        | AtomicOperator::I32AtomicStore16 { memarg: a }
        | AtomicOperator::I64AtomicStore8 { memarg: a }
        | AtomicOperator::I64AtomicStore16 { memarg: a }
        | AtomicOperator::I64AtomicStore32 { memarg: a }
        | AtomicOperator::I32AtomicRmwAdd { memarg: a }
        | AtomicOperator::I64AtomicRmwAdd { memarg: a }
        | AtomicOperator::I32AtomicRmw8AddU { memarg: a }
        | AtomicOperator::I32AtomicRmw16AddU { memarg: a }
        | AtomicOperator::I64AtomicRmw8AddU { memarg: a }
        | AtomicOperator::I64AtomicRmw16AddU { memarg: a }
        | AtomicOperator::I64AtomicRmw32AddU { memarg: a }
        | AtomicOperator::I32AtomicRmwSub { memarg: a }
        | AtomicOperator::I64AtomicRmwSub { memarg: a }
        | AtomicOperator::I32AtomicRmw8SubU { memarg: a }
        | AtomicOperator::I32AtomicRmw16SubU { memarg: a }
        | AtomicOperator::I64AtomicRmw8SubU { memarg: a }
        | AtomicOperator::I64AtomicRmw16SubU { memarg: a }
        | AtomicOperator::I64AtomicRmw32SubU { memarg: a }
        | AtomicOperator::I32AtomicRmwAnd { memarg: a }
        | AtomicOperator::I64AtomicRmwAnd { memarg: a }
        | AtomicOperator::I32AtomicRmw8AndU { memarg: a }
        | AtomicOperator::I32AtomicRmw16AndU { memarg: a }
        | AtomicOperator::I64AtomicRmw8AndU { memarg: a }
        | AtomicOperator::I64AtomicRmw16AndU { memarg: a }
        | AtomicOperator::I64AtomicRmw32AndU { memarg: a }
        | AtomicOperator::I32AtomicRmwOr { memarg: a }
        | AtomicOperator::I64AtomicRmwOr { memarg: a }
        | AtomicOperator::I32AtomicRmw8OrU { memarg: a }
        | AtomicOperator::I32AtomicRmw16OrU { memarg: a }
        | AtomicOperator::I64AtomicRmw8OrU { memarg: a }
        | AtomicOperator::I64AtomicRmw16OrU { memarg: a }
        | AtomicOperator::I64AtomicRmw32OrU { memarg: a }
        | AtomicOperator::I32AtomicRmwXor { memarg: a }
        | AtomicOperator::I64AtomicRmwXor { memarg: a }
        | AtomicOperator::I32AtomicRmw8XorU { memarg: a }
        | AtomicOperator::I32AtomicRmw16XorU { memarg: a }
        | AtomicOperator::I64AtomicRmw8XorU { memarg: a }
        | AtomicOperator::I64AtomicRmw16XorU { memarg: a }
        | AtomicOperator::I64AtomicRmw32XorU { memarg: a }
        | AtomicOperator::I32AtomicRmwXchg { memarg: a }
        | AtomicOperator::I64AtomicRmwXchg { memarg: a }
        | AtomicOperator::I32AtomicRmw8XchgU { memarg: a }
        | AtomicOperator::I32AtomicRmw16XchgU { memarg: a }
        | AtomicOperator::I64AtomicRmw8XchgU { memarg: a }
        | AtomicOperator::I64AtomicRmw16XchgU { memarg: a }
        | AtomicOperator::I64AtomicRmw32XchgU { memarg: a }
        | AtomicOperator::I32AtomicRmwCmpxchg { memarg: a }
        | AtomicOperator::I64AtomicRmwCmpxchg { memarg: a }
        | AtomicOperator::I32AtomicRmw8CmpxchgU { memarg: a }
        | AtomicOperator::I32AtomicRmw16CmpxchgU { memarg: a }
        | AtomicOperator::I64AtomicRmw8CmpxchgU { memarg: a }
        | AtomicOperator::I64AtomicRmw16CmpxchgU { memarg: a }
        | AtomicOperator::I64AtomicRmw32CmpxchgU { memarg: a } => shapes::memory(offset, opcode, a),
        AtomicOperator::GlobalAtomicGet {
            ordering: a,
            global_index: b,
        }
        | AtomicOperator::GlobalAtomicSet {
            ordering: a,
            global_index: b,
        }
        | AtomicOperator::GlobalAtomicRmwAdd {
            ordering: a,
            global_index: b,
        }
        | AtomicOperator::GlobalAtomicRmwSub {
            ordering: a,
            global_index: b,
        }
        | AtomicOperator::GlobalAtomicRmwAnd {
            ordering: a,
            global_index: b,
        }
        | AtomicOperator::GlobalAtomicRmwOr {
            ordering: a,
            global_index: b,
        }
        | AtomicOperator::GlobalAtomicRmwXor {
            ordering: a,
            global_index: b,
        }
        | AtomicOperator::GlobalAtomicRmwXchg {
            ordering: a,
            global_index: b,
        }
        | AtomicOperator::GlobalAtomicRmwCmpxchg {
            ordering: a,
            global_index: b,
        }
        | AtomicOperator::TableAtomicGet {
            ordering: a,
            table_index: b,
        }
        | AtomicOperator::TableAtomicSet {
            ordering: a,
            table_index: b,
        }
        | AtomicOperator::TableAtomicRmwXchg {
            ordering: a,
            table_index: b,
        }
        | AtomicOperator::TableAtomicRmwCmpxchg {
            ordering: a,
            table_index: b,
        }
        | AtomicOperator::ArrayAtomicGet {
            ordering: a,
            array_type_index: b,
        }
        | AtomicOperator::ArrayAtomicGetS {
            ordering: a,
            array_type_index: b,
        }
        | AtomicOperator::ArrayAtomicGetU {
            ordering: a,
            array_type_index: b,
        }
        | AtomicOperator::ArrayAtomicSet {
            ordering: a,
            array_type_index: b,
        }
        | AtomicOperator::ArrayAtomicRmwAdd {
            ordering: a,
            array_type_index: b,
        }
        | AtomicOperator::ArrayAtomicRmwSub {
            ordering: a,
            array_type_index: b,
        }
        | AtomicOperator::ArrayAtomicRmwAnd {
            ordering: a,
            array_type_index: b,
        }
        | AtomicOperator::ArrayAtomicRmwOr {
            ordering: a,
            array_type_index: b,
        }
        | AtomicOperator::ArrayAtomicRmwXor {
            ordering: a,
            array_type_index: b,
        }
        | AtomicOperator::ArrayAtomicRmwXchg {
            ordering: a,
            array_type_index: b,
        }
        | AtomicOperator::ArrayAtomicRmwCmpxchg {
            ordering: a,
            array_type_index: b,
        } => shapes::ordered(offset, opcode, a, b),
        AtomicOperator::StructAtomicGet {
            ordering: a,
            struct_type_index: b,
            field_index: c,
        }
        | AtomicOperator::StructAtomicGetS {
            ordering: a,
            struct_type_index: b,
            field_index: c,
        }
        | AtomicOperator::StructAtomicGetU {
            ordering: a,
            struct_type_index: b,
            field_index: c,
        }
        | AtomicOperator::StructAtomicSet {
            ordering: a,
            struct_type_index: b,
            field_index: c,
        }
        | AtomicOperator::StructAtomicRmwAdd {
            ordering: a,
            struct_type_index: b,
            field_index: c,
        }
        | AtomicOperator::StructAtomicRmwSub {
            ordering: a,
            struct_type_index: b,
            field_index: c,
        }
        | AtomicOperator::StructAtomicRmwAnd {
            ordering: a,
            struct_type_index: b,
            field_index: c,
        }
        | AtomicOperator::StructAtomicRmwOr {
            ordering: a,
            struct_type_index: b,
            field_index: c,
        }
        | AtomicOperator::StructAtomicRmwXor {
            ordering: a,
            struct_type_index: b,
            field_index: c,
        }
        | AtomicOperator::StructAtomicRmwXchg {
            ordering: a,
            struct_type_index: b,
            field_index: c,
        }
        | AtomicOperator::StructAtomicRmwCmpxchg {
            ordering: a,
            struct_type_index: b,
            field_index: c,
        } => shapes::ordered_two(offset, opcode, a, b, c),
        AtomicOperator::AtomicFence { ordering: a } => shapes::fence(offset, opcode, a),
    }
}
