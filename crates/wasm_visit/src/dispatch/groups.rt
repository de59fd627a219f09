//! Written by tools/lists.py from tools/operators.tsv.
ghost use Rattle.wasm_instr.specs.declared.operator.Operator.{Operator};
ghost use Rattle.wasm_visit_groups.specs.Groups.{IsOneByte};

use wasm_instr::Operator;
use wasm_instr_ops::{AtomicOperator, GcOperator, MiscOperator, NumericOperator};
use wasm_visit_groups::{VisitAtomic, VisitGc, VisitMisc, VisitNumeric, VisitOneByte};

/// Calls the visit of an operator with a one-byte opcode.
pub fn one_byte<V: VisitOneByte>(v: &mut V, op: Operator<'_>) -> V::Output
    requires { IsOneByte op }
    ensures { V.visits v.old op.entry result v.new }
{
    match op {
        Operator::Unreachable => v.visit_unreachable(),
        Operator::Nop => v.visit_nop(),
        Operator::Block { blockty } => v.visit_block(blockty),
        Operator::Loop { blockty } => v.visit_loop(blockty),
        Operator::If { blockty } => v.visit_if(blockty),
        Operator::Else => v.visit_else(),
        Operator::End => v.visit_end(),
        Operator::Br { relative_depth } => v.visit_br(relative_depth),
        Operator::BrIf { relative_depth } => v.visit_br_if(relative_depth),
        Operator::Return => v.visit_return(),
        Operator::Call { function_index } => v.visit_call(function_index),
        Operator::CallIndirect {
            type_index,
            table_index,
        } => v.visit_call_indirect(type_index, table_index),
        Operator::Drop => v.visit_drop(),
        Operator::Select => v.visit_select(),
        Operator::LocalGet { local_index } => v.visit_local_get(local_index),
        Operator::LocalSet { local_index } => v.visit_local_set(local_index),
        Operator::LocalTee { local_index } => v.visit_local_tee(local_index),
        Operator::GlobalGet { global_index } => v.visit_global_get(global_index),
        Operator::GlobalSet { global_index } => v.visit_global_set(global_index),
        Operator::I32Load { memarg } => v.visit_i32_load(memarg),
        Operator::I64Load { memarg } => v.visit_i64_load(memarg),
        Operator::F32Load { memarg } => v.visit_f32_load(memarg),
        Operator::F64Load { memarg } => v.visit_f64_load(memarg),
        Operator::I32Load8S { memarg } => v.visit_i32_load8_s(memarg),
        Operator::I32Load8U { memarg } => v.visit_i32_load8_u(memarg),
        Operator::I32Load16S { memarg } => v.visit_i32_load16_s(memarg),
        Operator::I32Load16U { memarg } => v.visit_i32_load16_u(memarg),
        Operator::I64Load8S { memarg } => v.visit_i64_load8_s(memarg),
        Operator::I64Load8U { memarg } => v.visit_i64_load8_u(memarg),
        Operator::I64Load16S { memarg } => v.visit_i64_load16_s(memarg),
        Operator::I64Load16U { memarg } => v.visit_i64_load16_u(memarg),
        Operator::I64Load32S { memarg } => v.visit_i64_load32_s(memarg),
        Operator::I64Load32U { memarg } => v.visit_i64_load32_u(memarg),
        Operator::I32Store { memarg } => v.visit_i32_store(memarg),
        Operator::I64Store { memarg } => v.visit_i64_store(memarg),
        Operator::F32Store { memarg } => v.visit_f32_store(memarg),
        Operator::F64Store { memarg } => v.visit_f64_store(memarg),
        Operator::I32Store8 { memarg } => v.visit_i32_store8(memarg),
        Operator::I32Store16 { memarg } => v.visit_i32_store16(memarg),
        Operator::I64Store8 { memarg } => v.visit_i64_store8(memarg),
        Operator::I64Store16 { memarg } => v.visit_i64_store16(memarg),
        Operator::I64Store32 { memarg } => v.visit_i64_store32(memarg),
        Operator::MemorySize { mem } => v.visit_memory_size(mem),
        Operator::MemoryGrow { mem } => v.visit_memory_grow(mem),
        Operator::I32Const { value } => v.visit_i32_const(value),
        Operator::I64Const { value } => v.visit_i64_const(value),
        Operator::F32Const { value } => v.visit_f32_const(value),
        Operator::F64Const { value } => v.visit_f64_const(value),
        Operator::RefEq => v.visit_ref_eq(),
        Operator::TypedSelect { ty } => v.visit_typed_select(ty),
        Operator::TypedSelectMulti { tys } => v.visit_typed_select_multi(tys),
        Operator::RefNull { hty } => v.visit_ref_null(hty),
        Operator::RefIsNull => v.visit_ref_is_null(),
        Operator::RefFunc { function_index } => v.visit_ref_func(function_index),
        Operator::TableGet { table } => v.visit_table_get(table),
        Operator::TableSet { table } => v.visit_table_set(table),
        Operator::ReturnCall { function_index } => v.visit_return_call(function_index),
        Operator::ReturnCallIndirect {
            type_index,
            table_index,
        } => v.visit_return_call_indirect(type_index, table_index),
        Operator::TryTable { try_table } => v.visit_try_table(try_table),
        Operator::Throw { tag_index } => v.visit_throw(tag_index),
        Operator::ThrowRef => v.visit_throw_ref(),
        Operator::Try { blockty } => v.visit_try(blockty),
        Operator::Catch { tag_index } => v.visit_catch(tag_index),
        Operator::Rethrow { relative_depth } => v.visit_rethrow(relative_depth),
        Operator::Delegate { relative_depth } => v.visit_delegate(relative_depth),
        Operator::CatchAll => v.visit_catch_all(),
        Operator::CallRef { type_index } => v.visit_call_ref(type_index),
        Operator::ReturnCallRef { type_index } => v.visit_return_call_ref(type_index),
        Operator::RefAsNonNull => v.visit_ref_as_non_null(),
        Operator::BrOnNull { relative_depth } => v.visit_br_on_null(relative_depth),
        Operator::BrOnNonNull { relative_depth } => v.visit_br_on_non_null(relative_depth),
        Operator::ContNew { cont_type_index } => v.visit_cont_new(cont_type_index),
        Operator::ContBind {
            argument_index,
            result_index,
        } => v.visit_cont_bind(argument_index, result_index),
        Operator::Suspend { tag_index } => v.visit_suspend(tag_index),
        Operator::Resume {
            cont_type_index,
            resume_table,
        } => v.visit_resume(cont_type_index, resume_table),
        Operator::ResumeThrow {
            cont_type_index,
            tag_index,
            resume_table,
        } => v.visit_resume_throw(cont_type_index, tag_index, resume_table),
        Operator::ResumeThrowRef {
            cont_type_index,
            resume_table,
        } => v.visit_resume_throw_ref(cont_type_index, resume_table),
        Operator::Switch {
            cont_type_index,
            tag_index,
        } => v.visit_switch(cont_type_index, tag_index),
        Operator::BrTable { targets: _ }
        | Operator::Numeric(_)
        | Operator::Gc(_)
        | Operator::Misc(_)
        | Operator::Simd(_)
        | Operator::Atomic(_) => unreachable!(),
    }
}

/// Calls the visit of a numeric operator.
pub fn numeric<V: VisitNumeric>(v: &mut V, op: NumericOperator) -> V::Output
    ensures { V.visits v.old (Operator.Numeric op) result v.new }
{
    match op {
        NumericOperator::I32Eqz => v.visit_i32_eqz(),
        NumericOperator::I32Eq => v.visit_i32_eq(),
        NumericOperator::I32Ne => v.visit_i32_ne(),
        NumericOperator::I32LtS => v.visit_i32_lt_s(),
        NumericOperator::I32LtU => v.visit_i32_lt_u(),
        NumericOperator::I32GtS => v.visit_i32_gt_s(),
        NumericOperator::I32GtU => v.visit_i32_gt_u(),
        NumericOperator::I32LeS => v.visit_i32_le_s(),
        NumericOperator::I32LeU => v.visit_i32_le_u(),
        NumericOperator::I32GeS => v.visit_i32_ge_s(),
        NumericOperator::I32GeU => v.visit_i32_ge_u(),
        NumericOperator::I64Eqz => v.visit_i64_eqz(),
        NumericOperator::I64Eq => v.visit_i64_eq(),
        NumericOperator::I64Ne => v.visit_i64_ne(),
        NumericOperator::I64LtS => v.visit_i64_lt_s(),
        NumericOperator::I64LtU => v.visit_i64_lt_u(),
        NumericOperator::I64GtS => v.visit_i64_gt_s(),
        NumericOperator::I64GtU => v.visit_i64_gt_u(),
        NumericOperator::I64LeS => v.visit_i64_le_s(),
        NumericOperator::I64LeU => v.visit_i64_le_u(),
        NumericOperator::I64GeS => v.visit_i64_ge_s(),
        NumericOperator::I64GeU => v.visit_i64_ge_u(),
        NumericOperator::F32Eq => v.visit_f32_eq(),
        NumericOperator::F32Ne => v.visit_f32_ne(),
        NumericOperator::F32Lt => v.visit_f32_lt(),
        NumericOperator::F32Gt => v.visit_f32_gt(),
        NumericOperator::F32Le => v.visit_f32_le(),
        NumericOperator::F32Ge => v.visit_f32_ge(),
        NumericOperator::F64Eq => v.visit_f64_eq(),
        NumericOperator::F64Ne => v.visit_f64_ne(),
        NumericOperator::F64Lt => v.visit_f64_lt(),
        NumericOperator::F64Gt => v.visit_f64_gt(),
        NumericOperator::F64Le => v.visit_f64_le(),
        NumericOperator::F64Ge => v.visit_f64_ge(),
        NumericOperator::I32Clz => v.visit_i32_clz(),
        NumericOperator::I32Ctz => v.visit_i32_ctz(),
        NumericOperator::I32Popcnt => v.visit_i32_popcnt(),
        NumericOperator::I32Add => v.visit_i32_add(),
        NumericOperator::I32Sub => v.visit_i32_sub(),
        NumericOperator::I32Mul => v.visit_i32_mul(),
        NumericOperator::I32DivS => v.visit_i32_div_s(),
        NumericOperator::I32DivU => v.visit_i32_div_u(),
        NumericOperator::I32RemS => v.visit_i32_rem_s(),
        NumericOperator::I32RemU => v.visit_i32_rem_u(),
        NumericOperator::I32And => v.visit_i32_and(),
        NumericOperator::I32Or => v.visit_i32_or(),
        NumericOperator::I32Xor => v.visit_i32_xor(),
        NumericOperator::I32Shl => v.visit_i32_shl(),
        NumericOperator::I32ShrS => v.visit_i32_shr_s(),
        NumericOperator::I32ShrU => v.visit_i32_shr_u(),
        NumericOperator::I32Rotl => v.visit_i32_rotl(),
        NumericOperator::I32Rotr => v.visit_i32_rotr(),
        NumericOperator::I64Clz => v.visit_i64_clz(),
        NumericOperator::I64Ctz => v.visit_i64_ctz(),
        NumericOperator::I64Popcnt => v.visit_i64_popcnt(),
        NumericOperator::I64Add => v.visit_i64_add(),
        NumericOperator::I64Sub => v.visit_i64_sub(),
        NumericOperator::I64Mul => v.visit_i64_mul(),
        NumericOperator::I64DivS => v.visit_i64_div_s(),
        NumericOperator::I64DivU => v.visit_i64_div_u(),
        NumericOperator::I64RemS => v.visit_i64_rem_s(),
        NumericOperator::I64RemU => v.visit_i64_rem_u(),
        NumericOperator::I64And => v.visit_i64_and(),
        NumericOperator::I64Or => v.visit_i64_or(),
        NumericOperator::I64Xor => v.visit_i64_xor(),
        NumericOperator::I64Shl => v.visit_i64_shl(),
        NumericOperator::I64ShrS => v.visit_i64_shr_s(),
        NumericOperator::I64ShrU => v.visit_i64_shr_u(),
        NumericOperator::I64Rotl => v.visit_i64_rotl(),
        NumericOperator::I64Rotr => v.visit_i64_rotr(),
        NumericOperator::F32Abs => v.visit_f32_abs(),
        NumericOperator::F32Neg => v.visit_f32_neg(),
        NumericOperator::F32Ceil => v.visit_f32_ceil(),
        NumericOperator::F32Floor => v.visit_f32_floor(),
        NumericOperator::F32Trunc => v.visit_f32_trunc(),
        NumericOperator::F32Nearest => v.visit_f32_nearest(),
        NumericOperator::F32Sqrt => v.visit_f32_sqrt(),
        NumericOperator::F32Add => v.visit_f32_add(),
        NumericOperator::F32Sub => v.visit_f32_sub(),
        NumericOperator::F32Mul => v.visit_f32_mul(),
        NumericOperator::F32Div => v.visit_f32_div(),
        NumericOperator::F32Min => v.visit_f32_min(),
        NumericOperator::F32Max => v.visit_f32_max(),
        NumericOperator::F32Copysign => v.visit_f32_copysign(),
        NumericOperator::F64Abs => v.visit_f64_abs(),
        NumericOperator::F64Neg => v.visit_f64_neg(),
        NumericOperator::F64Ceil => v.visit_f64_ceil(),
        NumericOperator::F64Floor => v.visit_f64_floor(),
        NumericOperator::F64Trunc => v.visit_f64_trunc(),
        NumericOperator::F64Nearest => v.visit_f64_nearest(),
        NumericOperator::F64Sqrt => v.visit_f64_sqrt(),
        NumericOperator::F64Add => v.visit_f64_add(),
        NumericOperator::F64Sub => v.visit_f64_sub(),
        NumericOperator::F64Mul => v.visit_f64_mul(),
        NumericOperator::F64Div => v.visit_f64_div(),
        NumericOperator::F64Min => v.visit_f64_min(),
        NumericOperator::F64Max => v.visit_f64_max(),
        NumericOperator::F64Copysign => v.visit_f64_copysign(),
        NumericOperator::I32WrapI64 => v.visit_i32_wrap_i64(),
        NumericOperator::I32TruncF32S => v.visit_i32_trunc_f32_s(),
        NumericOperator::I32TruncF32U => v.visit_i32_trunc_f32_u(),
        NumericOperator::I32TruncF64S => v.visit_i32_trunc_f64_s(),
        NumericOperator::I32TruncF64U => v.visit_i32_trunc_f64_u(),
        NumericOperator::I64ExtendI32S => v.visit_i64_extend_i32_s(),
        NumericOperator::I64ExtendI32U => v.visit_i64_extend_i32_u(),
        NumericOperator::I64TruncF32S => v.visit_i64_trunc_f32_s(),
        NumericOperator::I64TruncF32U => v.visit_i64_trunc_f32_u(),
        NumericOperator::I64TruncF64S => v.visit_i64_trunc_f64_s(),
        NumericOperator::I64TruncF64U => v.visit_i64_trunc_f64_u(),
        NumericOperator::F32ConvertI32S => v.visit_f32_convert_i32_s(),
        NumericOperator::F32ConvertI32U => v.visit_f32_convert_i32_u(),
        NumericOperator::F32ConvertI64S => v.visit_f32_convert_i64_s(),
        NumericOperator::F32ConvertI64U => v.visit_f32_convert_i64_u(),
        NumericOperator::F32DemoteF64 => v.visit_f32_demote_f64(),
        NumericOperator::F64ConvertI32S => v.visit_f64_convert_i32_s(),
        NumericOperator::F64ConvertI32U => v.visit_f64_convert_i32_u(),
        NumericOperator::F64ConvertI64S => v.visit_f64_convert_i64_s(),
        NumericOperator::F64ConvertI64U => v.visit_f64_convert_i64_u(),
        NumericOperator::F64PromoteF32 => v.visit_f64_promote_f32(),
        NumericOperator::I32ReinterpretF32 => v.visit_i32_reinterpret_f32(),
        NumericOperator::I64ReinterpretF64 => v.visit_i64_reinterpret_f64(),
        NumericOperator::F32ReinterpretI32 => v.visit_f32_reinterpret_i32(),
        NumericOperator::F64ReinterpretI64 => v.visit_f64_reinterpret_i64(),
        NumericOperator::I32Extend8S => v.visit_i32_extend8_s(),
        NumericOperator::I32Extend16S => v.visit_i32_extend16_s(),
        NumericOperator::I64Extend8S => v.visit_i64_extend8_s(),
        NumericOperator::I64Extend16S => v.visit_i64_extend16_s(),
        NumericOperator::I64Extend32S => v.visit_i64_extend32_s(),
    }
}

/// Calls the visit of an operator with prefix 0xfb.
pub fn gc<V: VisitGc>(v: &mut V, op: GcOperator) -> V::Output
    ensures { V.visits v.old (Operator.Gc op) result v.new }
{
    match op {
        GcOperator::StructNew { struct_type_index } => v.visit_struct_new(struct_type_index),
        GcOperator::StructNewDefault { struct_type_index } => {
            v.visit_struct_new_default(struct_type_index)
        }
        GcOperator::StructGet {
            struct_type_index,
            field_index,
        } => v.visit_struct_get(struct_type_index, field_index),
        GcOperator::StructGetS {
            struct_type_index,
            field_index,
        } => v.visit_struct_get_s(struct_type_index, field_index),
        GcOperator::StructGetU {
            struct_type_index,
            field_index,
        } => v.visit_struct_get_u(struct_type_index, field_index),
        GcOperator::StructSet {
            struct_type_index,
            field_index,
        } => v.visit_struct_set(struct_type_index, field_index),
        GcOperator::ArrayNew { array_type_index } => v.visit_array_new(array_type_index),
        GcOperator::ArrayNewDefault { array_type_index } => {
            v.visit_array_new_default(array_type_index)
        }
        GcOperator::ArrayNewFixed {
            array_type_index,
            array_size,
        } => v.visit_array_new_fixed(array_type_index, array_size),
        GcOperator::ArrayNewData {
            array_type_index,
            array_data_index,
        } => v.visit_array_new_data(array_type_index, array_data_index),
        GcOperator::ArrayNewElem {
            array_type_index,
            array_elem_index,
        } => v.visit_array_new_elem(array_type_index, array_elem_index),
        GcOperator::ArrayGet { array_type_index } => v.visit_array_get(array_type_index),
        GcOperator::ArrayGetS { array_type_index } => v.visit_array_get_s(array_type_index),
        GcOperator::ArrayGetU { array_type_index } => v.visit_array_get_u(array_type_index),
        GcOperator::ArraySet { array_type_index } => v.visit_array_set(array_type_index),
        GcOperator::ArrayLen => v.visit_array_len(),
        GcOperator::ArrayFill { array_type_index } => v.visit_array_fill(array_type_index),
        GcOperator::ArrayCopy {
            array_type_index_dst,
            array_type_index_src,
        } => v.visit_array_copy(array_type_index_dst, array_type_index_src),
        GcOperator::ArrayInitData {
            array_type_index,
            array_data_index,
        } => v.visit_array_init_data(array_type_index, array_data_index),
        GcOperator::ArrayInitElem {
            array_type_index,
            array_elem_index,
        } => v.visit_array_init_elem(array_type_index, array_elem_index),
        GcOperator::RefTestNonNull { hty } => v.visit_ref_test_non_null(hty),
        GcOperator::RefTestNullable { hty } => v.visit_ref_test_nullable(hty),
        GcOperator::RefCastNonNull { hty } => v.visit_ref_cast_non_null(hty),
        GcOperator::RefCastNullable { hty } => v.visit_ref_cast_nullable(hty),
        GcOperator::BrOnCast {
            relative_depth,
            from_ref_type,
            to_ref_type,
        } => v.visit_br_on_cast(relative_depth, from_ref_type, to_ref_type),
        GcOperator::BrOnCastFail {
            relative_depth,
            from_ref_type,
            to_ref_type,
        } => v.visit_br_on_cast_fail(relative_depth, from_ref_type, to_ref_type),
        GcOperator::AnyConvertExtern => v.visit_any_convert_extern(),
        GcOperator::ExternConvertAny => v.visit_extern_convert_any(),
        GcOperator::RefI31 => v.visit_ref_i31(),
        GcOperator::I31GetS => v.visit_i31_get_s(),
        GcOperator::I31GetU => v.visit_i31_get_u(),
        GcOperator::StructNewDesc { struct_type_index } => {
            v.visit_struct_new_desc(struct_type_index)
        }
        GcOperator::StructNewDefaultDesc { struct_type_index } => {
            v.visit_struct_new_default_desc(struct_type_index)
        }
        GcOperator::RefGetDesc { type_index } => v.visit_ref_get_desc(type_index),
        GcOperator::RefCastDescEqNonNull { hty } => v.visit_ref_cast_desc_eq_non_null(hty),
        GcOperator::RefCastDescEqNullable { hty } => v.visit_ref_cast_desc_eq_nullable(hty),
        GcOperator::BrOnCastDescEq {
            relative_depth,
            from_ref_type,
            to_ref_type,
        } => v.visit_br_on_cast_desc_eq(relative_depth, from_ref_type, to_ref_type),
        GcOperator::BrOnCastDescEqFail {
            relative_depth,
            from_ref_type,
            to_ref_type,
        } => v.visit_br_on_cast_desc_eq_fail(relative_depth, from_ref_type, to_ref_type),
    }
}

/// Calls the visit of an operator with prefix 0xfc.
pub fn misc<V: VisitMisc>(v: &mut V, op: MiscOperator) -> V::Output
    ensures { V.visits v.old (Operator.Misc op) result v.new }
{
    match op {
        MiscOperator::I32TruncSatF32S => v.visit_i32_trunc_sat_f32_s(),
        MiscOperator::I32TruncSatF32U => v.visit_i32_trunc_sat_f32_u(),
        MiscOperator::I32TruncSatF64S => v.visit_i32_trunc_sat_f64_s(),
        MiscOperator::I32TruncSatF64U => v.visit_i32_trunc_sat_f64_u(),
        MiscOperator::I64TruncSatF32S => v.visit_i64_trunc_sat_f32_s(),
        MiscOperator::I64TruncSatF32U => v.visit_i64_trunc_sat_f32_u(),
        MiscOperator::I64TruncSatF64S => v.visit_i64_trunc_sat_f64_s(),
        MiscOperator::I64TruncSatF64U => v.visit_i64_trunc_sat_f64_u(),
        MiscOperator::MemoryInit { data_index, mem } => v.visit_memory_init(data_index, mem),
        MiscOperator::DataDrop { data_index } => v.visit_data_drop(data_index),
        MiscOperator::MemoryCopy { dst_mem, src_mem } => v.visit_memory_copy(dst_mem, src_mem),
        MiscOperator::MemoryFill { mem } => v.visit_memory_fill(mem),
        MiscOperator::TableInit { elem_index, table } => v.visit_table_init(elem_index, table),
        MiscOperator::ElemDrop { elem_index } => v.visit_elem_drop(elem_index),
        MiscOperator::TableCopy {
            dst_table,
            src_table,
        } => v.visit_table_copy(dst_table, src_table),
        MiscOperator::TableFill { table } => v.visit_table_fill(table),
        MiscOperator::TableGrow { table } => v.visit_table_grow(table),
        MiscOperator::TableSize { table } => v.visit_table_size(table),
        MiscOperator::MemoryDiscard { mem } => v.visit_memory_discard(mem),
        MiscOperator::I64Add128 => v.visit_i64_add128(),
        MiscOperator::I64Sub128 => v.visit_i64_sub128(),
        MiscOperator::I64MulWideS => v.visit_i64_mul_wide_s(),
        MiscOperator::I64MulWideU => v.visit_i64_mul_wide_u(),
    }
}

/// Calls the visit of an operator with prefix 0xfe.
pub fn atomic<V: VisitAtomic>(v: &mut V, op: AtomicOperator) -> V::Output
    ensures { V.visits v.old (Operator.Atomic op) result v.new }
{
    match op {
        AtomicOperator::MemoryAtomicNotify { memarg } => v.visit_memory_atomic_notify(memarg),
        AtomicOperator::MemoryAtomicWait32 { memarg } => v.visit_memory_atomic_wait32(memarg),
        AtomicOperator::MemoryAtomicWait64 { memarg } => v.visit_memory_atomic_wait64(memarg),
        AtomicOperator::AtomicFence { ordering } => v.visit_atomic_fence(ordering),
        AtomicOperator::I32AtomicLoad { memarg } => v.visit_i32_atomic_load(memarg),
        AtomicOperator::I64AtomicLoad { memarg } => v.visit_i64_atomic_load(memarg),
        AtomicOperator::I32AtomicLoad8U { memarg } => v.visit_i32_atomic_load8_u(memarg),
        AtomicOperator::I32AtomicLoad16U { memarg } => v.visit_i32_atomic_load16_u(memarg),
        AtomicOperator::I64AtomicLoad8U { memarg } => v.visit_i64_atomic_load8_u(memarg),
        AtomicOperator::I64AtomicLoad16U { memarg } => v.visit_i64_atomic_load16_u(memarg),
        AtomicOperator::I64AtomicLoad32U { memarg } => v.visit_i64_atomic_load32_u(memarg),
        AtomicOperator::I32AtomicStore { memarg } => v.visit_i32_atomic_store(memarg),
        AtomicOperator::I64AtomicStore { memarg } => v.visit_i64_atomic_store(memarg),
        AtomicOperator::I32AtomicStore8 { memarg } => v.visit_i32_atomic_store8(memarg),
        AtomicOperator::I32AtomicStore16 { memarg } => v.visit_i32_atomic_store16(memarg),
        AtomicOperator::I64AtomicStore8 { memarg } => v.visit_i64_atomic_store8(memarg),
        AtomicOperator::I64AtomicStore16 { memarg } => v.visit_i64_atomic_store16(memarg),
        AtomicOperator::I64AtomicStore32 { memarg } => v.visit_i64_atomic_store32(memarg),
        AtomicOperator::I32AtomicRmwAdd { memarg } => v.visit_i32_atomic_rmw_add(memarg),
        AtomicOperator::I64AtomicRmwAdd { memarg } => v.visit_i64_atomic_rmw_add(memarg),
        AtomicOperator::I32AtomicRmw8AddU { memarg } => v.visit_i32_atomic_rmw8_add_u(memarg),
        AtomicOperator::I32AtomicRmw16AddU { memarg } => v.visit_i32_atomic_rmw16_add_u(memarg),
        AtomicOperator::I64AtomicRmw8AddU { memarg } => v.visit_i64_atomic_rmw8_add_u(memarg),
        AtomicOperator::I64AtomicRmw16AddU { memarg } => v.visit_i64_atomic_rmw16_add_u(memarg),
        AtomicOperator::I64AtomicRmw32AddU { memarg } => v.visit_i64_atomic_rmw32_add_u(memarg),
        AtomicOperator::I32AtomicRmwSub { memarg } => v.visit_i32_atomic_rmw_sub(memarg),
        AtomicOperator::I64AtomicRmwSub { memarg } => v.visit_i64_atomic_rmw_sub(memarg),
        AtomicOperator::I32AtomicRmw8SubU { memarg } => v.visit_i32_atomic_rmw8_sub_u(memarg),
        AtomicOperator::I32AtomicRmw16SubU { memarg } => v.visit_i32_atomic_rmw16_sub_u(memarg),
        AtomicOperator::I64AtomicRmw8SubU { memarg } => v.visit_i64_atomic_rmw8_sub_u(memarg),
        AtomicOperator::I64AtomicRmw16SubU { memarg } => v.visit_i64_atomic_rmw16_sub_u(memarg),
        AtomicOperator::I64AtomicRmw32SubU { memarg } => v.visit_i64_atomic_rmw32_sub_u(memarg),
        AtomicOperator::I32AtomicRmwAnd { memarg } => v.visit_i32_atomic_rmw_and(memarg),
        AtomicOperator::I64AtomicRmwAnd { memarg } => v.visit_i64_atomic_rmw_and(memarg),
        AtomicOperator::I32AtomicRmw8AndU { memarg } => v.visit_i32_atomic_rmw8_and_u(memarg),
        AtomicOperator::I32AtomicRmw16AndU { memarg } => v.visit_i32_atomic_rmw16_and_u(memarg),
        AtomicOperator::I64AtomicRmw8AndU { memarg } => v.visit_i64_atomic_rmw8_and_u(memarg),
        AtomicOperator::I64AtomicRmw16AndU { memarg } => v.visit_i64_atomic_rmw16_and_u(memarg),
        AtomicOperator::I64AtomicRmw32AndU { memarg } => v.visit_i64_atomic_rmw32_and_u(memarg),
        AtomicOperator::I32AtomicRmwOr { memarg } => v.visit_i32_atomic_rmw_or(memarg),
        AtomicOperator::I64AtomicRmwOr { memarg } => v.visit_i64_atomic_rmw_or(memarg),
        AtomicOperator::I32AtomicRmw8OrU { memarg } => v.visit_i32_atomic_rmw8_or_u(memarg),
        AtomicOperator::I32AtomicRmw16OrU { memarg } => v.visit_i32_atomic_rmw16_or_u(memarg),
        AtomicOperator::I64AtomicRmw8OrU { memarg } => v.visit_i64_atomic_rmw8_or_u(memarg),
        AtomicOperator::I64AtomicRmw16OrU { memarg } => v.visit_i64_atomic_rmw16_or_u(memarg),
        AtomicOperator::I64AtomicRmw32OrU { memarg } => v.visit_i64_atomic_rmw32_or_u(memarg),
        AtomicOperator::I32AtomicRmwXor { memarg } => v.visit_i32_atomic_rmw_xor(memarg),
        AtomicOperator::I64AtomicRmwXor { memarg } => v.visit_i64_atomic_rmw_xor(memarg),
        AtomicOperator::I32AtomicRmw8XorU { memarg } => v.visit_i32_atomic_rmw8_xor_u(memarg),
        AtomicOperator::I32AtomicRmw16XorU { memarg } => v.visit_i32_atomic_rmw16_xor_u(memarg),
        AtomicOperator::I64AtomicRmw8XorU { memarg } => v.visit_i64_atomic_rmw8_xor_u(memarg),
        AtomicOperator::I64AtomicRmw16XorU { memarg } => v.visit_i64_atomic_rmw16_xor_u(memarg),
        AtomicOperator::I64AtomicRmw32XorU { memarg } => v.visit_i64_atomic_rmw32_xor_u(memarg),
        AtomicOperator::I32AtomicRmwXchg { memarg } => v.visit_i32_atomic_rmw_xchg(memarg),
        AtomicOperator::I64AtomicRmwXchg { memarg } => v.visit_i64_atomic_rmw_xchg(memarg),
        AtomicOperator::I32AtomicRmw8XchgU { memarg } => v.visit_i32_atomic_rmw8_xchg_u(memarg),
        AtomicOperator::I32AtomicRmw16XchgU { memarg } => v.visit_i32_atomic_rmw16_xchg_u(memarg),
        AtomicOperator::I64AtomicRmw8XchgU { memarg } => v.visit_i64_atomic_rmw8_xchg_u(memarg),
        AtomicOperator::I64AtomicRmw16XchgU { memarg } => v.visit_i64_atomic_rmw16_xchg_u(memarg),
        AtomicOperator::I64AtomicRmw32XchgU { memarg } => v.visit_i64_atomic_rmw32_xchg_u(memarg),
        AtomicOperator::I32AtomicRmwCmpxchg { memarg } => v.visit_i32_atomic_rmw_cmpxchg(memarg),
        AtomicOperator::I64AtomicRmwCmpxchg { memarg } => v.visit_i64_atomic_rmw_cmpxchg(memarg),
        AtomicOperator::I32AtomicRmw8CmpxchgU { memarg } => {
            v.visit_i32_atomic_rmw8_cmpxchg_u(memarg)
        }
        AtomicOperator::I32AtomicRmw16CmpxchgU { memarg } => {
            v.visit_i32_atomic_rmw16_cmpxchg_u(memarg)
        }
        AtomicOperator::I64AtomicRmw8CmpxchgU { memarg } => {
            v.visit_i64_atomic_rmw8_cmpxchg_u(memarg)
        }
        AtomicOperator::I64AtomicRmw16CmpxchgU { memarg } => {
            v.visit_i64_atomic_rmw16_cmpxchg_u(memarg)
        }
        AtomicOperator::I64AtomicRmw32CmpxchgU { memarg } => {
            v.visit_i64_atomic_rmw32_cmpxchg_u(memarg)
        }
        AtomicOperator::GlobalAtomicGet {
            ordering,
            global_index,
        } => v.visit_global_atomic_get(ordering, global_index),
        AtomicOperator::GlobalAtomicSet {
            ordering,
            global_index,
        } => v.visit_global_atomic_set(ordering, global_index),
        AtomicOperator::GlobalAtomicRmwAdd {
            ordering,
            global_index,
        } => v.visit_global_atomic_rmw_add(ordering, global_index),
        AtomicOperator::GlobalAtomicRmwSub {
            ordering,
            global_index,
        } => v.visit_global_atomic_rmw_sub(ordering, global_index),
        AtomicOperator::GlobalAtomicRmwAnd {
            ordering,
            global_index,
        } => v.visit_global_atomic_rmw_and(ordering, global_index),
        AtomicOperator::GlobalAtomicRmwOr {
            ordering,
            global_index,
        } => v.visit_global_atomic_rmw_or(ordering, global_index),
        AtomicOperator::GlobalAtomicRmwXor {
            ordering,
            global_index,
        } => v.visit_global_atomic_rmw_xor(ordering, global_index),
        AtomicOperator::GlobalAtomicRmwXchg {
            ordering,
            global_index,
        } => v.visit_global_atomic_rmw_xchg(ordering, global_index),
        AtomicOperator::GlobalAtomicRmwCmpxchg {
            ordering,
            global_index,
        } => v.visit_global_atomic_rmw_cmpxchg(ordering, global_index),
        AtomicOperator::TableAtomicGet {
            ordering,
            table_index,
        } => v.visit_table_atomic_get(ordering, table_index),
        AtomicOperator::TableAtomicSet {
            ordering,
            table_index,
        } => v.visit_table_atomic_set(ordering, table_index),
        AtomicOperator::TableAtomicRmwXchg {
            ordering,
            table_index,
        } => v.visit_table_atomic_rmw_xchg(ordering, table_index),
        AtomicOperator::TableAtomicRmwCmpxchg {
            ordering,
            table_index,
        } => v.visit_table_atomic_rmw_cmpxchg(ordering, table_index),
        AtomicOperator::StructAtomicGet {
            ordering,
            struct_type_index,
            field_index,
        } => v.visit_struct_atomic_get(ordering, struct_type_index, field_index),
        AtomicOperator::StructAtomicGetS {
            ordering,
            struct_type_index,
            field_index,
        } => v.visit_struct_atomic_get_s(ordering, struct_type_index, field_index),
        AtomicOperator::StructAtomicGetU {
            ordering,
            struct_type_index,
            field_index,
        } => v.visit_struct_atomic_get_u(ordering, struct_type_index, field_index),
        AtomicOperator::StructAtomicSet {
            ordering,
            struct_type_index,
            field_index,
        } => v.visit_struct_atomic_set(ordering, struct_type_index, field_index),
        AtomicOperator::StructAtomicRmwAdd {
            ordering,
            struct_type_index,
            field_index,
        } => v.visit_struct_atomic_rmw_add(ordering, struct_type_index, field_index),
        AtomicOperator::StructAtomicRmwSub {
            ordering,
            struct_type_index,
            field_index,
        } => v.visit_struct_atomic_rmw_sub(ordering, struct_type_index, field_index),
        AtomicOperator::StructAtomicRmwAnd {
            ordering,
            struct_type_index,
            field_index,
        } => v.visit_struct_atomic_rmw_and(ordering, struct_type_index, field_index),
        AtomicOperator::StructAtomicRmwOr {
            ordering,
            struct_type_index,
            field_index,
        } => v.visit_struct_atomic_rmw_or(ordering, struct_type_index, field_index),
        AtomicOperator::StructAtomicRmwXor {
            ordering,
            struct_type_index,
            field_index,
        } => v.visit_struct_atomic_rmw_xor(ordering, struct_type_index, field_index),
        AtomicOperator::StructAtomicRmwXchg {
            ordering,
            struct_type_index,
            field_index,
        } => v.visit_struct_atomic_rmw_xchg(ordering, struct_type_index, field_index),
        AtomicOperator::StructAtomicRmwCmpxchg {
            ordering,
            struct_type_index,
            field_index,
        } => v.visit_struct_atomic_rmw_cmpxchg(ordering, struct_type_index, field_index),
        AtomicOperator::ArrayAtomicGet {
            ordering,
            array_type_index,
        } => v.visit_array_atomic_get(ordering, array_type_index),
        AtomicOperator::ArrayAtomicGetS {
            ordering,
            array_type_index,
        } => v.visit_array_atomic_get_s(ordering, array_type_index),
        AtomicOperator::ArrayAtomicGetU {
            ordering,
            array_type_index,
        } => v.visit_array_atomic_get_u(ordering, array_type_index),
        AtomicOperator::ArrayAtomicSet {
            ordering,
            array_type_index,
        } => v.visit_array_atomic_set(ordering, array_type_index),
        AtomicOperator::ArrayAtomicRmwAdd {
            ordering,
            array_type_index,
        } => v.visit_array_atomic_rmw_add(ordering, array_type_index),
        AtomicOperator::ArrayAtomicRmwSub {
            ordering,
            array_type_index,
        } => v.visit_array_atomic_rmw_sub(ordering, array_type_index),
        AtomicOperator::ArrayAtomicRmwAnd {
            ordering,
            array_type_index,
        } => v.visit_array_atomic_rmw_and(ordering, array_type_index),
        AtomicOperator::ArrayAtomicRmwOr {
            ordering,
            array_type_index,
        } => v.visit_array_atomic_rmw_or(ordering, array_type_index),
        AtomicOperator::ArrayAtomicRmwXor {
            ordering,
            array_type_index,
        } => v.visit_array_atomic_rmw_xor(ordering, array_type_index),
        AtomicOperator::ArrayAtomicRmwXchg {
            ordering,
            array_type_index,
        } => v.visit_array_atomic_rmw_xchg(ordering, array_type_index),
        AtomicOperator::ArrayAtomicRmwCmpxchg {
            ordering,
            array_type_index,
        } => v.visit_array_atomic_rmw_cmpxchg(ordering, array_type_index),
        AtomicOperator::RefI31Shared => v.visit_ref_i31_shared(),
        AtomicOperator::Pause => v.visit_pause(),
    }
}
