//! Written by tools/lists.py from tools/operators.tsv.
use crate::fields::atomic::atomic;
use crate::fields::gc::gc;
use crate::fields::misc::misc;
use crate::fields::shapes;
use crate::fields::simd::simd;
use crate::values::{self, Written};
use wasm_instr::Operator;

pub fn own(out: &mut String, op: &Operator<'_>) -> Written {
    match op {
        Operator::Block { blockty }
        | Operator::Loop { blockty }
        | Operator::If { blockty }
        | Operator::Try { blockty } => values::block_type(out, "blockty", blockty),
        Operator::Br { relative_depth }
        | Operator::BrIf { relative_depth }
        | Operator::Rethrow { relative_depth }
        | Operator::Delegate { relative_depth }
        | Operator::BrOnNull { relative_depth }
        | Operator::BrOnNonNull { relative_depth } => values::number(
            out,
            "relative_depth",
            relative_depth,
        ),
        Operator::BrTable { targets } => values::branch_table(out, "targets", targets),
        Operator::Call { function_index }
        | Operator::RefFunc { function_index }
        | Operator::ReturnCall { function_index } => values::number(
            out,
            "function_index",
            function_index,
        ),
        Operator::CallIndirect {
            type_index,
            table_index,
        }
        | Operator::ReturnCallIndirect {
            type_index,
            table_index,
        } => shapes::write_type_index_and_table_index(out, type_index, table_index),
        Operator::LocalGet { local_index }
        | Operator::LocalSet { local_index }
        | Operator::LocalTee { local_index } => values::number(out, "local_index", local_index),
        Operator::GlobalGet { global_index } | Operator::GlobalSet { global_index } =>
            values::number(out, "global_index", global_index),
        Operator::I32Load { memarg }
        | Operator::I64Load { memarg }
        | Operator::F32Load { memarg }
        | Operator::F64Load { memarg }
        | Operator::I32Load8S { memarg }
        | Operator::I32Load8U { memarg }
        | Operator::I32Load16S { memarg }
        | Operator::I32Load16U { memarg }
        | Operator::I64Load8S { memarg }
        | Operator::I64Load8U { memarg }
        | Operator::I64Load16S { memarg }
        | Operator::I64Load16U { memarg }
        | Operator::I64Load32S { memarg }
        | Operator::I64Load32U { memarg }
        | Operator::I32Store { memarg }
        | Operator::I64Store { memarg }
        | Operator::F32Store { memarg }
        | Operator::F64Store { memarg }
        | Operator::I32Store8 { memarg }
        | Operator::I32Store16 { memarg }
        | Operator::I64Store8 { memarg }
        | Operator::I64Store16 { memarg }
        | Operator::I64Store32 { memarg } => values::memory_argument(out, "memarg", memarg),
        Operator::MemorySize { mem } | Operator::MemoryGrow { mem } => values::number(
            out, "mem", mem,
        ),
        Operator::I32Const { value } => values::signed_32(out, "value", value),
        Operator::I64Const { value } => values::signed_64(out, "value", value),
        Operator::F32Const { value } => values::float_32(out, "value", value),
        Operator::F64Const { value } => values::float_64(out, "value", value),
        Operator::TypedSelect { ty } => values::value_type(out, "ty", ty),
        Operator::TypedSelectMulti { tys } => values::select_types(out, "tys", tys),
        Operator::RefNull { hty } => values::heap_type(out, "hty", hty),
        Operator::TableGet { table } | Operator::TableSet { table } => values::number(
            out, "table", table,
        ),
        Operator::TryTable { try_table } => values::try_table(out, "try_table", try_table),
        Operator::Throw { tag_index }
        | Operator::Catch { tag_index }
        | Operator::Suspend { tag_index } => values::number(out, "tag_index", tag_index),
        Operator::CallRef { type_index } | Operator::ReturnCallRef { type_index } => values::number(
            out,
            "type_index",
            type_index,
        ),
        Operator::ContNew { cont_type_index } => values::number(
            out,
            "cont_type_index",
            cont_type_index,
        ),
        Operator::ContBind {
            argument_index,
            result_index,
        } => shapes::write_argument_index_and_result_index(out, argument_index, result_index),
        Operator::Resume {
            cont_type_index,
            resume_table,
        }
        | Operator::ResumeThrowRef {
            cont_type_index,
            resume_table,
        } => shapes::write_cont_type_index_and_resume_table(out, cont_type_index, resume_table),
        Operator::ResumeThrow {
            cont_type_index,
            tag_index,
            resume_table,
        } => shapes::write_cont_type_index_and_tag_index_and_resume_table(
            out,
            cont_type_index,
            tag_index,
            resume_table,
        ),
        Operator::Switch {
            cont_type_index,
            tag_index,
        } => shapes::write_cont_type_index_and_tag_index(out, cont_type_index, tag_index),
        Operator::Gc(op) => gc(out, op),
        Operator::Misc(op) => misc(out, op),
        Operator::Simd(op) => simd(out, op),
        Operator::Atomic(op) => atomic(out, op),
        _ => Ok(()),
    }
}
