//! Written by tools/lists.py from tools/operators.tsv.
ghost use Rattle.std.specs.Prelude.{◌≡◌, ◌++◌, OnOk, string_bytes};
ghost use Rattle.wasm_text.specs.Operands.{operands_of};

use crate::operands::{self, Written};
use crate::operators::{atomic, gc, misc, simd};
use wasm_instr::Operator;

pub fn own(out: &mut String, op: &Operator<'_>) -> Written
    ensures { OnOk result (string_bytes out.new ≡ string_bytes out.old ++ operands_of op.now) }
{
    match op {
        Operator::Unreachable
        | Operator::Nop
        | Operator::Else
        | Operator::End
        | Operator::Return
        | Operator::Drop
        | Operator::Select
        | Operator::RefEq
        | Operator::RefIsNull
        | Operator::ThrowRef
        | Operator::CatchAll
        | Operator::RefAsNonNull => Ok(()),
        Operator::Block { blockty }
        | Operator::Loop { blockty }
        | Operator::If { blockty }
        | Operator::Try { blockty } => operands::block_type(out, blockty),
        Operator::Br { relative_depth }
        | Operator::BrIf { relative_depth }
        | Operator::Rethrow { relative_depth }
        | Operator::Delegate { relative_depth }
        | Operator::BrOnNull { relative_depth }
        | Operator::BrOnNonNull { relative_depth } => operands::one_number(out, relative_depth),
        Operator::BrTable { targets } => operands::branch_table(out, targets),
        Operator::Call { function_index }
        | Operator::RefFunc { function_index }
        | Operator::ReturnCall { function_index } => operands::one_number(out, function_index),
        Operator::CallIndirect {
            type_index,
            table_index,
        }
        | Operator::ReturnCallIndirect {
            type_index,
            table_index,
        } => operands::indirect(out, type_index, table_index),
        Operator::LocalGet { local_index }
        | Operator::LocalSet { local_index }
        | Operator::LocalTee { local_index } => operands::one_number(out, local_index),
        Operator::GlobalGet { global_index } | Operator::GlobalSet { global_index } =>
            operands::one_number(out, global_index),
        Operator::I32Load { memarg }
        | Operator::I64Load { memarg }
        | Operator::F32Load { memarg }
        | Operator::F64Load { memarg }
        | Operator::I32Load8S { memarg }
        | Operator::I32Load8U { memarg }
        | Operator::I32Load16S { memarg }
        | Operator::I32Load16U { memarg }
        | Operator::I64Load8S { memarg }
        | Operator::I64Load8U { memarg }
        | Operator::I64Load16S { memarg }
        | Operator::I64Load16U { memarg }
        | Operator::I64Load32S { memarg }
        | Operator::I64Load32U { memarg }
        | Operator::I32Store { memarg }
        | Operator::I64Store { memarg }
        | Operator::F32Store { memarg }
        | Operator::F64Store { memarg }
        | Operator::I32Store8 { memarg }
        | Operator::I32Store16 { memarg }
        | Operator::I64Store8 { memarg }
        | Operator::I64Store16 { memarg }
        | Operator::I64Store32 { memarg } => operands::memory_argument(out, memarg),
        Operator::MemorySize { mem } | Operator::MemoryGrow { mem } => operands::one_number(
            out, mem,
        ),
        Operator::I32Const { value } => operands::signed_32(out, value),
        Operator::I64Const { value } => operands::signed_64(out, value),
        Operator::F32Const { value } => operands::float_32(out, value),
        Operator::F64Const { value } => operands::float_64(out, value),
        Operator::TypedSelect { ty } => operands::one_type(out, ty),
        Operator::TypedSelectMulti { tys } => operands::types(out, tys),
        Operator::RefNull { hty } => operands::heap_type(out, hty),
        Operator::TableGet { table } | Operator::TableSet { table } => operands::one_number(
            out, table,
        ),
        Operator::TryTable { try_table } => operands::try_table(out, try_table),
        Operator::Throw { tag_index }
        | Operator::Catch { tag_index }
        | Operator::Suspend { tag_index } => operands::one_number(out, tag_index),
        Operator::CallRef { type_index } | Operator::ReturnCallRef { type_index } =>
            operands::one_number(out, type_index),
        Operator::ContNew { cont_type_index } => operands::one_number(out, cont_type_index),
        Operator::ContBind {
            argument_index,
            result_index,
        } => operands::two_numbers(out, argument_index, result_index),
        Operator::Resume {
            cont_type_index,
            resume_table,
        }
        | Operator::ResumeThrowRef {
            cont_type_index,
            resume_table,
        } => operands::number_and_clauses(out, cont_type_index, resume_table),
        Operator::ResumeThrow {
            cont_type_index,
            tag_index,
            resume_table,
        } => operands::numbers_and_clauses(out, cont_type_index, tag_index, resume_table),
        Operator::Switch {
            cont_type_index,
            tag_index,
        } => operands::two_numbers(out, cont_type_index, tag_index),
        Operator::Numeric(_) => Ok(()),
        Operator::Gc(inner) => gc::gc(out, inner),
        Operator::Misc(inner) => misc::misc(out, inner),
        Operator::Simd(inner) => simd::simd(out, inner),
        Operator::Atomic(inner) => atomic::atomic(out, inner),
    }
}
