//! Written by tools/lists.py from tools/operators.tsv.
ghost use Rattle.std.specs.Prelude.{◌+◌, ◌≤◌, vec_len, vec_capacity};
ghost use Rattle.wasm_instr.specs.Row.{immediates_of};
ghost use Rattle.wasm_encode_immediates.specs.Written.{WritesImmediates};

use crate::immediates::atomic::write_atomic;
use crate::immediates::gc::write_gc;
use crate::immediates::misc::write_misc;
use crate::immediates::simd::write_simd;
use wasm_below::WasmFeatures;
use wasm_decode_opcodes::{MemoryIndex, PlainMemArg, TableIndex};
use wasm_encode_immediates::{
    Unwritable, Writes, write_branch_table, write_one_type, write_resume, write_resume_throw,
    write_try_table, write_types,
};
use wasm_instr::Operator;

/// Appends the immediates of an operator: at most 33 bytes, unless they have a list. For a list the
/// vector may have to grow.
#[inline(always)]
pub fn write_immediates(
    out: &mut Vec<u8>,
    features: WasmFeatures,
    op: &Operator<'_>,
) -> Result<(), Unwritable>
    requires { vec_len out.old + 33 ≤ vec_capacity out.old }
    ensures { WritesImmediates features (immediates_of op.now) result out.old out.new }
{
    match op {
        Operator::Unreachable
        | Operator::Nop
        | Operator::Else
        | Operator::End
        | Operator::Return
        | Operator::Drop
        | Operator::Select
        | Operator::RefEq
        | Operator::RefIsNull
        | Operator::ThrowRef
        | Operator::CatchAll
        | Operator::RefAsNonNull => Ok(()),
        Operator::Block { blockty: a }
        | Operator::Loop { blockty: a }
        | Operator::If { blockty: a }
        | Operator::Try { blockty: a } => (*a).write(out, features, 0),
        Operator::Br { relative_depth: a }
        | Operator::BrIf { relative_depth: a }
        | Operator::Call { function_index: a }
        | Operator::LocalGet { local_index: a }
        | Operator::LocalSet { local_index: a }
        | Operator::LocalTee { local_index: a }
        | Operator::GlobalGet { global_index: a }
        | Operator::GlobalSet { global_index: a }
        | Operator::RefFunc { function_index: a }
        | Operator::TableGet { table: a }
        | Operator::TableSet { table: a }
        | Operator::ReturnCall { function_index: a }
        | Operator::Throw { tag_index: a }
        | Operator::Catch { tag_index: a }
        | Operator::Rethrow { relative_depth: a }
        | Operator::Delegate { relative_depth: a }
        | Operator::CallRef { type_index: a }
        | Operator::ReturnCallRef { type_index: a }
        | Operator::BrOnNull { relative_depth: a }
        | Operator::BrOnNonNull { relative_depth: a }
        | Operator::ContNew { cont_type_index: a }
        | Operator::Suspend { tag_index: a } => (*a).write(out, features, 0),
        Operator::BrTable { targets: a } => write_branch_table(out, features, a),
        Operator::CallIndirect {
            type_index: a,
            table_index: b,
        } => (*a, TableIndex(*b)).write(out, features, 0),
        Operator::I32Load { memarg: a }
        | Operator::F32Load { memarg: a }
        | Operator::I64Load32S { memarg: a }
        | Operator::I64Load32U { memarg: a }
        | Operator::I32Store { memarg: a }
        | Operator::F32Store { memarg: a }
        | Operator::I64Store32 { memarg: a } => PlainMemArg(*a).write(out, features, 2),
        Operator::I64Load { memarg: a }
        | Operator::F64Load { memarg: a }
        | Operator::I64Store { memarg: a }
        | Operator::F64Store { memarg: a } => PlainMemArg(*a).write(out, features, 3),
        Operator::I32Load8S { memarg: a }
        | Operator::I32Load8U { memarg: a }
        | Operator::I64Load8S { memarg: a }
        | Operator::I64Load8U { memarg: a }
        | Operator::I32Store8 { memarg: a }
        | Operator::I64Store8 { memarg: a } => PlainMemArg(*a).write(out, features, 0),
        Operator::I32Load16S { memarg: a }
        | Operator::I32Load16U { memarg: a }
        | Operator::I64Load16S { memarg: a }
        | Operator::I64Load16U { memarg: a }
        | Operator::I32Store16 { memarg: a }
        | Operator::I64Store16 { memarg: a } => PlainMemArg(*a).write(out, features, 1),
        Operator::MemorySize { mem: a } | Operator::MemoryGrow { mem: a } => MemoryIndex(*a).write(
            out, features, 0,
        ),
        Operator::I32Const { value: a } => (*a).write(out, features, 0),
        Operator::I64Const { value: a } => (*a).write(out, features, 0),
        Operator::F32Const { value: a } => (*a).write(out, features, 0),
        Operator::F64Const { value: a } => (*a).write(out, features, 0),
        Operator::TypedSelect { ty: a } => write_one_type(out, features, *a),
        Operator::TypedSelectMulti { tys: a } => write_types(out, features, a),
        Operator::RefNull { hty: a } => (*a).write(out, features, 0),
        Operator::ReturnCallIndirect {
            type_index: a,
            table_index: b,
        }
        | Operator::ContBind {
            argument_index: a,
            result_index: b,
        }
        | Operator::Switch {
            cont_type_index: a,
            tag_index: b,
        } => (*a, *b).write(out, features, 0),
        Operator::TryTable { try_table: a } => write_try_table(out, features, a),
        Operator::Resume {
            cont_type_index: a,
            resume_table: b,
        }
        | Operator::ResumeThrowRef {
            cont_type_index: a,
            resume_table: b,
        } => write_resume(out, features, *a, b),
        Operator::ResumeThrow {
            cont_type_index: a,
            tag_index: b,
            resume_table: c,
        } => write_resume_throw(out, features, *a, *b, c),
        Operator::Numeric(_) => Ok(()),
        Operator::Gc(inner) => write_gc(out, features, *inner),
        Operator::Misc(inner) => write_misc(out, features, *inner),
        Operator::Simd(inner) => write_simd(out, features, *inner),
        Operator::Atomic(inner) => write_atomic(out, features, *inner),
    }
}
