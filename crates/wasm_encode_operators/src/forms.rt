//! Written by tools/lists.py from tools/operators.tsv.
ghost use Rattle.wasm_encode_operators.specs.Forms.{IsForm};

use crate::codes::numeric;
use crate::common::Form;
use wasm_instr::Operator;

/// Returns the form of an operator.
#[inline(always)]
pub fn form_of(op: &Operator<'_>) -> Form
    ensures { IsForm op.now result }
{
    match op {
        Operator::Unreachable => Form::Byte(0x00),
        Operator::Nop => Form::Byte(0x01),
        Operator::Block { blockty: a } => Form::Block(0x02, *a),
        Operator::Loop { blockty: a } => Form::Block(0x03, *a),
        Operator::If { blockty: a } => Form::Block(0x04, *a),
        Operator::Else => Form::Byte(0x05),
        Operator::End => Form::Byte(0x0b),
        Operator::Br { relative_depth: a } => Form::Unsigned(0x0c, *a),
        Operator::BrIf { relative_depth: a } => Form::Unsigned(0x0d, *a),
        Operator::Return => Form::Byte(0x0f),
        Operator::Call { function_index: a } => Form::Unsigned(0x10, *a),
        Operator::Drop => Form::Byte(0x1a),
        Operator::Select => Form::Byte(0x1b),
        Operator::LocalGet { local_index: a } => Form::Unsigned(0x20, *a),
        Operator::LocalSet { local_index: a } => Form::Unsigned(0x21, *a),
        Operator::LocalTee { local_index: a } => Form::Unsigned(0x22, *a),
        Operator::GlobalGet { global_index: a } => Form::Unsigned(0x23, *a),
        Operator::GlobalSet { global_index: a } => Form::Unsigned(0x24, *a),
        Operator::I32Load { memarg: a } => Form::Access(0x28, *a, 2),
        Operator::I64Load { memarg: a } => Form::Access(0x29, *a, 3),
        Operator::F32Load { memarg: a } => Form::Access(0x2a, *a, 2),
        Operator::F64Load { memarg: a } => Form::Access(0x2b, *a, 3),
        Operator::I32Load8S { memarg: a } => Form::Access(0x2c, *a, 0),
        Operator::I32Load8U { memarg: a } => Form::Access(0x2d, *a, 0),
        Operator::I32Load16S { memarg: a } => Form::Access(0x2e, *a, 1),
        Operator::I32Load16U { memarg: a } => Form::Access(0x2f, *a, 1),
        Operator::I64Load8S { memarg: a } => Form::Access(0x30, *a, 0),
        Operator::I64Load8U { memarg: a } => Form::Access(0x31, *a, 0),
        Operator::I64Load16S { memarg: a } => Form::Access(0x32, *a, 1),
        Operator::I64Load16U { memarg: a } => Form::Access(0x33, *a, 1),
        Operator::I64Load32S { memarg: a } => Form::Access(0x34, *a, 2),
        Operator::I64Load32U { memarg: a } => Form::Access(0x35, *a, 2),
        Operator::I32Store { memarg: a } => Form::Access(0x36, *a, 2),
        Operator::I64Store { memarg: a } => Form::Access(0x37, *a, 3),
        Operator::F32Store { memarg: a } => Form::Access(0x38, *a, 2),
        Operator::F64Store { memarg: a } => Form::Access(0x39, *a, 3),
        Operator::I32Store8 { memarg: a } => Form::Access(0x3a, *a, 0),
        Operator::I32Store16 { memarg: a } => Form::Access(0x3b, *a, 1),
        Operator::I64Store8 { memarg: a } => Form::Access(0x3c, *a, 0),
        Operator::I64Store16 { memarg: a } => Form::Access(0x3d, *a, 1),
        Operator::I64Store32 { memarg: a } => Form::Access(0x3e, *a, 2),
        Operator::I32Const { value: a } => Form::Signed32(0x41, *a),
        Operator::I64Const { value: a } => Form::Signed64(0x42, *a),
        Operator::RefEq => Form::Byte(0xd3),
        Operator::RefIsNull => Form::Byte(0xd1),
        Operator::RefFunc { function_index: a } => Form::Unsigned(0xd2, *a),
        Operator::TableGet { table: a } => Form::Unsigned(0x25, *a),
        Operator::TableSet { table: a } => Form::Unsigned(0x26, *a),
        Operator::ReturnCall { function_index: a } => Form::Unsigned(0x12, *a),
        Operator::Throw { tag_index: a } => Form::Unsigned(0x08, *a),
        Operator::ThrowRef => Form::Byte(0x0a),
        Operator::Rethrow { relative_depth: a } => Form::Unsigned(0x09, *a),
        Operator::Delegate { relative_depth: a } => Form::Unsigned(0x18, *a),
        Operator::CallRef { type_index: a } => Form::Unsigned(0x14, *a),
        Operator::ReturnCallRef { type_index: a } => Form::Unsigned(0x15, *a),
        Operator::RefAsNonNull => Form::Byte(0xd4),
        Operator::BrOnNull { relative_depth: a } => Form::Unsigned(0xd5, *a),
        Operator::BrOnNonNull { relative_depth: a } => Form::Unsigned(0xd6, *a),
        Operator::ContNew { cont_type_index: a } => Form::Unsigned(0xe0, *a),
        Operator::Suspend { tag_index: a } => Form::Unsigned(0xe2, *a),
        Operator::Numeric(inner) => Form::Byte(numeric(*inner)),
        _ => Form::Other,
    }
}
