ghost use Rattle.std.specs.Prelude.{◌≡◌, OnOk, None};
ghost use Rattle.wasm_instr.specs.Row.{prefix_of, opcode_of};
ghost use Rattle.wasm_typing.specs.Rules.{fixed};
ghost use Rattle.wasm_typing.specs.Types.{value_type};
ghost use Rattle.wasm_typing.specs.Steps.{receives};
ghost use Rattle.wasm_check_control.specs.State.{Answers, taken};
ghost use Rattle.wasm_signatures.specs.Own.{operator_typing};
ghost use Rattle.wasm_signatures.specs.Types.{value_of, typing_of};
ghost use Rattle.wasm_check_operators.specs.Forms.{IsFixed, typed, address_value, fixed_at, by_typing};
ghost use Rattle.wasm_check_operators.specs.Language.{Follows};
ghost use Rattle.wasm_signatures.specs.Rows.{operands, results, type_of_row};

use crate::types::{address, address_value};
use std::alloc::AllocError;
use wasm_check_control::{Control, ModuleContext};
use wasm_instr::Operator;
use wasm_signatures::{OperandType, Row, Typing, operator_typing, row_at};
use wasm_typing::ValueType;

/// Returns the value type of an operand, for addresses of 64 bits or not.
#[inline(always)]
fn operand(ty: OperandType, is_64: bool) -> ValueType
    ensures { result ≡ value_type (value_of (address_value is_64) ty) }
{
    match ty {
        OperandType::I32 => ValueType::I32,
        OperandType::I64 => ValueType::I64,
        OperandType::F32 => ValueType::F32,
        OperandType::F64 => ValueType::F64,
        OperandType::V128 => ValueType::V128,
        OperandType::Address => address(is_64),
        OperandType::EqRef | OperandType::ArrayRef | OperandType::I31Ref | OperandType::I31 => {
            ValueType::new(ty.value_type(address_value(is_64)))
        }
    }
}

/// Takes operands of these types, for addresses of 64 bits or not. The last is on top.
fn expect<M: ModuleContext>(
    control: &mut Control<'_>,
    context: &M,
    types: &[OperandType],
    is_64: bool,
) -> bool
    ensures { Answers result (taken (M.environment context.now).order (typed is_64 types.now) control.old) control.new }
{
    if control.is_closed() {
        return false;
    }
    for i in 0..types.len() {
        if !control.expect(context, operand(types[types.len() - 1 - i], is_64)) {
            return false;
        }
    }
    true
}

/// Leaves operands of these types. The last is on top.
fn give(control: &mut Control<'_>, types: &[OperandType], is_64: bool) -> Result<(), AllocError>
    ensures { OnOk result (control.new ≡ receives (typed is_64 types.now) control.old) }
{
    for i in 0..types.len() {
        control.give(operand(types[i], is_64))?;
    }
    Ok(())
}

fn signature<M: ModuleContext>(
    control: &mut Control<'_>,
    context: &M,
    takes: &[OperandType],
    leaves: &[OperandType],
    is_64: bool,
) -> Result<bool, AllocError>
    ensures { Follows (M.environment context.now) (fixed (typed is_64 takes.now) (typed is_64 leaves.now)) control.old result control.new }
{
    if !expect(control, context, takes, is_64) {
        return Ok(false);
    }
    give(control, leaves, is_64)?;
    Ok(true)
}

/// Takes the operands of a row, for addresses of 64 bits or not.
#[inline(always)]
fn expect_row<M: ModuleContext>(
    control: &mut Control<'_>,
    context: &M,
    row: Row,
    is_64: bool,
) -> bool
    ensures { Answers result (taken (M.environment context.now).order (typed is_64 (operands row.takes row.below row.top)) control.old) control.new }
{
    if control.is_closed() {
        return false;
    }
    if row.takes == 0 {
        return true;
    }
    if !control.expect(context, operand(row.top, is_64)) {
        return false;
    }
    if row.takes == 1 {
        return true;
    }
    control.expect(context, operand(row.below, is_64))
}

/// Leaves the result of a row, if it has one, for addresses of 64 bits or not.
#[inline(always)]
fn give_row(control: &mut Control<'_>, row: Row, is_64: bool) -> Result<(), AllocError>
    ensures { OnOk result (control.new ≡ receives (typed is_64 (results row.leaves row.result)) control.old) }
{
    if row.leaves == 0 {
        return Ok(());
    }
    control.give(operand(row.result, is_64))
}

/// An operator whose types are in this row, for addresses of 64 bits or not.
pub fn by_row<M: ModuleContext>(
    control: &mut Control<'_>,
    context: &M,
    row: Row,
    is_64: bool,
) -> Result<bool, AllocError>
    ensures { Follows (M.environment context.now) (fixed_at is_64 (type_of_row row)) control.old result control.new }
{
    if !expect_row(control, context, row, is_64) {
        return Ok(false);
    }
    give_row(control, row, is_64)?;
    Ok(true)
}

/// An operator of one byte that determines its types, by its opcode, for addresses of 64 bits or
/// not.
#[inline(always)]
pub fn by_code<M: ModuleContext>(
    control: &mut Control<'_>,
    context: &M,
    op: &Operator<'_>,
    code: u8,
    is_64: bool,
) -> Result<bool, AllocError>
    requires opcode { (prefix_of op.now ≡ None) × (opcode_of op.now ≡ code) }
    requires determined { IsFixed (operator_typing op.now) }
    ensures { Follows (M.environment context.now) (by_typing (fixed_at is_64) (operator_typing op.now)) control.old result control.new }
{
    by_row(control, context, row_at(code), is_64)
}

/// An operator with this typing, for addresses of 64 bits or not.
pub fn by_typing<M: ModuleContext>(
    control: &mut Control<'_>,
    context: &M,
    typing: Typing<'_>,
    is_64: bool,
) -> Result<bool, AllocError>
    ensures { Follows (M.environment context.now) (by_typing (fixed_at is_64) (typing_of typing.entry)) control.old result control.new }
{
    match typing {
        Typing::Fixed(types) => signature(control, context, types.takes, types.leaves, is_64),
        Typing::ByRule(_) => Ok(false),
        Typing::Unsupported(_) => Ok(false),
    }
}

/// An operator that determines its types, for addresses of 64 bits or not.
pub fn determined<M: ModuleContext>(
    control: &mut Control<'_>,
    context: &M,
    op: &Operator<'_>,
    is_64: bool,
) -> Result<bool, AllocError>
    ensures { Follows (M.environment context.now) (by_typing (fixed_at is_64) (operator_typing op.now)) control.old result control.new }
{
    by_typing(control, context, operator_typing(op), is_64)
}
