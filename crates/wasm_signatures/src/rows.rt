//! Written by tools/lists.py from tools/operators.tsv.
ghost use Rattle.std.specs.Prelude.{◌≡◌, None};
ghost use Rattle.wasm_instr.specs.Row.{prefix_of, opcode_of};
ghost use Rattle.wasm_instr.specs.declared.operator.Operator.{Operator};
ghost use Rattle.wasm_signatures.specs.Own.{operator_typing};
ghost use Rattle.wasm_signatures.specs.Rows.{HasRow};

use crate::operand_type::OperandType;

/// The types of an operator with at most two operands and one result.
#[derive(Clone, Copy, Debug)]
pub struct Row {
    /// The number of operands, at most 2.
    pub takes: u8,
    /// The number of results, at most 1.
    pub leaves: u8,
    /// The type of the lower operand, or of the only one.
    pub below: OperandType,
    /// The type of the operand on top of the stack.
    pub top: OperandType,
    pub result: OperandType,
}

const NONE_TO_NONE: Row = Row {
    takes: 0,
    leaves: 0,
    below: OperandType::I32,
    top: OperandType::I32,
    result: OperandType::I32,
};

const ADDRESS_TO_I32: Row = Row {
    takes: 1,
    leaves: 1,
    below: OperandType::Address,
    top: OperandType::Address,
    result: OperandType::I32,
};

const ADDRESS_TO_I64: Row = Row {
    takes: 1,
    leaves: 1,
    below: OperandType::Address,
    top: OperandType::Address,
    result: OperandType::I64,
};

const ADDRESS_TO_F32: Row = Row {
    takes: 1,
    leaves: 1,
    below: OperandType::Address,
    top: OperandType::Address,
    result: OperandType::F32,
};

const ADDRESS_TO_F64: Row = Row {
    takes: 1,
    leaves: 1,
    below: OperandType::Address,
    top: OperandType::Address,
    result: OperandType::F64,
};

const ADDRESS_I32_TO_NONE: Row = Row {
    takes: 2,
    leaves: 0,
    below: OperandType::Address,
    top: OperandType::I32,
    result: OperandType::I32,
};

const ADDRESS_I64_TO_NONE: Row = Row {
    takes: 2,
    leaves: 0,
    below: OperandType::Address,
    top: OperandType::I64,
    result: OperandType::I32,
};

const ADDRESS_F32_TO_NONE: Row = Row {
    takes: 2,
    leaves: 0,
    below: OperandType::Address,
    top: OperandType::F32,
    result: OperandType::I32,
};

const ADDRESS_F64_TO_NONE: Row = Row {
    takes: 2,
    leaves: 0,
    below: OperandType::Address,
    top: OperandType::F64,
    result: OperandType::I32,
};

const NONE_TO_ADDRESS: Row = Row {
    takes: 0,
    leaves: 1,
    below: OperandType::I32,
    top: OperandType::I32,
    result: OperandType::Address,
};

const ADDRESS_TO_ADDRESS: Row = Row {
    takes: 1,
    leaves: 1,
    below: OperandType::Address,
    top: OperandType::Address,
    result: OperandType::Address,
};

const NONE_TO_I32: Row = Row {
    takes: 0,
    leaves: 1,
    below: OperandType::I32,
    top: OperandType::I32,
    result: OperandType::I32,
};

const NONE_TO_I64: Row = Row {
    takes: 0,
    leaves: 1,
    below: OperandType::I32,
    top: OperandType::I32,
    result: OperandType::I64,
};

const NONE_TO_F32: Row = Row {
    takes: 0,
    leaves: 1,
    below: OperandType::I32,
    top: OperandType::I32,
    result: OperandType::F32,
};

const NONE_TO_F64: Row = Row {
    takes: 0,
    leaves: 1,
    below: OperandType::I32,
    top: OperandType::I32,
    result: OperandType::F64,
};

const I32_TO_I32: Row = Row {
    takes: 1,
    leaves: 1,
    below: OperandType::I32,
    top: OperandType::I32,
    result: OperandType::I32,
};

const I32_I32_TO_I32: Row = Row {
    takes: 2,
    leaves: 1,
    below: OperandType::I32,
    top: OperandType::I32,
    result: OperandType::I32,
};

const I64_TO_I32: Row = Row {
    takes: 1,
    leaves: 1,
    below: OperandType::I64,
    top: OperandType::I64,
    result: OperandType::I32,
};

const I64_I64_TO_I32: Row = Row {
    takes: 2,
    leaves: 1,
    below: OperandType::I64,
    top: OperandType::I64,
    result: OperandType::I32,
};

const F32_F32_TO_I32: Row = Row {
    takes: 2,
    leaves: 1,
    below: OperandType::F32,
    top: OperandType::F32,
    result: OperandType::I32,
};

const F64_F64_TO_I32: Row = Row {
    takes: 2,
    leaves: 1,
    below: OperandType::F64,
    top: OperandType::F64,
    result: OperandType::I32,
};

const I64_TO_I64: Row = Row {
    takes: 1,
    leaves: 1,
    below: OperandType::I64,
    top: OperandType::I64,
    result: OperandType::I64,
};

const I64_I64_TO_I64: Row = Row {
    takes: 2,
    leaves: 1,
    below: OperandType::I64,
    top: OperandType::I64,
    result: OperandType::I64,
};

const F32_TO_F32: Row = Row {
    takes: 1,
    leaves: 1,
    below: OperandType::F32,
    top: OperandType::F32,
    result: OperandType::F32,
};

const F32_F32_TO_F32: Row = Row {
    takes: 2,
    leaves: 1,
    below: OperandType::F32,
    top: OperandType::F32,
    result: OperandType::F32,
};

const F64_TO_F64: Row = Row {
    takes: 1,
    leaves: 1,
    below: OperandType::F64,
    top: OperandType::F64,
    result: OperandType::F64,
};

const F64_F64_TO_F64: Row = Row {
    takes: 2,
    leaves: 1,
    below: OperandType::F64,
    top: OperandType::F64,
    result: OperandType::F64,
};

const F32_TO_I32: Row = Row {
    takes: 1,
    leaves: 1,
    below: OperandType::F32,
    top: OperandType::F32,
    result: OperandType::I32,
};

const F64_TO_I32: Row = Row {
    takes: 1,
    leaves: 1,
    below: OperandType::F64,
    top: OperandType::F64,
    result: OperandType::I32,
};

const I32_TO_I64: Row = Row {
    takes: 1,
    leaves: 1,
    below: OperandType::I32,
    top: OperandType::I32,
    result: OperandType::I64,
};

const F32_TO_I64: Row = Row {
    takes: 1,
    leaves: 1,
    below: OperandType::F32,
    top: OperandType::F32,
    result: OperandType::I64,
};

const F64_TO_I64: Row = Row {
    takes: 1,
    leaves: 1,
    below: OperandType::F64,
    top: OperandType::F64,
    result: OperandType::I64,
};

const I32_TO_F32: Row = Row {
    takes: 1,
    leaves: 1,
    below: OperandType::I32,
    top: OperandType::I32,
    result: OperandType::F32,
};

const I64_TO_F32: Row = Row {
    takes: 1,
    leaves: 1,
    below: OperandType::I64,
    top: OperandType::I64,
    result: OperandType::F32,
};

const F64_TO_F32: Row = Row {
    takes: 1,
    leaves: 1,
    below: OperandType::F64,
    top: OperandType::F64,
    result: OperandType::F32,
};

const I32_TO_F64: Row = Row {
    takes: 1,
    leaves: 1,
    below: OperandType::I32,
    top: OperandType::I32,
    result: OperandType::F64,
};

const I64_TO_F64: Row = Row {
    takes: 1,
    leaves: 1,
    below: OperandType::I64,
    top: OperandType::I64,
    result: OperandType::F64,
};

const F32_TO_F64: Row = Row {
    takes: 1,
    leaves: 1,
    below: OperandType::F32,
    top: OperandType::F32,
    result: OperandType::F64,
};

const EQREF_EQREF_TO_I32: Row = Row {
    takes: 2,
    leaves: 1,
    below: OperandType::EqRef,
    top: OperandType::EqRef,
    result: OperandType::I32,
};

/// The rows by opcode.
static ROWS: [Row; 256] = [
    NONE_TO_NONE,
    NONE_TO_NONE,
    NONE_TO_NONE,
    NONE_TO_NONE,
    NONE_TO_NONE,
    NONE_TO_NONE,
    NONE_TO_NONE,
    NONE_TO_NONE,
    NONE_TO_NONE,
    NONE_TO_NONE,
    NONE_TO_NONE,
    NONE_TO_NONE,
    NONE_TO_NONE,
    NONE_TO_NONE,
    NONE_TO_NONE,
    NONE_TO_NONE,
    NONE_TO_NONE,
    NONE_TO_NONE,
    NONE_TO_NONE,
    NONE_TO_NONE,
    NONE_TO_NONE,
    NONE_TO_NONE,
    NONE_TO_NONE,
    NONE_TO_NONE,
    NONE_TO_NONE,
    NONE_TO_NONE,
    NONE_TO_NONE,
    NONE_TO_NONE,
    NONE_TO_NONE,
    NONE_TO_NONE,
    NONE_TO_NONE,
    NONE_TO_NONE,
    NONE_TO_NONE,
    NONE_TO_NONE,
    NONE_TO_NONE,
    NONE_TO_NONE,
    NONE_TO_NONE,
    NONE_TO_NONE,
    NONE_TO_NONE,
    NONE_TO_NONE,
    ADDRESS_TO_I32,
    ADDRESS_TO_I64,
    ADDRESS_TO_F32,
    ADDRESS_TO_F64,
    ADDRESS_TO_I32,
    ADDRESS_TO_I32,
    ADDRESS_TO_I32,
    ADDRESS_TO_I32,
    ADDRESS_TO_I64,
    ADDRESS_TO_I64,
    ADDRESS_TO_I64,
    ADDRESS_TO_I64,
    ADDRESS_TO_I64,
    ADDRESS_TO_I64,
    ADDRESS_I32_TO_NONE,
    ADDRESS_I64_TO_NONE,
    ADDRESS_F32_TO_NONE,
    ADDRESS_F64_TO_NONE,
    ADDRESS_I32_TO_NONE,
    ADDRESS_I32_TO_NONE,
    ADDRESS_I64_TO_NONE,
    ADDRESS_I64_TO_NONE,
    ADDRESS_I64_TO_NONE,
    NONE_TO_ADDRESS,
    ADDRESS_TO_ADDRESS,
    NONE_TO_I32,
    NONE_TO_I64,
    NONE_TO_F32,
    NONE_TO_F64,
    I32_TO_I32,
    I32_I32_TO_I32,
    I32_I32_TO_I32,
    I32_I32_TO_I32,
    I32_I32_TO_I32,
    I32_I32_TO_I32,
    I32_I32_TO_I32,
    I32_I32_TO_I32,
    I32_I32_TO_I32,
    I32_I32_TO_I32,
    I32_I32_TO_I32,
    I64_TO_I32,
    I64_I64_TO_I32,
    I64_I64_TO_I32,
    I64_I64_TO_I32,
    I64_I64_TO_I32,
    I64_I64_TO_I32,
    I64_I64_TO_I32,
    I64_I64_TO_I32,
    I64_I64_TO_I32,
    I64_I64_TO_I32,
    I64_I64_TO_I32,
    F32_F32_TO_I32,
    F32_F32_TO_I32,
    F32_F32_TO_I32,
    F32_F32_TO_I32,
    F32_F32_TO_I32,
    F32_F32_TO_I32,
    F64_F64_TO_I32,
    F64_F64_TO_I32,
    F64_F64_TO_I32,
    F64_F64_TO_I32,
    F64_F64_TO_I32,
    F64_F64_TO_I32,
    I32_TO_I32,
    I32_TO_I32,
    I32_TO_I32,
    I32_I32_TO_I32,
    I32_I32_TO_I32,
    I32_I32_TO_I32,
    I32_I32_TO_I32,
    I32_I32_TO_I32,
    I32_I32_TO_I32,
    I32_I32_TO_I32,
    I32_I32_TO_I32,
    I32_I32_TO_I32,
    I32_I32_TO_I32,
    I32_I32_TO_I32,
    I32_I32_TO_I32,
    I32_I32_TO_I32,
    I32_I32_TO_I32,
    I32_I32_TO_I32,
    I64_TO_I64,
    I64_TO_I64,
    I64_TO_I64,
    I64_I64_TO_I64,
    I64_I64_TO_I64,
    I64_I64_TO_I64,
    I64_I64_TO_I64,
    I64_I64_TO_I64,
    I64_I64_TO_I64,
    I64_I64_TO_I64,
    I64_I64_TO_I64,
    I64_I64_TO_I64,
    I64_I64_TO_I64,
    I64_I64_TO_I64,
    I64_I64_TO_I64,
    I64_I64_TO_I64,
    I64_I64_TO_I64,
    I64_I64_TO_I64,
    F32_TO_F32,
    F32_TO_F32,
    F32_TO_F32,
    F32_TO_F32,
    F32_TO_F32,
    F32_TO_F32,
    F32_TO_F32,
    F32_F32_TO_F32,
    F32_F32_TO_F32,
    F32_F32_TO_F32,
    F32_F32_TO_F32,
    F32_F32_TO_F32,
    F32_F32_TO_F32,
    F32_F32_TO_F32,
    F64_TO_F64,
    F64_TO_F64,
    F64_TO_F64,
    F64_TO_F64,
    F64_TO_F64,
    F64_TO_F64,
    F64_TO_F64,
    F64_F64_TO_F64,
    F64_F64_TO_F64,
    F64_F64_TO_F64,
    F64_F64_TO_F64,
    F64_F64_TO_F64,
    F64_F64_TO_F64,
    F64_F64_TO_F64,
    I64_TO_I32,
    F32_TO_I32,
    F32_TO_I32,
    F64_TO_I32,
    F64_TO_I32,
    I32_TO_I64,
    I32_TO_I64,
    F32_TO_I64,
    F32_TO_I64,
    F64_TO_I64,
    F64_TO_I64,
    I32_TO_F32,
    I32_TO_F32,
    I64_TO_F32,
    I64_TO_F32,
    F64_TO_F32,
    I32_TO_F64,
    I32_TO_F64,
    I64_TO_F64,
    I64_TO_F64,
    F32_TO_F64,
    F32_TO_I32,
    F64_TO_I64,
    I32_TO_F32,
    I64_TO_F64,
    I32_TO_I32,
    I32_TO_I32,
    I64_TO_I64,
    I64_TO_I64,
    I64_TO_I64,
    NONE_TO_NONE,
    NONE_TO_NONE,
    NONE_TO_NONE,
    NONE_TO_NONE,
    NONE_TO_NONE,
    NONE_TO_NONE,
    NONE_TO_NONE,
    NONE_TO_NONE,
    NONE_TO_NONE,
    NONE_TO_NONE,
    NONE_TO_NONE,
    NONE_TO_NONE,
    NONE_TO_NONE,
    NONE_TO_NONE,
    EQREF_EQREF_TO_I32,
    NONE_TO_NONE,
    NONE_TO_NONE,
    NONE_TO_NONE,
    NONE_TO_NONE,
    NONE_TO_NONE,
    NONE_TO_NONE,
    NONE_TO_NONE,
    NONE_TO_NONE,
    NONE_TO_NONE,
    NONE_TO_NONE,
    NONE_TO_NONE,
    NONE_TO_NONE,
    NONE_TO_NONE,
    NONE_TO_NONE,
    NONE_TO_NONE,
    NONE_TO_NONE,
    NONE_TO_NONE,
    NONE_TO_NONE,
    NONE_TO_NONE,
    NONE_TO_NONE,
    NONE_TO_NONE,
    NONE_TO_NONE,
    NONE_TO_NONE,
    NONE_TO_NONE,
    NONE_TO_NONE,
    NONE_TO_NONE,
    NONE_TO_NONE,
    NONE_TO_NONE,
    NONE_TO_NONE,
    NONE_TO_NONE,
    NONE_TO_NONE,
    NONE_TO_NONE,
    NONE_TO_NONE,
    NONE_TO_NONE,
    NONE_TO_NONE,
    NONE_TO_NONE,
    NONE_TO_NONE,
    NONE_TO_NONE,
    NONE_TO_NONE,
    NONE_TO_NONE,
    NONE_TO_NONE,
    NONE_TO_NONE,
    NONE_TO_NONE,
    NONE_TO_NONE,
];

/// Returns the types of the operator with this opcode and no prefix byte, if the operator determines
/// them. Otherwise the row has no meaning.
#[inline(always)]
pub fn row_at(code: u8) -> Row
    ensures { (op : Operator) → prefix_of op ≡ None → opcode_of op ≡ code → HasRow result (operator_typing op) }
{
    ROWS[code as usize]
}
