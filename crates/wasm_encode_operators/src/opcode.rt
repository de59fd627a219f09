ghost use Rattle.std.specs.Prelude.{◌+◌, ◌≤◌, vec_len, vec_capacity};
ghost use Rattle.wasm_instr.specs.Row.{prefix_of, opcode_of};
ghost use Rattle.wasm_instr.specs.Encoding.{EncodesOpcode};
ghost use Rattle.wasm_encode_numbers.specs.Appended.{Appends};

use crate::codes::code_of;
use wasm_encode_numbers::write_u32;
use wasm_instr::Operator;

/// The opcode of an operator.
#[derive(Clone, Copy)]
pub enum Opcode {
    /// One byte.
    Byte(u8),
    /// The prefix byte and the subopcode.
    Prefixed(u8, u32),
}

/// Appends the opcode, or the prefix byte and the shortest encoding of the subopcode: at most 11
/// bytes.
#[inline(always)]
pub fn write_opcode(out: &mut Vec<u8>, op: &Operator<'_>)
    requires { vec_len out.old + 11 ≤ vec_capacity out.old }
    ensures written { Appends (EncodesOpcode (prefix_of op.now)) (opcode_of op.now) out.old.items out.new.items }
    ensures len { vec_len out.new ≤ vec_len out.old + 11 }
    ensures capacity { vec_capacity out.old ≤ vec_capacity out.new }
{
    match code_of(op) {
        Opcode::Byte(code) => out.push_reserved(code),
        Opcode::Prefixed(prefix, code) => {
            out.push_reserved(prefix);
            write_u32(out, code);
        }
    }
}
