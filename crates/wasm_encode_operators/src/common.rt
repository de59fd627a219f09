//! The operators of common forms, which are written without a test of the features.
ghost use Rattle.std.specs.Prelude.{◌≡◌, ◌+◌, ◌≤◌, IsTrue, vec_len, vec_capacity};
ghost use Rattle.wasm_below.specs.declared.features.WasmFeatures.{WasmFeatures};
ghost use Rattle.wasm_instr.specs.Encoding.{EncodesOperator};
ghost use Rattle.wasm_encode_numbers.specs.Appended.{Appends};
ghost use Rattle.wasm_encode_operators.specs.Forms.{IsPlain};

use crate::forms::form_of;
use wasm_encode_immediates::write_block_type;
use wasm_encode_numbers::{write_i32, write_i64, write_u32, write_u64};
use wasm_imm::{BlockType, MemArg, MemArgTarget};
use wasm_instr::Operator;

/// The opcode and immediates of an operator. In a common form, the opcode is one byte, there is at
/// most one immediate, and the operator needs no feature.
#[derive(Clone, Copy)]
pub enum Form {
    /// No immediate.
    Byte(u8),
    /// A u32.
    Unsigned(u8, u32),
    /// An i32.
    Signed32(u8, i32),
    /// An i64.
    Signed64(u8, i64),
    /// A block type.
    Block(u8, BlockType),
    /// A memory argument, and its natural alignment as an exponent.
    Access(u8, MemArg, u8),
    /// Any other form.
    Other,
}

/// Appends the shortest encoding of an operator of a common form. Returns false, and appends
/// nothing, if the operator has another form, or a memory argument that is not plain.
#[inline(always)]
pub fn write_common(out: &mut Vec<u8>, op: &Operator<'_>) -> bool
    requires { vec_len out.old + 44 ≤ vec_capacity out.old }
    ensures written { IsTrue result → (f : WasmFeatures)
        → Appends (EncodesOperator f) op.now out.old.items out.new.items }
    ensures unchanged { ¬ IsTrue result → out.new ≡ out.old }
    ensures capacity { vec_capacity out.old ≤ vec_capacity out.new }
{
    match form_of(op) {
        Form::Byte(code) => {
            out.push_reserved(code);
            true
        }
        Form::Unsigned(code, value) => {
            out.push_reserved(code);
            write_u32(out, value);
            true
        }
        Form::Signed32(code, value) => {
            out.push_reserved(code);
            write_i32(out, value);
            true
        }
        Form::Signed64(code, value) => {
            out.push_reserved(code);
            write_i64(out, value);
            true
        }
        Form::Block(code, ty) => {
            out.push_reserved(code);
            write_block_type(out, ty);
            true
        }
        Form::Access(code, memarg, natural) => {
            if !is_plain(natural, memarg) {
                return false;
            }
            out.push_reserved(code);
            out.push_reserved(memarg.align);
            write_u64(out, memarg.offset);
            true
        }
        Form::Other => false,
    }
}

/// Returns whether a memory argument has an encoding under all features that consists of its
/// alignment and offset.
#[inline(always)]
fn is_plain(natural: u8, value: MemArg) -> bool
    ensures { IsTrue result → IsPlain natural value }
{
    match value.target {
        MemArgTarget::Memory(index) => match value.ordering {
            None => {
                index == 0
                    && value.max_align == natural
                    && value.align <= 15
                    && value.offset < 0x1_0000_0000
            }
            Some(_) => false,
        },
        MemArgTarget::Array(_) => false,
    }
}
