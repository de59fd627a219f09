//! The bytes of a C struct.
ghost use Rattle.std.specs.Prelude.{◌≡◌, ◌+◌, ◌≤◌, ◌++◌, length, [], ℕ, List, IsTrue, ◌↔◌};
ghost use Rattle.wasm_below.specs.declared.features.WasmFeatures.{WasmFeatures};
ghost use Rattle.wasm_instr.specs.declared.operator.Operator.{Operator};
ghost use Rattle.wasm_instr.specs.Encoding.{EncodesOperator};
ghost use Rattle.wasm_instr.specs.Row.{immediates_of};
ghost use Rattle.wasm_encode_numbers.specs.Appended.{Appends};
ghost use Rattle.wasm_encode_immediates.specs.Reasons.{HoldList};
ghost use Rattle.wasm_view.specs.View.{view_of};
ghost use Rattle.std.specs.Int.{w64, to_le_bytes};
ghost use Rattle.wasm_encode_view.specs.Bytes.{opcode_bytes, two_bytes, float_bytes, immediate_bytes, view_bytes, list_shape};

use crate::buffer::Buffer;
use crate::memory::{order_byte, write_memory};
use crate::numbers::{write_signed, write_unsigned};
use crate::types::{write_block, write_cast, write_heap, write_value};
use wasm_instr::Operator;
use wasm_view::{WasmOperator, view_of};

/// Returns whether operators with C structs of this shape have a list, which the struct does not
/// hold.
pub fn has_list(shape: u8) -> bool
    ensures { (op : Operator) (at : ℕ) → shape ≡ (view_of (op, at)).shape → IsTrue result ↔ HoldList (immediates_of op) }
{
    is_list_shape(shape)
}

fn is_list_shape(shape: u8) -> bool
    ensures { result ≡ list_shape shape }
{
    if shape == 18 {
        return true;
    }
    if shape < 20 {
        return false;
    }
    shape < 24
}

/// Writes the C struct of an operator without a list: the operator's shortest encoding, if it has
/// one. The bytes of any other C struct have no meaning.
pub fn write_view(view: &WasmOperator) -> Buffer
    ensures { (f : WasmFeatures) (op : Operator) (at : ℕ) (text : List ℕ) → view.now ≡ view_of (op, at)
        → ¬ HoldList (immediates_of op) → EncodesOperator f text op → Appends (EncodesOperator f) op [] result.items }
{
    write_bytes(view)
}

/// Returns the opcode and the immediates.
fn write_bytes(view: &WasmOperator) -> Buffer
    ensures { result.items ≡ view_bytes view.now }
{
    let mut out = Buffer::new();
    write_opcode(&mut out, view.opcode);
    write_immediates(&mut out, view);
    out
}

/// Appends the opcode, or the prefix byte and the subopcode.
fn write_opcode(out: &mut Buffer, opcode: u32)
    requires { length out.old.items + 11 ≤ 64 }
    ensures bytes { out.new.items ≡ out.old.items ++ opcode_bytes opcode }
    ensures len { length out.new.items ≤ length out.old.items + 11 }
{
    if opcode < 65536 {
        out.push((opcode % 256) as u8);
        return;
    }
    out.push((opcode / 65536 % 256) as u8);
    write_unsigned(out, (opcode % 65536) as u64);
}

/// Appends the immediates of each shape but those with a list.
fn write_immediates(out: &mut Buffer, view: &WasmOperator)
    requires { length out.old.items + 33 ≤ 64 }
    ensures { out.new.items ≡ out.old.items ++ immediate_bytes view.now }
{
    match view.shape {
        1 => write_unsigned(out, view.first as u64),
        2 => write_two(out, view.first, view.second),
        3 => write_memory(out, view),
        4 => {
            write_memory(out, view);
            out.push(view.lane);
        }
        5 => out.push(view.lane),
        6 | 7 => write_signed(out, view.wide.cast_signed()),
        8 => write_float_32(out, view.wide),
        9 => write_float_64(out, view.wide),
        10 | 11 => write_sixteen(out, view),
        12 => {
            out.push(order_byte(view.ordering));
            write_unsigned(out, view.first as u64);
        }
        13 => {
            out.push(order_byte(view.ordering));
            write_two(out, view.first, view.second);
        }
        14 => out.push(order_byte(view.ordering)),
        15 => write_heap(out, view.kind, view.first),
        16 => write_cast(
            out,
            view.first,
            view.kind,
            view.second,
            view.other_kind,
            view.third,
        ),
        17 => write_block(out, view.kind, view.first),
        19 => {
            out.push(1);
            write_value(out, view.kind, view.first);
        }
        _ => {}
    }
}

fn write_two(out: &mut Buffer, first: u32, second: u32)
    requires { length out.old.items + 20 ≤ 64 }
    ensures { out.new.items ≡ out.old.items ++ two_bytes first second }
{
    write_unsigned(out, first as u64);
    write_unsigned(out, second as u64);
}

fn write_float_32(out: &mut Buffer, bits: u64)
    requires { length out.old.items + 4 ≤ 64 }
    ensures { out.new.items ≡ out.old.items ++ float_bytes bits }
{
    let bytes = ((bits % 0x1_0000_0000) as u32).to_le_bytes();
    out.extend(&bytes);
}

fn write_float_64(out: &mut Buffer, bits: u64)
    requires { length out.old.items + 8 ≤ 64 }
    ensures { out.new.items ≡ out.old.items ++ to_le_bytes w64 bits }
{
    let bytes = bits.to_le_bytes();
    out.extend(&bytes);
}

fn write_sixteen(out: &mut Buffer, view: &WasmOperator)
    requires { length out.old.items + 16 ≤ 64 }
    ensures { out.new.items ≡ out.old.items ++ view.now.bytes }
{
    out.extend(&view.bytes);
}

/// Returns whether the C struct is the operator's.
pub fn is_view_of(op: &Operator<'_>, view: &WasmOperator) -> bool
    ensures { IsTrue result ↔ (view.now ≡ view_of (op.now, view.now.offset)) }
{
    same_view(view, &view_of(op, view.offset))
}

/// Returns whether all fields are equal.
fn same_view(a: &WasmOperator, b: &WasmOperator) -> bool
    ensures { IsTrue result ↔ (a.now ≡ b.now) }
{
    a == b
}
