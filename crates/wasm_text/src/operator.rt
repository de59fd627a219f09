ghost use Rattle.std.specs.Prelude.{◌≡◌, ◌++◌, ◌+◌, ◌^◌, ◌<◌, OnOk, IfOk, string_bytes, length, slice_index};
ghost use Rattle.wasm_text.specs.Rows.{line_of};
ghost use Rattle.wasm_text.specs.Lines.{shown_name, change_in, depth_of, depth_after, between};
ghost use Rattle.wasm_text.specs.Operands.{text_of};

use crate::function::write_name;
use crate::rows::{begin_line, end_line};
use crate::write_operator;
use std::alloc::AllocError;
use wasm_grammar::FrameChange;
use wasm_instr::{Operator, frame_change_at};

/// Returns how deep an operator's line is indented.
fn depth_of(change: FrameChange, depth: usize) -> usize
    ensures { result ≡ depth_of change depth }
{
    match change {
        FrameChange::Turns(_) | FrameChange::Closes => depth.saturating_sub(1),
        FrameChange::Stays | FrameChange::Opens(_) => depth,
    }
}

/// Returns how many constructs are open after an operator.
fn depth_after(change: FrameChange, depth: usize) -> usize
    requires { depth + 1 < 2 ^ 64 }
    ensures { result ≡ depth_after change depth }
{
    match change {
        FrameChange::Opens(_) => depth + 1,
        FrameChange::Closes => depth.saturating_sub(1),
        FrameChange::Stays | FrameChange::Turns(_) => depth,
    }
}

/// Returns the first byte, or 0 if there is none.
fn opcode_of(bytes: &[u8]) -> u8
    ensures { result ≡ slice_index bytes.now 0 }
{
    match bytes {
        [opcode, ..] => *opcode,
        [] => 0,
    }
}

/// Returns the bytes from one offset to another; `start` is the offset of `bytes[0]`.
pub fn bytes_between(bytes: &[u8], start: u64, from: u64, to: u64) -> &[u8]
    ensures bytes { result.now ≡ between start bytes.now from to }
    ensures fits { from + length result.now < 2 ^ 64 }
{
    let after = from.saturating_sub(start);
    if after > bytes.len() as u64 {
        return &[];
    }
    let left = &bytes[after as usize..];
    let needed = to.saturating_sub(from);
    if needed > left.len() as u64 {
        return left;
    }
    &left[..needed as usize]
}

/// Writes the lines of the operator at `offset`, with its `bytes` and the name `callee` unless that
/// is empty. Takes and returns how many constructs are open.
pub fn write_line(
    out: &mut String,
    depth: usize,
    offset: u64,
    bytes: &[u8],
    op: &Operator<'_>,
    callee: &str,
) -> Result<usize, AllocError>
    requires fits { offset + length bytes.now < 2 ^ 64 }
    requires deep { depth + 1 < 2 ^ 64 }
    ensures lines { OnOk result (string_bytes out.new ≡ string_bytes out.old
        ++ line_of (depth_of (change_in bytes.now) depth) offset bytes.now (text_of op.now ++ shown_name callee.now)) }
    ensures after { IfOk result (λ after. after ≡ depth_after (change_in bytes.now) depth) }
{
    let change = frame_change_at(opcode_of(bytes));
    begin_line(out, depth_of(change, depth), offset, bytes)?;
    write_operator(out, op)?;
    write_name(out, callee)?;
    end_line(out, offset, bytes)?;
    Ok(depth_after(change, depth))
}
