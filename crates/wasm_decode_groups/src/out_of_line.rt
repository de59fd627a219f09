//! The less frequent operators with a one-byte opcode, decoded by one call that is not inlined.
ghost use Rattle.std.specs.Prelude.{◌≡◌, None};
ghost use Rattle.wasm_decode_groups.specs.OneByte.{IsOneByteCode};
ghost use Rattle.wasm_decode_groups.specs.OutOfLine.{with_error};
ghost use Rattle.wasm_decode_opcodes.specs.Decoding.{DecodesAt, IsAfterCode};

use crate::one_byte_operators::{AtOneByte, any_one_byte_by};
use std::alloc::Global;
use wasm_below::{BinaryReader, Error, Message, Result};
use wasm_grammar::FrameKind;
use wasm_visit_groups::Visitor;

/// Returns a placeholder, which a call that is not inlined overwrites if it fails.
#[inline(always)]
pub fn no_error() -> Error
    ensures message { result.message ≡ Message.EndOfData }
    ensures offset { result.offset ≡ 0 }
{
    Error::new(Message::EndOfData, 0)
}

/// Reads the immediates of an operator with a one-byte opcode and passes them to `R`. The call
/// borrows a copy of the reader, so that the caller's reader stays in registers.
#[inline(always)]
pub fn other_one_byte_by<V: Visitor, R: AtOneByte<V>>(
    alloc: Global,
    v: &mut V,
    reader: &mut BinaryReader<'_>,
    start: usize,
    frame: FrameKind,
    code: u8,
) -> Result<V::Output>
    requires after { IsAfterCode start None code reader.old }
    requires apart { IsOneByteCode code }
    ensures { DecodesAt V.visits frame start result reader.old reader.new v.old v.new }
{
    let mut error = no_error();
    let mut copy = reader.clone();
    let outcome = out_of_line::<V, R>(alloc, v, &mut copy, &mut error, start, frame, code);
    reader.set_position(copy.current_position());
    match outcome {
        Some(outcome) => Ok(outcome),
        None => Err(error),
    }
}

/// Decodes the operator, without being inlined.
#[inline(never)]
fn out_of_line<V: Visitor, R: AtOneByte<V>>(
    alloc: Global,
    v: &mut V,
    reader: &mut BinaryReader<'_>,
    error: &mut Error,
    start: usize,
    frame: FrameKind,
    code: u8,
) -> Option<V::Output>
    requires after { IsAfterCode start None code reader.old }
    requires apart { IsOneByteCode code }
    ensures { DecodesAt V.visits frame start (with_error result error.new) reader.old reader.new v.old v.new }
{
    match any_one_byte_by::<V, R>(alloc, v, reader, start, frame, code) {
        Ok(outcome) => Some(outcome),
        Err(e) => {
            *error = e;
            None
        }
    }
}
