//! Decodes the bytes after a prefix byte by a call that is not inlined, so that the code for
//! operators with a one-byte opcode stays small.
//!
//! The call is cold, so that the compiler places the code around it after the loop.
ghost use Rattle.std.specs.Prelude.{ℕ, Option};
ghost use Rattle.wasm_decode_groups.specs.OutOfLine.{with_error};
ghost use Rattle.wasm_grammar.specs.declared.frame_kind.FrameKind.{FrameKind};
ghost use Rattle.wasm_decode_opcodes.specs.Decoding.{IsAfterCode, DecodesAt, DecodesOperatorAt};

use wasm_below::{BinaryReader, Error, Result};
use wasm_decode_groups::no_error;
use wasm_instr::Operator;
use wasm_visit::Made;
use wasm_visit_groups::Visitor;

/// A decoder that starts after a prefix byte or after its subopcode, for the visitor `V`.
pub trait AfterPrefix<V: Visitor> {
    // The prefix byte if a subopcode was read too, else `None`.
    ghost prefix: { Self → Option ℕ };

    // The code that was read last: the prefix byte or the subopcode.
    ghost code: { Self → ℕ };

    // The codes that it decodes.
    ghost codes: { ℕ → Type 0 } = { λ code. Unit {0} };

    fn visit(self, v: &mut V, reader: &mut BinaryReader<'_>, start: usize) -> Result<V::Output>
        requires after { IsAfterCode start (prefix self) (code self) reader.old }
        requires codes { codes (code self) }
        ensures { (frame : FrameKind) → DecodesAt V.visits frame start result reader.old reader.new v.old v.new };
}

/// Visits the operator. The call borrows a copy of the reader, so that the caller's reader stays in
/// registers.
#[inline(always)]
pub fn visit_after_prefix<V: Visitor, B: AfterPrefix<V>>(
    v: &mut V,
    reader: &mut BinaryReader<'_>,
    start: usize,
    after: B,
) -> Result<V::Output>
    requires after { IsAfterCode start (B.prefix after) (B.code after) reader.old }
    requires codes { B.codes (B.code after) }
    ensures { (frame : FrameKind) → DecodesAt V.visits frame start result reader.old reader.new v.old v.new }
{
    let mut error = no_error();
    let mut copy = reader.clone();
    let outcome = out_of_line(v, &mut copy, &mut error, start, after);
    reader.set_position(copy.current_position());
    match outcome {
        Some(outcome) => Ok(outcome),
        None => Err(error),
    }
}

/// Reads the operator. The call borrows the reader itself, which `read` has in memory anyway.
#[inline(always)]
pub fn read_after_prefix<B: AfterPrefix<Made>>(
    reader: &mut BinaryReader<'_>,
    start: usize,
    after: B,
) -> Result<Operator<'static>>
    requires after { IsAfterCode start (B.prefix after) (B.code after) reader.old }
    requires codes { B.codes (B.code after) }
    ensures { (frame : FrameKind) → DecodesOperatorAt frame start result reader.old reader.new }
{
    let mut error = no_error();
    match out_of_line(&mut Made, reader, &mut error, start, after) {
        Some(op) => Ok(op),
        None => Err(error),
    }
}

#[cold]
#[inline(never)]
fn out_of_line<V: Visitor, B: AfterPrefix<V>>(
    v: &mut V,
    reader: &mut BinaryReader<'_>,
    error: &mut Error,
    start: usize,
    after: B,
) -> Option<V::Output>
    requires after { IsAfterCode start (B.prefix after) (B.code after) reader.old }
    requires codes { B.codes (B.code after) }
    ensures { (frame : FrameKind)
        → DecodesAt V.visits frame start (with_error result error.new) reader.old reader.new v.old v.new }
{
    match after.visit(v, reader, start) {
        Ok(outcome) => Some(outcome),
        Err(e) => {
            *error = e;
            None
        }
    }
}
