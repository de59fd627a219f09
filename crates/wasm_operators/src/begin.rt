//! What precedes the immediates of an operator.
ghost use Rattle.std.specs.Prelude.{IfOk, IfErr};
ghost use Rattle.wasm_operators.specs.Next.{BeginsOperator, StopsNext, state_of, all_operators, scalar_operators};

use crate::ControlStack;
use wasm_below::{BinaryReader, Message, Result};
use wasm_decode::no_frame;
use wasm_grammar::{FrameChange, FrameKind};
use wasm_instr::frame_change_at;

/// The first opcode from which on every operator keeps the frames.
pub const KEEPS_FRAMES_FROM: u8 = 0x20;

/// The start of an operator. The change of the frames is found again from `code`, which is a
/// constant where the operator is decoded: a stored change would need a branch.
#[derive(Clone, Copy)]
pub struct OperatorStart {
    pub frame: FrameKind,
    pub start: usize,
    pub code: u8,
}

/// Reads the opcode of the next operator, and reserves capacity for the frame that it opens. Fails
/// with `OperatorsRemaining` if no frame is open, then with `EndOfData` or `OutOfMemory`.
#[inline(always)]
pub fn begin(reader: &mut BinaryReader<'_>, control: &mut ControlStack) -> Result<OperatorStart>
    ensures begun { IfOk result
        (λ at. BeginsOperator (state_of reader.old control.old) (state_of reader.new control.new)
        at.frame at.start at.code) }
    ensures refused { IfErr result
        (λ e. StopsNext all_operators e (state_of reader.old control.old) (state_of reader.new control.new)) }
    ensures scalar { IfErr result
        (λ e. StopsNext scalar_operators e (state_of reader.old control.old) (state_of reader.new control.new)) }
{
    let Some(frame) = control.last() else {
        return Err(no_frame(reader));
    };
    let start = reader.current_position();
    match reader.read_u8() {
        Ok(code) => {
            if code < KEEPS_FRAMES_FROM
                && matches!(frame_change_at(code), FrameChange::Opens(_))
                && control.reserve(1).is_err()
            {
                return Err(reader.refuse(start, Message::OutOfMemory));
            }
            Ok(OperatorStart { frame, start, code })
        }
        Err(e) => Err(e),
    }
}
