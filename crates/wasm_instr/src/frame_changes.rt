//! Written by tools/lists.py from tools/operators.tsv.
ghost use Rattle.std.specs.Prelude.{◌≡◌};
ghost use Rattle.wasm_grammar.specs.Frames.{change_of};
ghost use Rattle.wasm_instr.specs.Roles.{role_of, change_at};

use crate::operator::Operator;
use wasm_grammar::{FrameChange, FrameKind};

/// Returns what the operators whose first byte this is do to the frames.
#[inline(always)]
pub fn frame_change_at(byte: u8) -> FrameChange
    ensures { result ≡ change_at byte }
{
    match byte {
        0x02 => FrameChange::Opens(FrameKind::Block),
        0x03 => FrameChange::Opens(FrameKind::Loop),
        0x04 => FrameChange::Opens(FrameKind::If),
        0x05 => FrameChange::Turns(FrameKind::Else),
        0x06 => FrameChange::Opens(FrameKind::LegacyTry),
        0x07 => FrameChange::Turns(FrameKind::LegacyCatch),
        0x0b => FrameChange::Closes,
        0x18 => FrameChange::Closes,
        0x19 => FrameChange::Turns(FrameKind::LegacyCatchAll),
        0x1f => FrameChange::Opens(FrameKind::TryTable),
        _ => FrameChange::Stays,
    }
}

impl<'a> Operator<'a> {
    /// Returns what the operator does to the frames.
    pub fn frame_change(&self) -> FrameChange
        ensures { result ≡ change_of (role_of self.now) }
    {
        match self {
            Operator::Block { .. } => FrameChange::Opens(FrameKind::Block),
            Operator::Loop { .. } => FrameChange::Opens(FrameKind::Loop),
            Operator::TryTable { .. } => FrameChange::Opens(FrameKind::TryTable),
            Operator::If { .. } => FrameChange::Opens(FrameKind::If),
            Operator::Try { .. } => FrameChange::Opens(FrameKind::LegacyTry),
            Operator::Else => FrameChange::Turns(FrameKind::Else),
            Operator::Catch { .. } => FrameChange::Turns(FrameKind::LegacyCatch),
            Operator::CatchAll => FrameChange::Turns(FrameKind::LegacyCatchAll),
            Operator::Delegate { .. } | Operator::End => FrameChange::Closes,
            _ => FrameChange::Stays,
        }
    }
}
