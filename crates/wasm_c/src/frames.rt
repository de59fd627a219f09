//! Open frames as bytes in an array of the caller.
ghost use Rattle.std.specs.Prelude.{◌≡◌, ◌+◌, ◌≤◌, ◌<◌, drop, length, take, Some};
ghost use Rattle.wasm_operators.specs.grammar.Frames.{frames_changed, innermost, opened, OpensFrame};
ghost use Rattle.wasm_c.specs.Frames.{kind_of, kinds};

use wasm_operators::{FrameChange, FrameKind};

/// The byte of a block, and of the frame of an expression.
pub const BLOCK: u8 = 0;

/// Returns the kind of a frame. A byte of no kind counts as a block.
fn kind_of(byte: u8) -> FrameKind
    ensures { result ≡ kind_of byte }
{
    match byte {
        1 => FrameKind::If,
        2 => FrameKind::Else,
        3 => FrameKind::Loop,
        4 => FrameKind::TryTable,
        5 => FrameKind::LegacyTry,
        6 => FrameKind::LegacyCatch,
        7 => FrameKind::LegacyCatchAll,
        _ => FrameKind::Block,
    }
}

fn byte_of(kind: FrameKind) -> u8
    ensures { kind_of result ≡ kind }
{
    match kind {
        FrameKind::Block => BLOCK,
        FrameKind::If => 1,
        FrameKind::Else => 2,
        FrameKind::Loop => 3,
        FrameKind::TryTable => 4,
        FrameKind::LegacyTry => 5,
        FrameKind::LegacyCatch => 6,
        FrameKind::LegacyCatchAll => 7,
    }
}

/// Returns the innermost of `depth` frames.
pub fn innermost(depth: usize, frames: &[u8]) -> FrameKind
    requires some { 0 < depth }
    requires within { depth ≤ length frames.now }
    ensures { innermost (kinds (take depth frames.now)) ≡ Some result }
{
    kind_of(frames[depth - 1])
}

/// Applies `change` to `depth` open frames. Returns how many are then open. The bytes after these are
/// unchanged.
pub fn change_frames(change: FrameChange, depth: usize, frames: &mut [u8]) -> usize
    requires some { 0 < depth }
    requires within { depth ≤ length frames.old }
    requires room { OpensFrame change → depth < length frames.old }
    ensures frames { kinds (take result frames.new) ≡ frames_changed (kinds (take depth frames.old)) change }
    ensures past { drop result frames.new ≡ drop result frames.old }
    ensures within { result ≤ length frames.old }
    ensures most { result ≤ depth + opened change }
    ensures least { depth ≤ result + 1 }
{
    match change {
        FrameChange::Stays => depth,
        FrameChange::Opens(kind) => {
            frames[depth] = byte_of(kind);
            depth + 1
        }
        FrameChange::Turns(kind) => {
            frames[depth - 1] = byte_of(kind);
            depth
        }
        FrameChange::Closes => depth - 1,
    }
}
