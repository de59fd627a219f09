ghost use Rattle.std.specs.Prelude.{◌↔◌, IsTrue};
ghost use Rattle.wasm_grammar.specs.Frames.{OpensFrame};

use crate::FrameKind;

/// What an operator does to the open control frames. WebAssembly Core Specification 3.0: Appendix,
/// Validation Algorithm.
#[derive(Clone, Copy, Debug, PartialEq, Eq)]
pub enum FrameChange {
    /// The open frames stay as they are.
    Stays,
    /// A frame of this kind opens inside the innermost.
    Opens(FrameKind),
    /// The innermost frame becomes one of this kind.
    Turns(FrameKind),
    /// The innermost frame closes.
    Closes,
}

impl FrameChange {
    /// Returns whether a frame opens.
    #[inline(always)]
    pub fn opens(self) -> bool
        ensures { IsTrue result ↔ OpensFrame self }
    {
        matches!(self, FrameChange::Opens(_))
    }
}
