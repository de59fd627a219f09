use wasm_operators::{FrameKind, FrameStack};

/// The frame in which one operator is read.
#[derive(Drop)]
pub struct InFrame {
    pub kind: FrameKind,
}

impl FrameStack for InFrame {
    ghost use Rattle.std.specs.Prelude.{Some};

    ghost frame = { λ stack. Some stack.kind };

    fn current_frame(&self) -> Option<FrameKind> {
        Some(self.kind)
    }
}
