//! The frames that are open when an operator is read.
use wasm_grammar::FrameKind;

pub trait FrameStack {
    ghost use Rattle.std.specs.Prelude.{◌≡◌, Option};
    ghost use Rattle.wasm_grammar.specs.declared.frame_kind.FrameKind.{FrameKind};

    ghost frame: { Self → Option FrameKind };

    fn current_frame(&self) -> Option<FrameKind>
        ensures { result ≡ frame self.now };
}
