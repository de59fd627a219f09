ghost use Rattle.std.specs.Prelude.{◌≡◌};
ghost use Rattle.wasm_typing.specs.Steps.{frame_label};
ghost use Rattle.wasm_check_control.specs.State.{construct_of, type_of_frame, results_of};

use wasm_below::ValType;
use wasm_typing::ValueType;

/// The construct of a control frame.
#[derive(Clone, Copy, Debug, PartialEq, Eq)]
pub enum FrameKind {
    Block,
    Loop,
    If,
    Else,
    TryTable,
}

/// A list of value types: `one` if there is one, otherwise `many`. The last is on top of the stack.
///
/// The result type of a block is in no list that could be borrowed.
#[derive(Clone, Copy, Debug)]
pub struct ResultTypes<'m> {
    pub one: Option<ValueType>,
    pub many: &'m [ValType],
}

/// A control frame. Specification: Appendix, Validation Algorithm.
#[derive(Clone, Copy, Debug)]
pub struct Frame<'m> {
    pub kind: FrameKind,
    pub takes: &'m [ValType],
    /// The only result, or none: then the results are in `leaves`.
    pub one: Option<ValueType>,
    pub leaves: &'m [ValType],
    pub unreachable: bool,
}

impl<'m> Frame<'m> {
    /// Returns the types that a branch to the label of this frame takes.
    pub fn label(&self) -> ResultTypes<'m>
        ensures { results_of result.one result.many.now ≡ frame_label (construct_of self.now.kind) (type_of_frame self.now) }
    {
        match self.kind {
            FrameKind::Loop => ResultTypes {
                one: None,
                many: self.takes,
            },
            FrameKind::Block | FrameKind::If | FrameKind::Else | FrameKind::TryTable => {
                ResultTypes {
                    one: self.one,
                    many: self.leaves,
                }
            }
        }
    }
}
