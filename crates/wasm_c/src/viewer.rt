//! The visitor that makes the C struct of an operator, and finds its effect on the frames.
ghost use Rattle.std.specs.Prelude.{◌≡◌};
ghost use Rattle.wasm_operators.specs.grammar.declared.frame_kind.FrameKind.{FrameKind};
ghost use Rattle.wasm_operators.specs.grammar.Frames.{change_of};
ghost use Rattle.wasm_operators.specs.instr.Roles.{role_of};
ghost use Rattle.wasm_view.specs.View.{view_of};

use wasm_operators::{
    BrTable, ByAny, FrameChange, FrameKind, FrameStack, Operator, VisitOperator, Visitor,
};
use wasm_view::{WasmOperator, view_of};

/// The innermost frame, the offset of the next operator, and what was found of the visited
/// operator.
#[derive(Drop)]
pub struct Viewer {
    pub frame: FrameKind,
    pub offset: u64,
    pub view: WasmOperator,
    pub change: FrameChange,
}

impl Viewer {
    pub fn new() -> Viewer
        ensures frame { result.frame ≡ FrameKind.Block }
        ensures offset { result.offset ≡ 0 }
    {
        Viewer {
            frame: FrameKind::Block,
            offset: 0,
            view: WasmOperator::bare(0, 0, 0),
            change: FrameChange::Stays,
        }
    }
}

impl FrameStack for Viewer {
    ghost use Rattle.std.specs.Prelude.{Some};

    ghost frame = { λ viewer. Some viewer.frame };

    #[inline(always)]
    fn current_frame(&self) -> Option<FrameKind> {
        Some(self.frame)
    }
}

impl Visitor for Viewer {
    type Output = ();

    type Visits = ByAny;

    // The C struct describes the operator at this offset.
    ghost visits = { λ before op outcome after. (after.view ≡ view_of (op, before.offset))
        × (after.change ≡ change_of (role_of op)) };

    #[inline(always)]
    fn visit_any(&mut self, op: Operator<'static>) {
        self.view = view_of(&op, self.offset);
        self.change = op.frame_change();
    }
}

impl<'a> VisitOperator<'a> for Viewer {
    #[inline(always)]
    fn visit_br_table(&mut self, targets: BrTable<'a>) {
        let op = Operator::BrTable { targets };
        self.view = view_of(&op, self.offset);
        self.change = FrameChange::Stays;
    }
}
