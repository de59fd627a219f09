ghost use Rattle.std.specs.Prelude.{◌≡◌};
ghost use Rattle.wasm_instr.specs.declared.operator.Operator.{Operator};

use wasm_instr::Operator;
use wasm_visit_groups::{ByAny, OwnOneByte, VisitOneByte, Visitor};

/// A visitor that returns the operator, which borrows nothing. Higher crates read operators by it.
///
/// It has no visit of a branch table, whose operator borrows. A caller that reads a branch table
/// makes the operator without a visitor. It names the visits of one group, so that `dispatch` can
/// call them.
#[derive(Drop)]
pub struct Made;

impl Visitor for Made {
    type Output = Operator<'static>;

    type Visits = OwnOneByte<ByAny>;

    ghost visits = { λ before op outcome after. outcome ≡ op };

    #[inline(always)]
    fn visit_any(&mut self, op: Operator<'static>) -> Operator<'static> {
        op
    }
}

impl VisitOneByte for Made {}
