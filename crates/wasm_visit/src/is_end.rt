ghost use Rattle.std.specs.Prelude.{◌≡◌, ◌↔◌, IsTrue};
ghost use Rattle.wasm_instr.specs.declared.operator.Operator.{Operator};

use crate::operator::VisitOperator;
use wasm_imm::BrTable;
use wasm_instr::Operator;
use wasm_visit_groups::{ByAny, Visitor};

/// A visitor that returns whether the operator is `End`.
#[derive(Drop)]
pub struct IsEndOperatorVisitor;

impl Visitor for IsEndOperatorVisitor {
    type Output = bool;

    type Visits = ByAny;

    ghost visits = { λ before op outcome after. IsTrue outcome ↔ (op ≡ Operator.End) };

    #[inline(always)]
    fn visit_any(&mut self, op: Operator<'static>) -> bool {
        matches!(op, Operator::End)
    }
}

impl<'a> VisitOperator<'a> for IsEndOperatorVisitor {
    #[inline(always)]
    fn visit_br_table(&mut self, _targets: BrTable<'a>) -> bool {
        false
    }
}
