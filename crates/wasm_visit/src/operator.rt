ghost use Rattle.wasm_instr.specs.declared.operator.Operator.{Operator};

use crate::routes::{
    GroupAtomic, GroupGc, GroupMisc, GroupNumeric, GroupOneByte, GroupSimdHigh, GroupSimdLow,
};
use wasm_imm::BrTable;

/// A visitor of all operators.
///
/// The groups are implemented for every `Visitor` whose `Visits` name a route for each. Here an
/// error occurs if `Visits` name a group and the visitor has no visits of it.
pub trait VisitOperator<'a>: GroupOneByte
    + GroupNumeric
    + GroupGc
    + GroupMisc
    + GroupAtomic
    + GroupSimdLow
    + GroupSimdHigh {
    /// Visits `BrTable`, the only operator that borrows.
    fn visit_br_table(&mut self, targets: BrTable<'a>) -> Self::Output
        ensures { Self.visits self.old (Operator.BrTable targets.entry) result self.new };
}

impl<'a, V: VisitOperator<'a>> VisitOperator<'a> for &mut V {
    fn visit_br_table(&mut self, targets: BrTable<'a>) -> Self::Output {
        (**self).visit_br_table(targets)
    }
}

impl<'a, V: VisitOperator<'a>> VisitOperator<'a> for Box<V> {
    fn visit_br_table(&mut self, targets: BrTable<'a>) -> Self::Output {
        (**self).visit_br_table(targets)
    }
}
