ghost use Rattle.std.specs.Prelude.{◌≡◌};
ghost use Rattle.wasm_instr.specs.declared.operator.Operator.{Operator};

use crate::operator::VisitOperator;
use wasm_imm::BrTable;
use wasm_instr::Operator;
use wasm_visit_groups::{ByAny, Visitor};

/// A type whose values can be made from an operator that borrows nothing.
pub trait HoldOperator {
    // The relation between an operator and the value made from it.
    ghost holds: { Operator → Self → Type 0 };

    /// Makes the value from an operator.
    fn hold_operator(op: Operator<'static>) -> Self
        ensures { holds op.entry result };
}

/// A type whose values can also be made from a branch table.
pub trait HoldTable<'a>: HoldOperator {
    /// Makes the value from the targets of a branch table.
    fn hold_table(targets: BrTable<'a>) -> Self
        ensures { Self.holds (Operator.BrTable targets.entry) result };
}

impl<'a> HoldOperator for Operator<'a> {
    ghost holds = { λ op made. made ≡ op };

    #[inline(always)]
    fn hold_operator(op: Operator<'static>) -> Operator<'a> {
        op
    }
}

impl<'a> HoldTable<'a> for Operator<'a> {
    #[inline(always)]
    fn hold_table(targets: BrTable<'a>) -> Operator<'a> {
        Operator::BrTable { targets }
    }
}

/// A visitor that returns a value made from the operator.
#[derive(Drop)]
pub struct OperatorMaker<T> {
    // Always `None`. It ties the visitor to the lifetimes of `T`.
    made: Option<Box<T>>,
}

/// A visitor that returns the operator.
pub type OperatorFactory<'a> = OperatorMaker<Operator<'a>>;

impl<T> OperatorMaker<T> {
    /// Creates a visitor. It has no state.
    pub fn new() -> OperatorMaker<T> {
        OperatorMaker { made: None }
    }
}

impl<T: HoldOperator> Visitor for OperatorMaker<T> {
    type Output = T;

    type Visits = ByAny;

    ghost visits = { λ before op outcome after. T.holds op outcome };

    #[inline(always)]
    fn visit_any(&mut self, op: Operator<'static>) -> T {
        T::hold_operator(op)
    }
}

impl<'a, T: HoldTable<'a>> VisitOperator<'a> for OperatorMaker<T> {
    #[inline(always)]
    fn visit_br_table(&mut self, targets: BrTable<'a>) -> T {
        T::hold_table(targets)
    }
}
