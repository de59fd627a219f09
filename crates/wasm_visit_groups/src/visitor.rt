ghost use Rattle.std.specs.Prelude.{◌≡◌, box_value};
ghost use Rattle.wasm_instr.specs.declared.operator.Operator.{Operator};

use crate::route::Through;
use crate::routes::Routes;
use wasm_instr::Operator;

/// A visitor: the type that its visits return, the groups whose visits it overrides, the relation
/// that the visits satisfy, and the default visit.
pub trait Visitor {
    /// The type that a visit returns.
    type Output;

    /// The groups whose visits it overrides: `ByAny` for none, `OwnGc<OwnMisc<ByAny>>` for
    /// `VisitGc` and `VisitMisc`.
    type Visits: Routes;

    // The relation that a visit satisfies: visitor before, operator, result, visitor after.
    ghost visits: { Self → Operator → Self.Output → Self → Type 0 };

    /// Visits an operator whose visit is not overridden, including SIMD operators.
    fn visit_any(&mut self, op: Operator<'static>) -> Self::Output
        ensures { Self.visits self.old op.entry result self.new };
}

impl<V: Visitor> Visitor for &mut V {
    type Output = V::Output;

    type Visits = Through<V::Visits>;

    ghost visits = { λ s op r t. (s.ghost_name ≡ t.ghost_name) × V.visits s.now op r t.now };

    #[inline(always)]
    fn visit_any(&mut self, op: Operator<'static>) -> Self::Output {
        (**self).visit_any(op)
    }
}

impl<V: Visitor> Visitor for Box<V> {
    type Output = V::Output;

    type Visits = Through<V::Visits>;

    ghost visits = { λ s op r t. V.visits (box_value s) op r (box_value t) };

    #[inline(always)]
    fn visit_any(&mut self, op: Operator<'static>) -> Self::Output {
        (**self).visit_any(op)
    }
}
