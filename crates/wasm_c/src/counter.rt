//! The visitor that counts operators.
ghost use Rattle.std.specs.Prelude.{◌≡◌, ◌+◌, ◌-◌, ◌^◌, ◌<◌};

use wasm_operators::{BrTable, ByAny, Operator, VisitOperator, Visitor};

#[derive(Drop)]
pub struct Counter {
    pub count: usize,
}

impl Visitor for Counter {
    type Output = ();

    type Visits = ByAny;

    // A visit adds one.
    ghost visits = { λ before op outcome after. before.count < 2 ^ 64 - 1 → after.count ≡ before.count + 1 };

    #[inline(always)]
    fn visit_any(&mut self, _op: Operator<'static>) {
        self.count = self.count.saturating_add(1);
    }
}

impl<'a> VisitOperator<'a> for Counter {
    #[inline(always)]
    fn visit_br_table(&mut self, _targets: BrTable<'a>) {
        self.count = self.count.saturating_add(1);
    }
}
