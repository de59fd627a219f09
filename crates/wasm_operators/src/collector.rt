//! The visitor that appends operators to a list.
ghost use Rattle.std.specs.Prelude.{◌≡◌, ◌<◌, vec_capacity, vec_len};
ghost use Rattle.wasm_instr.specs.declared.operator.Operator.{Operator};
ghost use Rattle.wasm_operators.specs.Collecting.{CollectsOne};

use wasm_imm::BrTable;
use wasm_instr::Operator;
use wasm_visit::{HoldOperator, HoldTable, VisitOperator};
use wasm_visit_groups::{ByAny, Visitor};

/// Appends an item made of the operator, with the offset that was set before the visit. The item is
/// made in place. The capacity was reserved before the visit, so that no visit allocates.
#[derive(Drop)]
pub struct Collector<T> {
    pub items: Vec<(T, u64)>,
    pub offset: u64,
}

impl<T: HoldOperator + Drop> Visitor for Collector<T> {
    type Output = ();

    type Visits = ByAny;

    // If the list has capacity, a visit appends one item.
    ghost visits = { λ before op outcome after. vec_len before.items < vec_capacity before.items
        → CollectsOne T.holds before.offset before.items.items op after.items.items
        × (vec_capacity after.items ≡ vec_capacity before.items) };

    #[inline(always)]
    fn visit_any(&mut self, op: Operator<'static>) {
        if self.items.len() < self.items.capacity() {
            self.items
                .push_reserved((T::hold_operator(op), self.offset));
        }
    }
}

impl<'a, T: HoldTable<'a> + Drop> VisitOperator<'a> for Collector<T> {
    #[inline(always)]
    fn visit_br_table(&mut self, targets: BrTable<'a>) {
        if self.items.len() < self.items.capacity() {
            self.items
                .push_reserved((T::hold_table(targets), self.offset));
        }
    }
}
