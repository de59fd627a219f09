use std::alloc::Global;
use wasm_imm::BrTable;
use wasm_instr::Operator;
use wasm_visit::VisitOperator;
use wasm_visit_groups::{ByAny, OwnMisc, VisitMisc, Visitor};

/// Counts its visits, and overrides the visit of `DataDrop` to keep the index.
#[derive(Debug, Drop)]
pub struct Counter {
    pub dropped: Vec<u32>,
    pub own: u32,
    pub any: u32,
    pub tables: u32,
    pub full: bool,
}

impl Counter {
    pub fn new(alloc: Global) -> Counter {
        Counter {
            dropped: Vec::new(alloc),
            own: 0,
            any: 0,
            tables: 0,
            full: false,
        }
    }
}

impl Visitor for Counter {
    ghost use Rattle.std.specs.Prelude.{◌≤◌};

    type Output = ();

    type Visits = OwnMisc<ByAny>;

    ghost visits = { λ before op outcome after. (before.own ≤ after.own) × (before.any ≤ after.any)
        × (before.tables ≤ after.tables) };

    fn visit_any(&mut self, _op: Operator<'static>) {
        self.any = self.any.saturating_add(1);
    }
}

impl VisitMisc for Counter {
    fn visit_data_drop(&mut self, data_index: u32) {
        self.full = self.dropped.push(data_index).is_err();
        self.own = self.own.saturating_add(1);
    }
}

impl<'a> VisitOperator<'a> for Counter {
    fn visit_br_table(&mut self, _targets: BrTable<'a>) {
        self.tables = self.tables.saturating_add(1);
    }
}
