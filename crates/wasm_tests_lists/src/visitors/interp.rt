//! A visitor with a lifetime and a type parameter, which overrides visits.
ghost use Rattle.std.specs.Prelude.{◌≤◌};

use wasm_imm::BrTable;
use wasm_instr::Operator;
use wasm_visit::VisitOperator;
use wasm_visit_groups::{ByAny, OwnGc, VisitGc, Visitor};

#[derive(Drop)]
pub struct Interp<'m, M> {
    pub module: &'m M,
    pub known: Vec<u32>,
    pub unknown: u64,
}

#[derive(Drop)]
pub struct Module {
    pub types: Vec<u32>,
    pub start: u32,
}

impl<'m, M> Visitor for Interp<'m, M> {
    type Output = bool;

    type Visits = OwnGc<ByAny>;

    ghost visits = { λ before op outcome after. before.unknown ≤ after.unknown };

    fn visit_any(&mut self, _op: Operator<'static>) -> bool {
        self.unknown = self.unknown.saturating_add(1);
        false
    }
}

impl<'m, M> VisitGc for Interp<'m, M> {
    fn visit_struct_new(&mut self, struct_type_index: u32) -> bool {
        self.known.push(struct_type_index).is_ok()
    }
}

impl<'a, 'm, M> VisitOperator<'a> for Interp<'m, M> {
    fn visit_br_table(&mut self, targets: BrTable<'a>) -> bool {
        self.known.push(targets.len()).is_ok()
    }
}
