use wasm_imm::BrTable;
use wasm_instr::Operator;
use wasm_visit::VisitOperator;
use wasm_visit_groups::{ByAny, OwnMisc, VisitMisc, Visitor};

#[derive(Clone, Copy, Debug)]
pub enum Call {
    Own,
    Any,
    Table,
}

/// Returns which call it received. Overrides the visit of `DataDrop`.
#[derive(Debug, Drop)]
pub struct Reports;

impl Visitor for Reports {
    type Output = Call;

    type Visits = OwnMisc<ByAny>;

    ghost visits = { λ before op outcome after. Unit {0} };

    fn visit_any(&mut self, _op: Operator<'static>) -> Call {
        Call::Any
    }
}

impl VisitMisc for Reports {
    fn visit_data_drop(&mut self, _data_index: u32) -> Call {
        Call::Own
    }
}

impl<'a> VisitOperator<'a> for Reports {
    fn visit_br_table(&mut self, _targets: BrTable<'a>) -> Call {
        Call::Table
    }
}
