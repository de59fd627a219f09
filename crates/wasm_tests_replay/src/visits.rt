use crate::outcomes::write_visits;
use std::alloc::Global;
use wasm_operators::{
    BinaryReader, BrTable, ByAny, FunctionBody, Operator, OperatorsReader, Result, VisitOperator,
    Visitor, WasmFeatures,
};
use wasm_tests_texts::Written;

#[derive(Debug, Drop)]
struct Plain {
    visits: u64,
}

impl Visitor for Plain {
    type Output = ();

    type Visits = ByAny;

    ghost visits = { λ before op outcome after. Unit {0} };

    fn visit_any(&mut self, _op: Operator<'static>) {
        self.visits = self.visits.saturating_add(1);
    }
}

impl<'a> VisitOperator<'a> for Plain {
    fn visit_br_table(&mut self, _targets: BrTable<'a>) {
        self.visits = self.visits.saturating_add(1);
    }
}

#[derive(Debug, Drop)]
struct All {
    visits: u64,
}

impl Visitor for All {
    type Output = ();

    type Visits = ByAny;

    ghost visits = { λ before op outcome after. Unit {0} };

    fn visit_any(&mut self, _op: Operator<'static>) {
        self.visits = self.visits.saturating_add(1);
    }
}

impl<'a> VisitOperator<'a> for All {
    fn visit_br_table(&mut self, _targets: BrTable<'a>) {
        self.visits = self.visits.saturating_add(1);
    }
}

fn after_locals<'a>(
    alloc: Global,
    features: WasmFeatures,
    body: &'a [u8],
) -> Result<OperatorsReader<'a>> {
    FunctionBody::new(BinaryReader::new_features(body, 0, features)).get_operators_reader(alloc)
}

pub fn write_plain(
    alloc: Global,
    features: WasmFeatures,
    body: &[u8],
    out: &mut String,
) -> Written {
    let mut plain = Plain { visits: 0 };
    let outcome = match after_locals(alloc, features, body) {
        Ok(mut operators) => operators.visit_all(&mut plain),
        Err(e) => Err(e),
    };
    write_visits(out, plain.visits, outcome)
}

pub fn write_all(alloc: Global, features: WasmFeatures, body: &[u8], out: &mut String) -> Written {
    let mut all = All { visits: 0 };
    let outcome = match after_locals(alloc, features, body) {
        Ok(mut operators) => operators.visit_all_simd(&mut all),
        Err(e) => Err(e),
    };
    write_visits(out, all.visits, outcome)
}
