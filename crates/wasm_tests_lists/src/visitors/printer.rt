ghost use Rattle.std.specs.Prelude.{◌≤◌};

use std::alloc::AllocError;
use wasm_below as below;
use wasm_below::BinaryReader;
use wasm_decode_groups as decode;
use wasm_imm::BrTable;
use wasm_instr::Operator;
use wasm_instr_ops::MiscOperator;
use wasm_visit::{CallMisc, VisitOperator, dispatch};
use wasm_visit_groups::{ByAny, OnceMisc, VisitMisc, Visitor};

/// Writes the names of two operators, and counts the visits of all others.
#[derive(Drop)]
pub struct Printer<'w> {
    pub out: &'w mut String,
    pub others: u64,
}

impl<'w> Visitor for Printer<'w> {
    type Output = Result<(), AllocError>;

    type Visits = OnceMisc<ByAny>;

    ghost visits = { λ before op outcome after. before.others ≤ after.others };

    fn visit_any(&mut self, _op: Operator<'static>) -> Result<(), AllocError> {
        self.others = self.others.saturating_add(1);
        Ok(())
    }
}

impl<'w> VisitMisc for Printer<'w> {
    fn visit_data_drop(&mut self, data_index: u32) -> Result<(), AllocError> {
        writeln!(self.out, "data.drop {data_index}")
    }
}

impl<'w> CallMisc for Printer<'w> {
    fn dispatch_misc(&mut self, op: MiscOperator) -> Self::Output {
        dispatch::misc(self, op)
    }

    fn decode_misc(
        &mut self,
        reader: &mut BinaryReader<'_>,
        start: usize,
        code: u32,
    ) -> below::Result<Self::Output> {
        decode::misc(self, reader, start, code)
    }
}

impl<'a, 'w> VisitOperator<'a> for Printer<'w> {
    fn visit_br_table(&mut self, _targets: BrTable<'a>) -> Result<(), AllocError> {
        self.out.push_str("br_table\n")
    }
}
