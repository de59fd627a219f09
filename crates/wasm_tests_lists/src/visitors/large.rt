use wasm_imm::BrTable;
use wasm_instr::Operator;
use wasm_visit::{HoldOperator, HoldTable};

#[derive(Drop)]
pub struct Large {
    pub bytes: [u8; 4096],
}

impl HoldOperator for Large {
    ghost holds = { λ op large. Unit {0} };

    fn hold_operator(_op: Operator<'static>) -> Large {
        Large { bytes: [7; 4096] }
    }
}

impl<'a> HoldTable<'a> for Large {
    fn hold_table(_targets: BrTable<'a>) -> Large {
        Large { bytes: [9; 4096] }
    }
}
