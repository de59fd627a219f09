ghost use Rattle.std.specs.Prelude.{◌≡◌, ◌+◌, ◌-◌, ◌^◌, ◌<◌, length, IfOk};
ghost use Rattle.wasm_operators.specs.Expression.{Placed, EncodesExpression};
ghost use Rattle.uses.specs.Input.{input};

use std::alloc::Global;
use wasm_operators::{
    BinaryReader, BrTable, ByAny, Operator, OperatorsReader, OwnMisc, Result, VisitMisc,
    VisitOperator, Visitor, WasmFeatures, expression_laws,
};

/// The number of operators that copy or fill memory, and the number of all others.
#[derive(Debug, Drop)]
pub struct Moves {
    pub moves: u64,
    pub others: u64,
}

impl Visitor for Moves {
    type Output = ();

    type Visits = OwnMisc<ByAny>;

    ghost visits = { λ before op outcome after. before.moves + before.others < 2 ^ 64 - 1
        → after.moves + after.others ≡ before.moves + before.others + 1 };

    fn visit_any(&mut self, _op: Operator<'static>) {
        self.others = self.others.saturating_add(1);
    }
}

impl VisitMisc for Moves {
    fn visit_memory_copy(&mut self, _dst_mem: u32, _src_mem: u32) {
        self.moves = self.moves.saturating_add(1);
    }

    fn visit_memory_fill(&mut self, _mem: u32) {
        self.moves = self.moves.saturating_add(1);
    }
}

impl<'a> VisitOperator<'a> for Moves {
    fn visit_br_table(&mut self, _targets: BrTable<'a>) {
        self.others = self.others.saturating_add(1);
    }
}

/// Counts the operators of an expression that copy or fill memory, and separately all others.
///
/// The proof is like the one of `count_operators`, with a relation over both counts.
pub fn count_moves(alloc: Global, features: WasmFeatures, bytes: &[u8]) -> Result<Moves>
    ensures { IfOk result (λ found. (placed : Placed)
        × EncodesExpression (input features bytes.now) placed × (found.moves + found.others ≡ length placed)) }
{
    expression_laws::layouts(features);
    let mut found = Moves {
        moves: 0,
        others: 0,
    };
    let mut reader = OperatorsReader::new(alloc, BinaryReader::new_features(bytes, 0, features));
    reader.visit_all_simd(&mut found)?;
    Ok(found)
}
