ghost use Rattle.std.specs.Prelude.{◌≡◌, ◌+◌, ◌-◌, ◌^◌, ◌<◌, length, IfOk, IfErr};
ghost use Rattle.wasm_operators.specs.Expression.{Placed, EncodesExpression};
ghost use Rattle.uses.specs.Input.{input};

use std::alloc::Global;
use wasm_operators::{
    BinaryReader, BrTable, ByAny, Message, Operator, OperatorsReader, Result, VisitOperator,
    Visitor, WasmFeatures, expression_laws,
};

#[derive(Debug, Drop)]
pub struct Count {
    pub operators: u64,
}

impl Visitor for Count {
    type Output = ();

    type Visits = ByAny;

    ghost visits = { λ before op outcome after. before.operators < 2 ^ 64 - 1 → after.operators ≡ before.operators + 1 };

    fn visit_any(&mut self, _op: Operator<'static>) {
        self.operators = self.operators.saturating_add(1);
    }
}

impl<'a> VisitOperator<'a> for Count {
    fn visit_br_table(&mut self, _targets: BrTable<'a>) {
        self.operators = self.operators.saturating_add(1);
    }
}

/// Returns the number of operators in an expression.
///
/// The visitor's relation counts one visit, and along the list of the clause `tree` all. By the law
/// `layouts`, the list is no longer than its bytes.
pub fn count_operators(alloc: Global, features: WasmFeatures, bytes: &[u8]) -> Result<u64>
    ensures counts { IfOk result (λ count. (placed : Placed)
        × EncodesExpression (input features bytes.now) placed × (count ≡ length placed)) }
    ensures whole { (placed : Placed) → EncodesExpression (input features bytes.now) placed
        → IfErr result (λ e. e.message ≡ Message.OutOfMemory) }
{
    expression_laws::layouts(features);
    let mut count = Count { operators: 0 };
    let mut reader = OperatorsReader::new(alloc, BinaryReader::new_features(bytes, 0, features));
    reader.visit_all_simd(&mut count)?;
    Ok(count.operators)
}
