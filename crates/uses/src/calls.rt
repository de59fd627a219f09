ghost use Rattle.std.specs.Prelude.{◌≡◌, List, IfOk};
ghost use Rattle.wasm_operators.specs.Body.{EncodesBody};
ghost use Rattle.wasm_operators.specs.Expression.{Placed};
ghost use Rattle.wasm_operators.specs.Locals.{Declaration};
ghost use Rattle.uses.specs.Calls.{calls_of, CallsVisit};
ghost use Rattle.uses.specs.Input.{input};

use std::alloc::Global;
use std::marker::Model;
use wasm_operators::{
    BinaryReader, BrTable, ByAny, Error, FunctionBody, Message, Operator, Result, VisitOperator,
    Visitor, WasmFeatures, body_laws,
};

#[derive(Drop)]
struct Calls {
    calls: Vec<u32>,
    refused: bool,
}

impl Model for Calls {
    ghost use Rattle.uses.specs.Calls.{Found};

    ghost Value = { Found };

    ghost view = { λ c. record { calls = c.calls.items; refused = c.refused } };
}

impl Visitor for Calls {
    type Output = ();

    type Visits = ByAny;

    ghost visits = { λ before op outcome after. CallsVisit before op after };

    fn visit_any(&mut self, op: Operator<'static>) {
        match op {
            Operator::Call { function_index } | Operator::ReturnCall { function_index } => {
                if self.calls.push(function_index).is_err() {
                    self.refused = true;
                }
            }
            _ => {}
        }
    }
}

impl<'a> VisitOperator<'a> for Calls {
    fn visit_br_table(&mut self, _targets: BrTable<'a>) {}
}

/// Returns the indices of the functions that a body calls directly, in order.
///
/// The clause `tree` of `visit_all_simd` gives the expression and its visits, the law
/// `opened_bodies` the body.
pub fn called_functions(alloc: Global, features: WasmFeatures, bytes: &[u8]) -> Result<Vec<u32>>
    ensures { IfOk result (λ calls. (declarations : List Declaration) × (placed : Placed)
        × EncodesBody (input features bytes.now) declarations placed × (calls.items ≡ calls_of placed)) }
{
    body_laws::opened_bodies();
    let mut found = Calls {
        calls: Vec::new(alloc),
        refused: false,
    };
    let body = FunctionBody::new(BinaryReader::new_features(bytes, 0, features));
    body.get_operators_reader(alloc)?
        .visit_all_simd(&mut found)?;
    let Calls { calls, refused } = found;
    if refused {
        return Err(Error::new(Message::OutOfMemory, 0));
    }
    Ok(calls)
}
