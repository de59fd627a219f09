//! The height of the operand stack along a body that is typed.
ghost use Rattle.std.specs.Prelude.{◌≡◌, List, drop, IfOk};
ghost use Rattle.wasm_operators.specs.Body.{EncodesBody};
ghost use Rattle.wasm_operators.specs.Expression.{Placed, operators};
ghost use Rattle.wasm_operators.specs.Locals.{Declaration};
ghost use Rattle.wasm_check_locals.specs.Locals.{in_function, locals_of};
ghost use Rattle.uses.specs.Input.{input};
ghost use Rattle.uses.specs.TypedHeights.{HasHeight};

use crate::locals::read_body;
use std::alloc::Global;
use wasm_check::{CheckError, FuncType, ModuleContext, check_body};
use wasm_operators::{BinaryReader, Error, Operator, WasmFeatures, body_laws};
use wasm_signatures::{Typing, operator_typing};
use wasm_typing::laws;

/// Why a body has no heights.
pub enum NoHeights {
    Check(CheckError),
    Read(Error),
    /// The height exceeds the greatest `usize`.
    TooHigh,
}

/// Checks a body of the type `ty`, and computes the height of the operand stack along the operators at
/// its start that determine their types. Returns how many these are, and the height after them.
///
/// By the clause `typed` of `check_body`, the laws `one_body` and `accepts_what_is_typed`, each of them
/// finds its operands: the subtraction does not overflow.
pub fn heights_of_typed_body<M: ModuleContext>(
    alloc: Global,
    module: &M,
    ty: FuncType<'_>,
    features: WasmFeatures,
    bytes: &[u8],
) -> Result<(usize, usize), NoHeights>
    ensures { IfOk result (λ r. (declarations : List Declaration) × (placed : Placed) × EncodesBody (input features bytes.now) declarations placed
        × HasHeight (in_function (M.environment module.now) ty.entry.params.now ty.entry.results.now (locals_of declarations)) r.1 (operators (drop r.0 placed))) }
{
    body_laws::one_body();
    laws::accepts_what_is_typed::<Operator<'_>>();
    module.is_well_formed();
    let reader = BinaryReader::new_features(bytes, 0, features);
    match check_body(alloc, module, ty, reader) {
        Ok(()) => {}
        Err(e) => return Err(NoHeights::Check(e)),
    }
    let body = match read_body(alloc, features, bytes) {
        Ok(body) => body,
        Err(e) => return Err(NoHeights::Read(e)),
    };
    let operators = body.operators.as_slice();
    let mut at: usize = 0;
    let mut height: usize = 0;
    while at < operators.len() {
        let Typing::Fixed(signature) = operator_typing(&operators[at].0) else {
            return Ok((at, height));
        };
        let left = height - signature.takes.len();
        height = match left.checked_add(signature.leaves.len()) {
            Some(height) => height,
            None => return Err(NoHeights::TooHigh),
        };
        at += 1;
    }
    Ok((at, height))
}
