ghost use Rattle.std.specs.Prelude.{◌≡◌, true, false, [], ◌++◌, ◌∷◌, ℕ, length, IfOk};
ghost use Rattle.wasm_operators.specs.instr.declared.operator.Operator.{Operator};
ghost use Rattle.wasm_operators.specs.instr.Kinds.{IsSimd};
ghost use Rattle.wasm_operators.specs.Expression.{Placed, IsPrefixAfter, IsLongestBeginning};
ghost use Rattle.wasm_operators.specs.Visiting.{IsScalar, scalar_beginning};
ghost use Rattle.uses.specs.Input.{input};

use crate::tally::Tally;
use std::alloc::Global;
use wasm_operators::{
    BinaryReader, Message, OperatorsReader, Result, WasmFeatures, expression_laws,
};

/// Returns `true` if an expression, up to its first error, has SIMD operators.
///
/// By the clause `simd` of `visit_all`, the error is `UnexpectedSimd` if the longest prefix has
/// one. This prefix exists (law `longest_exists`), and starts with all others (`one_layout`).
pub fn has_simd(alloc: Global, features: WasmFeatures, bytes: &[u8]) -> Result<bool>
    ensures found { (longest : Placed) → IsLongestBeginning (input features bytes.now) longest → ¬ IsScalar longest
        → IfOk result (λ has. has ≡ true) }
    ensures none { IfOk result (λ has. has ≡ false
        → (before after : Placed) (op : Operator) (at : ℕ)
        → IsPrefixAfter [] (input features bytes.now) (before ++ (op, at) ∷ after) → ¬ IsSimd op) }
{
    expression_laws::longest_exists();
    expression_laws::one_layout(features);
    expression_laws::one_longest_beginning();
    expression_laws::whole_is_longest();
    expression_laws::scalar_beginnings();
    let mut tally = Tally { operators: 0 };
    let mut reader = OperatorsReader::new(alloc, BinaryReader::new_features(bytes, 0, features));
    match reader.visit_all(&mut tally) {
        Ok(()) => Ok(false),
        Err(error) => match error.message() {
            Message::OutOfMemory => Err(error),
            Message::UnexpectedSimd => Ok(true),
            _ => Ok(false),
        },
    }
}

/// Returns how many operators precede the first SIMD operator or error of an expression.
///
/// The clause `beginning` of `visit_all` gives the visited list, and the law `scalar_longest`
/// relates it to the longest prefix.
pub fn count_before_simd(alloc: Global, features: WasmFeatures, bytes: &[u8]) -> Result<u64>
    ensures { (longest : Placed) → IsLongestBeginning (input features bytes.now) longest
        → IfOk result (λ count. count ≡ length (scalar_beginning longest)) }
{
    expression_laws::layouts(features);
    expression_laws::whole_is_longest();
    expression_laws::one_longest_beginning();
    expression_laws::scalar_longest();
    let mut tally = Tally { operators: 0 };
    let mut reader = OperatorsReader::new(alloc, BinaryReader::new_features(bytes, 0, features));
    match reader.visit_all(&mut tally) {
        Ok(()) => Ok(tally.operators),
        Err(error) => match error.message() {
            Message::OutOfMemory => Err(error),
            _ => Ok(tally.operators),
        },
    }
}
