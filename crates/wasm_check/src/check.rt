ghost use Rattle.std.specs.Prelude.{◌≡◌, OnOk, IfErr, []};
ghost use Rattle.wasm_operators.specs.below.Source.{reader_of, source_of};
ghost use Rattle.wasm_operators.specs.Expression.{Placed, operators};
ghost use Rattle.wasm_operators.specs.MainTheorem.{ReadSoFar};
ghost use Rattle.wasm_operators.specs.Reading.{IsFresh};
ghost use Rattle.wasm_check_operators.specs.Language.{rules_of};
ghost use Rattle.wasm_check.specs.Constants.{may_occur, MayOccur, IsTypedOf, ExplainsOf};
ghost use Rattle.wasm_check.specs.Typed.{IsTypedExpression, EncodesTyped, Explains, input};

use crate::error::{CheckError, decoding};
use crate::visitor::TypeChecker;
use std::alloc::Global;
use wasm_check_control::ModuleContext;
use wasm_check_operators::BodyChecker;
use wasm_operators::{
    BinaryReader, Operator, OperatorsReader, WasmFeatures, expression_laws, run_laws,
};
use wasm_typing::laws;

/// Checks that the bytes encode an expression that is typed: it leaves the results of the function.
/// Specification: Validation, Expressions.
pub fn check_expression<M: ModuleContext>(
    alloc: Global,
    context: &M,
    features: WasmFeatures,
    bytes: &[u8],
) -> Result<(), CheckError>
    // On `Ok`, the bytes encode an expression, and the rules type its only tree.
    ensures typed { OnOk result (IsTypedExpression (rules_of (M.environment context.now)) (M.environment context.now).results (input features bytes.now)) }
    // For a typed expression, only allocation can fail.
    ensures whole { (placed : Placed) → EncodesTyped (rules_of (M.environment context.now)) (M.environment context.now).results (input features bytes.now) placed
        → IfErr result (λ e. e ≡ CheckError.Memory) }
    ensures error { IfErr result (λ e. Explains (rules_of (M.environment context.now)) (M.environment context.now).results (reader_of features 0 bytes.now) e) }
{
    let reader = OperatorsReader::new(alloc, BinaryReader::new_features(bytes, 0, features));
    check_operators(alloc, context, false, reader)
}

/// Checks the operators of a new reader, to the end of its data. If `constant`, only operators of
/// constant expressions may occur.
pub(crate) fn check_operators<M: ModuleContext>(
    alloc: Global,
    context: &M,
    constant: bool,
    mut reader: OperatorsReader<'_>,
) -> Result<(), CheckError>
    requires { IsFresh reader × ReadSoFar [] reader }
    ensures typed { OnOk result (IsTypedOf (may_occur constant (M.environment context.now)) (rules_of (M.environment context.now)) (M.environment context.now).results (source_of reader.entry.reader)) }
    ensures whole { (placed : Placed) → EncodesTyped (rules_of (M.environment context.now)) (M.environment context.now).results (source_of reader.entry.reader) placed
        → MayOccur (may_occur constant (M.environment context.now)) (operators placed) → IfErr result (λ e. e ≡ CheckError.Memory) }
    ensures error { IfErr result (λ e. ExplainsOf (may_occur constant (M.environment context.now)) (rules_of (M.environment context.now)) (M.environment context.now).results reader.entry.reader e) }
{
    laws::accepts_what_is_typed::<Operator<'_>>();
    laws::refuses_at_once::<Operator<'_>>();
    laws::same_frames::<Operator<'_>>();
    laws::steps_on::<Operator<'_>>();
    run_laws::single_reads();
    run_laws::read_to_the_end();
    let features = reader.get_binary_reader().features();
    expression_laws::one_layout(features);
    expression_laws::layouts(features);
    expression_laws::whole_is_longest();
    expression_laws::flat_beginnings();
    context.is_well_formed();
    let Ok(checker) = BodyChecker::new(alloc, context) else {
        return Err(CheckError::Memory);
    };
    let mut visitor = TypeChecker {
        checker,
        constant,
        may_occur: true,
    };
    while !reader.eof() {
        let offset = reader.original_position();
        let outcome = match reader.visit_operator_simd(&mut visitor) {
            Ok(outcome) => outcome,
            Err(error) => return Err(decoding(error)),
        };
        if !visitor.may_occur {
            return Err(CheckError::NotConstant { offset });
        }
        match outcome {
            Ok(true) => {}
            Ok(false) => {
                return Err(CheckError::Untyped {
                    offset,
                    mismatch: visitor.checker.operators.control.mismatch(),
                });
            }
            Err(_) => return Err(CheckError::Memory),
        }
    }
    match reader.finish() {
        Ok(()) => Ok(()),
        Err(error) => Err(decoding(error)),
    }
}
