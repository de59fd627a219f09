ghost use Rattle.std.specs.Prelude.{◌≡◌, [], ◌∷◌, OnOk, IfErr};
ghost use Rattle.wasm_below.specs.Source.{source_of};
ghost use Rattle.wasm_operators.specs.Expression.{Placed, operators};
ghost use Rattle.wasm_typing.specs.Types.{value_type};
ghost use Rattle.wasm_check_operators.specs.Language.{rules_of};
ghost use Rattle.wasm_check.specs.Constants.{constant_in, is_constant, MayOccur, IsTypedOf, ExplainsOf};
ghost use Rattle.wasm_check.specs.Typed.{EncodesTyped};

use crate::check::check_operators;
use crate::error::CheckError;
use std::alloc::Global;
use wasm_below::ValType;
use wasm_check_control::{FuncType, ModuleContext};
use wasm_check_locals::{BodyContext, DeclaredLocals};
use wasm_operators::{BinaryReader, OperatorsReader};

/// Checks that `expression` has the bytes of a constant expression and no more, and that it leaves a
/// value of a type. The context has the globals that the expression may read. Specification:
/// Validation, Constant Expressions.
pub fn check_constant<M: ModuleContext>(
    alloc: Global,
    module: &M,
    ty: ValType,
    expression: BinaryReader<'_>,
) -> Result<(), CheckError>
    // On `Ok`, the bytes encode an expression of constant operators, and the rules type its only tree.
    ensures typed { OnOk result (IsTypedOf (is_constant (constant_in (M.environment module.now) ty)) (rules_of (constant_in (M.environment module.now) ty)) (value_type ty ∷ []) (source_of expression.entry)) }
    // For a typed expression of constant operators, only allocation can fail.
    ensures whole { (placed : Placed) → EncodesTyped (rules_of (constant_in (M.environment module.now) ty)) (value_type ty ∷ []) (source_of expression.entry) placed
        → MayOccur (is_constant (constant_in (M.environment module.now) ty)) (operators placed) → IfErr result (λ e. e ≡ CheckError.Memory) }
    ensures error { IfErr result (λ e. ExplainsOf (is_constant (constant_in (M.environment module.now) ty)) (rules_of (constant_in (M.environment module.now) ty)) (value_type ty ∷ []) expression.entry e) }
{
    let results = [ty];
    let locals = DeclaredLocals::new(alloc);
    let context = BodyContext {
        module,
        ty: FuncType {
            params: &[],
            results: &results,
        },
        locals: &locals,
    };
    check_operators(
        alloc,
        &context,
        true,
        OperatorsReader::new(alloc, expression),
    )
}
