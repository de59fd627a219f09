ghost use Rattle.std.specs.Prelude.{◌≡◌};
ghost use Rattle.wasm_check.specs.Constants.{is_constant, is_constant_numeric, is_constant_vector, is_constant_aggregate, may_occur};

use wasm_check_control::ModuleContext;
use wasm_instr_ops::{GcOperator, NumericOperator};
use wasm_instr_simd::SimdOperator;
use wasm_operators::Operator;

fn is_constant_numeric(op: &NumericOperator) -> bool
    ensures { result ≡ is_constant_numeric op.now }
{
    matches!(
        op,
        NumericOperator::I32Add
            | NumericOperator::I32Sub
            | NumericOperator::I32Mul
            | NumericOperator::I64Add
            | NumericOperator::I64Sub
            | NumericOperator::I64Mul
    )
}

fn is_constant_vector(op: &SimdOperator) -> bool
    ensures { result ≡ is_constant_vector op.now }
{
    matches!(op, SimdOperator::V128Const { .. })
}

fn is_constant_aggregate(op: &GcOperator) -> bool
    ensures { result ≡ is_constant_aggregate op.now }
{
    matches!(
        op,
        GcOperator::StructNew { .. }
            | GcOperator::StructNewDefault { .. }
            | GcOperator::ArrayNew { .. }
            | GcOperator::ArrayNewDefault { .. }
            | GcOperator::ArrayNewFixed { .. }
            | GcOperator::RefI31
            | GcOperator::AnyConvertExtern
            | GcOperator::ExternConvertAny
    )
}

/// Returns whether an operator is constant. Specification: Validation, Constant Expressions.
fn is_constant<M: ModuleContext>(context: &M, op: &Operator<'_>) -> bool
    ensures { result ≡ is_constant (M.environment context.now) op.now }
{
    match op {
        Operator::GlobalGet { global_index } => match context.global_type(*global_index) {
            Some(global) => !global.mutable,
            None => true,
        },
        Operator::Numeric(op) => is_constant_numeric(op),
        Operator::Simd(op) => is_constant_vector(op),
        Operator::Gc(op) => is_constant_aggregate(op),
        Operator::I32Const { .. }
        | Operator::I64Const { .. }
        | Operator::F32Const { .. }
        | Operator::F64Const { .. }
        | Operator::RefNull { .. }
        | Operator::RefFunc { .. }
        | Operator::End => true,
        _ => false,
    }
}

/// Returns whether an operator may occur: if the expression has to be constant, only constant ones.
#[inline(always)]
pub fn may_occur<M: ModuleContext>(constant: bool, context: &M, op: &Operator<'_>) -> bool
    ensures { result ≡ may_occur constant (M.environment context.now) op.now }
{
    if constant {
        return is_constant(context, op);
    }
    true
}
