ghost use Rattle.std.specs.Prelude.{◌≡◌, IsOk, IfOk, IfErr};
ghost use Rattle.wasm_imm.specs.OutOfMemory.{IsOutOfMemoryAt};
ghost use Rattle.wasm_instr.specs.Kinds.{IsSimd, HoldsList};

use crate::operator::VisitOperator;
use crate::owned::{visit_owned, visit_owned_simd};
use std::alloc::Global;
use wasm_below::Result;
use wasm_instr::Operator;

/// Visits a copy of an operator that is not a SIMD operator.
///
/// Fails only with `OutOfMemory` at offset 0, and only if the operator owns a list. No visit is
/// made then.
pub fn visit_operator<'a, V: VisitOperator<'a>>(
    alloc: Global,
    v: &mut V,
    op: &Operator<'a>,
) -> Result<V::Output>
    requires { ¬ IsSimd op.now }
    ensures visited { IfOk result (λ outcome. V.visits v.old op.now outcome v.new) }
    ensures refused { IfErr result (λ e. IsOutOfMemoryAt 0 e × (v.new ≡ v.old)) }
    ensures lean { ¬ HoldsList op.now → IsOk result }
{
    match op.clone(alloc) {
        Ok(op) => Ok(visit_owned(v, op)),
        Err(e) => Err(e),
    }
}

/// Visits a copy of an operator, including SIMD operators.
///
/// Fails only with `OutOfMemory` at offset 0, and only if the operator owns a list. No visit is
/// made then.
pub fn visit_operator_with_simd<'a, V: VisitOperator<'a>>(
    alloc: Global,
    v: &mut V,
    op: &Operator<'a>,
) -> Result<V::Output>
    ensures visited { IfOk result (λ outcome. V.visits v.old op.now outcome v.new) }
    ensures refused { IfErr result (λ e. IsOutOfMemoryAt 0 e × (v.new ≡ v.old)) }
    ensures lean { ¬ HoldsList op.now → IsOk result }
{
    match op.clone(alloc) {
        Ok(op) => Ok(visit_owned_simd(v, op)),
        Err(e) => Err(e),
    }
}
