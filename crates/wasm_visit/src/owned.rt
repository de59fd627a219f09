ghost use Rattle.wasm_instr.specs.declared.operator.Operator.{Operator};
ghost use Rattle.wasm_instr.specs.Kinds.{IsSimd};

use crate::operator::VisitOperator;
use crate::routes::{GroupSimdHigh, GroupSimdLow};
use wasm_instr::Operator;
use wasm_instr_simd::SimdOperator;

/// Visits an operator that is not a SIMD operator. The call itself does not allocate.
pub fn visit_owned<'a, V: VisitOperator<'a>>(v: &mut V, op: Operator<'a>) -> V::Output
    requires { ¬ IsSimd op }
    ensures { V.visits v.old op.entry result v.new }
{
    match op {
        Operator::BrTable { targets } => v.visit_br_table(targets),
        Operator::Numeric(op) => v.dispatch_numeric(op),
        Operator::Gc(op) => v.dispatch_gc(op),
        Operator::Misc(op) => v.dispatch_misc(op),
        Operator::Atomic(op) => v.dispatch_atomic(op),
        Operator::Simd(_) => unreachable!(),
        op => v.dispatch_one_byte(op),
    }
}

/// Visits an operator, including SIMD operators. The call itself does not allocate.
pub fn visit_owned_simd<'a, V: VisitOperator<'a>>(v: &mut V, op: Operator<'a>) -> V::Output
    ensures { V.visits v.old op.entry result v.new }
{
    match op {
        Operator::Simd(op) => visit_simd(v, op),
        op => visit_owned(v, op),
    }
}

/// Visits a SIMD operator. The call itself does not allocate.
fn visit_simd<V: GroupSimdLow + GroupSimdHigh>(v: &mut V, op: SimdOperator) -> V::Output
    ensures { V.visits v.old (Operator.Simd op) result v.new }
{
    if op.info().code < 0x80 {
        v.dispatch_simd_low(op)
    } else {
        v.dispatch_simd_high(op)
    }
}
