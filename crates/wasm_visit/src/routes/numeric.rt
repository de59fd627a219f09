//! The routes of the numeric operators. Written by tools/lists.py from tools/operators.tsv.
ghost use Rattle.std.specs.Prelude.{◌≤◌, [], None};
ghost use Rattle.wasm_instr.specs.declared.operator.Operator.{Operator};
ghost use Rattle.wasm_decode_opcodes.specs.Decoding.{VisitsRow};

use crate::dispatch;
use wasm_decode_groups as decode;
use wasm_instr::Operator;
use wasm_instr_ops::NumericOperator;
use wasm_visit_groups::{ByAny, Once, Own, Routes, Through, VisitNumeric, Visitor};

/// A route for the numeric operators.
pub trait RouteNumeric<V: Visitor> {
    /// Visits an operator.
    fn visit(v: &mut V, op: NumericOperator) -> V::Output
        ensures { V.visits v.old (Operator.Numeric op) result v.new };

    /// Visits the operator with this opcode.
    fn decode(v: &mut V, code: u8) -> V::Output
        requires from { 0x45 ≤ code }
        requires to { code ≤ 0xc4 }
        ensures { VisitsRow V.visits None code [] v.old result v.new };
}

impl<V: Visitor> RouteNumeric<V> for ByAny {
    fn visit(v: &mut V, op: NumericOperator) -> V::Output {
        v.visit_any(Operator::Numeric(op))
    }

    #[inline(always)]
    fn decode(v: &mut V, code: u8) -> V::Output {
        decode::numeric_by::<V, ByAny>(v, code)
    }
}

impl<V: VisitNumeric> RouteNumeric<V> for Own {
    fn visit(v: &mut V, op: NumericOperator) -> V::Output {
        dispatch::numeric(v, op)
    }

    #[inline(always)]
    fn decode(v: &mut V, code: u8) -> V::Output {
        decode::numeric(v, code)
    }
}

/// The calls of a visitor that names `OnceNumeric`.
///
/// Their bodies are `dispatch::numeric(self, op)` and `decode::numeric(self, code)`. What they call
/// is proved once for the visitor, and not for each function that passes the visitor on.
pub trait CallNumeric: Visitor {
    /// Visits an operator.
    fn dispatch_numeric(&mut self, op: NumericOperator) -> Self::Output
        ensures { Self.visits self.old (Operator.Numeric op) result self.new };

    /// Visits the operator with this opcode.
    fn decode_numeric(&mut self, code: u8) -> Self::Output
        requires from { 0x45 ≤ code }
        requires to { code ≤ 0xc4 }
        ensures { VisitsRow Self.visits None code [] self.old result self.new };
}

impl<V: CallNumeric> RouteNumeric<V> for Once {
    fn visit(v: &mut V, op: NumericOperator) -> V::Output {
        <V as CallNumeric>::dispatch_numeric(v, op)
    }

    #[inline(always)]
    fn decode(v: &mut V, code: u8) -> V::Output {
        <V as CallNumeric>::decode_numeric(v, code)
    }
}

impl<V: GroupNumeric, R> RouteNumeric<&mut V> for Through<R> {
    fn visit(v: &mut &mut V, op: NumericOperator) -> V::Output {
        (**v).dispatch_numeric(op)
    }

    #[inline(always)]
    fn decode(v: &mut &mut V, code: u8) -> V::Output {
        (**v).decode_numeric(code)
    }
}

impl<V: GroupNumeric, R> RouteNumeric<Box<V>> for Through<R> {
    fn visit(v: &mut Box<V>, op: NumericOperator) -> V::Output {
        (**v).dispatch_numeric(op)
    }

    #[inline(always)]
    fn decode(v: &mut Box<V>, code: u8) -> V::Output {
        (**v).decode_numeric(code)
    }
}

/// Visits the numeric operators by the route that the visitor names. Every visitor with such a
/// route implements it.
pub trait GroupNumeric: Visitor {
    /// Visits an operator.
    fn dispatch_numeric(&mut self, op: NumericOperator) -> Self::Output
        ensures { Self.visits self.old (Operator.Numeric op) result self.new };

    /// Visits the operator with this opcode.
    fn decode_numeric(&mut self, code: u8) -> Self::Output
        requires from { 0x45 ≤ code }
        requires to { code ≤ 0xc4 }
        ensures { VisitsRow Self.visits None code [] self.old result self.new };
}

impl<V: Visitor> GroupNumeric for V
where
    <V::Visits as Routes>::Numeric: RouteNumeric<V>,
{
    fn dispatch_numeric(&mut self, op: NumericOperator) -> V::Output {
        <V::Visits as Routes>::Numeric::visit(self, op)
    }

    #[inline(always)]
    fn decode_numeric(&mut self, code: u8) -> V::Output {
        <V::Visits as Routes>::Numeric::decode(self, code)
    }
}
