//! The routes of the operators with prefix 0xfe. Written by tools/lists.py from tools/operators.tsv.
ghost use Rattle.std.specs.Prelude.{Some};
ghost use Rattle.wasm_grammar.specs.declared.frame_kind.FrameKind.{FrameKind};
ghost use Rattle.wasm_instr.specs.declared.operator.Operator.{Operator};
ghost use Rattle.wasm_decode_opcodes.specs.Decoding.{DecodesAt, IsAfterCode};

use crate::dispatch;
use wasm_below::{BinaryReader, Result};
use wasm_decode_groups as decode;
use wasm_instr::Operator;
use wasm_instr_ops::AtomicOperator;
use wasm_visit_groups::{ByAny, Once, Own, Routes, Through, VisitAtomic, Visitor};

/// A route for the operators with prefix 0xfe.
pub trait RouteAtomic<V: Visitor> {
    /// Visits an operator.
    fn visit(v: &mut V, op: AtomicOperator) -> V::Output
        ensures { V.visits v.old (Operator.Atomic op) result v.new };

    /// Reads the immediates of the operator with the subopcode `code` and visits it.
    ///
    /// `start` is the position of the prefix byte, to which the reader goes back on an error.
    fn decode(
        v: &mut V,
        reader: &mut BinaryReader<'_>,
        start: usize,
        code: u32,
    ) -> Result<V::Output>
        requires after { IsAfterCode start (Some 0xfe) code reader.old }
        ensures { (frame : FrameKind) → DecodesAt V.visits frame start result reader.old reader.new v.old v.new };
}

impl<V: Visitor> RouteAtomic<V> for ByAny {
    fn visit(v: &mut V, op: AtomicOperator) -> V::Output {
        v.visit_any(Operator::Atomic(op))
    }

    #[inline(always)]
    fn decode(
        v: &mut V,
        reader: &mut BinaryReader<'_>,
        start: usize,
        code: u32,
    ) -> Result<V::Output> {
        decode::atomic_by::<V, ByAny>(v, reader, start, code)
    }
}

impl<V: VisitAtomic> RouteAtomic<V> for Own {
    fn visit(v: &mut V, op: AtomicOperator) -> V::Output {
        dispatch::atomic(v, op)
    }

    #[inline(always)]
    fn decode(
        v: &mut V,
        reader: &mut BinaryReader<'_>,
        start: usize,
        code: u32,
    ) -> Result<V::Output> {
        decode::atomic(v, reader, start, code)
    }
}

/// The calls of a visitor that names `OnceAtomic`.
///
/// Their bodies are `dispatch::atomic(self, op)` and `decode::atomic(self, reader, start, code)`.
/// What they call is proved once for the visitor, and not for each function that passes the visitor
/// on.
pub trait CallAtomic: Visitor {
    /// Visits an operator.
    fn dispatch_atomic(&mut self, op: AtomicOperator) -> Self::Output
        ensures { Self.visits self.old (Operator.Atomic op) result self.new };

    /// Reads the immediates of the operator with the subopcode `code` and visits it.
    ///
    /// `start` is the position of the prefix byte, to which the reader goes back on an error.
    fn decode_atomic(
        &mut self,
        reader: &mut BinaryReader<'_>,
        start: usize,
        code: u32,
    ) -> Result<Self::Output>
        requires after { IsAfterCode start (Some 0xfe) code reader.old }
        ensures { (frame : FrameKind)
            → DecodesAt Self.visits frame start result reader.old reader.new self.old self.new };
}

impl<V: CallAtomic> RouteAtomic<V> for Once {
    fn visit(v: &mut V, op: AtomicOperator) -> V::Output {
        <V as CallAtomic>::dispatch_atomic(v, op)
    }

    #[inline(always)]
    fn decode(
        v: &mut V,
        reader: &mut BinaryReader<'_>,
        start: usize,
        code: u32,
    ) -> Result<V::Output> {
        <V as CallAtomic>::decode_atomic(v, reader, start, code)
    }
}

impl<V: GroupAtomic, R> RouteAtomic<&mut V> for Through<R> {
    fn visit(v: &mut &mut V, op: AtomicOperator) -> V::Output {
        (**v).dispatch_atomic(op)
    }

    #[inline(always)]
    fn decode(
        v: &mut &mut V,
        reader: &mut BinaryReader<'_>,
        start: usize,
        code: u32,
    ) -> Result<V::Output> {
        (**v).decode_atomic(reader, start, code)
    }
}

impl<V: GroupAtomic, R> RouteAtomic<Box<V>> for Through<R> {
    fn visit(v: &mut Box<V>, op: AtomicOperator) -> V::Output {
        (**v).dispatch_atomic(op)
    }

    #[inline(always)]
    fn decode(
        v: &mut Box<V>,
        reader: &mut BinaryReader<'_>,
        start: usize,
        code: u32,
    ) -> Result<V::Output> {
        (**v).decode_atomic(reader, start, code)
    }
}

/// Visits the operators with prefix 0xfe by the route that the visitor names. Every visitor with
/// such a route implements it.
pub trait GroupAtomic: Visitor {
    /// Visits an operator.
    fn dispatch_atomic(&mut self, op: AtomicOperator) -> Self::Output
        ensures { Self.visits self.old (Operator.Atomic op) result self.new };

    /// Reads the immediates of the operator with the subopcode `code` and visits it.
    ///
    /// `start` is the position of the prefix byte, to which the reader goes back on an error.
    fn decode_atomic(
        &mut self,
        reader: &mut BinaryReader<'_>,
        start: usize,
        code: u32,
    ) -> Result<Self::Output>
        requires after { IsAfterCode start (Some 0xfe) code reader.old }
        ensures { (frame : FrameKind)
            → DecodesAt Self.visits frame start result reader.old reader.new self.old self.new };
}

impl<V: Visitor> GroupAtomic for V
where
    <V::Visits as Routes>::Atomic: RouteAtomic<V>,
{
    fn dispatch_atomic(&mut self, op: AtomicOperator) -> V::Output {
        <V::Visits as Routes>::Atomic::visit(self, op)
    }

    #[inline(always)]
    fn decode_atomic(
        &mut self,
        reader: &mut BinaryReader<'_>,
        start: usize,
        code: u32,
    ) -> Result<V::Output> {
        <V::Visits as Routes>::Atomic::decode(self, reader, start, code)
    }
}
