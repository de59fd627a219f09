//! The routes of the operators with prefix 0xfb. Written by tools/lists.py from tools/operators.tsv.
ghost use Rattle.std.specs.Prelude.{Some};
ghost use Rattle.wasm_grammar.specs.declared.frame_kind.FrameKind.{FrameKind};
ghost use Rattle.wasm_instr.specs.declared.operator.Operator.{Operator};
ghost use Rattle.wasm_decode_opcodes.specs.Decoding.{DecodesAt, IsAfterCode};

use crate::dispatch;
use wasm_below::{BinaryReader, Result};
use wasm_decode_groups as decode;
use wasm_instr::Operator;
use wasm_instr_ops::GcOperator;
use wasm_visit_groups::{ByAny, Once, Own, Routes, Through, VisitGc, Visitor};

/// A route for the operators with prefix 0xfb.
pub trait RouteGc<V: Visitor> {
    /// Visits an operator.
    fn visit(v: &mut V, op: GcOperator) -> V::Output
        ensures { V.visits v.old (Operator.Gc op) result v.new };

    /// Reads the immediates of the operator with the subopcode `code` and visits it.
    ///
    /// `start` is the position of the prefix byte, to which the reader goes back on an error.
    fn decode(
        v: &mut V,
        reader: &mut BinaryReader<'_>,
        start: usize,
        code: u32,
    ) -> Result<V::Output>
        requires after { IsAfterCode start (Some 0xfb) code reader.old }
        ensures { (frame : FrameKind) → DecodesAt V.visits frame start result reader.old reader.new v.old v.new };
}

impl<V: Visitor> RouteGc<V> for ByAny {
    fn visit(v: &mut V, op: GcOperator) -> V::Output {
        v.visit_any(Operator::Gc(op))
    }

    #[inline(always)]
    fn decode(
        v: &mut V,
        reader: &mut BinaryReader<'_>,
        start: usize,
        code: u32,
    ) -> Result<V::Output> {
        decode::gc_by::<V, ByAny>(v, reader, start, code)
    }
}

impl<V: VisitGc> RouteGc<V> for Own {
    fn visit(v: &mut V, op: GcOperator) -> V::Output {
        dispatch::gc(v, op)
    }

    #[inline(always)]
    fn decode(
        v: &mut V,
        reader: &mut BinaryReader<'_>,
        start: usize,
        code: u32,
    ) -> Result<V::Output> {
        decode::gc(v, reader, start, code)
    }
}

/// The calls of a visitor that names `OnceGc`.
///
/// Their bodies are `dispatch::gc(self, op)` and `decode::gc(self, reader, start, code)`. What they
/// call is proved once for the visitor, and not for each function that passes the visitor on.
pub trait CallGc: Visitor {
    /// Visits an operator.
    fn dispatch_gc(&mut self, op: GcOperator) -> Self::Output
        ensures { Self.visits self.old (Operator.Gc op) result self.new };

    /// Reads the immediates of the operator with the subopcode `code` and visits it.
    ///
    /// `start` is the position of the prefix byte, to which the reader goes back on an error.
    fn decode_gc(
        &mut self,
        reader: &mut BinaryReader<'_>,
        start: usize,
        code: u32,
    ) -> Result<Self::Output>
        requires after { IsAfterCode start (Some 0xfb) code reader.old }
        ensures { (frame : FrameKind)
            → DecodesAt Self.visits frame start result reader.old reader.new self.old self.new };
}

impl<V: CallGc> RouteGc<V> for Once {
    fn visit(v: &mut V, op: GcOperator) -> V::Output {
        <V as CallGc>::dispatch_gc(v, op)
    }

    #[inline(always)]
    fn decode(
        v: &mut V,
        reader: &mut BinaryReader<'_>,
        start: usize,
        code: u32,
    ) -> Result<V::Output> {
        <V as CallGc>::decode_gc(v, reader, start, code)
    }
}

impl<V: GroupGc, R> RouteGc<&mut V> for Through<R> {
    fn visit(v: &mut &mut V, op: GcOperator) -> V::Output {
        (**v).dispatch_gc(op)
    }

    #[inline(always)]
    fn decode(
        v: &mut &mut V,
        reader: &mut BinaryReader<'_>,
        start: usize,
        code: u32,
    ) -> Result<V::Output> {
        (**v).decode_gc(reader, start, code)
    }
}

impl<V: GroupGc, R> RouteGc<Box<V>> for Through<R> {
    fn visit(v: &mut Box<V>, op: GcOperator) -> V::Output {
        (**v).dispatch_gc(op)
    }

    #[inline(always)]
    fn decode(
        v: &mut Box<V>,
        reader: &mut BinaryReader<'_>,
        start: usize,
        code: u32,
    ) -> Result<V::Output> {
        (**v).decode_gc(reader, start, code)
    }
}

/// Visits the operators with prefix 0xfb by the route that the visitor names. Every visitor with
/// such a route implements it.
pub trait GroupGc: Visitor {
    /// Visits an operator.
    fn dispatch_gc(&mut self, op: GcOperator) -> Self::Output
        ensures { Self.visits self.old (Operator.Gc op) result self.new };

    /// Reads the immediates of the operator with the subopcode `code` and visits it.
    ///
    /// `start` is the position of the prefix byte, to which the reader goes back on an error.
    fn decode_gc(
        &mut self,
        reader: &mut BinaryReader<'_>,
        start: usize,
        code: u32,
    ) -> Result<Self::Output>
        requires after { IsAfterCode start (Some 0xfb) code reader.old }
        ensures { (frame : FrameKind)
            → DecodesAt Self.visits frame start result reader.old reader.new self.old self.new };
}

impl<V: Visitor> GroupGc for V
where
    <V::Visits as Routes>::Gc: RouteGc<V>,
{
    fn dispatch_gc(&mut self, op: GcOperator) -> V::Output {
        <V::Visits as Routes>::Gc::visit(self, op)
    }

    #[inline(always)]
    fn decode_gc(
        &mut self,
        reader: &mut BinaryReader<'_>,
        start: usize,
        code: u32,
    ) -> Result<V::Output> {
        <V::Visits as Routes>::Gc::decode(self, reader, start, code)
    }
}
