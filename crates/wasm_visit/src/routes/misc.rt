//! The routes of the operators with prefix 0xfc. Written by tools/lists.py from tools/operators.tsv.
ghost use Rattle.std.specs.Prelude.{Some};
ghost use Rattle.wasm_grammar.specs.declared.frame_kind.FrameKind.{FrameKind};
ghost use Rattle.wasm_instr.specs.declared.operator.Operator.{Operator};
ghost use Rattle.wasm_decode_opcodes.specs.Decoding.{DecodesAt, IsAfterCode};

use crate::dispatch;
use wasm_below::{BinaryReader, Result};
use wasm_decode_groups as decode;
use wasm_instr::Operator;
use wasm_instr_ops::MiscOperator;
use wasm_visit_groups::{ByAny, Once, Own, Routes, Through, VisitMisc, Visitor};

/// A route for the operators with prefix 0xfc.
pub trait RouteMisc<V: Visitor> {
    /// Visits an operator.
    fn visit(v: &mut V, op: MiscOperator) -> V::Output
        ensures { V.visits v.old (Operator.Misc op) result v.new };

    /// Reads the immediates of the operator with the subopcode `code` and visits it.
    ///
    /// `start` is the position of the prefix byte, to which the reader goes back on an error.
    fn decode(
        v: &mut V,
        reader: &mut BinaryReader<'_>,
        start: usize,
        code: u32,
    ) -> Result<V::Output>
        requires after { IsAfterCode start (Some 0xfc) code reader.old }
        ensures { (frame : FrameKind) → DecodesAt V.visits frame start result reader.old reader.new v.old v.new };
}

impl<V: Visitor> RouteMisc<V> for ByAny {
    fn visit(v: &mut V, op: MiscOperator) -> V::Output {
        v.visit_any(Operator::Misc(op))
    }

    #[inline(always)]
    fn decode(
        v: &mut V,
        reader: &mut BinaryReader<'_>,
        start: usize,
        code: u32,
    ) -> Result<V::Output> {
        decode::misc_by::<V, ByAny>(v, reader, start, code)
    }
}

impl<V: VisitMisc> RouteMisc<V> for Own {
    fn visit(v: &mut V, op: MiscOperator) -> V::Output {
        dispatch::misc(v, op)
    }

    #[inline(always)]
    fn decode(
        v: &mut V,
        reader: &mut BinaryReader<'_>,
        start: usize,
        code: u32,
    ) -> Result<V::Output> {
        decode::misc(v, reader, start, code)
    }
}

/// The calls of a visitor that names `OnceMisc`.
///
/// Their bodies are `dispatch::misc(self, op)` and `decode::misc(self, reader, start, code)`. What
/// they call is proved once for the visitor, and not for each function that passes the visitor on.
pub trait CallMisc: Visitor {
    /// Visits an operator.
    fn dispatch_misc(&mut self, op: MiscOperator) -> Self::Output
        ensures { Self.visits self.old (Operator.Misc op) result self.new };

    /// Reads the immediates of the operator with the subopcode `code` and visits it.
    ///
    /// `start` is the position of the prefix byte, to which the reader goes back on an error.
    fn decode_misc(
        &mut self,
        reader: &mut BinaryReader<'_>,
        start: usize,
        code: u32,
    ) -> Result<Self::Output>
        requires after { IsAfterCode start (Some 0xfc) code reader.old }
        ensures { (frame : FrameKind)
            → DecodesAt Self.visits frame start result reader.old reader.new self.old self.new };
}

impl<V: CallMisc> RouteMisc<V> for Once {
    fn visit(v: &mut V, op: MiscOperator) -> V::Output {
        <V as CallMisc>::dispatch_misc(v, op)
    }

    #[inline(always)]
    fn decode(
        v: &mut V,
        reader: &mut BinaryReader<'_>,
        start: usize,
        code: u32,
    ) -> Result<V::Output> {
        <V as CallMisc>::decode_misc(v, reader, start, code)
    }
}

impl<V: GroupMisc, R> RouteMisc<&mut V> for Through<R> {
    fn visit(v: &mut &mut V, op: MiscOperator) -> V::Output {
        (**v).dispatch_misc(op)
    }

    #[inline(always)]
    fn decode(
        v: &mut &mut V,
        reader: &mut BinaryReader<'_>,
        start: usize,
        code: u32,
    ) -> Result<V::Output> {
        (**v).decode_misc(reader, start, code)
    }
}

impl<V: GroupMisc, R> RouteMisc<Box<V>> for Through<R> {
    fn visit(v: &mut Box<V>, op: MiscOperator) -> V::Output {
        (**v).dispatch_misc(op)
    }

    #[inline(always)]
    fn decode(
        v: &mut Box<V>,
        reader: &mut BinaryReader<'_>,
        start: usize,
        code: u32,
    ) -> Result<V::Output> {
        (**v).decode_misc(reader, start, code)
    }
}

/// Visits the operators with prefix 0xfc by the route that the visitor names. Every visitor with
/// such a route implements it.
pub trait GroupMisc: Visitor {
    /// Visits an operator.
    fn dispatch_misc(&mut self, op: MiscOperator) -> Self::Output
        ensures { Self.visits self.old (Operator.Misc op) result self.new };

    /// Reads the immediates of the operator with the subopcode `code` and visits it.
    ///
    /// `start` is the position of the prefix byte, to which the reader goes back on an error.
    fn decode_misc(
        &mut self,
        reader: &mut BinaryReader<'_>,
        start: usize,
        code: u32,
    ) -> Result<Self::Output>
        requires after { IsAfterCode start (Some 0xfc) code reader.old }
        ensures { (frame : FrameKind)
            → DecodesAt Self.visits frame start result reader.old reader.new self.old self.new };
}

impl<V: Visitor> GroupMisc for V
where
    <V::Visits as Routes>::Misc: RouteMisc<V>,
{
    fn dispatch_misc(&mut self, op: MiscOperator) -> V::Output {
        <V::Visits as Routes>::Misc::visit(self, op)
    }

    #[inline(always)]
    fn decode_misc(
        &mut self,
        reader: &mut BinaryReader<'_>,
        start: usize,
        code: u32,
    ) -> Result<V::Output> {
        <V::Visits as Routes>::Misc::decode(self, reader, start, code)
    }
}
