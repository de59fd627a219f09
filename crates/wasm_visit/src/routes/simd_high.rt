//! The routes of the SIMD operators from 0x80 on. Written by tools/lists.py from tools/operators.tsv.
ghost use Rattle.std.specs.Prelude.{◌≤◌, Some};
ghost use Rattle.wasm_grammar.specs.declared.frame_kind.FrameKind.{FrameKind};
ghost use Rattle.wasm_instr.specs.declared.operator.Operator.{Operator};
ghost use Rattle.wasm_visit_groups.specs.Groups.{IsSimdHigh};
ghost use Rattle.wasm_decode_opcodes.specs.Decoding.{DecodesAt, IsAfterCode};

use crate::dispatch;
use wasm_below::{BinaryReader, Result};
use wasm_decode_groups as decode;
use wasm_instr::Operator;
use wasm_instr_simd::SimdOperator;
use wasm_visit_groups::{ByAny, Once, Own, Routes, Through, VisitSimdHigh, Visitor};

/// A route for the SIMD operators from 0x80 on.
pub trait RouteSimdHigh<V: Visitor> {
    /// Visits an operator.
    fn visit(v: &mut V, op: SimdOperator) -> V::Output
        requires { IsSimdHigh op }
        ensures { V.visits v.old (Operator.Simd op) result v.new };

    /// Reads the immediates of the operator with the subopcode `code` and visits it.
    ///
    /// `start` is the position of the prefix byte, to which the reader goes back on an error.
    fn decode(
        v: &mut V,
        reader: &mut BinaryReader<'_>,
        start: usize,
        code: u32,
    ) -> Result<V::Output>
        requires after { IsAfterCode start (Some 0xfd) code reader.old }
        requires half { 0x80 ≤ code }
        ensures { (frame : FrameKind) → DecodesAt V.visits frame start result reader.old reader.new v.old v.new };
}

impl<V: Visitor> RouteSimdHigh<V> for ByAny {
    fn visit(v: &mut V, op: SimdOperator) -> V::Output {
        v.visit_any(Operator::Simd(op))
    }

    #[inline(always)]
    fn decode(
        v: &mut V,
        reader: &mut BinaryReader<'_>,
        start: usize,
        code: u32,
    ) -> Result<V::Output> {
        decode::simd_high_by::<V, ByAny>(v, reader, start, code)
    }
}

impl<V: VisitSimdHigh> RouteSimdHigh<V> for Own {
    fn visit(v: &mut V, op: SimdOperator) -> V::Output {
        dispatch::simd_high(v, op)
    }

    #[inline(always)]
    fn decode(
        v: &mut V,
        reader: &mut BinaryReader<'_>,
        start: usize,
        code: u32,
    ) -> Result<V::Output> {
        decode::simd_high(v, reader, start, code)
    }
}

/// The calls of a visitor that names `OnceSimdHigh`.
///
/// Their bodies are `dispatch::simd_high(self, op)` and `decode::simd_high(self, reader, start,
/// code)`. What they call is proved once for the visitor, and not for each function that passes the
/// visitor on.
pub trait CallSimdHigh: Visitor {
    /// Visits an operator.
    fn dispatch_simd_high(&mut self, op: SimdOperator) -> Self::Output
        requires { IsSimdHigh op }
        ensures { Self.visits self.old (Operator.Simd op) result self.new };

    /// Reads the immediates of the operator with the subopcode `code` and visits it.
    ///
    /// `start` is the position of the prefix byte, to which the reader goes back on an error.
    fn decode_simd_high(
        &mut self,
        reader: &mut BinaryReader<'_>,
        start: usize,
        code: u32,
    ) -> Result<Self::Output>
        requires after { IsAfterCode start (Some 0xfd) code reader.old }
        requires half { 0x80 ≤ code }
        ensures { (frame : FrameKind)
            → DecodesAt Self.visits frame start result reader.old reader.new self.old self.new };
}

impl<V: CallSimdHigh> RouteSimdHigh<V> for Once {
    fn visit(v: &mut V, op: SimdOperator) -> V::Output {
        <V as CallSimdHigh>::dispatch_simd_high(v, op)
    }

    #[inline(always)]
    fn decode(
        v: &mut V,
        reader: &mut BinaryReader<'_>,
        start: usize,
        code: u32,
    ) -> Result<V::Output> {
        <V as CallSimdHigh>::decode_simd_high(v, reader, start, code)
    }
}

impl<V: GroupSimdHigh, R> RouteSimdHigh<&mut V> for Through<R> {
    fn visit(v: &mut &mut V, op: SimdOperator) -> V::Output {
        (**v).dispatch_simd_high(op)
    }

    #[inline(always)]
    fn decode(
        v: &mut &mut V,
        reader: &mut BinaryReader<'_>,
        start: usize,
        code: u32,
    ) -> Result<V::Output> {
        (**v).decode_simd_high(reader, start, code)
    }
}

impl<V: GroupSimdHigh, R> RouteSimdHigh<Box<V>> for Through<R> {
    fn visit(v: &mut Box<V>, op: SimdOperator) -> V::Output {
        (**v).dispatch_simd_high(op)
    }

    #[inline(always)]
    fn decode(
        v: &mut Box<V>,
        reader: &mut BinaryReader<'_>,
        start: usize,
        code: u32,
    ) -> Result<V::Output> {
        (**v).decode_simd_high(reader, start, code)
    }
}

/// Visits the SIMD operators from 0x80 on by the route that the visitor names. Every visitor with
/// such a route implements it.
pub trait GroupSimdHigh: Visitor {
    /// Visits an operator.
    fn dispatch_simd_high(&mut self, op: SimdOperator) -> Self::Output
        requires { IsSimdHigh op }
        ensures { Self.visits self.old (Operator.Simd op) result self.new };

    /// Reads the immediates of the operator with the subopcode `code` and visits it.
    ///
    /// `start` is the position of the prefix byte, to which the reader goes back on an error.
    fn decode_simd_high(
        &mut self,
        reader: &mut BinaryReader<'_>,
        start: usize,
        code: u32,
    ) -> Result<Self::Output>
        requires after { IsAfterCode start (Some 0xfd) code reader.old }
        requires half { 0x80 ≤ code }
        ensures { (frame : FrameKind)
            → DecodesAt Self.visits frame start result reader.old reader.new self.old self.new };
}

impl<V: Visitor> GroupSimdHigh for V
where
    <V::Visits as Routes>::SimdHigh: RouteSimdHigh<V>,
{
    fn dispatch_simd_high(&mut self, op: SimdOperator) -> V::Output {
        <V::Visits as Routes>::SimdHigh::visit(self, op)
    }

    #[inline(always)]
    fn decode_simd_high(
        &mut self,
        reader: &mut BinaryReader<'_>,
        start: usize,
        code: u32,
    ) -> Result<V::Output> {
        <V::Visits as Routes>::SimdHigh::decode(self, reader, start, code)
    }
}
