//! The routes of the operators with a one-byte opcode. Written by tools/lists.py from tools/operators.tsv.
ghost use Rattle.std.specs.Prelude.{◌<◌, None};
ghost use Rattle.wasm_grammar.specs.declared.frame_kind.FrameKind.{FrameKind};
ghost use Rattle.wasm_visit_groups.specs.Groups.{IsOneByte};
ghost use Rattle.wasm_decode_groups.specs.OneByte.{IsOneByteCode};
ghost use Rattle.wasm_decode_opcodes.specs.Decoding.{DecodesAt, IsAfterCode};

use crate::dispatch;
use crate::owned_one_byte::owned;
use std::alloc::Global;
use wasm_below::{BinaryReader, Result};
use wasm_decode_groups as decode;
use wasm_grammar::FrameKind;
use wasm_instr::Operator;
use wasm_visit_groups::{ByAny, Once, Own, Routes, Through, VisitOneByte, Visitor};

/// A route for the operators with a one-byte opcode.
pub trait RouteOneByte<V: Visitor> {
    /// Visits an operator.
    fn visit(v: &mut V, op: Operator<'_>) -> V::Output
        requires { IsOneByte op }
        ensures { V.visits v.old op.entry result v.new };

    /// Reads the immediates of the operator with the opcode `code` and visits it.
    ///
    /// `start` is the position of the opcode, to which the reader goes back on an error, and
    /// `frame` the innermost frame.
    fn decode(
        alloc: Global,
        v: &mut V,
        reader: &mut BinaryReader<'_>,
        start: usize,
        frame: FrameKind,
        code: u8,
    ) -> Result<V::Output>
        requires after { IsAfterCode start None code reader.old }
        requires apart { IsOneByteCode code }
        ensures { DecodesAt V.visits frame start result reader.old reader.new v.old v.new };

    /// As `decode`, for an opcode below 0x20.
    fn decode_below_0x20(
        alloc: Global,
        v: &mut V,
        reader: &mut BinaryReader<'_>,
        start: usize,
        frame: FrameKind,
        code: u8,
    ) -> Result<V::Output>
        requires after { IsAfterCode start None code reader.old }
        requires apart { IsOneByteCode code }
        requires low { code < 0x20 }
        ensures { DecodesAt V.visits frame start result reader.old reader.new v.old v.new };
}

impl<V: Visitor> RouteOneByte<V> for ByAny {
    fn visit(v: &mut V, op: Operator<'_>) -> V::Output {
        v.visit_any(owned(op))
    }

    #[inline(always)]
    fn decode(
        alloc: Global,
        v: &mut V,
        reader: &mut BinaryReader<'_>,
        start: usize,
        frame: FrameKind,
        code: u8,
    ) -> Result<V::Output> {
        decode::one_byte_by::<V, ByAny>(alloc, v, reader, start, frame, code)
    }

    #[inline(always)]
    fn decode_below_0x20(
        alloc: Global,
        v: &mut V,
        reader: &mut BinaryReader<'_>,
        start: usize,
        frame: FrameKind,
        code: u8,
    ) -> Result<V::Output> {
        decode::below_0x20_by::<V, ByAny>(alloc, v, reader, start, frame, code)
    }
}

impl<V: VisitOneByte> RouteOneByte<V> for Own {
    fn visit(v: &mut V, op: Operator<'_>) -> V::Output {
        dispatch::one_byte(v, op)
    }

    #[inline(always)]
    fn decode(
        alloc: Global,
        v: &mut V,
        reader: &mut BinaryReader<'_>,
        start: usize,
        frame: FrameKind,
        code: u8,
    ) -> Result<V::Output> {
        decode::one_byte(alloc, v, reader, start, frame, code)
    }

    #[inline(always)]
    fn decode_below_0x20(
        alloc: Global,
        v: &mut V,
        reader: &mut BinaryReader<'_>,
        start: usize,
        frame: FrameKind,
        code: u8,
    ) -> Result<V::Output> {
        decode::below_0x20(alloc, v, reader, start, frame, code)
    }
}

/// The calls of a visitor that names `OnceOneByte`.
///
/// Their bodies are `dispatch::one_byte(self, op)`, `decode::one_byte(alloc, self, reader, start,
/// frame, code)` and `decode::below_0x20(alloc, self, reader, start, frame, code)`. What they call
/// is proved once for the visitor, and not for each function that passes the visitor on.
pub trait CallOneByte: Visitor {
    /// Visits an operator.
    fn dispatch_one_byte(&mut self, op: Operator<'_>) -> Self::Output
        requires { IsOneByte op }
        ensures { Self.visits self.old op.entry result self.new };

    /// Reads the immediates of the operator with the opcode `code` and visits it.
    ///
    /// `start` is the position of the opcode, to which the reader goes back on an error, and
    /// `frame` the innermost frame.
    fn decode_one_byte(
        &mut self,
        alloc: Global,
        reader: &mut BinaryReader<'_>,
        start: usize,
        frame: FrameKind,
        code: u8,
    ) -> Result<Self::Output>
        requires after { IsAfterCode start None code reader.old }
        requires apart { IsOneByteCode code }
        ensures { DecodesAt Self.visits frame start result reader.old reader.new self.old self.new };

    /// As `decode_one_byte`, for an opcode below 0x20.
    fn decode_below_0x20(
        &mut self,
        alloc: Global,
        reader: &mut BinaryReader<'_>,
        start: usize,
        frame: FrameKind,
        code: u8,
    ) -> Result<Self::Output>
        requires after { IsAfterCode start None code reader.old }
        requires apart { IsOneByteCode code }
        requires low { code < 0x20 }
        ensures { DecodesAt Self.visits frame start result reader.old reader.new self.old self.new };
}

impl<V: CallOneByte> RouteOneByte<V> for Once {
    fn visit(v: &mut V, op: Operator<'_>) -> V::Output {
        <V as CallOneByte>::dispatch_one_byte(v, op)
    }

    #[inline(always)]
    fn decode(
        alloc: Global,
        v: &mut V,
        reader: &mut BinaryReader<'_>,
        start: usize,
        frame: FrameKind,
        code: u8,
    ) -> Result<V::Output> {
        <V as CallOneByte>::decode_one_byte(v, alloc, reader, start, frame, code)
    }

    #[inline(always)]
    fn decode_below_0x20(
        alloc: Global,
        v: &mut V,
        reader: &mut BinaryReader<'_>,
        start: usize,
        frame: FrameKind,
        code: u8,
    ) -> Result<V::Output> {
        <V as CallOneByte>::decode_below_0x20(v, alloc, reader, start, frame, code)
    }
}

impl<V: GroupOneByte, R> RouteOneByte<&mut V> for Through<R> {
    fn visit(v: &mut &mut V, op: Operator<'_>) -> V::Output {
        (**v).dispatch_one_byte(op)
    }

    #[inline(always)]
    fn decode(
        alloc: Global,
        v: &mut &mut V,
        reader: &mut BinaryReader<'_>,
        start: usize,
        frame: FrameKind,
        code: u8,
    ) -> Result<V::Output> {
        (**v).decode_one_byte(alloc, reader, start, frame, code)
    }

    #[inline(always)]
    fn decode_below_0x20(
        alloc: Global,
        v: &mut &mut V,
        reader: &mut BinaryReader<'_>,
        start: usize,
        frame: FrameKind,
        code: u8,
    ) -> Result<V::Output> {
        (**v).decode_below_0x20(alloc, reader, start, frame, code)
    }
}

impl<V: GroupOneByte, R> RouteOneByte<Box<V>> for Through<R> {
    fn visit(v: &mut Box<V>, op: Operator<'_>) -> V::Output {
        (**v).dispatch_one_byte(op)
    }

    #[inline(always)]
    fn decode(
        alloc: Global,
        v: &mut Box<V>,
        reader: &mut BinaryReader<'_>,
        start: usize,
        frame: FrameKind,
        code: u8,
    ) -> Result<V::Output> {
        (**v).decode_one_byte(alloc, reader, start, frame, code)
    }

    #[inline(always)]
    fn decode_below_0x20(
        alloc: Global,
        v: &mut Box<V>,
        reader: &mut BinaryReader<'_>,
        start: usize,
        frame: FrameKind,
        code: u8,
    ) -> Result<V::Output> {
        (**v).decode_below_0x20(alloc, reader, start, frame, code)
    }
}

/// Visits the operators with a one-byte opcode by the route that the visitor names. Every visitor
/// with such a route implements it.
pub trait GroupOneByte: Visitor {
    /// Visits an operator.
    fn dispatch_one_byte(&mut self, op: Operator<'_>) -> Self::Output
        requires { IsOneByte op }
        ensures { Self.visits self.old op.entry result self.new };

    /// Reads the immediates of the operator with the opcode `code` and visits it.
    ///
    /// `start` is the position of the opcode, to which the reader goes back on an error, and
    /// `frame` the innermost frame.
    fn decode_one_byte(
        &mut self,
        alloc: Global,
        reader: &mut BinaryReader<'_>,
        start: usize,
        frame: FrameKind,
        code: u8,
    ) -> Result<Self::Output>
        requires after { IsAfterCode start None code reader.old }
        requires apart { IsOneByteCode code }
        ensures { DecodesAt Self.visits frame start result reader.old reader.new self.old self.new };

    /// As `decode_one_byte`, for an opcode below 0x20.
    fn decode_below_0x20(
        &mut self,
        alloc: Global,
        reader: &mut BinaryReader<'_>,
        start: usize,
        frame: FrameKind,
        code: u8,
    ) -> Result<Self::Output>
        requires after { IsAfterCode start None code reader.old }
        requires apart { IsOneByteCode code }
        requires low { code < 0x20 }
        ensures { DecodesAt Self.visits frame start result reader.old reader.new self.old self.new };
}

impl<V: Visitor> GroupOneByte for V
where
    <V::Visits as Routes>::OneByte: RouteOneByte<V>,
{
    fn dispatch_one_byte(&mut self, op: Operator<'_>) -> V::Output {
        <V::Visits as Routes>::OneByte::visit(self, op)
    }

    #[inline(always)]
    fn decode_one_byte(
        &mut self,
        alloc: Global,
        reader: &mut BinaryReader<'_>,
        start: usize,
        frame: FrameKind,
        code: u8,
    ) -> Result<V::Output> {
        <V::Visits as Routes>::OneByte::decode(alloc, self, reader, start, frame, code)
    }

    #[inline(always)]
    fn decode_below_0x20(
        &mut self,
        alloc: Global,
        reader: &mut BinaryReader<'_>,
        start: usize,
        frame: FrameKind,
        code: u8,
    ) -> Result<V::Output> {
        <V::Visits as Routes>::OneByte::decode_below_0x20(alloc, self, reader, start, frame, code)
    }
}
