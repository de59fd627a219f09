ghost use Rattle.wasm_below.specs.Source.{Reader};
ghost use Rattle.wasm_decode_opcodes.specs.Decoding.{DecodesIn, DecodesScalarIn};
ghost use Rattle.wasm_operators.specs.Single.{PeeksOperator, FinishesExpression};

use std::alloc::Global;
use wasm_below::{BinaryReader, Error, Message, Result};
use wasm_instr::{FrameStack, Operator};
use wasm_visit::VisitOperator;

/// Reading of single operators, with frames that the caller keeps: each call asks once for the
/// innermost, before anything else.
pub trait ReadOperators<'a> {
    // The value as a reader of bytes.
    ghost reader: { Self → Reader };

    /// Returns the next operator, SIMD or not, without consuming it. Fails as `visit_operator_simd`
    /// does. Specification: Binary Format, Instructions.
    fn peek_operator<S: FrameStack>(&self, alloc: Global, stack: &S) -> Result<Operator<'a>>
        ensures { PeeksOperator (S.frame stack.now) result (reader self.now) };

    /// Checks that all frames are closed and all data was read. Fails as `OperatorsReader::finish`
    /// does. Specification: Binary Format, Expressions.
    fn finish_expression<S: FrameStack>(&self, stack: &S) -> Result<()>
        ensures { FinishesExpression result (S.frame stack.now) (reader self.now) };
}

impl<'a> ReadOperators<'a> for BinaryReader<'a> {
    ghost reader = { λ r. r };

    #[inline(always)]
    fn peek_operator<S: FrameStack>(&self, alloc: Global, stack: &S) -> Result<Operator<'a>> {
        let mut ahead = self.clone();
        wasm_decode::read_operator(alloc, &mut ahead, stack.current_frame())
    }

    fn finish_expression<S: FrameStack>(&self, stack: &S) -> Result<()> {
        let position = self.original_position();
        if stack.current_frame().is_some() {
            return Err(Error::new(Message::FramesRemain, position));
        }
        if !self.eof() {
            return Err(Error::new(Message::UnexpectedData, position));
        }
        Ok(())
    }
}

/// Visiting of single operators by a visitor that keeps the open frames.
pub trait ReadVisits<'a, V: VisitOperator<'a> + FrameStack>: ReadOperators<'a> {
    /// Visits the next operator, which the innermost frame must allow. Specification: Binary
    /// Format, Instructions.
    ///
    /// Fails with `OperatorsRemaining` if no frame is open, with `UnexpectedSimd` at the byte 0xfd,
    /// otherwise as `docs/ERRORS-AND-FEATURES.md` says for operators; with `OutOfMemory` only if
    /// the operator owns a list.
    fn visit_operator(&mut self, alloc: Global, v: &mut V) -> Result<V::Output>
        ensures { DecodesScalarIn V.visits (V.frame v.old) result (Self.reader self.old) (Self.reader self.new) v.old v.new };
}

impl<'a, V: VisitOperator<'a> + FrameStack> ReadVisits<'a, V> for BinaryReader<'a> {
    #[inline(always)]
    fn visit_operator(&mut self, alloc: Global, v: &mut V) -> Result<V::Output> {
        let frame = v.current_frame();
        wasm_decode::visit_operator(alloc, v, self, frame)
    }
}

/// Visiting of single operators by a visitor of all operators.
pub trait ReadSimdVisits<'a, V: VisitOperator<'a> + FrameStack>: ReadOperators<'a> {
    /// Visits the next operator, SIMD or not. Fails as `visit_operator` does, but never with
    /// `UnexpectedSimd`.
    fn visit_operator_simd(&mut self, alloc: Global, v: &mut V) -> Result<V::Output>
        ensures { DecodesIn V.visits (V.frame v.old) result (Self.reader self.old) (Self.reader self.new) v.old v.new };
}

impl<'a, V: VisitOperator<'a> + FrameStack> ReadSimdVisits<'a, V> for BinaryReader<'a> {
    #[inline(always)]
    fn visit_operator_simd(&mut self, alloc: Global, v: &mut V) -> Result<V::Output> {
        let frame = v.current_frame();
        wasm_decode::visit_operator_simd(alloc, v, self, frame)
    }
}
