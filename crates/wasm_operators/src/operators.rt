ghost use Rattle.std.specs.Prelude.{◌≡◌, ◌↔◌, ◌∷◌, [], IsTrue};
ghost use Rattle.wasm_below.specs.Source.{rest, offset_of};
ghost use Rattle.wasm_operators.specs.Reading.{Finishes, IsFresh};
ghost use Rattle.wasm_operators.specs.Stack.{frame_memory};
ghost use Rattle.wasm_operators.specs.MainTheorem.{ReadSoFar};
ghost use Rattle.wasm_operators.specs.Next.{ReadsNext, VisitsNext, VisitsNextScalar};

mod stack;
mod to_end;

use crate::begin::{KEEPS_FRAMES_FROM, begin};
use crate::next::visit_next;
use crate::read_operators::ReadOperators;
use crate::{ControlStack, OperatorsReaderAllocations};
use std::alloc::Global;
use std::marker::Model;
use wasm_below::{BinaryReader, Result};
use wasm_decode::{AllOperators, ScalarOperators, read_after_opcode, read_below_0x20};
use wasm_grammar::FrameKind;
use wasm_instr::{Operator, frame_change_at};
use wasm_visit::VisitOperator;

/// A reader of the operators of an expression, with its open frames.
///
/// Contracts see the reader of the bytes, the frames, the outermost first, and `room`: how many
/// more frames can be opened without allocating.
#[derive(Drop)]
pub struct OperatorsReader<'a> {
    alloc: Global,
    reader: BinaryReader<'a>,
    control: ControlStack,
}

impl<'a> Model for OperatorsReader<'a> {
    ghost use Rattle.wasm_operators.specs.Reading.{State};

    ghost Value = { State };

    ghost view = { λ r. record { reader = r.reader; frames = r.control.frames; room = r.control.room } };
}

impl<'a> OperatorsReader<'a> {
    /// Creates a reader of the expression that starts at the position of `reader`, without
    /// allocating.
    pub fn new(alloc: Global, reader: BinaryReader<'a>) -> OperatorsReader<'a>
        ensures reader { result.reader ≡ reader.entry }
        ensures fresh { IsFresh result }
        ensures read_so_far { ReadSoFar [] result }
        ensures room { result.room ≡ 0 }
    {
        OperatorsReader {
            alloc,
            reader,
            control: ControlStack::with_frame(alloc, FrameKind::Block),
        }
    }

    /// Creates a reader as `new` does, with the memory of another reader.
    pub fn new_with_allocs(
        alloc: Global,
        reader: BinaryReader<'a>,
        allocs: OperatorsReaderAllocations,
    ) -> OperatorsReader<'a>
        ensures reader { result.reader ≡ reader.entry }
        ensures fresh { IsFresh result }
        ensures read_so_far { ReadSoFar [] result }
        ensures room { result.room ≡ allocs }
    {
        OperatorsReader {
            alloc,
            reader,
            control: ControlStack::with_allocations(allocs, FrameKind::Block),
        }
    }

    /// Returns the memory of the frames, for another reader.
    pub fn into_allocations(self) -> OperatorsReaderAllocations
        ensures { result ≡ frame_memory self.entry.frames self.entry.room }
    {
        let OperatorsReader { control, .. } = self;
        control.into_allocations()
    }

    pub fn get_binary_reader(&self) -> BinaryReader<'a>
        ensures { result ≡ self.now.reader }
    {
        self.reader.clone()
    }

    #[inline(always)]
    pub fn eof(&self) -> bool
        ensures { IsTrue result ↔ (rest self.now.reader ≡ []) }
    {
        self.reader.eof()
    }

    /// Returns the offset of the next byte.
    #[inline(always)]
    pub fn original_position(&self) -> u64
        ensures { result ≡ offset_of self.now.reader }
    {
        self.reader.original_position()
    }

    /// Returns whether exactly the byte of `end` is left.
    pub fn is_end_then_eof(&self) -> bool
        ensures { IsTrue result ↔ (rest self.now.reader ≡ 0x0b ∷ []) }
    {
        self.reader.is_end_then_eof()
    }

    /// Reads the next operator, SIMD or not, which the innermost frame must allow.
    ///
    /// Fails with `OperatorsRemaining` if no frame is open, otherwise as
    /// `docs/ERRORS-AND-FEATURES.md` says for operators; with `OutOfMemory` only if the operator
    /// owns a list, or opens a frame without capacity for it. An error consumes nothing.
    ///
    /// # Examples
    ///
    /// ```
    /// match operators.read()? {
    ///     Operator::Call { function_index } => calls.push(function_index)?,
    ///     _ => {}
    /// }
    /// ```
    #[inline(always)]
    pub fn read(&mut self) -> Result<Operator<'a>>
        ensures { ReadsNext result self.old self.new }
    {
        match begin(&mut self.reader, &mut self.control) {
            Ok(at) => {
                let reader = &mut self.reader;
                if at.code >= KEEPS_FRAMES_FROM {
                    return read_after_opcode(self.alloc, reader, at.start, at.frame, at.code);
                }
                match read_below_0x20(self.alloc, reader, at.start, at.frame, at.code) {
                    Ok(operator) => {
                        self.control.apply_change(frame_change_at(at.code));
                        Ok(operator)
                    }
                    Err(e) => Err(e),
                }
            }
            Err(e) => Err(e),
        }
    }

    /// Visits the next operator, SIMD or not. Fails as `read` does, before the visit.
    #[inline(always)]
    pub fn visit_operator_simd<V>(&mut self, v: &mut V) -> Result<V::Output>
    where
        V: VisitOperator<'a>,
        ensures { VisitsNext V.visits result self.old self.new v.old v.new }
    {
        visit_next::<V, AllOperators>(self.alloc, v, &mut self.reader, &mut self.control)
    }

    /// Visits the next operator. Fails with `UnexpectedSimd` at the prefix 0xfd if a frame is open,
    /// otherwise as `visit_operator_simd` does.
    #[inline(always)]
    pub fn visit_operator<V: VisitOperator<'a>>(&mut self, v: &mut V) -> Result<V::Output>
        ensures { VisitsNextScalar V.visits result self.old self.new v.old v.new }
    {
        visit_next::<V, ScalarOperators>(self.alloc, v, &mut self.reader, &mut self.control)
    }

    /// Checks that all frames are closed and all data was read. Fails at the position, with
    /// `FramesRemain` if a frame is open, otherwise with `UnexpectedData`.
    ///
    /// # Examples
    ///
    /// ```
    /// while !operators.eof() {
    ///     operators.visit_operator_simd(&mut count)?;
    /// }
    /// operators.finish()?;
    /// ```
    pub fn finish(&self) -> Result<()>
        ensures { Finishes result self.now }
    {
        self.reader.finish_expression(self)
    }
}
