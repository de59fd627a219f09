//! Reading and visiting to the end of the data, with the reader of the bytes in a local variable, and
//! for visits the stack.
ghost use Rattle.std.specs.Prelude.{◌≡◌, ◌+◌, ◌<◌, ◌≤◌, ◌⊎◌, length, IfErr, vec_capacity, vec_len};
ghost use Rattle.wasm_decode_opcodes.specs.Allowed.{EncodesAllowed};
ghost use Rattle.wasm_operators.specs.Next.{NextMayAllocate, all_operators, collecting, scalar_operators};
ghost use Rattle.wasm_operators.specs.Visiting.{Visited, VisitedScalar};
ghost use Rattle.wasm_operators.specs.Reading.{RunsToEnd, Adds};
ghost use Rattle.wasm_operators.specs.MainTheorem.{ReadsRest, ReadsFlat, StopsAtSimd, IsWithinDepth};
ghost use Rattle.wasm_operators.specs.Collecting.{Collects, GrowsAsFilled};
ghost use Rattle.wasm_operators.specs.Sets.{decoder_of, VisitedOf};

use super::OperatorsReader;
use crate::ControlStack;
use crate::collector::Collector;
use crate::next::{collect_rest, visit_rest};
use std::mem::replace;
use wasm_below::{Error, Message, Result};
use wasm_decode::{AllOperators, OperatorSet, ScalarOperators};
use wasm_instr::Operator;
use wasm_visit::{HoldTable, VisitOperator};

impl<'a> OperatorsReader<'a> {
    fn collect_to_end<T>(&mut self, list: &mut Collector<T>) -> Result<()>
    where
        T: HoldTable<'a> + Drop,
        ensures runs { RunsToEnd collecting (Collects T.holds list.old.items.items list.new.items.items) result self.old self.new }
        ensures kept { vec_capacity list.old.items ≤ vec_capacity list.new.items }
        ensures grows { GrowsAsFilled (vec_capacity list.old.items) (length list.new.items.items) (vec_capacity list.new.items) }
        ensures memory { IfErr result
            (λ e. e.message ≡ Message.OutOfMemory
            → NextMayAllocate EncodesAllowed self.new ⊎ (vec_capacity list.new.items < vec_len list.new.items + 1)) }
    {
        let mut reader = self.reader.clone();
        let outcome = collect_rest(self.alloc, list, &mut reader, &mut self.control);
        self.reader = reader;
        match outcome {
            Ok(()) => self.finish(),
            Err(e) => Err(e),
        }
    }

    fn visit_to_end<V, S: OperatorSet<V>>(&mut self, v: &mut V) -> Result<()>
    where
        V: VisitOperator<'a>,
        V::Output: Copy,
        ensures { RunsToEnd (decoder_of S.set) (VisitedOf S.set V.visits v.old v.new) result self.old self.new }
    {
        let mut reader = self.reader.clone();
        let mut control = replace(&mut self.control, ControlStack::new(self.alloc));
        let outcome = visit_rest::<V, S>(self.alloc, v, &mut reader, &mut control);
        self.reader = reader;
        self.control = control;
        match outcome {
            Ok(()) => self.finish(),
            Err(e) => Err(e),
        }
    }

    fn read_to_end<T>(&mut self, out: &mut Vec<(T, u64)>) -> Result<()>
    where
        T: HoldTable<'a> + Drop,
        ensures runs { RunsToEnd collecting (Collects T.holds out.old.items out.new.items) result self.old self.new }
        ensures kept { vec_capacity out.old ≤ vec_capacity out.new }
        ensures grows { GrowsAsFilled (vec_capacity out.old) (length out.new.items) (vec_capacity out.new) }
        ensures memory { IfErr result
            (λ e. e.message ≡ Message.OutOfMemory
            → NextMayAllocate EncodesAllowed self.new ⊎ (vec_capacity out.new < vec_len out.new + 1)) }
    {
        let items = replace(out, Vec::new(*out.allocator()));
        let mut list = Collector { items, offset: 0 };
        let outcome = self.collect_to_end(&mut list);
        let Collector { items, .. } = list;
        *out = items;
        outcome
    }

    /// Reads all operators to the end of the data or to an error, and finishes. Appends them to
    /// `out` with their offsets. Neither `out` nor the frames' memory shrinks, so a caller can
    /// reserve both in advance.
    ///
    /// Fails as `read` and `finish` do, and with `OutOfMemory` at the position if `out` can't grow.
    /// The reader is then after the operators that were added, and the call can be repeated.
    ///
    /// For a new reader, `before` is the empty list (`OperatorsReader::new`, clause `read_so_far`).
    ///
    /// # Examples
    ///
    /// ```
    /// let mut found = Vec::new(alloc);
    /// OperatorsReader::new(alloc, BinaryReader::new(bytes, 0)).read_all(&mut found)?;
    /// ```
    pub fn read_all(&mut self, out: &mut Vec<(Operator<'a>, u64)>) -> Result<()>
        // The added operators are the walk of the encoded tree, or the longest prefix of one.
        ensures rest { ReadsRest collecting (Adds out.old.items out.new.items) result self.old self.new }
        // Where the reader is, and why reading ended.
        ensures runs { RunsToEnd collecting (Adds out.old.items out.new.items) result self.old self.new }
        // By the frames alone: the added operators are the longest list that they allow.
        ensures flat { ReadsFlat collecting (Adds out.old.items out.new.items) result self.old }
        ensures depth { IsWithinDepth self.old self.new }
        ensures kept { vec_capacity out.old ≤ vec_capacity out.new }
        ensures grows { GrowsAsFilled (vec_capacity out.old) (length out.new.items) (vec_capacity out.new) }
        // Allocation fails only if one read may allocate, or if `out` is full.
        ensures memory { IfErr result
            (λ e. e.message ≡ Message.OutOfMemory
            → NextMayAllocate EncodesAllowed self.new ⊎ (vec_capacity out.new < vec_len out.new + 1)) }
    {
        self.read_to_end(out)
    }

    /// Visits all operators to the end of the data or to an error, and finishes. Drops the results
    /// of the visits.
    ///
    /// Fails as `visit_operator_simd` and `finish` do. The reader is then after the visited
    /// operators, and the call can be repeated.
    ///
    /// # Examples
    ///
    /// ```
    /// let mut count = Count { operators: 0 };
    /// let mut reader = OperatorsReader::new(alloc, BinaryReader::new_features(bytes, 0,
    /// features));
    /// reader.visit_all_simd(&mut count)?;
    /// ```
    pub fn visit_all_simd<V>(&mut self, v: &mut V) -> Result<()>
    where
        V: VisitOperator<'a>,
        V::Output: Copy,
        ensures rest { ReadsRest all_operators (Visited V.visits v.old v.new) result self.old self.new }
        ensures runs { RunsToEnd all_operators (Visited V.visits v.old v.new) result self.old self.new }
        ensures flat { ReadsFlat all_operators (Visited V.visits v.old v.new) result self.old }
        ensures depth { IsWithinDepth self.old self.new }
    {
        self.visit_to_end::<V, AllOperators>(v)
    }

    /// Visits operators up to the end of the data, an error or a SIMD operator, and finishes. Drops
    /// the results of the visits. Fails as `visit_operator` and `finish` do.
    pub fn visit_all<V: VisitOperator<'a>>(&mut self, v: &mut V) -> Result<()>
    where
        V::Output: Copy,
        // The visited operators are the walk of the encoded tree, or the longest list without SIMD
        // operators that begins one.
        ensures rest { ReadsRest scalar_operators (VisitedScalar V.visits v.old v.new) result self.old self.new }
        ensures runs { RunsToEnd scalar_operators (VisitedScalar V.visits v.old v.new) result self.old self.new }
        ensures flat { ReadsFlat scalar_operators (VisitedScalar V.visits v.old v.new) result self.old }
        ensures simd { StopsAtSimd result self.old }
        ensures depth { IsWithinDepth self.old self.new }
    {
        self.visit_to_end::<V, ScalarOperators>(v)
    }
}
