//! Visiting the next operator, and all operators to the end of the data, without finishing.
//!
//! The reader and the stack are borrowed separately, so that a loop can hold the reader in a local
//! variable, which stays in registers as long as no call out of line borrows it.
ghost use Rattle.std.specs.Prelude.{◌≡◌, ◌+◌, ◌<◌, ◌≤◌, ◌⊎◌, [], length, OnOk, IfErr, vec_capacity, vec_len};
ghost use Rattle.wasm_below.specs.Source.{rest};
ghost use Rattle.wasm_decode_opcodes.specs.Allowed.{EncodesAllowed};
ghost use Rattle.wasm_operators.specs.Collecting.{Collects, GrowsAsFilled};
ghost use Rattle.wasm_operators.specs.Next.{NextMayAllocate, collecting, state_of};
ghost use Rattle.wasm_operators.specs.Expression.{Placed};
ghost use Rattle.wasm_operators.specs.Reading.{StopsRun, TakesOperators, VisitsOperator};
ghost use Rattle.wasm_operators.specs.Sets.{decoder_of, VisitedOf};

use crate::ControlStack;
use crate::begin::{KEEPS_FRAMES_FROM, begin};
use crate::collector::Collector;
use crate::reserve::reserve_one;
use std::alloc::Global;
use wasm_below::{BinaryReader, Error, Message, Result};
use wasm_decode::{AllOperators, OperatorSet, visit_after_opcode, visit_below_0x20};
use wasm_instr::frame_change_at;
use wasm_visit::{HoldTable, VisitOperator};

/// Visits the next operator, which must be in the set `S`.
#[inline(always)]
pub fn visit_next<'a, V, S: OperatorSet<V>>(
    alloc: Global,
    v: &mut V,
    reader: &mut BinaryReader<'a>,
    control: &mut ControlStack,
) -> Result<V::Output>
where
    V: VisitOperator<'a>,
    ensures { VisitsOperator V.visits (decoder_of S.set) result (state_of reader.old control.old)
        (state_of reader.new control.new) v.old v.new }
{
    match begin(reader, control) {
        Ok(at) => {
            if at.code >= KEEPS_FRAMES_FROM {
                return visit_after_opcode::<V, S>(alloc, v, reader, at.start, at.frame, at.code);
            }
            match visit_below_0x20(alloc, v, reader, at.start, at.frame, at.code) {
                Ok(outcome) => {
                    control.apply_change(frame_change_at(at.code));
                    Ok(outcome)
                }
                Err(e) => Err(e),
            }
        }
        Err(e) => Err(e),
    }
}

/// Visits to the end of the data or to an error. Whether data is left is found after each visit, so
/// that the compiler jumps from there to the next visit, without a test for an error.
#[inline(always)]
pub fn visit_rest<'a, V, S: OperatorSet<V>>(
    alloc: Global,
    v: &mut V,
    reader: &mut BinaryReader<'a>,
    control: &mut ControlStack,
) -> Result<()>
where
    V: VisitOperator<'a>,
    V::Output: Copy,
    ensures visited { (placed : Placed) × VisitedOf S.set V.visits v.old v.new placed
        × TakesOperators (state_of reader.old control.old) (state_of reader.new control.new) placed }
    ensures end { OnOk result (rest reader.new ≡ []) }
    ensures stopped { IfErr result (λ e. StopsRun (decoder_of S.set) e (state_of reader.new control.new)) }
{
    let mut more = !reader.eof();
    'visits: while more {
        match visit_next::<V, S>(alloc, v, reader, control) {
            Ok(_) => {}
            Err(e) => return Err(e),
        }
        more = !reader.eof();
    }
    Ok(())
}

/// Visits to the end of the data or to an error. Each visit makes an item in place; an operator that
/// is read would be copied. Generic, because the prover compares all calls of a known visitor.
#[inline(always)]
pub fn collect_rest<'a, T>(
    alloc: Global,
    list: &mut Collector<T>,
    reader: &mut BinaryReader<'a>,
    control: &mut ControlStack,
) -> Result<()>
where
    T: HoldTable<'a> + Drop,
    ensures collected { (placed : Placed) × Collects T.holds list.old.items.items list.new.items.items placed
        × TakesOperators (state_of reader.old control.old) (state_of reader.new control.new) placed }
    ensures end { OnOk result (rest reader.new ≡ []) }
    ensures stopped { IfErr result (λ e. StopsRun collecting e (state_of reader.new control.new)) }
    ensures kept { vec_capacity list.old.items ≤ vec_capacity list.new.items }
    ensures grows { GrowsAsFilled (vec_capacity list.old.items) (length list.new.items.items) (vec_capacity list.new.items) }
    ensures memory { IfErr result
        (λ e. e.message ≡ Message.OutOfMemory
        → NextMayAllocate EncodesAllowed (state_of reader.new control.new)
        ⊎ (vec_capacity list.new.items < vec_len list.new.items + 1)) }
{
    'operators: while !reader.eof() {
        list.offset = reader.original_position();
        if reserve_one(&mut list.items).is_err() {
            return Err(Error::new(Message::OutOfMemory, list.offset));
        }
        match visit_next::<Collector<T>, AllOperators>(alloc, list, reader, control) {
            Ok(_) => {}
            Err(e) => return Err(e),
        }
    }
    Ok(())
}
