use crate::prints::{LargePrints, OwnPrints, Prints};
use crate::reported::{Listed, Reported, is_memory, offset_at};
use std::alloc::Global;
use wasm_operators::{BinaryReader, Error, Message, Operator, OperatorsReader, Result};

/// Visits by `visit_all_simd`. A second call must visit nothing, and return the same result.
pub fn visit_all_simd<'a>(operators: &mut OperatorsReader<'a>, list: Listed<'_, 'a>) -> Reported {
    let mut prints = Prints::new();
    let mut reported = Reported::new();
    let outcome = simd_to_end(operators, list, &mut prints, &mut reported);
    let again = simd_to_end(operators, list, &mut prints, &mut reported);
    reported.check(again.err() == outcome.err());
    end(reported, list, prints, outcome)
}

/// Calls `visit_all_simd`, again from an operator for which allocation failed.
fn simd_to_end<'a>(
    operators: &mut OperatorsReader<'a>,
    list: Listed<'_, 'a>,
    prints: &mut Prints,
    reported: &mut Reported,
) -> Result<()> {
    let outcome = operators.visit_all_simd(prints);
    if let Some(e) = memory_refused(outcome) {
        check_stop(reported, operators, list, *prints, e);
        return operators.visit_all_simd(prints);
    }
    outcome
}

pub fn visit_all<'a>(operators: &mut OperatorsReader<'a>, list: Listed<'_, 'a>) -> Reported {
    let mut prints = Prints::new();
    let mut reported = Reported::new();
    let outcome = plain_to_end(operators, list, &mut prints, &mut reported);
    let again = plain_to_end(operators, list, &mut prints, &mut reported);
    reported.check(again.err() == outcome.err());
    end(reported, list, prints, outcome)
}

fn plain_to_end<'a>(
    operators: &mut OperatorsReader<'a>,
    list: Listed<'_, 'a>,
    prints: &mut Prints,
    reported: &mut Reported,
) -> Result<()> {
    let outcome = operators.visit_all(prints);
    if let Some(e) = memory_refused(outcome) {
        check_stop(reported, operators, list, *prints, e);
        return operators.visit_all(prints);
    }
    outcome
}

pub fn visit_large<'a>(operators: &mut OperatorsReader<'a>, list: Listed<'_, 'a>) -> Reported {
    let mut large = LargePrints {
        prints: Prints::new(),
    };
    let mut reported = Reported::new();
    let mut outcome = operators.visit_all_simd(&mut large);
    if let Some(e) = memory_refused(outcome) {
        check_stop(&mut reported, operators, list, large.prints, e);
        outcome = operators.visit_all_simd(&mut large);
    }
    end(reported, list, large.prints, outcome)
}

/// Visits with `OwnPrints`, which overrides operators with the prefix byte 0xfc.
pub fn visit_own<'a>(operators: &mut OperatorsReader<'a>, list: Listed<'_, 'a>) -> Reported {
    let mut own = OwnPrints {
        prints: Prints::new(),
        own: 0,
    };
    let mut reported = Reported::new();
    let mut outcome = operators.visit_all_simd(&mut own);
    if let Some(e) = memory_refused(outcome) {
        check_stop(&mut reported, operators, list, own.prints, e);
        outcome = operators.visit_all_simd(&mut own);
    }
    let mut listed = 0usize;
    for (op, _) in list {
        if matches!(op, Operator::Misc(_)) {
            listed = listed.saturating_add(1);
        }
    }
    reported.check(own.own == listed);
    end(reported, list, own.prints, outcome)
}

pub fn visit_boxed<'a>(alloc: Global, reader: &BinaryReader<'a>, list: Listed<'_, 'a>) -> Reported {
    let reported = boxed_once(alloc, reader, list);
    if reported.lacked_memory() {
        return boxed_once(alloc, reader, list);
    }
    reported
}

fn boxed_once<'a>(alloc: Global, reader: &BinaryReader<'a>, list: Listed<'_, 'a>) -> Reported {
    let mut operators = OperatorsReader::new(alloc, reader.clone());
    match Box::new(alloc, Prints::new()) {
        Ok(mut prints) => {
            let mut borrowed = &mut prints;
            let outcome = operators.visit_all_simd(&mut borrowed);
            end(Reported::new(), list, *prints, outcome)
        }
        Err(_) => {
            let mut reported = Reported::new();
            reported.refusal = Some(Error::new(Message::OutOfMemory, 0));
            reported
        }
    }
}

fn memory_refused(outcome: Result<()>) -> Option<Error> {
    match outcome {
        Err(e) if is_memory(e) => Some(e),
        _ => None,
    }
}

/// Checks that the reader is at the operator for which allocation failed, which was not visited.
fn check_stop(
    reported: &mut Reported,
    operators: &OperatorsReader<'_>,
    list: Listed<'_, '_>,
    prints: Prints,
    e: Error,
) {
    let position = operators.original_position();
    let next = offset_at(list, prints.operators);
    reported.check(e.offset() == position);
    reported.check(next == Some(position) || next.is_none());
}

fn end(reported: Reported, list: Listed<'_, '_>, prints: Prints, outcome: Result<()>) -> Reported {
    let mut reported = reported;
    reported.operators = prints.operators;
    reported.refusal = outcome.err();
    reported.check(prints == Prints::of(list, prints.operators));
    reported
}
