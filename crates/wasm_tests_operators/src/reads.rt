use crate::reported::{Listed, Reported, is_memory};
use wasm_operators::{FrameStack, Operator, OperatorsReader, Result};

/// Reads an expression by `read_all`. A second call must add nothing, and return the same result.
pub fn read_all<'a>(
    operators: &mut OperatorsReader<'a>,
    list: &mut Vec<(Operator<'a>, u64)>,
) -> Reported {
    let mut reported = Reported::new();
    let outcome = read_to_end(operators, list, &mut reported);
    reported.operators = list.len();
    reported.refusal = outcome.err();
    let position = operators.original_position();
    let again = read_to_end(operators, list, &mut reported);
    let is_same = again.err() == reported.refusal && list.len() == reported.operators;
    reported.check(is_same);
    reported.check(operators.original_position() == position);
    reported
}

/// Repeats `read_all` once if allocation fails.
fn read_to_end<'a>(
    operators: &mut OperatorsReader<'a>,
    list: &mut Vec<(Operator<'a>, u64)>,
    reported: &mut Reported,
) -> Result<()> {
    match operators.read_all(list) {
        Err(e) if is_memory(e) => {
            reported.check(e.offset() == operators.original_position());
            operators.read_all(list)
        }
        outcome => outcome,
    }
}

/// Reads operator by operator, and calls `finish` at the end of the data.
pub fn read_each<'a>(operators: &mut OperatorsReader<'a>, list: Listed<'_, 'a>) -> Reported {
    let mut reported = Reported::new();
    let count = list.len() as u64;
    for _ in 0..=count {
        if operators.eof() {
            reported.refusal = operators.finish().err();
            break;
        }
        match read_twice(operators, &mut reported) {
            Ok((op, offset)) => reported.give_at(list, &op, offset),
            Err(e) => {
                reported.refusal = Some(e);
                break;
            }
        }
    }
    reported
}

/// Reads one operator. After an error, a second read must fail with the same error.
fn read_twice<'a>(
    operators: &mut OperatorsReader<'a>,
    reported: &mut Reported,
) -> Result<(Operator<'a>, u64)> {
    let outcome = read_with_memory(operators, reported);
    if let Err(e) = &outcome {
        let again = read_with_memory(operators, reported);
        reported.check(again.err() == Some(*e));
    }
    outcome
}

/// Reads one operator, again if allocation failed. A failed read changes nothing; allocation may
/// fail only for operators that open a frame or own a list.
fn read_with_memory<'a>(
    operators: &mut OperatorsReader<'a>,
    reported: &mut Reported,
) -> Result<(Operator<'a>, u64)> {
    let position = operators.original_position();
    let frame = operators.current_frame();
    let outcome = operators.read_with_offset();
    if let Err(e) = &outcome {
        let stays = operators.original_position() == position && operators.current_frame() == frame;
        reported.check(stays);
        if is_memory(*e) {
            reported.check(e.offset() == position && may_take_memory(operators));
            return operators.read_with_offset();
        }
    }
    outcome
}

fn may_take_memory(operators: &OperatorsReader<'_>) -> bool {
    match operators.get_binary_reader().peek() {
        Ok(code) => matches!(code, 0x02..=0x04 | 0x06 | 0x1c | 0x1f | 0xe3..=0xe5),
        Err(_) => false,
    }
}

pub fn read_clones<'a>(operators: &mut OperatorsReader<'a>, list: Listed<'_, 'a>) -> Reported {
    let mut reported = Reported::new();
    let count = list.len() as u64;
    for _ in 0..count {
        let mut outcome = operators.clone();
        if let Err(e) = &outcome {
            reported.check(is_memory(*e) && e.offset() == 0);
            outcome = operators.clone();
        }
        let Ok(mut copy) = outcome else {
            break;
        };
        match read_with_memory(&mut copy, &mut reported) {
            Ok((op, offset)) => reported.give_at(list, &op, offset),
            Err(_) => break,
        }
        let _ = read_with_memory(operators, &mut reported);
        reported.check(copy.original_position() == operators.original_position());
        reported.check(copy.current_frame() == operators.current_frame());
    }
    reported
}
