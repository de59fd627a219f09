mod immediates;
mod lists;
mod names;
mod numbers;
mod types;
mod views;

use crate::failure::{Failure, Written};
use crate::row::{Input, Row};
use std::alloc::Global;
use std::fmt::Debug;
use wasm_below::{BinaryReader, Error, Message, Result};

#[derive(Clone, Copy)]
enum Call {
    Number(numbers::Number),
    View(views::View),
    Type(types::Type),
    Immediate(immediates::Immediate),
    List(lists::List),
}

pub fn write_calls(alloc: Global, text: &mut String, row: &Row<'_>) -> Written {
    let input = Input::parse(alloc, row.input)?;
    let mut reader = input.reader()?;
    let mut is_first = true;
    for words in row.calls.split(' ') {
        if !is_first {
            text.push_str("; ")?;
        }
        is_first = false;
        write_call(alloc, text, words, &mut reader)?;
    }
    Ok(())
}

/// Makes a call, such as `read_bytes(2)`, and writes its result.
fn write_call(
    alloc: Global,
    text: &mut String,
    words: &str,
    reader: &mut BinaryReader<'_>,
) -> Written {
    let (name, argument) = match words.split_once('(') {
        Some((name, others)) => (name, others.trim_end_matches(')').parse::<u8>()?),
        None => (words, 0),
    };
    match names::call_of(name) {
        None => Err(Failure::Malformed),
        Some(Call::Number(number)) => number.write(text, argument, reader),
        Some(Call::View(view)) => view.write(text, reader),
        Some(Call::Type(ty)) => ty.write(alloc, text, reader),
        Some(Call::Immediate(immediate)) => immediate.write(text, argument, reader),
        Some(Call::List(list)) => list.write(alloc, text, argument, reader),
    }
}

fn write_result<T: Debug + Drop>(
    text: &mut String,
    given: Result<T>,
    reader: &BinaryReader<'_>,
) -> Written {
    match given {
        Ok(value) => write!(text, "{value:?}")?,
        Err(e) => write_error(text, e)?,
    }
    write_next(text, reader)
}

fn write_next(text: &mut String, reader: &BinaryReader<'_>) -> Written {
    let offset = reader.original_position();
    write!(text, ", next {offset}")?;
    Ok(())
}

fn write_error(text: &mut String, e: Error) -> Written {
    let message = e.message();
    if message == Message::OutOfMemory {
        return Err(Failure::OutOfMemoryInCall);
    }
    let number = message.number();
    let offset = e.offset();
    write!(text, "error {number} at {offset}: {message}")?;
    Ok(())
}
