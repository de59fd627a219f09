//! One operator, read and visited. Each result has the position of the reader after it.

use crate::own::Call;
use crate::task::Task;
use crate::teller::Teller;
use std::alloc::{AllocError, Global};
use wasm_below::{BinaryReader, Error, Result};
use wasm_decode::{read_operator, visit_operator, visit_operator_simd};
use wasm_instr::Operator;
use wasm_tests_texts::{Written, write_operator};
use wasm_visit::OperatorFactory;

/// Creates a reader at a task's operator, or at the start of data that is too short.
pub fn reader_at<'a>(task: Task, bytes: &'a [u8]) -> BinaryReader<'a> {
    let mut reader = BinaryReader::new_features(bytes, 0, task.features);
    let _ = reader.read_bytes(task.before);
    reader
}

pub fn run_read<'a>(alloc: Global, task: Task, bytes: &'a [u8]) -> (Result<Operator<'a>>, usize) {
    let mut reader = reader_at(task, bytes);
    let outcome = read_operator(alloc, &mut reader, task.frame);
    (outcome, reader.current_position())
}

pub fn run_factory<'a>(
    alloc: Global,
    task: Task,
    bytes: &'a [u8],
) -> (Result<Operator<'a>>, usize) {
    let mut reader = reader_at(task, bytes);
    let outcome = visit_operator_simd(alloc, &mut OperatorFactory::new(), &mut reader, task.frame);
    (outcome, reader.current_position())
}

pub type Reported = Result<std::result::Result<Call, AllocError>>;

pub fn run_simd(alloc: Global, teller: &mut Teller, task: Task, bytes: &[u8]) -> (Reported, usize) {
    let mut reader = reader_at(task, bytes);
    let outcome = visit_operator_simd(alloc, teller, &mut reader, task.frame);
    (outcome, reader.current_position())
}

pub fn run_plain(
    alloc: Global,
    teller: &mut Teller,
    task: Task,
    bytes: &[u8],
) -> (Reported, usize) {
    let mut reader = reader_at(task, bytes);
    let outcome = visit_operator(alloc, teller, &mut reader, task.frame);
    (outcome, reader.current_position())
}

pub fn run_borrowed(
    alloc: Global,
    teller: &mut Teller,
    task: Task,
    bytes: &[u8],
) -> (Reported, usize) {
    let mut reader = reader_at(task, bytes);
    let mut borrowed = teller;
    let outcome = visit_operator_simd(alloc, &mut borrowed, &mut reader, task.frame);
    (outcome, reader.current_position())
}

pub fn run_boxed(
    alloc: Global,
    boxed: &mut Box<Teller>,
    task: Task,
    bytes: &[u8],
) -> (Reported, usize) {
    let mut reader = reader_at(task, bytes);
    let outcome = visit_operator_simd(alloc, boxed, &mut reader, task.frame);
    (outcome, reader.current_position())
}

pub fn run_both(
    alloc: Global,
    boxed: &mut Box<Teller>,
    task: Task,
    bytes: &[u8],
) -> (Reported, usize) {
    let mut reader = reader_at(task, bytes);
    let mut borrowed = boxed;
    let outcome = visit_operator_simd(alloc, &mut borrowed, &mut reader, task.frame);
    (outcome, reader.current_position())
}

pub fn is_refused_again(alloc: Global, teller: &mut Teller, task: Task, bytes: &[u8]) -> bool {
    let mut reader = reader_at(task, bytes);
    let read = read_operator(alloc, &mut reader, task.frame).err();
    let read_again = read_operator(alloc, &mut reader, task.frame).err();
    let visit = visit_operator_simd(alloc, teller, &mut reader, task.frame).err();
    let visit_again = visit_operator_simd(alloc, teller, &mut reader, task.frame).err();
    let plain = visit_operator(alloc, teller, &mut reader, task.frame).err();
    let plain_again = visit_operator(alloc, teller, &mut reader, task.frame).err();
    read == read_again
        && read == visit
        && visit == visit_again
        && plain == plain_again
        && reader.current_position() == task.before
}

pub fn write_refusal(out: &mut String, e: Error) -> Written {
    let number = e.message().number();
    let offset = e.offset();
    let message = e.message();
    write!(out, "E{number} at {offset}: {message}")
}

pub fn write_outcome(out: &mut String, outcome: &Result<Operator<'_>>) -> Written {
    match outcome {
        Ok(op) => write_operator(out, op),
        Err(e) => write_refusal(out, *e),
    }
}
