use crate::row::Given;
use crate::words::{is_lacking, write_error, write_position};
use std::alloc::Global;
use wasm_operators::{
    BinaryReader, BrTable, ByAny, FrameKind, FrameStack, Operator, OperatorsReader, ReadOperators,
    ReadSimdVisits, ReadVisits, Result, VisitOperator, Visitor, visit_operator_with_simd,
};
use wasm_tests_texts::{Written, write_operator};

/// The operator visited; `None` for a branch table, which borrows from the bytes.
type Visited = Option<Operator<'static>>;

/// A visitor that returns the operator. The innermost frame is always this one, or none is open.
#[derive(Clone, Copy)]
pub struct Under(pub Option<FrameKind>);

impl FrameStack for Under {
    ghost frame = { λ v. v.0 };

    fn current_frame(&self) -> Option<FrameKind> {
        self.0
    }
}

impl Visitor for Under {
    type Output = Visited;

    type Visits = ByAny;

    ghost visits = { λ before op outcome after. Unit {0} };

    fn visit_any(&mut self, op: Operator<'static>) -> Visited {
        Some(op)
    }
}

impl<'a> VisitOperator<'a> for Under {
    fn visit_br_table(&mut self, _targets: BrTable<'a>) -> Visited {
        None
    }
}

#[derive(Clone, Copy, Debug)]
pub enum Visits {
    /// The operators that are not SIMD operators.
    Scalar,
    All,
}

pub fn write_peek(alloc: Global, given: Given<'_>, out: &mut String) -> Written {
    let reader = given.reader();
    let stack = Under(given.frame());
    let mut peeked = reader.peek_operator(alloc, &stack);
    if is_lacking(&peeked, reader.original_position()) {
        peeked = reader.peek_operator(alloc, &stack);
    }
    match peeked {
        Ok(op) => write_operator(out, &op)?,
        Err(e) => write_error(out, e)?,
    }
    write_position(out, &reader)
}

pub fn write_visits(alloc: Global, given: Given<'_>, visits: Visits, out: &mut String) -> Written {
    let mut reader = given.reader();
    let mut under = Under(given.frame());
    for _ in given.bytes {
        match visit(alloc, &mut reader, &mut under, visits) {
            Ok(op) => write_visited(out, op)?,
            Err(e) => {
                write_error(out, e)?;
                return write_position(out, &reader);
            }
        }
        write_position(out, &reader)?;
        if reader.eof() {
            break;
        }
        out.push_str(", ")?;
    }
    Ok(())
}

/// Visits an operator. Visits again if allocation failed and nothing was consumed.
fn visit(
    alloc: Global,
    reader: &mut BinaryReader<'_>,
    under: &mut Under,
    visits: Visits,
) -> Result<Visited> {
    let start = reader.original_position();
    let visited = visit_once(alloc, reader, under, visits);
    if is_lacking(&visited, start) && reader.original_position() == start {
        return visit_once(alloc, reader, under, visits);
    }
    visited
}

fn visit_once(
    alloc: Global,
    reader: &mut BinaryReader<'_>,
    under: &mut Under,
    visits: Visits,
) -> Result<Visited> {
    match visits {
        Visits::Scalar => reader.visit_operator(alloc, under),
        Visits::All => reader.visit_operator_simd(alloc, under),
    }
}

fn write_visited(out: &mut String, visited: Visited) -> Written {
    match visited {
        Some(op) => write_operator(out, &op),
        None => out.push_str("BrTable"),
    }
}

/// Clones an operator, visits it borrowed, and clones its resume table. Repeats each that fails
/// with `OutOfMemory` at offset 0.
pub fn write_clones(alloc: Global, given: Given<'_>, out: &mut String) -> Written {
    let reader = given.reader();
    let mut under = Under(given.frame());
    let mut read = reader.peek_operator(alloc, &under);
    if is_lacking(&read, reader.original_position()) {
        read = reader.peek_operator(alloc, &under);
    }
    match read {
        Ok(op) => {
            write_clone(alloc, &op, out)?;
            write_borrowed(alloc, &mut under, &op, out)?;
            write_table(alloc, &op, out)
        }
        Err(e) => write_error(out, e),
    }
}

fn write_clone(alloc: Global, op: &Operator<'_>, out: &mut String) -> Written {
    let mut copy = op.clone(alloc);
    if is_lacking(&copy, 0) {
        copy = op.clone(alloc);
    }
    match copy {
        Ok(copy) => write_equal(out, copy == *op),
        Err(e) => write_error(out, e),
    }
}

fn write_borrowed(
    alloc: Global,
    under: &mut Under,
    op: &Operator<'_>,
    out: &mut String,
) -> Written {
    out.push_str(", ")?;
    let mut visited = visit_operator_with_simd(alloc, under, op);
    if is_lacking(&visited, 0) {
        visited = visit_operator_with_simd(alloc, under, op);
    }
    match visited {
        Ok(op) => write_visited(out, op),
        Err(e) => write_error(out, e),
    }
}

fn write_table(alloc: Global, op: &Operator<'_>, out: &mut String) -> Written {
    out.push_str(", ")?;
    match op {
        Operator::Resume { resume_table, .. } => {
            let mut copy = resume_table.clone(alloc);
            if is_lacking(&copy, 0) {
                copy = resume_table.clone(alloc);
            }
            match copy {
                Ok(copy) => write_equal(out, copy == *resume_table),
                Err(e) => write_error(out, e),
            }
        }
        _ => out.push_str("no resume table"),
    }
}

fn write_equal(out: &mut String, is_equal: bool) -> Written {
    out.push_str(if is_equal { "equal" } else { "not equal" })
}

pub fn write_next(alloc: Global, given: Given<'_>, out: &mut String) -> Written {
    let mut operators = OperatorsReader::new(alloc, given.reader());
    let start = operators.original_position();
    let mut read = operators.read();
    if is_lacking(&read, start) && operators.original_position() == start {
        read = operators.read();
    }
    match read {
        Ok(op) => write_operator(out, &op)?,
        Err(e) => write_error(out, e)?,
    }
    let position = operators.original_position();
    write!(out, " at {position}")
}

pub fn write_finish(given: Given<'_>, out: &mut String) -> Written {
    match given.reader().finish_expression(&Under(given.frame())) {
        Ok(()) => out.push_str("Ok"),
        Err(e) => write_error(out, e),
    }
}
