use crate::half;
use crate::runs::{
    Reported, is_refused_again, run_borrowed, run_both, run_boxed, run_factory, run_plain,
    run_read, run_simd, write_outcome, write_refusal,
};
use crate::task::Task;
use crate::teller::Teller;
use std::alloc::{AllocError, Global};
use wasm_instr::Operator;
use wasm_tests_texts::Written;
use wasm_visit::visit_operator_with_simd;

#[derive(Drop)]
pub struct Texts {
    pub line: String,
    pub read: String,
    pub other: String,
    pub teller: Teller,
    pub boxed: Box<Teller>,
}

impl Texts {
    pub fn new(alloc: Global) -> Result<Texts, AllocError> {
        Ok(Texts {
            line: String::new(alloc),
            read: String::new(alloc),
            other: String::new(alloc),
            teller: Teller::new(alloc),
            boxed: Box::new(alloc, Teller::new(alloc))?,
        })
    }

    pub fn clear(&mut self) {
        self.line.clear();
        self.read.clear();
        self.other.clear();
        self.teller.text.clear();
        self.boxed.text.clear();
    }
}

fn write_visit(texts: &mut Texts, reported: (Reported, usize)) -> Written {
    write_reported(texts, reported.0)?;
    let position = reported.1;
    write!(texts.line, "; at {position}")
}

fn write_reported(texts: &mut Texts, outcome: Reported) -> Written {
    let Texts { line, teller, .. } = texts;
    let visited = &teller.text;
    match outcome {
        Ok(Ok(call)) => write!(line, "{visited} by {call:?}"),
        Ok(Err(e)) => Err(e),
        Err(e) => {
            write!(line, "{visited}")?;
            write_refusal(line, e)
        }
    }
}

/// Writes the result of `read_operator`, whether each other call has that result, and the errors on
/// cut data.
pub fn write_each(alloc: Global, texts: &mut Texts, task: Task, bytes: &[u8]) -> Written {
    let (outcome, end) = run_read(alloc, task, bytes);
    write_outcome(&mut texts.read, &outcome)?;
    write!(texts.line, "{}; at {end}; factory ", texts.read)?;
    compare_factory(alloc, texts, task, bytes, end)?;
    texts.line.push_str("; visit ")?;
    let reported = run_simd(alloc, &mut texts.teller, task, bytes);
    texts.other.clear();
    texts.other.push_str(texts.teller.text.as_str())?;
    compare_visit(texts, reported, end)?;
    texts.line.push_str("; others")?;
    compare_ways(alloc, texts, task, bytes, reported)?;
    if task.frame.is_some() {
        compare_halves(texts, task, bytes, reported)?;
    }
    if let Ok(op) = &outcome {
        compare_value(alloc, texts, op, reported)?;
    }
    texts.line.push_str("; plain ")?;
    let reported = run_plain(alloc, &mut texts.teller, task, bytes);
    compare_visit(texts, reported, end)?;
    if outcome.is_err() {
        texts.line.push_str("; again ")?;
        let is_same = is_refused_again(alloc, &mut texts.teller, task, bytes);
        texts
            .line
            .push_str(if is_same { "the same" } else { "otherwise" })?;
    }
    texts.line.push_str("; cut")?;
    for size in task.before..end {
        write_cut(alloc, texts, task, start_of(bytes, size))?;
    }
    Ok(())
}

fn start_of(bytes: &[u8], size: usize) -> &[u8] {
    if size < bytes.len() {
        &bytes[..size]
    } else {
        bytes
    }
}

fn compare_factory(
    alloc: Global,
    texts: &mut Texts,
    task: Task,
    bytes: &[u8],
    end: usize,
) -> Written {
    let (outcome, position) = run_factory(alloc, task, bytes);
    texts.other.clear();
    write_outcome(&mut texts.other, &outcome)?;
    if texts.other == texts.read && position == end {
        texts.line.push_str("the same")
    } else {
        write!(texts.line, "{}; at {position}", texts.other)
    }
}

/// Writes which visitor method received the operator that was read; otherwise, the visit's result.
fn compare_visit(texts: &mut Texts, reported: (Reported, usize), end: usize) -> Written {
    let is_same = texts.teller.text == texts.read && reported.1 == end;
    match reported.0 {
        Ok(Ok(call)) if is_same => write!(texts.line, "by {call:?}")?,
        _ => write_visit(texts, reported)?,
    }
    texts.teller.text.clear();
    Ok(())
}

/// Writes whether a visitor receives the same visit by reference, in a `Box`, and by reference to
/// the `Box`. `other` is the text of the direct visit.
fn compare_ways(
    alloc: Global,
    texts: &mut Texts,
    task: Task,
    bytes: &[u8],
    direct: (Reported, usize),
) -> Written {
    let Texts {
        line,
        other,
        teller,
        boxed,
        ..
    } = texts;
    let reported = run_borrowed(alloc, teller, task, bytes);
    write_way(line, direct, reported, other, &mut teller.text)?;
    let reported = run_boxed(alloc, boxed, task, bytes);
    write_way(line, direct, reported, other, &mut boxed.text)?;
    let reported = run_both(alloc, boxed, task, bytes);
    write_way(line, direct, reported, other, &mut boxed.text)
}

/// Writes whether `decode_simd_low` or `decode_simd_high` makes the `direct` visit, also in the
/// ways of `compare_ways`. Writes nothing without the prefix 0xfd.
fn compare_halves(
    texts: &mut Texts,
    task: Task,
    bytes: &[u8],
    direct: (Reported, usize),
) -> Written {
    let Texts {
        line,
        other,
        teller,
        boxed,
        ..
    } = texts;
    let reported = half::run_own(teller, task, bytes);
    if reported.is_none() {
        return Ok(());
    }
    line.push_str("; half")?;
    write_half(line, direct, reported, other, &mut teller.text)?;
    let reported = half::run_borrowed(teller, task, bytes);
    write_half(line, direct, reported, other, &mut teller.text)?;
    let reported = half::run_boxed(boxed, task, bytes);
    write_half(line, direct, reported, other, &mut boxed.text)?;
    let reported = half::run_both(boxed, task, bytes);
    write_half(line, direct, reported, other, &mut boxed.text)
}

/// Writes whether the operator that was read has the `direct` visit.
fn compare_value(
    alloc: Global,
    texts: &mut Texts,
    op: &Operator<'_>,
    direct: (Reported, usize),
) -> Written {
    let Texts {
        line,
        other,
        teller,
        ..
    } = texts;
    line.push_str("; value")?;
    let outcome = visit_operator_with_simd(alloc, teller, op);
    write_way(line, direct, (outcome, direct.1), other, &mut teller.text)
}

fn is_same_visit(a: (Reported, usize), b: (Reported, usize)) -> bool {
    let is_same = match (a.0, b.0) {
        (Ok(Ok(call)), Ok(Ok(other))) => call == other,
        (Err(e), Err(other)) => e == other,
        _ => false,
    };
    is_same && a.1 == b.1
}

/// Writes whether a visit equals the direct visit, whose text is `other`; if not, the visit and the
/// position. Clears the visit's text.
fn write_way(
    line: &mut String,
    direct: (Reported, usize),
    reported: (Reported, usize),
    other: &String,
    text: &mut String,
) -> Written {
    if is_same_visit(direct, reported) && *text == *other {
        line.push_str(" same")?;
    } else {
        let position = reported.1;
        write!(line, " ({text} at {position})")?;
    }
    text.clear();
    Ok(())
}

fn write_half(
    line: &mut String,
    direct: (Reported, usize),
    reported: Option<(Reported, usize)>,
    other: &String,
    text: &mut String,
) -> Written {
    let Some(reported) = reported else {
        return Ok(());
    };
    write_way(line, direct, reported, other, text)
}

/// Writes `EndOfData`'s offset if reading and visiting cut data fail with it; otherwise both
/// results.
fn write_cut(alloc: Global, texts: &mut Texts, task: Task, bytes: &[u8]) -> Written {
    let (outcome, position) = run_read(alloc, task, bytes);
    let reported = run_simd(alloc, &mut texts.teller, task, bytes);
    match (&outcome, &reported.0) {
        (Err(e), Err(of_visit)) if *e == *of_visit && e.message().number() == 1 => {
            let offset = e.offset();
            write!(texts.line, " {offset}")?;
        }
        _ => {
            texts.line.push_str(" (")?;
            write_outcome(&mut texts.line, &outcome)?;
            texts.line.push_str(") (")?;
            write_visit(texts, reported)?;
            texts.line.push_str(")")?;
        }
    }
    if position != task.before || reported.1 != task.before || !texts.teller.text.is_empty() {
        texts.line.push_str(" and something changed")?;
    }
    texts.teller.text.clear();
    Ok(())
}
