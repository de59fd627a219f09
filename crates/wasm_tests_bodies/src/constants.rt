use crate::row::Given;
use crate::words::{is_lacking, write_bytes, write_error, write_position};
use std::alloc::{AllocError, Global};
use wasm_operators::{BinaryReader, ConstExpr, Result, SectionLimited};
use wasm_tests_texts::Written;

/// Writes a constant expression and the position after it. If allocation failed and nothing was
/// consumed, reads once more.
pub fn write_constant(alloc: Global, given: Given<'_>, out: &mut String) -> Written {
    let mut reader = given.reader();
    let start = reader.original_position();
    let mut read = ConstExpr::read(alloc, &mut reader);
    if is_lacking(&read, start) && reader.original_position() == start {
        read = ConstExpr::read(alloc, &mut reader);
    }
    match read {
        Ok(constant) => {
            write_bytes(out, constant.get_binary_reader().remaining_buffer())?;
            if constant.get_operators_reader(alloc).eof() {
                out.push_str(" without operators")?;
            }
        }
        Err(e) => write_error(out, e)?,
    }
    write_position(out, &reader)
}

/// Writes the range of the only item of a section of constant expressions. Reads again if
/// allocation failed in the item.
pub fn write_only_constant(alloc: Global, given: Given<'_>, out: &mut String) -> Written {
    let item = u64::from(given.offset).saturating_add(1);
    let mut only = only_constant(alloc, given);
    if is_lacking(&only, item) {
        only = only_constant(alloc, given);
    }
    match only {
        Ok(Some((start, end))) => write!(out, "{start}..{end}"),
        Ok(None) => out.push_str("not one item"),
        Err(e) => write_error(out, e),
    }
}

fn only_constant(alloc: Global, given: Given<'_>) -> Result<Option<(u64, u64)>> {
    let mut items = SectionLimited::<ConstExpr>::new(alloc, given.reader())?.into_iter();
    let item = items.next();
    if items.next().is_some() {
        return Ok(None);
    }
    match item {
        Some(Ok(constant)) => {
            let range = constant.get_binary_reader().range();
            Ok(Some((range.start, range.end)))
        }
        Some(Err(e)) => Err(e),
        None => Ok(None),
    }
}

/// Compares constant expressions: other offset, other bytes, a clone. Writes the results, and
/// whether `Debug` prints nothing.
pub fn write_equal_constants(alloc: Global, out: &mut String) -> Written {
    let first = ConstExpr::new(BinaryReader::new(&[0x41, 0x2a, 0x0b], 0));
    let second = ConstExpr::new(BinaryReader::new(&[0x41, 0x2a, 0x0b], 7));
    let other = ConstExpr::new(BinaryReader::new(&[0x41, 0x2b, 0x0b], 0));
    let copy = first.clone()?;
    let printed = format!(in alloc; "{first:?}")?;
    write!(
        out,
        "{} {} {} {}",
        first == second,
        first == other,
        copy == second,
        printed.is_empty()
    )
}
