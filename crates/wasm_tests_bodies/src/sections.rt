use crate::row::Given;
use crate::words::{write_bytes, write_error};
use std::alloc::Global;
use wasm_operators::{CodeSectionReader, FunctionBody, Operator, Result, SectionLimited, SizeName};
use wasm_tests_texts::Written;

pub fn write_numbers(alloc: Global, given: Given<'_>, out: &mut String) -> Written {
    match SectionLimited::<u32>::new(alloc, given.reader()) {
        Ok(section) => write_items(section, out),
        Err(e) => write_error(out, e),
    }
}

fn write_items(section: SectionLimited<'_, u32>, out: &mut String) -> Written {
    let count = section.count();
    write!(out, "{count}:")?;
    let mut items = section.into_iter();
    for _ in 0..4 {
        out.push_str(" ")?;
        match items.next() {
            Some(Ok(item)) => write!(out, "{item}")?,
            Some(Err(e)) => write_error(out, e)?,
            None => out.push_str("end")?,
        }
    }
    Ok(())
}

/// Writes the items of `read_iter`, whose limit is the row's argument, and the offset of the next
/// byte.
pub fn write_iter(alloc: Global, given: Given<'_>, out: &mut String) -> Written {
    let mut reader = given.reader();
    match reader.read_iter::<u32>(alloc, given.number() as usize, SizeName::Catches) {
        Ok(items) => {
            for item in items {
                match item {
                    Ok(item) => write!(out, "{item}")?,
                    Err(e) => write_error(out, e)?,
                }
                out.push_str(" ")?;
            }
        }
        Err(e) => {
            write_error(out, e)?;
            out.push_str(" ")?;
        }
    }
    let next = reader.original_position();
    write!(out, "next {next}")
}

pub fn write_code(alloc: Global, given: Given<'_>, out: &mut String) -> Written {
    match CodeSectionReader::new(alloc, given.reader()) {
        Ok(section) => write_bodies(section, out),
        Err(e) => write_error(out, e),
    }
}

fn write_bodies(section: CodeSectionReader<'_>, out: &mut String) -> Written {
    let count = section.count();
    write!(out, "{count}:")?;
    let mut items = section.into_iter();
    for _ in 0..3 {
        out.push_str(" ")?;
        match items.next() {
            Some(Ok(body)) => write_bytes(out, body.as_bytes())?,
            Some(Err(e)) => write_error(out, e)?,
            None => out.push_str("end")?,
        }
    }
    Ok(())
}

pub fn write_code_operators(alloc: Global, given: Given<'_>, out: &mut String) -> Written {
    match first_body(alloc, given) {
        Ok(Some(body)) => {
            write_all(alloc, &body, out)?;
            write_each(alloc, &body, out)
        }
        Ok(None) => out.push_str("no body"),
        Err(e) => write_error(out, e),
    }
}

fn first_body<'g>(alloc: Global, given: Given<'g>) -> Result<Option<FunctionBody<'g>>> {
    match CodeSectionReader::new(alloc, given.reader())?
        .into_iter()
        .next()
    {
        Some(Ok(body)) => Ok(Some(body)),
        Some(Err(e)) => Err(e),
        None => Ok(None),
    }
}

fn write_all(alloc: Global, body: &FunctionBody<'_>, out: &mut String) -> Written {
    let mut list = Vec::new(alloc);
    let end = read_all(alloc, body, &mut list);
    for (op, offset) in list.as_slice() {
        write!(out, "{offset} {}, ", op.info().name)?;
    }
    match end {
        Ok(()) => out.push_str("Ok; "),
        Err(e) => write_error(out, e),
    }
}

fn read_all<'g>(
    alloc: Global,
    body: &FunctionBody<'g>,
    list: &mut Vec<(Operator<'g>, u64)>,
) -> Result<()> {
    body.get_operators_reader(alloc)?.read_all(list)
}

fn write_each(alloc: Global, body: &FunctionBody<'_>, out: &mut String) -> Written {
    let mut items = match body.get_operators_reader(alloc) {
        Ok(operators) => operators.into_iter_with_offsets(),
        Err(e) => return write_error(out, e),
    };
    for _ in 0..2 {
        match items.next() {
            Some(Ok((op, offset))) => write!(out, "{offset} {}, ", op.info().name)?,
            Some(Err(e)) => write_error(out, e)?,
            None => out.push_str("end, ")?,
        }
    }
    out.push_str(if items.next().is_none() {
        "end"
    } else {
        "more"
    })
}
