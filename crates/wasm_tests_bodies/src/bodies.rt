use crate::row::Given;
use crate::words::{write_bytes, write_error, write_position};
use std::alloc::Global;
use wasm_operators::{FunctionBody, LocalsReader};
use wasm_tests_texts::{Written, write_value_type};

/// Writes the count of local declarations, the results of as many reads as the row's argument says,
/// and where the operators start.
pub fn write_locals(given: Given<'_>, out: &mut String) -> Written {
    let body = FunctionBody::new(given.reader());
    match body.get_locals_reader() {
        Ok(locals) => write_declarations(given.number(), locals, out)?,
        Err(e) => write_error(out, e)?,
    }
    match body.get_binary_reader_for_operators() {
        Ok(reader) => {
            out.push_str("operators")?;
            write_position(out, &reader)
        }
        Err(e) => write_error(out, e),
    }
}

fn write_declarations(reads: u32, mut locals: LocalsReader<'_>, out: &mut String) -> Written {
    let count = locals.get_count();
    write!(out, "{count}: ")?;
    for _ in 0..reads {
        match locals.read() {
            Ok((number, ty)) => {
                write!(out, "{number} ")?;
                write_value_type(out, ty)?;
            }
            Err(e) => write_error(out, e)?,
        }
        let position = locals.original_position();
        write!(out, " at {position}, ")?;
    }
    Ok(())
}

/// Writes three results of the locals' iterator, each after a `size_hint`, and whether only one
/// `end` follows.
pub fn write_locals_items(alloc: Global, given: Given<'_>, out: &mut String) -> Written {
    let mut items = match FunctionBody::new(given.reader()).get_locals_reader() {
        Ok(locals) => locals.into_iter(),
        Err(e) => return write_error(out, e),
    };
    for _ in 0..3 {
        let (least, most) = items.size_hint();
        write!(out, "{least} {most:?}: ")?;
        match items.next() {
            Some(Ok((number, ty))) => {
                write!(out, "{number} ")?;
                write_value_type(out, ty)?;
            }
            Some(Err(e)) => write_error(out, e)?,
            None => out.push_str("end")?,
        }
        out.push_str(", ")?;
    }
    let is_end = items.into_operators_reader(alloc).is_end_then_eof();
    out.push_str(if is_end { "one end" } else { "not one end" })
}

/// Writes the first error of the locals' iterator, and where the operators start if it returns
/// `None` after one item.
pub fn write_locals_end(given: Given<'_>, out: &mut String) -> Written {
    let mut items = match FunctionBody::new(given.reader()).get_locals_reader() {
        Ok(locals) => locals.into_iter(),
        Err(e) => return write_error(out, e),
    };
    if let Some(Err(e)) = items.next() {
        write_error(out, e)?;
        out.push_str(", ")?;
    }
    match items.next() {
        Some(_) => out.push_str("more"),
        None => {
            out.push_str("operators")?;
            write_position(out, &items.into_binary_reader_for_operators())
        }
    }
}

pub fn write_body(alloc: Global, given: Given<'_>, out: &mut String) -> Written {
    let mut reader = given.reader();
    match reader.read::<FunctionBody>(alloc) {
        Ok(body) => write_bytes_and_range(&body, out),
        Err(e) => write_error(out, e),
    }
}

pub fn write_body_after_byte(given: Given<'_>, out: &mut String) -> Written {
    let mut reader = given.reader();
    match reader.read_u8() {
        Ok(_) => write_bytes_and_range(&FunctionBody::new(reader), out),
        Err(e) => write_error(out, e),
    }
}

fn write_bytes_and_range(body: &FunctionBody<'_>, out: &mut String) -> Written {
    write_bytes(out, body.as_bytes())?;
    let range = body.range();
    let start = range.start;
    let end = range.end;
    write!(out, " {start}..{end}")
}
