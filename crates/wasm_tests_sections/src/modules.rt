//! The sections of a module, and the items of a function section.
use crate::failure::{Failure, Written};
use std::alloc::Global;
use wasm_below::{BinaryReader, Error, ErrorKind};
use wasm_sections::{Section, SectionReader, Sections, read_items, read_sections};

/// The id of the function section.
const FUNCTIONS: u8 = 3;

/// Writes an error of the bytes.
fn write_error(text: &mut String, error: Error) -> Written {
    if error.kind() == ErrorKind::OutOfMemory {
        return Err(Failure::OutOfMemory);
    }
    write!(text, "{error}")?;
    Ok(())
}

/// Writes the type indices of a function section, read as a list and one by one.
fn write_functions(alloc: Global, text: &mut String, section: &Section<'_>) -> Written {
    match read_items::<u32>(alloc, section.contents()) {
        Ok(indices) => {
            for index in &indices {
                write!(text, " {index}")?;
            }
        }
        Err(e) => return write_error(text, e),
    }
    match SectionReader::<u32>::new(alloc, section.contents()) {
        Ok(functions) => {
            for item in functions.into_iter_with_offsets() {
                match item {
                    Ok((offset, index)) => write!(text, " {index}@{offset}")?,
                    Err(e) => return write_error(text, e),
                }
            }
            Ok(())
        }
        Err(e) => write_error(text, e),
    }
}

/// Writes a section's id, and the offsets of its contents.
fn write_section(alloc: Global, text: &mut String, section: &Section<'_>) -> Written {
    let range = section.contents().range();
    write!(text, "{} {}..{}", section.id(), range.start, range.end)?;
    if section.id() == FUNCTIONS {
        write_functions(alloc, text, section)?;
    }
    write!(text, "; ")?;
    Ok(())
}

/// Writes the sections of a module, read as a list, and how many there are if they are read one by
/// one.
pub fn write_sections(alloc: Global, text: &mut String, reader: &BinaryReader<'_>) -> Written {
    match read_sections(alloc, reader.clone()) {
        Ok(sections) => {
            for section in &sections {
                write_section(alloc, text, section)?;
            }
        }
        Err(e) => return write_error(text, e),
    }
    match Sections::new(reader.clone()) {
        Ok(sections) => {
            let mut count = 0u32;
            for section in sections {
                match section {
                    Ok(_) => count = count.saturating_add(1),
                    Err(e) => return write_error(text, e),
                }
            }
            write!(text, "{count} sections")?;
            Ok(())
        }
        Err(e) => write_error(text, e),
    }
}
