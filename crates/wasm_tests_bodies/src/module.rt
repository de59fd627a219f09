use crate::row::Given;
use crate::words::{write_error, write_name, write_position};
use std::alloc::AllocError;
use wasm_module::{
    CompositeType, CustomSection, Export, Import, NameAssociation, read_preamble,
    read_rec_type_len, read_section,
};
use wasm_operators::{BinaryReader, Result};
use wasm_tests_texts::Written;

const ITEMS: u32 = 8;

/// Appends the kind of the module `given` to `out`, then the number of each section and the range of
/// its contents.
pub fn write_sections(given: Given<'_>, out: &mut String) -> Written {
    let mut reader = given.reader();
    match read_preamble(&mut reader) {
        Ok(preamble) => {
            let kind = preamble.kind();
            write!(out, "{kind:?}")?;
        }
        Err(e) => return write_error(out, e),
    }
    for _ in given.bytes {
        if reader.eof() {
            break;
        }
        match read_section(&mut reader) {
            Ok(section) => {
                let id = section.id();
                write!(out, ", {id} ")?;
                write_range(out, &section.contents())?;
            }
            Err(e) => return write_error(out, e),
        }
    }
    Ok(())
}

fn write_range(out: &mut String, reader: &BinaryReader<'_>) -> Written {
    let range = reader.remaining_range();
    let start = range.start;
    let end = range.end;
    write!(out, "{start}..{end}")
}

/// Writes the range and at most 8 items of the first section numbered `given.number()`: types (1),
/// imports (2), exports (7), or names of functions (0).
pub fn write_section(given: Given<'_>, out: &mut String) -> Written {
    match contents_of(given) {
        Ok(Some(mut contents)) => {
            write_range(out, &contents)?;
            match given.argument {
                "1" => write_types(&mut contents, out),
                "2" => write_imports(&mut contents, out),
                "7" => write_exports(&mut contents, out),
                _ => write_custom(contents, out),
            }
        }
        Ok(None) => out.push_str("no such section"),
        Err(e) => write_error(out, e),
    }
}

fn contents_of<'g>(given: Given<'g>) -> Result<Option<BinaryReader<'g>>> {
    let mut reader = given.reader();
    let _preamble = read_preamble(&mut reader)?;
    for _ in given.bytes {
        if reader.eof() {
            break;
        }
        let section = read_section(&mut reader)?;
        if u32::from(section.id()) == given.number() {
            return Ok(Some(section.contents()));
        }
    }
    Ok(None)
}

fn count_of(
    contents: &mut BinaryReader<'_>,
    out: &mut String,
) -> std::result::Result<u32, AllocError> {
    match contents.read_var_u32() {
        Ok(count) => {
            write!(out, ": {count}")?;
            Ok(count.min(ITEMS))
        }
        Err(e) => {
            write_error(out, e)?;
            Ok(0)
        }
    }
}

fn write_left(contents: &BinaryReader<'_>, out: &mut String) -> Written {
    let left = contents.bytes_remaining();
    write!(out, ", {left} left")
}

fn write_types(contents: &mut BinaryReader<'_>, out: &mut String) -> Written {
    for _ in 0..count_of(contents, out)? {
        write_type(contents, out)?;
    }
    write_left(contents, out)
}

fn write_type(contents: &mut BinaryReader<'_>, out: &mut String) -> Written {
    match CompositeType::read(contents) {
        Ok(ty) => write!(out, ", {ty:?}"),
        Err(e) => write_error(out, e),
    }
}

/// Writes `given.number()` recursive types: how many sub types each has, and these.
pub fn write_rec_types(given: Given<'_>, out: &mut String) -> Written {
    let mut reader = given.reader();
    for _ in 0..given.number() {
        match read_rec_type_len(&mut reader) {
            Ok(count) => {
                write!(out, "{count}")?;
                for _ in 0..count.min(ITEMS) {
                    write_type(&mut reader, out)?;
                }
                out.push_str("; ")?;
            }
            Err(e) => write_error(out, e)?,
        }
    }
    let left = reader.bytes_remaining();
    write!(out, "{left} left")
}

fn write_imports(contents: &mut BinaryReader<'_>, out: &mut String) -> Written {
    for _ in 0..count_of(contents, out)? {
        match Import::read(contents) {
            Ok(import) => {
                out.push_str(", ")?;
                write_name(out, import.module_name())?;
                out.push_str(".")?;
                write_name(out, import.name())?;
                let kind = import.kind();
                write!(out, " {kind}")?;
            }
            Err(e) => write_error(out, e)?,
        }
    }
    write_left(contents, out)
}

fn write_exports(contents: &mut BinaryReader<'_>, out: &mut String) -> Written {
    for _ in 0..count_of(contents, out)? {
        match Export::read(contents) {
            Ok(export) => {
                out.push_str(", ")?;
                write_name(out, export.name())?;
                let kind = export.kind();
                let index = export.index();
                write!(out, " {kind} {index}")?;
            }
            Err(e) => write_error(out, e)?,
        }
    }
    write_left(contents, out)
}

/// Writes a custom section's name, the number of its first part, and the names in that part.
fn write_custom(contents: BinaryReader<'_>, out: &mut String) -> Written {
    match CustomSection::new(contents) {
        Ok(custom) => {
            out.push_str(": ")?;
            write_name(out, custom.name())?;
            let mut parts = custom.contents();
            write_position(out, &parts)?;
            match read_section(&mut parts) {
                Ok(part) => {
                    let id = part.id();
                    write!(out, ", part {id}")?;
                    let mut names = part.contents();
                    write_names(&mut names, out)
                }
                Err(e) => write_error(out, e),
            }
        }
        Err(e) => write_error(out, e),
    }
}

fn write_names(contents: &mut BinaryReader<'_>, out: &mut String) -> Written {
    for _ in 0..count_of(contents, out)? {
        match NameAssociation::read(contents) {
            Ok(named) => {
                let index = named.index();
                write!(out, ", {index} ")?;
                write_name(out, named.name())?;
            }
            Err(e) => write_error(out, e)?,
        }
    }
    write_left(contents, out)
}
