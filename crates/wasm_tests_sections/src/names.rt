//! The text of a name section, as the program that wrote the rows has it of wasmparser's values.
use crate::failure::{Failure, Written};
use std::alloc::Global;
use wasm_below::{BinaryReader, Error, ErrorKind};
use wasm_names::{IndirectNameMap, Name, NameMap, NameSectionReader};

/// Reads the contents of a section `name`, and writes the text of each subsection, or the error.
pub fn write_names(alloc: Global, text: &mut String, contents: BinaryReader<'_>) -> Written {
    let mut is_first = true;
    for item in NameSectionReader::new(alloc, contents) {
        if !is_first {
            text.push_str("; ")?;
        }
        is_first = false;
        match item {
            Ok(name) => write_name(text, name)?,
            Err(e) => write_error(text, e)?,
        }
    }
    Ok(())
}

fn write_error(text: &mut String, error: Error) -> Written {
    if error.kind() == ErrorKind::OutOfMemory {
        return Err(Failure::OutOfMemory);
    }
    write!(text, "{error}")?;
    Ok(())
}

fn write_name(text: &mut String, name: Name<'_>) -> Written {
    match name {
        Name::Module { name, name_range } => {
            write!(text, "Module {:?}", name.as_str())?;
            write!(text, " {}..{}", name_range.start, name_range.end)?;
            Ok(())
        }
        Name::Function(map) => write_map(text, "Function ", map),
        Name::Local(map) => write_indirect_map(text, "Local ", map),
        Name::Label(map) => write_indirect_map(text, "Label ", map),
        Name::Type(map) => write_map(text, "Type ", map),
        Name::Table(map) => write_map(text, "Table ", map),
        Name::Memory(map) => write_map(text, "Memory ", map),
        Name::Global(map) => write_map(text, "Global ", map),
        Name::Element(map) => write_map(text, "Element ", map),
        Name::Data(map) => write_map(text, "Data ", map),
        Name::Field(map) => write_indirect_map(text, "Field ", map),
        Name::Tag(map) => write_map(text, "Tag ", map),
        Name::Unknown { ty, data, range } => {
            write!(text, "Unknown {ty} {data:?} {}..{}", range.start, range.end)?;
            Ok(())
        }
    }
}

fn write_map(text: &mut String, kind: &str, map: NameMap<'_>) -> Written {
    write!(text, "{kind}{} at {}", map.count(), map.original_position())?;
    for item in map {
        match item {
            Ok(naming) => write!(text, ", {} {:?}", naming.index, naming.name.as_str())?,
            Err(e) => {
                text.push_str(", ")?;
                write_error(text, e)?;
            }
        }
    }
    Ok(())
}

fn write_indirect_map(text: &mut String, kind: &str, map: IndirectNameMap<'_>) -> Written {
    write!(text, "{kind}{} at {}", map.count(), map.original_position())?;
    for item in map {
        text.push_str(", ")?;
        match item {
            Ok(naming) => {
                write!(text, "{} [", naming.index)?;
                write_map(text, "", naming.names)?;
                text.push_str("]")?;
            }
            Err(e) => write_error(text, e)?,
        }
    }
    Ok(())
}
