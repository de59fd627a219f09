//! The text of segments, as the program that wrote the rows has it of wasmparser's values.
use crate::constant::Constant;
use crate::failure::{Failure, Written};
use crate::tables::ref_type_name;
use std::alloc::Global;
use wasm_below::{BinaryReader, Error, ErrorKind};
use wasm_grammars::Read;
use wasm_segments::{Data, DataKind, Element, ElementItems, ElementKind, Items};

/// Reads an element segment, and writes its text and the offset of the next byte, or the error.
pub fn write_element(alloc: Global, text: &mut String, reader: &mut BinaryReader<'_>) -> Written {
    let start = reader.original_position();
    match Element::<'_, Constant>::read_from(alloc, reader) {
        Ok(element) => {
            write_kind(text, &element.kind)?;
            text.push_str("; ")?;
            write_items(alloc, text, &element.items)?;
            write!(text, "; next {}", reader.original_position())?;
            Ok(())
        }
        Err(e) => write_error(text, e, reader.original_position() != start),
    }
}

/// Reads a data segment, and writes its text and the offset of the next byte, or the error.
pub fn write_data(alloc: Global, text: &mut String, reader: &mut BinaryReader<'_>) -> Written {
    let start = reader.original_position();
    match Data::<'_, Constant>::read_from(alloc, reader) {
        Ok(segment) => {
            match segment.kind {
                DataKind::Passive => text.push_str("passive; ")?,
                DataKind::Active {
                    memory_index,
                    offset_expr,
                } => {
                    write!(text, "active {memory_index} ")?;
                    write_constant(text, offset_expr)?;
                    text.push_str("; ")?;
                }
            }
            for byte in segment.data.as_slice() {
                write!(text, "{byte:02x}")?;
            }
            write!(text, "; next {}", reader.original_position())?;
            Ok(())
        }
        Err(e) => write_error(text, e, reader.original_position() != start),
    }
}

pub fn write_error(text: &mut String, error: Error, moved: bool) -> Written {
    if error.kind() == ErrorKind::OutOfMemory {
        return Err(Failure::OutOfMemory);
    }
    if moved {
        return Err(Failure::Malformed);
    }
    write!(text, "{error}")?;
    Ok(())
}

fn write_kind(text: &mut String, kind: &ElementKind<Constant>) -> Written {
    match kind {
        ElementKind::Passive => text.push_str("passive")?,
        ElementKind::Declared => text.push_str("declared")?,
        ElementKind::Active {
            table_index,
            offset_expr,
        } => {
            write!(text, "active {table_index:?} ")?;
            write_constant(text, *offset_expr)?;
        }
    }
    Ok(())
}

pub fn write_constant(text: &mut String, constant: Constant) -> Written {
    write!(
        text,
        "{:02x}{:02x}{:02x}@{}",
        constant.opcode, constant.number, constant.end, constant.offset
    )?;
    Ok(())
}

fn write_items(alloc: Global, text: &mut String, items: &ElementItems<'_, Constant>) -> Written {
    match items {
        ElementItems::Functions(list) => {
            text.push_str("functions ")?;
            write_list(text, list)?;
            for item in list.section_reader(alloc) {
                match item {
                    Ok(index) => write!(text, " {index}")?,
                    Err(_) => return Err(Failure::Malformed),
                }
            }
            Ok(())
        }
        ElementItems::Expressions(ty, list) => {
            write!(text, "expressions {} ", ref_type_name(*ty))?;
            write_list(text, list)?;
            for item in list.section_reader(alloc) {
                text.push_str(" ")?;
                match item {
                    Ok(constant) => write_constant(text, constant)?,
                    Err(_) => return Err(Failure::Malformed),
                }
            }
            Ok(())
        }
    }
}

fn write_list<T>(text: &mut String, list: &Items<'_, T>) -> Written {
    let start = list.get_binary_reader().original_position();
    write!(text, "{} @{start}", list.count())?;
    Ok(())
}
