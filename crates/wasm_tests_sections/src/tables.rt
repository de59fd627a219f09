//! The text of globals and tables, as the program that wrote the rows has it of wasmparser's values.
use crate::constant::Constant;
use crate::failure::Written;
use crate::segments::{write_constant, write_error};
use std::alloc::Global as Allocator;
use wasm_below::{AbstractHeapType, BinaryReader, HeapType, RefType, ValType};
use wasm_grammars::Read;
use wasm_segments::{Global, Table, TableInit};

/// Reads a global, and writes its text and the offset of the next byte, or the error.
pub fn write_global(alloc: Allocator, text: &mut String, reader: &mut BinaryReader<'_>) -> Written {
    let start = reader.original_position();
    match Global::<Constant>::read_from(alloc, reader) {
        Ok(Global { ty, init_expr }) => {
            let name = val_type_name(ty.content_type);
            write!(text, "{name} {} {}; ", ty.mutable, ty.shared)?;
            write_constant(text, init_expr)?;
            write!(text, "; next {}", reader.original_position())?;
            Ok(())
        }
        Err(e) => write_error(text, e, reader.original_position() != start),
    }
}

/// Reads a table, and writes its text and the offset of the next byte, or the error.
pub fn write_table(alloc: Allocator, text: &mut String, reader: &mut BinaryReader<'_>) -> Written {
    let start = reader.original_position();
    match Table::<Constant>::read_from(alloc, reader) {
        Ok(Table { ty, init }) => {
            let name = ref_type_name(ty.element_type);
            write!(text, "{name} {} {} ", ty.table64, ty.initial)?;
            write!(text, "{:?} {}; ", ty.maximum, ty.shared)?;
            match init {
                TableInit::RefNull => text.push_str("null")?,
                TableInit::Expr(value) => write_constant(text, value)?,
            }
            write!(text, "; next {}", reader.original_position())?;
            Ok(())
        }
        Err(e) => write_error(text, e, reader.original_position() != start),
    }
}

fn val_type_name(ty: ValType) -> &'static str {
    match ty {
        ValType::I32 => "i32",
        ValType::Ref(ty) => ref_type_name(ty),
        _ => "another",
    }
}

pub fn ref_type_name(ty: RefType) -> &'static str {
    match ty.heap_type() {
        HeapType::Abstract {
            ty: AbstractHeapType::Func,
            ..
        } => "funcref",
        HeapType::Abstract {
            ty: AbstractHeapType::Extern,
            ..
        } => "externref",
        _ => "another",
    }
}
