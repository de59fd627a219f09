//! The text of types, as the program that wrote the rows has it of wasmparser's values.
use crate::failure::{Failure, Written};
use std::alloc::Global;
use wasm_below::{BinaryReader, ErrorKind, HeapType, RefType, ValType};
use wasm_grammars::Read;
use wasm_imm::Members;
use wasm_types::{CompositeInnerType, FieldType, FuncType, RecGroup, StorageType, SubType};

/// Reads an item of a type section, and writes its text and the offset of the next byte, or the
/// error.
pub fn write_rec_group(alloc: Global, text: &mut String, reader: &mut BinaryReader<'_>) -> Written {
    let start = reader.original_position();
    match RecGroup::read_from(alloc, reader) {
        Ok(group) => {
            write_group(text, &group)?;
            write!(text, "; next {}", reader.original_position())?;
            Ok(())
        }
        Err(e) if e.kind() == ErrorKind::OutOfMemory => Err(Failure::OutOfMemory),
        Err(_) if reader.original_position() != start => Err(Failure::Malformed),
        Err(e) => {
            write!(text, "{e}")?;
            Ok(())
        }
    }
}

fn write_group(text: &mut String, group: &RecGroup) -> Written {
    let word = if group.is_explicit_rec_group() {
        "group"
    } else {
        "type"
    };
    text.push_str(word)?;
    for ty in group.types() {
        text.push_str(" (")?;
        write_sub_type(text, ty)?;
        text.push_str(")")?;
    }
    Ok(())
}

fn write_sub_type(text: &mut String, ty: &SubType) -> Written {
    if ty.is_final {
        text.push_str("final ")?;
    }
    if let Some(index) = ty.supertype_idx {
        write!(text, "of {index} ")?;
    }
    if ty.composite_type.shared {
        text.push_str("shared ")?;
    }
    match &ty.composite_type.inner {
        CompositeInnerType::Func(func) => write_func(text, func),
        CompositeInnerType::Array(array) => {
            text.push_str("array ")?;
            write_field(text, array.0)
        }
        CompositeInnerType::Struct(ty) => {
            text.push_str("struct")?;
            write_fields(text, &ty.fields)
        }
        CompositeInnerType::Cont(cont) => {
            write!(text, "cont {}", cont.0)?;
            Ok(())
        }
    }
}

fn write_fields(text: &mut String, fields: &Members<FieldType>) -> Written {
    for field in fields {
        text.push_str(" (")?;
        write_field(text, *field)?;
        text.push_str(")")?;
    }
    Ok(())
}

fn write_func(text: &mut String, func: &FuncType) -> Written {
    text.push_str("func")?;
    for ty in func.params() {
        text.push_str(" ")?;
        write_val_type(text, *ty)?;
    }
    text.push_str(" ->")?;
    for ty in func.results() {
        text.push_str(" ")?;
        write_val_type(text, *ty)?;
    }
    Ok(())
}

fn write_field(text: &mut String, field: FieldType) -> Written {
    if field.mutable {
        text.push_str("mut ")?;
    }
    match field.element_type {
        StorageType::I8 => text.push_str("i8")?,
        StorageType::I16 => text.push_str("i16")?,
        StorageType::Val(ty) => write_val_type(text, ty)?,
    }
    Ok(())
}

fn write_val_type(text: &mut String, ty: ValType) -> Written {
    match ty {
        ValType::I32 => text.push_str("i32")?,
        ValType::I64 => text.push_str("i64")?,
        ValType::F32 => text.push_str("f32")?,
        ValType::F64 => text.push_str("f64")?,
        ValType::V128 => text.push_str("v128")?,
        ValType::Ref(ty) => write_ref_type(text, ty)?,
    }
    Ok(())
}

fn write_ref_type(text: &mut String, ty: RefType) -> Written {
    text.push_str(if ty.is_nullable() {
        "ref null "
    } else {
        "ref "
    })?;
    match ty.heap_type() {
        HeapType::Abstract { shared, ty } => {
            if shared {
                text.push_str("shared ")?;
            }
            write!(text, "{ty:?}")?;
        }
        HeapType::Concrete(index) => write!(text, "{index}")?,
        HeapType::Exact(index) => write!(text, "exact {index}")?,
    }
    Ok(())
}
