use crate::types::{field, storage_type, types_of, unmarked, value_type};
use std::alloc::{AllocError, Global};
use wasm_below::ValType;
use wasm_check::{FieldType, GlobalType};
use wasm_tests_texts::read_hex;

/// A type that owns its lists.
#[derive(Drop)]
pub enum OwnType {
    Func {
        params: Vec<ValType>,
        results: Vec<ValType>,
    },
    Struct(Vec<FieldType>),
    Array(FieldType),
}

/// A table. Its element type is a reference type.
#[derive(Clone, Copy)]
pub struct OwnTable {
    pub element: ValType,
    pub table64: bool,
}

/// A module with one function body or constant expression, and what a validator says of it.
#[derive(Drop)]
pub struct Row {
    pub types: Vec<OwnType>,
    /// The type index of each function.
    pub functions: Vec<u32>,
    pub globals: Vec<GlobalType>,
    pub tables: Vec<OwnTable>,
    /// Whether the addresses of each memory are `i64`.
    pub memories: Vec<bool>,
    /// The type index of each tag.
    pub tags: Vec<u32>,
    pub elements: Vec<ValType>,
    pub data_segments: u32,
    /// Whether each function is declared as a reference.
    pub declared: Vec<bool>,
    /// The type index of the function.
    pub ty: u32,
    /// The type of a constant expression, if there is one in place of a function's body.
    pub constant: Option<ValType>,
    pub code: Vec<u8>,
    pub valid: bool,
}

/// Reads a row. The README of this crate has its form.
pub fn row_of(alloc: Global, line: &str) -> Result<Row, AllocError> {
    let mut cells = line.split('\t');
    let _name = cells.next();
    let types = own_types(alloc, cells.next().unwrap_or(""))?;
    let functions = numbers(alloc, cells.next().unwrap_or(""))?;
    let globals = globals(alloc, cells.next().unwrap_or(""))?;
    let tables = tables(alloc, cells.next().unwrap_or(""))?;
    let memories = flags(alloc, cells.next().unwrap_or(""))?;
    let tags = numbers(alloc, cells.next().unwrap_or(""))?;
    let elements = types_of(alloc, cells.next().unwrap_or(""))?;
    let data_segments = cells.next().unwrap_or("").parse::<u32>().unwrap_or(0);
    let declared = flags(alloc, cells.next().unwrap_or(""))?;
    let ty_cell = cells.next().unwrap_or("");
    let constant = value_type(ty_cell);
    let ty = ty_cell.parse::<u32>().unwrap_or(0);
    let mut code = Vec::new(alloc);
    read_hex(&mut code, cells.next().unwrap_or(""))?;
    let valid = matches!(cells.next(), Some("valid"));
    Ok(Row {
        types,
        functions,
        globals,
        tables,
        memories,
        tags,
        elements,
        data_segments,
        declared,
        ty,
        constant,
        code,
        valid,
    })
}

fn own_types(alloc: Global, text: &str) -> Result<Vec<OwnType>, AllocError> {
    let mut out = Vec::new(alloc);
    for part in text.split(';') {
        if let Some((params, results)) = part.split_once('>') {
            out.push(OwnType::Func {
                params: types_of(alloc, params)?,
                results: types_of(alloc, results)?,
            })?;
        } else if part.starts_with("struct") {
            out.push(OwnType::Struct(fields(alloc, part)?))?;
        } else if let Some((_, elements)) = part.split_once(' ') {
            if let Some(elements) = field(elements) {
                out.push(OwnType::Array(elements))?;
            }
        }
    }
    Ok(out)
}

fn fields(alloc: Global, text: &str) -> Result<Vec<FieldType>, AllocError> {
    let mut out = Vec::new(alloc);
    for word in text.split(' ') {
        let (mutable, name) = unmarked(word);
        let ty: Option<ValType> = value_type(name);
        if let Some(element_type) = storage_type(name, ty) {
            out.push(FieldType {
                element_type,
                mutable,
            })?;
        }
    }
    Ok(out)
}

fn numbers(alloc: Global, text: &str) -> Result<Vec<u32>, AllocError> {
    let mut out = Vec::new(alloc);
    for word in text.split(' ') {
        if let Ok(number) = word.parse::<u32>() {
            out.push(number)?;
        }
    }
    Ok(out)
}

/// Reads a list of `i32` or 0, which are false, and `i64` or 1, which are true.
fn flags(alloc: Global, text: &str) -> Result<Vec<bool>, AllocError> {
    let mut out = Vec::new(alloc);
    for word in text.split(' ') {
        match word {
            "i32" | "0" => out.push(false)?,
            "i64" | "1" => out.push(true)?,
            _ => {}
        }
    }
    Ok(out)
}

fn globals(alloc: Global, text: &str) -> Result<Vec<GlobalType>, AllocError> {
    let mut out = Vec::new(alloc);
    for word in text.split(' ') {
        let (mutable, ty) = unmarked(word);
        if let Some(content_type) = value_type(ty) {
            out.push(GlobalType {
                content_type,
                mutable,
            })?;
        }
    }
    Ok(out)
}

fn tables(alloc: Global, text: &str) -> Result<Vec<OwnTable>, AllocError> {
    let mut out = Vec::new(alloc);
    for word in text.split(' ') {
        if let Some((address, element)) = word.split_once(':') {
            if let Some(element) = value_type(element) {
                out.push(OwnTable {
                    element,
                    table64: address == "i64",
                })?;
            }
        }
    }
    Ok(out)
}
