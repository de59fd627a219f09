use crate::outcomes::write_refusal;
use std::alloc::Global;
use wasm_operators::{
    BinaryReader, CodeSectionReader, ConstExpr, Error, FunctionBody, LocalsReader, WasmFeatures,
};
use wasm_tests_texts::{Written, write_value_type};

pub fn write_constant(
    alloc: Global,
    features: WasmFeatures,
    bytes: &[u8],
    out: &mut String,
) -> Written {
    let mut reader = BinaryReader::new_features(bytes, 0, features);
    match ConstExpr::read(alloc, &mut reader) {
        Ok(_) => {
            let position = reader.original_position();
            write!(out, "Ok@{position}")
        }
        Err(e) => write_refusal(out, e),
    }
}

pub fn write_locals(features: WasmFeatures, bytes: &[u8], out: &mut String) -> Written {
    let reader = BinaryReader::new_features(bytes, 0, features);
    match LocalsReader::new(reader) {
        Ok(locals) => write_declarations(locals, out),
        Err(e) => write_refusal(out, e),
    }
}

fn write_declarations(locals: LocalsReader<'_>, out: &mut String) -> Written {
    let count = locals.get_count();
    write!(out, "{count}")?;
    let mut given = 0u32;
    for declaration in locals {
        match declaration {
            Ok((number, ty)) if given < 5 => {
                given = given.saturating_add(1);
                write!(out, " {number}")?;
                write_value_type(out, ty)?;
            }
            Ok(_) => {}
            Err(e) => write_end(out, e)?,
        }
    }
    Ok(())
}

pub fn write_section(
    alloc: Global,
    features: WasmFeatures,
    bytes: &[u8],
    out: &mut String,
) -> Written {
    let reader = BinaryReader::new_features(bytes, 0, features);
    match CodeSectionReader::new(alloc, reader) {
        Ok(section) => write_bodies(alloc, section, out),
        Err(e) => write_refusal(out, e),
    }
}

fn write_bodies(alloc: Global, section: CodeSectionReader<'_>, out: &mut String) -> Written {
    let mut ranges = String::new(alloc);
    let mut given = 0u32;
    for item in section {
        match item {
            Ok(body) => {
                given = given.saturating_add(1);
                if given <= 4 {
                    write_range(&mut ranges, &body)?;
                }
            }
            Err(e) => write_end(&mut ranges, e)?,
        }
    }
    write!(out, "{given}{ranges}")
}

fn write_range(out: &mut String, body: &FunctionBody<'_>) -> Written {
    let range = body.range();
    let start = range.start;
    let end = range.end;
    write!(out, " {start}..{end}")
}

fn write_end(out: &mut String, e: Error) -> Written {
    out.push_str(" ")?;
    write_refusal(out, e)
}
