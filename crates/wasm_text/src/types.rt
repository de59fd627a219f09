//! Writes types, each after a space.
ghost use Rattle.std.specs.Prelude.{◌≡◌, ◌++◌, OnOk, string_bytes};
ghost use Rattle.wasm_text.specs.Values.{abstract_name, heap_type_text, reference_words, reference_text, value_type_text, block_type_text};

use crate::values::{Written, write_number};
use wasm_below::{AbstractHeapType, HeapType, RefType, ValType};
use wasm_imm::BlockType;

fn abstract_name(ty: AbstractHeapType) -> &'static str
    ensures { result.now ≡ abstract_name ty }
{
    match ty {
        AbstractHeapType::Func => "func",
        AbstractHeapType::Extern => "extern",
        AbstractHeapType::Any => "any",
        AbstractHeapType::None => "none",
        AbstractHeapType::NoExtern => "noextern",
        AbstractHeapType::NoFunc => "nofunc",
        AbstractHeapType::Eq => "eq",
        AbstractHeapType::Struct => "struct",
        AbstractHeapType::Array => "array",
        AbstractHeapType::I31 => "i31",
        AbstractHeapType::Exn => "exn",
        AbstractHeapType::NoExn => "noexn",
        AbstractHeapType::Cont => "cont",
        AbstractHeapType::NoCont => "nocont",
    }
}

pub fn write_heap_type(out: &mut String, value: HeapType) -> Written
    ensures { OnOk result (string_bytes out.new ≡ string_bytes out.old ++ heap_type_text value) }
{
    match value {
        HeapType::Abstract { shared, ty } => {
            let name = abstract_name(ty);
            if shared {
                write!(out, " (shared {name})")
            } else {
                write!(out, " {name}")
            }
        }
        HeapType::Concrete(index) => write_number(out, index),
        HeapType::Exact(index) => write!(out, " (exact {index})"),
    }
}

/// Writes a reference type in full, such as `(ref null func)`.
fn write_reference_words(out: &mut String, nullable: bool, heap_type: HeapType) -> Written
    ensures { OnOk result (string_bytes out.new ≡ string_bytes out.old ++ reference_words nullable heap_type) }
{
    if nullable {
        out.push_str(" (ref null")?;
    } else {
        out.push_str(" (ref")?;
    }
    write_heap_type(out, heap_type)?;
    out.push_str(")")
}

pub fn write_reference(out: &mut String, nullable: bool, heap_type: HeapType) -> Written
    ensures { OnOk result (string_bytes out.new ≡ string_bytes out.old ++ reference_text nullable heap_type) }
{
    if !nullable {
        return write_reference_words(out, false, heap_type);
    }
    match heap_type {
        HeapType::Abstract {
            shared: false,
            ty: AbstractHeapType::Func,
        } => out.push_str(" funcref"),
        HeapType::Abstract {
            shared: false,
            ty: AbstractHeapType::Extern,
        } => out.push_str(" externref"),
        _ => write_reference_words(out, true, heap_type),
    }
}

pub fn write_reference_type(out: &mut String, value: RefType) -> Written
    ensures { OnOk result (string_bytes out.new ≡ string_bytes out.old ++ reference_text value.nullable value.heap_type) }
{
    write_reference(out, value.is_nullable(), value.heap_type())
}

pub fn write_value_type(out: &mut String, value: ValType) -> Written
    ensures { OnOk result (string_bytes out.new ≡ string_bytes out.old ++ value_type_text value) }
{
    match value {
        ValType::I32 => out.push_str(" i32"),
        ValType::I64 => out.push_str(" i64"),
        ValType::F32 => out.push_str(" f32"),
        ValType::F64 => out.push_str(" f64"),
        ValType::V128 => out.push_str(" v128"),
        ValType::Ref(reference) => write_reference_type(out, reference),
    }
}

pub fn write_block_type(out: &mut String, value: BlockType) -> Written
    ensures { OnOk result (string_bytes out.new ≡ string_bytes out.old ++ block_type_text value) }
{
    match value {
        BlockType::Empty => Ok(()),
        BlockType::Value(ty) => write_value_type(out, ty),
        BlockType::FuncType(index) => write!(out, " type[{index}]"),
    }
}
