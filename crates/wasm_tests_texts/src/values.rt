//! Values of fields, as in `tools/original/samples.tsv`.

use std::alloc::AllocError;
use wasm_below::{HeapType, RefType, ValType};
use wasm_imm::{
    BlockType, BrTable, Catch, Handle, Ieee32, Ieee64, MemArg, MemArgOrdering, MemArgTarget,
    Ordering, ResumeTable, SelectTypes, TryTable, V128,
};

pub type Written = Result<(), AllocError>;

pub fn number(out: &mut String, name: &str, value: &u32) -> Written {
    write!(out, " {name}={value}")
}

pub fn lane(out: &mut String, name: &str, value: &u8) -> Written {
    write!(out, " {name}={value}")
}

pub fn signed_32(out: &mut String, name: &str, value: &i32) -> Written {
    write!(out, " {name}={value}")
}

pub fn signed_64(out: &mut String, name: &str, value: &i64) -> Written {
    write!(out, " {name}={value}")
}

pub fn float_32(out: &mut String, name: &str, value: &Ieee32) -> Written {
    let bits = value.bits();
    write!(out, " {name}={bits}")
}

pub fn float_64(out: &mut String, name: &str, value: &Ieee64) -> Written {
    let bits = value.bits();
    write!(out, " {name}={bits}")
}

pub fn vector(out: &mut String, name: &str, value: &V128) -> Written {
    lanes(out, name, value.bytes())
}

pub fn lanes(out: &mut String, name: &str, value: &[u8; 16]) -> Written {
    write!(out, " {name}=")?;
    for byte in value {
        write!(out, "{byte:02x}")?;
    }
    Ok(())
}

pub fn memory_argument(out: &mut String, name: &str, value: &MemArg) -> Written {
    let MemArg {
        align,
        max_align,
        offset,
        target,
        ordering,
    } = *value;
    write!(out, " {name}={align}/{max_align}/{offset}/")?;
    match target {
        MemArgTarget::Memory(index) => write!(out, "M{index}/")?,
        MemArgTarget::Array(index) => write!(out, "A{index}/")?,
    }
    match ordering {
        None => out.push_str("-"),
        Some(MemArgOrdering::Op(order)) => write!(out, "Op{order:?}"),
        Some(MemArgOrdering::Rmw(order)) => write!(out, "Rmw{order:?}"),
    }
}

pub fn ordering(out: &mut String, name: &str, value: &Ordering) -> Written {
    write!(out, " {name}={value:?}")
}

pub fn heap_type(out: &mut String, name: &str, value: &HeapType) -> Written {
    write!(out, " {name}=")?;
    write_heap_type(out, *value)
}

pub fn reference_type(out: &mut String, name: &str, value: &RefType) -> Written {
    write!(out, " {name}=")?;
    write_reference_type(out, *value)
}

pub fn value_type(out: &mut String, name: &str, value: &ValType) -> Written {
    write!(out, " {name}=")?;
    write_value_type(out, *value)
}

pub fn block_type(out: &mut String, name: &str, value: &BlockType) -> Written {
    write!(out, " {name}=")?;
    write_block_type(out, *value)
}

pub fn branch_table(out: &mut String, name: &str, value: &BrTable<'_>) -> Written {
    write!(out, " {name}=[")?;
    let mut is_first = true;
    for target in value.targets() {
        if !is_first {
            out.push_str(",")?;
        }
        is_first = false;
        match target {
            Ok(label) => write!(out, "{label}")?,
            Err(_) => out.push_str("refused")?,
        }
    }
    let default = value.default();
    write!(out, "]{default}")
}

pub fn select_types(out: &mut String, name: &str, value: &SelectTypes) -> Written {
    write!(out, " {name}=[")?;
    let mut is_first = true;
    for ty in value.as_slice() {
        if !is_first {
            out.push_str(",")?;
        }
        is_first = false;
        write_value_type(out, *ty)?;
    }
    out.push_str("]")
}

pub fn try_table(out: &mut String, name: &str, value: &TryTable) -> Written {
    write!(out, " {name}=")?;
    write_block_type(out, value.ty)?;
    out.push_str("[")?;
    let mut is_first = true;
    for catch in value.catches.as_slice() {
        if !is_first {
            out.push_str(",")?;
        }
        is_first = false;
        write_catch(out, *catch)?;
    }
    out.push_str("]")
}

pub fn resume_table(out: &mut String, name: &str, value: &ResumeTable) -> Written {
    write!(out, " {name}=[")?;
    let mut is_first = true;
    for handle in value.handlers.as_slice() {
        if !is_first {
            out.push_str(",")?;
        }
        is_first = false;
        write_handle(out, *handle)?;
    }
    out.push_str("]")
}

fn write_heap_type(out: &mut String, ty: HeapType) -> Written {
    match ty {
        HeapType::Abstract { shared: false, ty } => write!(out, "{ty:?}"),
        HeapType::Abstract { shared: true, ty } => write!(out, "shared-{ty:?}"),
        HeapType::Concrete(index) => write!(out, "#{index}"),
        HeapType::Exact(index) => write!(out, "={index}"),
    }
}

fn write_reference_type(out: &mut String, ty: RefType) -> Written {
    out.push_str(if ty.is_nullable() { "?" } else { "!" })?;
    write_heap_type(out, ty.heap_type())
}

pub fn write_value_type(out: &mut String, ty: ValType) -> Written {
    match ty {
        ValType::Ref(reference) => write_reference_type(out, reference),
        _ => write!(out, "{ty:?}"),
    }
}

fn write_block_type(out: &mut String, ty: BlockType) -> Written {
    match ty {
        BlockType::Empty => out.push_str("e"),
        BlockType::Value(value) => {
            out.push_str("v")?;
            write_value_type(out, value)
        }
        BlockType::FuncType(index) => write!(out, "f{index}"),
    }
}

fn write_catch(out: &mut String, catch: Catch) -> Written {
    match catch {
        Catch::One { tag, label } => write!(out, "one:{tag}:{label}"),
        Catch::OneRef { tag, label } => write!(out, "oneref:{tag}:{label}"),
        Catch::All { label } => write!(out, "all:{label}"),
        Catch::AllRef { label } => write!(out, "allref:{label}"),
    }
}

fn write_handle(out: &mut String, handle: Handle) -> Written {
    match handle {
        Handle::OnLabel { tag, label } => write!(out, "label:{tag}:{label}"),
        Handle::OnSwitch { tag } => write!(out, "switch:{tag}"),
    }
}
