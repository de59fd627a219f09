use std::alloc::{AllocError, Global};
use wasm_below::{AbstractHeapType, HeapType, RefType, ValType};
use wasm_check::{FieldType, StorageType};

/// Reads value types that are separated by spaces.
pub fn types_of(alloc: Global, text: &str) -> Result<Vec<ValType>, AllocError> {
    let mut out = Vec::new(alloc);
    for word in text.split(' ') {
        if let Some(ty) = value_type(word) {
            out.push(ty)?;
        }
    }
    Ok(out)
}

/// Returns whether `mut:` is before a type, and the type.
pub fn unmarked(text: &str) -> (bool, &str) {
    match text.strip_prefix("mut:") {
        Some(ty) => (true, ty),
        None => (false, text),
    }
}

/// Reads the type of a field.
pub fn field(text: &str) -> Option<FieldType> {
    let (mutable, ty) = unmarked(text);
    match storage_type(ty, value_type(ty)) {
        Some(element_type) => Some(FieldType {
            element_type,
            mutable,
        }),
        None => None,
    }
}

/// Returns the packed type with this name, otherwise the value type.
pub fn storage_type(name: &str, ty: Option<ValType>) -> Option<StorageType> {
    match name {
        "i8" => return Some(StorageType::I8),
        "i16" => return Some(StorageType::I16),
        _ => {}
    }
    match ty {
        Some(ty) => Some(StorageType::Val(ty)),
        None => None,
    }
}

/// Reads a value type. A reference type is `?` (nullable) or `!` and its heap type.
pub fn value_type(text: &str) -> Option<ValType> {
    match text {
        "i32" => return Some(ValType::I32),
        "i64" => return Some(ValType::I64),
        "f32" => return Some(ValType::F32),
        "f64" => return Some(ValType::F64),
        "v128" => return Some(ValType::V128),
        _ => {}
    }
    if let Some(heap) = text.strip_prefix('?') {
        return reference(true, heap);
    }
    match text.strip_prefix('!') {
        Some(heap) => reference(false, heap),
        None => None,
    }
}

fn reference(nullable: bool, heap: &str) -> Option<ValType> {
    let Some(heap_type) = heap_type(heap) else {
        return None;
    };
    match RefType::new(nullable, heap_type) {
        Some(ty) => Some(ValType::Ref(ty)),
        None => None,
    }
}

fn heap_type(text: &str) -> Option<HeapType> {
    if let Some(index) = text.strip_prefix('#') {
        return match index.parse::<u32>() {
            Ok(index) => Some(HeapType::Concrete(index)),
            Err(_) => None,
        };
    }
    let ty = match text {
        "func" => AbstractHeapType::Func,
        "extern" => AbstractHeapType::Extern,
        "any" => AbstractHeapType::Any,
        "eq" => AbstractHeapType::Eq,
        "i31" => AbstractHeapType::I31,
        "struct" => AbstractHeapType::Struct,
        "array" => AbstractHeapType::Array,
        "exn" => AbstractHeapType::Exn,
        "none" => AbstractHeapType::None,
        "noextern" => AbstractHeapType::NoExtern,
        "nofunc" => AbstractHeapType::NoFunc,
        "noexn" => AbstractHeapType::NoExn,
        _ => return None,
    };
    Some(HeapType::Abstract { shared: false, ty })
}
