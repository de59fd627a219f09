//! Writes types (Binary Format, Types).
ghost use Rattle.std.specs.Prelude.{◌≡◌, ◌+◌, ◌++◌, ◌≤◌, ◌<◌, ◌^◌, ◌↔◌, IsTrue, vec_len, vec_capacity};
ghost use Rattle.wasm_below.specs.Reference.{FitsRefType};
ghost use Rattle.wasm_below.specs.TypeEncoding.{EncodesHeapType};
ghost use Rattle.wasm_encode_immediates.specs.Reasons.{HasHeapReason};
ghost use Rattle.wasm_encode_immediates.specs.TypeBytes.{heap_type_bytes, reference_bytes, value_type_bytes, block_type_bytes, cast_bytes, FitsValType, FitsBlockType};
ghost use Rattle.wasm_encode_immediates.specs.Written.{WritesValue};
ghost use Rattle.wasm_imm.specs.Casts.{cast_flags};

use crate::unwritable::Unwritable;
use wasm_below::{HeapType, RefType, ValType};
use wasm_encode_numbers::{write_s33, write_u64};
use wasm_imm::{BlockType, Cast};

const MAX_TYPE_INDEX: u32 = 1048575;

/// Appends a heap type. The index may be above the limit.
#[inline(never)]
fn write_any_heap_type(out: &mut Vec<u8>, value: HeapType)
    requires { vec_len out.old + 11 ≤ vec_capacity out.old }
    ensures bytes { out.new.items ≡ out.old.items ++ heap_type_bytes value }
    ensures len { vec_len out.new ≤ vec_len out.old + 11 }
    ensures capacity { vec_capacity out.old ≤ vec_capacity out.new }
{
    match value {
        HeapType::Abstract { shared, ty } => {
            if shared {
                out.push_reserved(0x65);
                out.push_reserved(ty.byte());
                return;
            }
            out.push_reserved(ty.byte())
        }
        HeapType::Concrete(index) => write_s33(out, index),
        HeapType::Exact(index) => {
            out.push_reserved(0x62);
            write_u64(out, index as u64)
        }
    }
}

/// Returns whether the type index, if any, is within the limit.
fn fits_ref_type(heap_type: HeapType) -> bool
    ensures { IsTrue result ↔ FitsRefType heap_type }
{
    match heap_type {
        HeapType::Abstract { .. } => true,
        HeapType::Concrete(index) | HeapType::Exact(index) => index <= MAX_TYPE_INDEX,
    }
}

/// Appends a heap type. Fails with `TypeIndex` if its index is above 1048575.
pub fn write_heap_type(out: &mut Vec<u8>, value: HeapType) -> Result<(), Unwritable>
    requires { vec_len out.old + 11 ≤ vec_capacity out.old }
    ensures written { WritesValue EncodesHeapType HasHeapReason value result out.old out.new }
    ensures len { vec_len out.new ≤ vec_len out.old + 11 }
{
    if fits_ref_type(value) {
        write_any_heap_type(out, value);
        return Ok(());
    }
    Err(Unwritable::TypeIndex)
}

/// Appends a reference type: in one byte less if it is nullable and abstract.
pub fn write_reference_type(out: &mut Vec<u8>, value: RefType)
    requires { vec_len out.old + 12 ≤ vec_capacity out.old }
    ensures bytes { out.new.items ≡ out.old.items ++ reference_bytes value.nullable value.heap_type }
    ensures fits { FitsRefType value.heap_type }
    ensures len { vec_len out.new ≤ vec_len out.old + 12 }
    ensures capacity { vec_capacity out.old ≤ vec_capacity out.new }
{
    let heap_type = value.heap_type();
    if !value.is_nullable() {
        out.push_reserved(0x64);
        write_any_heap_type(out, heap_type);
        return;
    }
    match heap_type {
        HeapType::Abstract { .. } => write_any_heap_type(out, heap_type),
        _ => {
            out.push_reserved(0x63);
            write_any_heap_type(out, heap_type)
        }
    }
}

/// Appends a value type.
pub fn write_value_type(out: &mut Vec<u8>, value: ValType)
    requires { vec_len out.old + 12 ≤ vec_capacity out.old }
    ensures bytes { out.new.items ≡ out.old.items ++ value_type_bytes value }
    ensures fits { FitsValType value }
    ensures len { vec_len out.new ≤ vec_len out.old + 12 }
    ensures capacity { vec_capacity out.old ≤ vec_capacity out.new }
{
    match value {
        ValType::I32 => out.push_reserved(0x7f),
        ValType::I64 => out.push_reserved(0x7e),
        ValType::F32 => out.push_reserved(0x7d),
        ValType::F64 => out.push_reserved(0x7c),
        ValType::V128 => out.push_reserved(0x7b),
        ValType::Ref(reference) => write_reference_type(out, reference),
    }
}

/// Appends a block type.
pub fn write_block_type(out: &mut Vec<u8>, value: BlockType)
    requires { vec_len out.old + 12 ≤ vec_capacity out.old }
    ensures bytes { out.new.items ≡ out.old.items ++ block_type_bytes value }
    ensures fits { FitsBlockType value }
    ensures len { vec_len out.new ≤ vec_len out.old + 12 }
    ensures capacity { vec_capacity out.old ≤ vec_capacity out.new }
{
    match value {
        BlockType::Empty => out.push_reserved(0x40),
        BlockType::Value(ty) => write_value_type(out, ty),
        BlockType::FuncType(index) => write_s33(out, index),
    }
}

fn cast_flags(from: bool, to: bool) -> u8
    ensures { result ≡ cast_flags from to }
{
    match (from, to) {
        (false, false) => 0,
        (true, false) => 1,
        (false, true) => 2,
        (true, true) => 3,
    }
}

/// Appends the flags, the label and both heap types of a cast.
#[inline(never)]
pub fn write_cast(out: &mut Vec<u8>, value: Cast)
    requires { vec_len out.old + 33 ≤ vec_capacity out.old }
    ensures bytes { out.new.items ≡ out.old.items ++ cast_bytes value }
    ensures depth { value.relative_depth < 2 ^ 32 }
    ensures from { FitsRefType value.from.heap_type }
    ensures to { FitsRefType value.to.heap_type }
    ensures len { vec_len out.new ≤ vec_len out.old + 33 }
    ensures capacity { vec_capacity out.old ≤ vec_capacity out.new }
{
    let from = value.from.heap_type();
    let to = value.to.heap_type();
    out.push_reserved(cast_flags(value.from.is_nullable(), value.to.is_nullable()));
    write_u64(out, value.relative_depth as u64);
    write_any_heap_type(out, from);
    write_any_heap_type(out, to);
}
