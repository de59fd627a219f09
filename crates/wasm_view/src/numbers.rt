ghost use Rattle.std.specs.Prelude.{◌≡◌, ◌≤◌, length, min};
ghost use Rattle.wasm_view.specs.Numbers.{heap_kind, heap_index, reference_kind, value_kind, value_index, block_kind, block_index, target_number, target_index, order_number, ordering_number};

use wasm_below::{HeapType, RefType, ValType};
use wasm_imm::{BlockType, MemArgOrdering, MemArgTarget, Ordering};

pub fn heap_kind(ty: HeapType) -> u32
    ensures is { result ≡ heap_kind ty }
    ensures small { result ≤ 0x175 }
{
    match ty {
        HeapType::Abstract { shared: false, ty } => u32::from(ty.byte()),
        HeapType::Abstract { shared: true, ty } => u32::from(ty.byte()) + 256,
        HeapType::Concrete(_) => 1,
        HeapType::Exact(_) => 2,
    }
}

pub fn heap_index(ty: HeapType) -> u32
    ensures { result ≡ heap_index ty }
{
    match ty {
        HeapType::Abstract { .. } => 0,
        HeapType::Concrete(index) | HeapType::Exact(index) => index,
    }
}

pub fn reference_kind(ty: RefType) -> u32
    ensures is { result ≡ reference_kind ty }
    ensures small { result ≤ 0x375 }
{
    let kind = heap_kind(ty.heap_type());
    if ty.is_nullable() { kind + 512 } else { kind }
}

pub fn reference_index(ty: RefType) -> u32
    ensures { result ≡ heap_index ty.heap_type }
{
    heap_index(ty.heap_type())
}

pub fn value_kind(ty: &ValType) -> u32
    ensures { result ≡ value_kind ty.now }
{
    match ty {
        ValType::I32 => 0x7f,
        ValType::I64 => 0x7e,
        ValType::F32 => 0x7d,
        ValType::F64 => 0x7c,
        ValType::V128 => 0x7b,
        ValType::Ref(reference) => reference_kind(*reference) + 1024,
    }
}

pub fn value_index(ty: &ValType) -> u32
    ensures { result ≡ value_index ty.now }
{
    match ty {
        ValType::Ref(reference) => reference_index(*reference),
        _ => 0,
    }
}

pub fn block_kind(ty: &BlockType) -> u32
    ensures { result ≡ block_kind ty.now }
{
    match ty {
        BlockType::Empty => 0x40,
        BlockType::Value(ty) => value_kind(ty),
        BlockType::FuncType(_) => 0,
    }
}

pub fn block_index(ty: &BlockType) -> u32
    ensures { result ≡ block_index ty.now }
{
    match ty {
        BlockType::Empty => 0,
        BlockType::Value(ty) => value_index(ty),
        BlockType::FuncType(index) => *index,
    }
}

#[inline(always)]
pub fn target_number(target: MemArgTarget) -> u16
    ensures { result ≡ target_number target }
{
    match target {
        MemArgTarget::Memory(_) => 0,
        MemArgTarget::Array(_) => 1,
    }
}

#[inline(always)]
pub fn target_index(target: MemArgTarget) -> u32
    ensures { result ≡ target_index target }
{
    match target {
        MemArgTarget::Memory(index) | MemArgTarget::Array(index) => index,
    }
}

pub fn order_number(order: Ordering) -> u16
    ensures { result ≡ order_number order }
{
    match order {
        Ordering::SeqCst => 1,
        Ordering::AcqRel => 2,
    }
}

#[inline(always)]
pub fn ordering_number(ordering: Option<MemArgOrdering>) -> u16
    ensures { result ≡ ordering_number ordering }
{
    match ordering {
        None => 0,
        Some(MemArgOrdering::Op(Ordering::SeqCst)) => 1,
        Some(MemArgOrdering::Op(Ordering::AcqRel)) => 2,
        Some(MemArgOrdering::Rmw(Ordering::SeqCst)) => 3,
        Some(MemArgOrdering::Rmw(Ordering::AcqRel)) => 4,
    }
}

/// Returns a length, at most the largest `u32`.
pub fn length_32(length: usize) -> u32
    ensures { result ≡ min length 4294967295 }
{
    if length < 4294967295 {
        length as u32
    } else {
        4294967295
    }
}
