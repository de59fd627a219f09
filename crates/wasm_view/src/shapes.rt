//! Constructors of the C struct, one per shape.
ghost use Rattle.std.specs.Prelude.{◌≡◌, [], ◌∷◌};
ghost use Rattle.wasm_imm.specs.Immediate.{unsigned_32, signed_32, signed_64, float_32, float_64, vector, one_lane, sixteen_lanes, memory_argument, memory_index, table_index_32, order, fence_order, heap_type, cast, block_type, branch_table, select_types, try_clauses, resume_clauses};
ghost use Rattle.wasm_imm.specs.declared.memory_argument.MemArgKind.TheVariants as kind;
ghost use Rattle.wasm_imm.specs.declared.select.Select.TheVariants as select;
ghost use Rattle.wasm_view.specs.View.{bare, view};

use crate::numbers::{
    block_index, block_kind, heap_index, heap_kind, length_32, order_number, ordering_number,
    reference_index, reference_kind, target_index, target_number, value_index, value_kind,
};
use crate::view::WasmOperator;
use wasm_below::{HeapType, RefType, ValType};
use wasm_imm::{
    BlockType, BrTable, Ieee32, Ieee64, MemArg, Ordering, ResumeTable, SelectTypes, TryTable, V128,
};

#[inline(always)]
pub fn nothing(offset: u64, opcode: u32) -> WasmOperator
    ensures { result ≡ view offset opcode [] }
{
    WasmOperator::bare(offset, opcode, 0)
}

#[inline(always)]
pub fn index(offset: u64, opcode: u32, first: u32) -> WasmOperator
    ensures unsigned { result ≡ view offset opcode (unsigned_32 first ∷ []) }
    ensures memory { result ≡ view offset opcode (memory_index first ∷ []) }
{
    WasmOperator {
        first,
        ..WasmOperator::bare(offset, opcode, 1)
    }
}

#[inline(always)]
pub fn two_indices(offset: u64, opcode: u32, first: u32, second: u32) -> WasmOperator
    ensures unsigned { result ≡ view offset opcode (unsigned_32 first ∷ unsigned_32 second ∷ []) }
    ensures table { result ≡ view offset opcode (unsigned_32 first ∷ table_index_32 second ∷ []) }
{
    WasmOperator {
        first,
        second,
        ..WasmOperator::bare(offset, opcode, 2)
    }
}

/// Creates the struct of an operator with a memory argument. Kind and alignment in the contract
/// don't matter.
#[inline(always)]
pub fn memory(offset: u64, opcode: u32, argument: MemArg) -> WasmOperator
    ensures { result ≡ view offset opcode (memory_argument kind.Plain 0 argument ∷ []) }
{
    WasmOperator {
        wide: argument.offset,
        first: target_index(argument.target),
        align: argument.align,
        max_align: argument.max_align,
        target: target_number(argument.target),
        ordering: ordering_number(argument.ordering),
        ..WasmOperator::bare(offset, opcode, 3)
    }
}

#[inline(always)]
pub fn memory_lane(offset: u64, opcode: u32, argument: MemArg, lane: u8) -> WasmOperator
    ensures { result ≡ view offset opcode (memory_argument kind.Plain 0 argument ∷ one_lane lane ∷ []) }
{
    WasmOperator {
        wide: argument.offset,
        first: target_index(argument.target),
        align: argument.align,
        max_align: argument.max_align,
        lane,
        target: target_number(argument.target),
        ordering: ordering_number(argument.ordering),
        ..WasmOperator::bare(offset, opcode, 4)
    }
}

pub fn lane(offset: u64, opcode: u32, lane: u8) -> WasmOperator
    ensures { result ≡ view offset opcode (one_lane lane ∷ []) }
{
    WasmOperator {
        lane,
        ..WasmOperator::bare(offset, opcode, 5)
    }
}

#[inline(always)]
pub fn integer_32(offset: u64, opcode: u32, value: i32) -> WasmOperator
    ensures { result ≡ view offset opcode (signed_32 value ∷ []) }
{
    WasmOperator {
        wide: i64::from(value).cast_unsigned(),
        ..WasmOperator::bare(offset, opcode, 6)
    }
}

#[inline(always)]
pub fn integer_64(offset: u64, opcode: u32, value: i64) -> WasmOperator
    ensures { result ≡ view offset opcode (signed_64 value ∷ []) }
{
    WasmOperator {
        wide: value.cast_unsigned(),
        ..WasmOperator::bare(offset, opcode, 7)
    }
}

#[inline(always)]
pub fn float_32(offset: u64, opcode: u32, value: Ieee32) -> WasmOperator
    ensures { result ≡ view offset opcode (float_32 value ∷ []) }
{
    WasmOperator {
        wide: u64::from(value.bits()),
        ..WasmOperator::bare(offset, opcode, 8)
    }
}

#[inline(always)]
pub fn float_64(offset: u64, opcode: u32, value: Ieee64) -> WasmOperator
    ensures { result ≡ view offset opcode (float_64 value ∷ []) }
{
    WasmOperator {
        wide: value.bits(),
        ..WasmOperator::bare(offset, opcode, 9)
    }
}

pub fn vector(offset: u64, opcode: u32, value: V128) -> WasmOperator
    ensures { result ≡ view offset opcode (vector value ∷ []) }
{
    let bytes = value.0;
    WasmOperator {
        bytes,
        ..WasmOperator::bare(offset, opcode, 10)
    }
}

pub fn lanes(offset: u64, opcode: u32, lanes: [u8; 16]) -> WasmOperator
    ensures { result ≡ view offset opcode (sixteen_lanes lanes ∷ []) }
{
    WasmOperator {
        bytes: lanes,
        ..WasmOperator::bare(offset, opcode, 11)
    }
}

pub fn ordered(offset: u64, opcode: u32, ordering: Ordering, first: u32) -> WasmOperator
    ensures { result ≡ view offset opcode (order ordering ∷ unsigned_32 first ∷ []) }
{
    WasmOperator {
        first,
        ordering: order_number(ordering),
        ..WasmOperator::bare(offset, opcode, 12)
    }
}

pub fn ordered_two(
    offset: u64,
    opcode: u32,
    ordering: Ordering,
    first: u32,
    second: u32,
) -> WasmOperator
    ensures { result ≡ view offset opcode (order ordering ∷ unsigned_32 first ∷ unsigned_32 second ∷ []) }
{
    WasmOperator {
        first,
        second,
        ordering: order_number(ordering),
        ..WasmOperator::bare(offset, opcode, 13)
    }
}

pub fn fence(offset: u64, opcode: u32, ordering: Ordering) -> WasmOperator
    ensures { result ≡ view offset opcode (fence_order ordering ∷ []) }
{
    WasmOperator {
        ordering: order_number(ordering),
        ..WasmOperator::bare(offset, opcode, 14)
    }
}

pub fn heap(offset: u64, opcode: u32, ty: HeapType) -> WasmOperator
    ensures { result ≡ view offset opcode (heap_type ty ∷ []) }
{
    WasmOperator {
        first: heap_index(ty),
        kind: heap_kind(ty),
        ..WasmOperator::bare(offset, opcode, 15)
    }
}

pub fn cast(offset: u64, opcode: u32, first: u32, from: RefType, to: RefType) -> WasmOperator
    ensures { result ≡ view offset opcode (cast (record { relative_depth = first; from = from; to = to }) ∷ []) }
{
    WasmOperator {
        first,
        second: reference_index(from),
        third: reference_index(to),
        kind: reference_kind(from),
        other_kind: reference_kind(to),
        ..WasmOperator::bare(offset, opcode, 16)
    }
}

#[inline(always)]
pub fn block(offset: u64, opcode: u32, ty: &BlockType) -> WasmOperator
    ensures { result ≡ view offset opcode (block_type ty.now ∷ []) }
{
    WasmOperator {
        first: block_index(ty),
        kind: block_kind(ty),
        ..WasmOperator::bare(offset, opcode, 17)
    }
}

pub fn table(offset: u64, opcode: u32, targets: &BrTable<'_>) -> WasmOperator
    ensures { result ≡ view offset opcode (branch_table targets.now ∷ []) }
{
    WasmOperator {
        first: targets.len(),
        second: targets.default(),
        ..WasmOperator::bare(offset, opcode, 18)
    }
}

pub fn select_one(offset: u64, opcode: u32, ty: &ValType) -> WasmOperator
    ensures { result ≡ view offset opcode (select_types (select.One ty.now) ∷ []) }
{
    WasmOperator {
        first: value_index(ty),
        kind: value_kind(ty),
        ..WasmOperator::bare(offset, opcode, 19)
    }
}

pub fn select_many(offset: u64, opcode: u32, tys: &SelectTypes) -> WasmOperator
    ensures { result ≡ view offset opcode (select_types (select.Multi tys.now) ∷ []) }
{
    WasmOperator {
        first: length_32(tys.len()),
        ..WasmOperator::bare(offset, opcode, 20)
    }
}

pub fn try_table(offset: u64, opcode: u32, table: &TryTable) -> WasmOperator
    ensures { result ≡ view offset opcode (try_clauses table.now ∷ []) }
{
    WasmOperator {
        first: block_index(&table.ty),
        second: length_32(table.catches.len()),
        kind: block_kind(&table.ty),
        ..WasmOperator::bare(offset, opcode, 21)
    }
}

pub fn resume(offset: u64, opcode: u32, first: u32, table: &ResumeTable) -> WasmOperator
    ensures { result ≡ view offset opcode (unsigned_32 first ∷ resume_clauses table.now ∷ []) }
{
    WasmOperator {
        first,
        second: length_32(table.len()),
        ..WasmOperator::bare(offset, opcode, 22)
    }
}

pub fn resume_throw(
    offset: u64,
    opcode: u32,
    first: u32,
    second: u32,
    table: &ResumeTable,
) -> WasmOperator
    ensures { result ≡ view offset opcode (unsigned_32 first ∷ unsigned_32 second ∷ resume_clauses table.now ∷ []) }
{
    WasmOperator {
        first,
        second,
        third: length_32(table.len()),
        ..WasmOperator::bare(offset, opcode, 23)
    }
}
