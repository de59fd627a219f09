//! Writes operands by the kinds of their immediates, each after a space.
ghost use Rattle.std.specs.Prelude.{◌≡◌, ◌++◌, ◌∷◌, [], true, false, OnOk, string_bytes};
ghost use Rattle.wasm_imm.specs.Immediate.{unsigned_32, signed_32, signed_64, float_32, float_64, vector, one_lane, sixteen_lanes, order, fence_order, heap_type, cast, block_type, branch_table, select_types, try_clauses, resume_clauses};
ghost use Rattle.wasm_imm.specs.declared.select.Select.TheVariants as select;
ghost use Rattle.wasm_text.specs.Operands.{immediates_text, indirect_text};
ghost use Rattle.wasm_text.specs.Values.{memory_argument_text, reference_text};

use crate::digits::write_words;
use crate::floats::{write_float_32, write_float_64};
use crate::lists::{write_branch_table, write_catches, write_handles, write_types};
use crate::types::{
    write_block_type, write_heap_type, write_reference, write_reference_type, write_value_type,
};
pub use crate::values::Written;
use crate::values::{write_fence, write_memory_argument, write_number, write_order, write_signed};
use wasm_below::{HeapType, RefType, ValType};
use wasm_imm::{
    BlockType, BrTable, Ieee32, Ieee64, MemArg, Ordering, ResumeTable, SelectTypes, TryTable, V128,
};

pub fn one_number(out: &mut String, value: &u32) -> Written
    ensures { OnOk result (string_bytes out.new ≡ string_bytes out.old ++ (immediates_text (unsigned_32 value.now ∷ []))) }
{
    write_number(out, *value)
}

pub fn two_numbers(out: &mut String, first: &u32, second: &u32) -> Written
    ensures { OnOk result (string_bytes out.new ≡ string_bytes out.old ++ (immediates_text (unsigned_32 first.now ∷ unsigned_32 second.now ∷ []))) }
{
    write_number(out, *first)?;
    write_number(out, *second)
}

pub fn indirect(out: &mut String, type_index: &u32, table_index: &u32) -> Written
    ensures { OnOk result (string_bytes out.new ≡ string_bytes out.old ++ (indirect_text type_index.now table_index.now)) }
{
    write!(out, " {table_index} (type {type_index})")
}

pub fn signed_32(out: &mut String, value: &i32) -> Written
    ensures { OnOk result (string_bytes out.new ≡ string_bytes out.old ++ (immediates_text (signed_32 value.now ∷ []))) }
{
    write_signed(out, i64::from(*value))
}

pub fn signed_64(out: &mut String, value: &i64) -> Written
    ensures { OnOk result (string_bytes out.new ≡ string_bytes out.old ++ (immediates_text (signed_64 value.now ∷ []))) }
{
    write_signed(out, *value)
}

pub fn float_32(out: &mut String, value: &Ieee32) -> Written
    ensures { OnOk result (string_bytes out.new ≡ string_bytes out.old ++ (immediates_text (float_32 value.now ∷ []))) }
{
    write_float_32(out, *value)
}

pub fn float_64(out: &mut String, value: &Ieee64) -> Written
    ensures { OnOk result (string_bytes out.new ≡ string_bytes out.old ++ (immediates_text (float_64 value.now ∷ []))) }
{
    write_float_64(out, *value)
}

pub fn vector(out: &mut String, value: &V128) -> Written
    ensures { OnOk result (string_bytes out.new ≡ string_bytes out.old ++ (immediates_text (vector value.now ∷ []))) }
{
    write_words(out, value.bytes())
}

pub fn lane(out: &mut String, lane: &u8) -> Written
    ensures { OnOk result (string_bytes out.new ≡ string_bytes out.old ++ (immediates_text (one_lane lane.now ∷ []))) }
{
    write_number(out, u32::from(*lane))
}

pub fn lanes(out: &mut String, lanes: &[u8; 16]) -> Written
    ensures { OnOk result (string_bytes out.new ≡ string_bytes out.old ++ (immediates_text (sixteen_lanes lanes.now ∷ []))) }
{
    write_words(out, lanes)
}

pub fn memory_argument(out: &mut String, memarg: &MemArg) -> Written
    ensures { OnOk result (string_bytes out.new ≡ string_bytes out.old ++ (memory_argument_text memarg.now ++ [])) }
{
    write_memory_argument(out, memarg)
}

pub fn memory_argument_and_lane(out: &mut String, memarg: &MemArg, lane: &u8) -> Written
    ensures { OnOk result (string_bytes out.new ≡ string_bytes out.old ++ (memory_argument_text memarg.now ++ immediates_text (one_lane lane.now ∷ []))) }
{
    write_memory_argument(out, memarg)?;
    write_number(out, u32::from(*lane))
}

pub fn order(out: &mut String, ordering: &Ordering) -> Written
    ensures { OnOk result (string_bytes out.new ≡ string_bytes out.old ++ (immediates_text (order ordering.now ∷ []))) }
{
    write_order(out, *ordering)
}

pub fn ordered_number(out: &mut String, ordering: &Ordering, value: &u32) -> Written
    ensures { OnOk result (string_bytes out.new ≡ string_bytes out.old ++ (immediates_text (order ordering.now ∷ unsigned_32 value.now ∷ []))) }
{
    write_order(out, *ordering)?;
    write_number(out, *value)
}

pub fn ordered_numbers(out: &mut String, ordering: &Ordering, first: &u32, second: &u32) -> Written
    ensures { OnOk result (string_bytes out.new ≡ string_bytes out.old ++ (immediates_text (order ordering.now ∷ unsigned_32 first.now ∷ unsigned_32 second.now ∷ []))) }
{
    write_order(out, *ordering)?;
    write_number(out, *first)?;
    write_number(out, *second)
}

pub fn fence(out: &mut String, ordering: &Ordering) -> Written
    ensures { OnOk result (string_bytes out.new ≡ string_bytes out.old ++ (immediates_text (fence_order ordering.now ∷ []))) }
{
    write_fence(out, *ordering)
}

pub fn heap_type(out: &mut String, hty: &HeapType) -> Written
    ensures { OnOk result (string_bytes out.new ≡ string_bytes out.old ++ (immediates_text (heap_type hty.now ∷ []))) }
{
    write_heap_type(out, *hty)
}

pub fn reference_with_null(out: &mut String, hty: &HeapType) -> Written
    ensures { OnOk result (string_bytes out.new ≡ string_bytes out.old ++ (reference_text true hty.now)) }
{
    write_reference(out, true, *hty)
}

pub fn reference_without_null(out: &mut String, hty: &HeapType) -> Written
    ensures { OnOk result (string_bytes out.new ≡ string_bytes out.old ++ (reference_text false hty.now)) }
{
    write_reference(out, false, *hty)
}

pub fn cast(
    out: &mut String,
    relative_depth: &u32,
    from_ref_type: &RefType,
    to_ref_type: &RefType,
) -> Written
    ensures { OnOk result (string_bytes out.new ≡ string_bytes out.old ++ (immediates_text (cast (record { relative_depth = relative_depth.now; from = from_ref_type.now; to = to_ref_type.now }) ∷ []))) }
{
    write_number(out, *relative_depth)?;
    write_reference_type(out, *from_ref_type)?;
    write_reference_type(out, *to_ref_type)
}

pub fn block_type(out: &mut String, blockty: &BlockType) -> Written
    ensures { OnOk result (string_bytes out.new ≡ string_bytes out.old ++ (immediates_text (block_type blockty.now ∷ []))) }
{
    write_block_type(out, *blockty)
}

pub fn branch_table(out: &mut String, targets: &BrTable<'_>) -> Written
    ensures { OnOk result (string_bytes out.new ≡ string_bytes out.old ++ (immediates_text (branch_table targets.now ∷ []))) }
{
    write_branch_table(out, targets)
}

pub fn one_type(out: &mut String, ty: &ValType) -> Written
    ensures { OnOk result (string_bytes out.new ≡ string_bytes out.old ++ (immediates_text (select_types (select.One ty.now) ∷ []))) }
{
    write_value_type(out, *ty)
}

pub fn types(out: &mut String, tys: &SelectTypes) -> Written
    ensures { OnOk result (string_bytes out.new ≡ string_bytes out.old ++ (immediates_text (select_types (select.Multi tys.now) ∷ []))) }
{
    write_types(out, tys.as_slice())
}

pub fn try_table(out: &mut String, try_table: &TryTable) -> Written
    ensures { OnOk result (string_bytes out.new ≡ string_bytes out.old ++ (immediates_text (try_clauses try_table.now ∷ []))) }
{
    write_block_type(out, try_table.ty)?;
    write_catches(out, try_table.catches.as_slice())
}

pub fn clauses(out: &mut String, table: &ResumeTable) -> Written
    ensures { OnOk result (string_bytes out.new ≡ string_bytes out.old ++ (immediates_text (resume_clauses table.now ∷ []))) }
{
    write_handles(out, table.handlers.as_slice())
}

pub fn number_and_clauses(out: &mut String, index: &u32, table: &ResumeTable) -> Written
    ensures { OnOk result (string_bytes out.new ≡ string_bytes out.old ++ (immediates_text (unsigned_32 index.now ∷ resume_clauses table.now ∷ []))) }
{
    write_number(out, *index)?;
    write_handles(out, table.handlers.as_slice())
}

pub fn numbers_and_clauses(
    out: &mut String,
    first: &u32,
    second: &u32,
    table: &ResumeTable,
) -> Written
    ensures { OnOk result (string_bytes out.new ≡ string_bytes out.old ++ (immediates_text (unsigned_32 first.now ∷ unsigned_32 second.now ∷ resume_clauses table.now ∷ []))) }
{
    write_number(out, *first)?;
    write_number(out, *second)?;
    write_handles(out, table.handlers.as_slice())
}
