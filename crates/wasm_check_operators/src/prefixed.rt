ghost use Rattle.std.specs.Prelude.{◌≡◌};
ghost use Rattle.wasm_typing.specs.Steps.{labels_of};
ghost use Rattle.wasm_check_operators.specs.Casts.{gc_rule};
ghost use Rattle.wasm_check_operators.specs.Language.{misc_rule, Follows};

use crate::checker::Checker;
use crate::signatures::by_typing;
use std::alloc::AllocError;
use wasm_below::{AbstractHeapType, HeapType};
use wasm_check_control::ModuleContext;
use wasm_instr_ops::{GcOperator, MiscOperator};
use wasm_signatures::{gc_typing, misc_typing};
use wasm_typing::{Heap, ValueType};

const ANY: HeapType = HeapType::Abstract {
    shared: false,
    ty: AbstractHeapType::Any,
};

const EXTERN: HeapType = HeapType::Abstract {
    shared: false,
    ty: AbstractHeapType::Extern,
};

fn reference_to(nullable: bool, ty: HeapType) -> ValueType
    ensures { result ≡ ValueType.Ref nullable (Heap.Known ty) }
{
    ValueType::Ref {
        nullable,
        heap: Heap::Known(ty),
    }
}

/// Operators with a prefix byte.
impl<'m, M: ModuleContext> Checker<'m, M> {
    /// An operator with the prefix byte 0xfc.
    pub(crate) fn misc(&mut self, op: &MiscOperator) -> Result<bool, AllocError>
        ensures same { self.new.context ≡ self.old.context }
        ensures steps { Follows (M.environment self.old.context.now) (misc_rule (M.environment self.old.context.now) op.now) self.old.control result self.new.control }
    {
        match op {
            MiscOperator::MemoryFill { mem } => self.memory_fill(*mem),
            MiscOperator::MemoryInit { data_index, mem } => self.memory_init(*data_index, *mem),
            MiscOperator::MemoryCopy { dst_mem, src_mem } => self.memory_copy(*dst_mem, *src_mem),
            MiscOperator::DataDrop { data_index } => self.data_drop(*data_index),
            MiscOperator::TableInit { elem_index, table } => self.table_init(*elem_index, *table),
            MiscOperator::ElemDrop { elem_index } => self.elem_drop(*elem_index),
            MiscOperator::TableCopy {
                dst_table,
                src_table,
            } => self.table_copy(*dst_table, *src_table),
            MiscOperator::TableFill { table } => self.table_fill(*table),
            MiscOperator::TableGrow { table } => self.table_grow(*table),
            MiscOperator::TableSize { table } => self.table_size(*table),
            MiscOperator::I32TruncSatF32S
            | MiscOperator::I32TruncSatF32U
            | MiscOperator::I32TruncSatF64S
            | MiscOperator::I32TruncSatF64U
            | MiscOperator::I64TruncSatF32S
            | MiscOperator::I64TruncSatF32U
            | MiscOperator::I64TruncSatF64S
            | MiscOperator::I64TruncSatF64U
            | MiscOperator::MemoryDiscard { .. }
            | MiscOperator::I64Add128
            | MiscOperator::I64Sub128
            | MiscOperator::I64MulWideS
            | MiscOperator::I64MulWideU => {
                by_typing(&mut self.control, self.context, misc_typing(op), false)
            }
        }
    }

    /// An operator with the prefix byte 0xfb.
    pub(crate) fn gc(&mut self, op: &GcOperator) -> Result<bool, AllocError>
        ensures same { self.new.context ≡ self.old.context }
        ensures steps { Follows (M.environment self.old.context.now) (gc_rule (M.environment self.old.context.now) (labels_of self.old.control) op.now) self.old.control result self.new.control }
    {
        match op {
            GcOperator::RefTestNonNull { hty } | GcOperator::RefTestNullable { hty } => self.cast(
                *hty,
                ValueType::I32,
            ),
            GcOperator::RefCastNonNull { hty } => self.cast(*hty, reference_to(false, *hty)),
            GcOperator::RefCastNullable { hty } => self.cast(*hty, reference_to(true, *hty)),
            GcOperator::BrOnCast {
                relative_depth,
                from_ref_type,
                to_ref_type,
            } => self.branch_on_cast(*relative_depth, *from_ref_type, *to_ref_type),
            GcOperator::BrOnCastFail {
                relative_depth,
                from_ref_type,
                to_ref_type,
            } => self.branch_on_cast_fail(*relative_depth, *from_ref_type, *to_ref_type),
            GcOperator::AnyConvertExtern => self.control.converts(self.context, EXTERN, ANY),
            GcOperator::ExternConvertAny => self.control.converts(self.context, ANY, EXTERN),
            GcOperator::StructNew { struct_type_index } => self.struct_new(*struct_type_index),
            GcOperator::StructNewDefault { struct_type_index } => self.struct_new_default(
                *struct_type_index,
            ),
            GcOperator::StructGet {
                struct_type_index,
                field_index,
            } => self.struct_get(*struct_type_index, *field_index, false),
            GcOperator::StructGetS {
                struct_type_index,
                field_index,
            } => self.struct_get(*struct_type_index, *field_index, true),
            GcOperator::StructGetU {
                struct_type_index,
                field_index,
            } => self.struct_get(*struct_type_index, *field_index, true),
            GcOperator::StructSet {
                struct_type_index,
                field_index,
            } => self.struct_set(*struct_type_index, *field_index),
            GcOperator::ArrayNew { array_type_index } => self.array_new(*array_type_index),
            GcOperator::ArrayNewDefault { array_type_index } => self.array_new_default(
                *array_type_index,
            ),
            GcOperator::ArrayNewFixed {
                array_type_index,
                array_size,
            } => self.array_new_fixed(*array_type_index, *array_size),
            GcOperator::ArrayNewData {
                array_type_index,
                array_data_index,
            } => self.array_new_data(*array_type_index, *array_data_index),
            GcOperator::ArrayNewElem {
                array_type_index,
                array_elem_index,
            } => self.array_new_elem(*array_type_index, *array_elem_index),
            GcOperator::ArrayGet { array_type_index } => self.array_get(*array_type_index, false),
            GcOperator::ArrayGetS { array_type_index } => self.array_get(*array_type_index, true),
            GcOperator::ArrayGetU { array_type_index } => self.array_get(*array_type_index, true),
            GcOperator::ArraySet { array_type_index } => self.array_set(*array_type_index),
            GcOperator::ArrayFill { array_type_index } => self.array_fill(*array_type_index),
            GcOperator::ArrayCopy {
                array_type_index_dst,
                array_type_index_src,
            } => self.array_copy(*array_type_index_dst, *array_type_index_src),
            GcOperator::ArrayInitData {
                array_type_index,
                array_data_index,
            } => self.array_init_data(*array_type_index, *array_data_index),
            GcOperator::ArrayInitElem {
                array_type_index,
                array_elem_index,
            } => self.array_init_elem(*array_type_index, *array_elem_index),
            GcOperator::ArrayLen
            | GcOperator::RefI31
            | GcOperator::I31GetS
            | GcOperator::I31GetU
            | GcOperator::StructNewDesc { .. }
            | GcOperator::StructNewDefaultDesc { .. }
            | GcOperator::RefGetDesc { .. }
            | GcOperator::RefCastDescEqNonNull { .. }
            | GcOperator::RefCastDescEqNullable { .. }
            | GcOperator::BrOnCastDescEq { .. }
            | GcOperator::BrOnCastDescEqFail { .. } => {
                by_typing(&mut self.control, self.context, gc_typing(op), false)
            }
        }
    }
}
