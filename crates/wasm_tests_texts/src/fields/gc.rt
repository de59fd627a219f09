//! Written by tools/lists.py from tools/operators.tsv.
use crate::fields::shapes;
use crate::values::{self, Written};
use wasm_instr_ops::GcOperator;

pub fn gc(out: &mut String, op: &GcOperator) -> Written {
    match op {
        GcOperator::StructNew { struct_type_index }
        | GcOperator::StructNewDefault { struct_type_index }
        | GcOperator::StructNewDesc { struct_type_index }
        | GcOperator::StructNewDefaultDesc { struct_type_index } => values::number(
            out,
            "struct_type_index",
            struct_type_index,
        ),
        GcOperator::StructGet {
            struct_type_index,
            field_index,
        }
        | GcOperator::StructGetS {
            struct_type_index,
            field_index,
        }
        | GcOperator::StructGetU {
            struct_type_index,
            field_index,
        }
        | GcOperator::StructSet {
            struct_type_index,
            field_index,
        } => shapes::write_struct_type_index_and_field_index(out, struct_type_index, field_index),
        GcOperator::ArrayNew { array_type_index }
        | GcOperator::ArrayNewDefault { array_type_index }
        | GcOperator::ArrayGet { array_type_index }
        | GcOperator::ArrayGetS { array_type_index }
        | GcOperator::ArrayGetU { array_type_index }
        | GcOperator::ArraySet { array_type_index }
        | GcOperator::ArrayFill { array_type_index } => values::number(
            out,
            "array_type_index",
            array_type_index,
        ),
        GcOperator::ArrayNewFixed {
            array_type_index,
            array_size,
        } => shapes::write_array_type_index_and_array_size(out, array_type_index, array_size),
        GcOperator::ArrayNewData {
            array_type_index,
            array_data_index,
        }
        | GcOperator::ArrayInitData {
            array_type_index,
            array_data_index,
        } => shapes::write_array_type_index_and_array_data_index(
            out,
            array_type_index,
            array_data_index,
        ),
        GcOperator::ArrayNewElem {
            array_type_index,
            array_elem_index,
        }
        | GcOperator::ArrayInitElem {
            array_type_index,
            array_elem_index,
        } => shapes::write_array_type_index_and_array_elem_index(
            out,
            array_type_index,
            array_elem_index,
        ),
        GcOperator::ArrayCopy {
            array_type_index_dst,
            array_type_index_src,
        } => shapes::write_array_type_index_dst_and_array_type_index_src(
            out,
            array_type_index_dst,
            array_type_index_src,
        ),
        GcOperator::RefTestNonNull { hty }
        | GcOperator::RefTestNullable { hty }
        | GcOperator::RefCastNonNull { hty }
        | GcOperator::RefCastNullable { hty }
        | GcOperator::RefCastDescEqNonNull { hty }
        | GcOperator::RefCastDescEqNullable { hty } => values::heap_type(out, "hty", hty),
        GcOperator::BrOnCast {
            relative_depth,
            from_ref_type,
            to_ref_type,
        }
        | GcOperator::BrOnCastFail {
            relative_depth,
            from_ref_type,
            to_ref_type,
        }
        | GcOperator::BrOnCastDescEq {
            relative_depth,
            from_ref_type,
            to_ref_type,
        }
        | GcOperator::BrOnCastDescEqFail {
            relative_depth,
            from_ref_type,
            to_ref_type,
        } => shapes::write_relative_depth_and_from_ref_type_and_to_ref_type(
            out,
            relative_depth,
            from_ref_type,
            to_ref_type,
        ),
        GcOperator::RefGetDesc { type_index } => values::number(out, "type_index", type_index),
        _ => Ok(()),
    }
}
