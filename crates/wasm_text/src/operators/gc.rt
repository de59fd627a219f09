//! Written by tools/lists.py from tools/operators.tsv.
ghost use Rattle.std.specs.Prelude.{◌≡◌, ◌++◌, OnOk, string_bytes};
ghost use Rattle.wasm_text.specs.Operands.{gc_operands};

use crate::operands::{self, Written};
use wasm_instr_ops::GcOperator;

pub fn gc(out: &mut String, op: &GcOperator) -> Written
    ensures { OnOk result (string_bytes out.new ≡ string_bytes out.old ++ gc_operands op.now) }
{
    match op {
        GcOperator::StructNew { struct_type_index }
        | GcOperator::StructNewDefault { struct_type_index }
        | GcOperator::StructNewDesc { struct_type_index }
        | GcOperator::StructNewDefaultDesc { struct_type_index } => operands::one_number(
            out,
            struct_type_index,
        ),
        GcOperator::StructGet {
            struct_type_index,
            field_index,
        }
        | GcOperator::StructGetS {
            struct_type_index,
            field_index,
        }
        | GcOperator::StructGetU {
            struct_type_index,
            field_index,
        }
        | GcOperator::StructSet {
            struct_type_index,
            field_index,
        } => operands::two_numbers(out, struct_type_index, field_index),
        GcOperator::ArrayNew { array_type_index }
        | GcOperator::ArrayNewDefault { array_type_index }
        | GcOperator::ArrayGet { array_type_index }
        | GcOperator::ArrayGetS { array_type_index }
        | GcOperator::ArrayGetU { array_type_index }
        | GcOperator::ArraySet { array_type_index }
        | GcOperator::ArrayFill { array_type_index } => operands::one_number(out, array_type_index),
        GcOperator::ArrayNewFixed {
            array_type_index,
            array_size,
        } => operands::two_numbers(out, array_type_index, array_size),
        GcOperator::ArrayNewData {
            array_type_index,
            array_data_index,
        }
        | GcOperator::ArrayInitData {
            array_type_index,
            array_data_index,
        } => operands::two_numbers(out, array_type_index, array_data_index),
        GcOperator::ArrayNewElem {
            array_type_index,
            array_elem_index,
        }
        | GcOperator::ArrayInitElem {
            array_type_index,
            array_elem_index,
        } => operands::two_numbers(out, array_type_index, array_elem_index),
        GcOperator::ArrayLen
        | GcOperator::AnyConvertExtern
        | GcOperator::ExternConvertAny
        | GcOperator::RefI31
        | GcOperator::I31GetS
        | GcOperator::I31GetU => Ok(()),
        GcOperator::ArrayCopy {
            array_type_index_dst,
            array_type_index_src,
        } => operands::two_numbers(out, array_type_index_dst, array_type_index_src),
        GcOperator::RefTestNonNull { hty }
        | GcOperator::RefCastNonNull { hty }
        | GcOperator::RefCastDescEqNonNull { hty } => operands::reference_without_null(out, hty),
        GcOperator::RefTestNullable { hty }
        | GcOperator::RefCastNullable { hty }
        | GcOperator::RefCastDescEqNullable { hty } => operands::reference_with_null(out, hty),
        GcOperator::BrOnCast {
            relative_depth,
            from_ref_type,
            to_ref_type,
        }
        | GcOperator::BrOnCastFail {
            relative_depth,
            from_ref_type,
            to_ref_type,
        }
        | GcOperator::BrOnCastDescEq {
            relative_depth,
            from_ref_type,
            to_ref_type,
        }
        | GcOperator::BrOnCastDescEqFail {
            relative_depth,
            from_ref_type,
            to_ref_type,
        } => operands::cast(out, relative_depth, from_ref_type, to_ref_type),
        GcOperator::RefGetDesc { type_index } => operands::one_number(out, type_index),
    }
}
