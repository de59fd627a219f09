//! Written by tools/lists.py from tools/operators.tsv.
ghost use Rattle.std.specs.Prelude.{◌+◌, ◌≤◌, vec_len, vec_capacity};
ghost use Rattle.wasm_instr_ops.specs.Gc.{gc_immediates};
ghost use Rattle.wasm_encode_immediates.specs.Written.{WritesImmediates};

use wasm_below::WasmFeatures;
use wasm_encode_immediates::{Unwritable, Writes};
use wasm_imm::Cast;
use wasm_instr_ops::GcOperator;

/// Appends the immediates of a `GcOperator`: at most 33 bytes.
pub fn write_gc(out: &mut Vec<u8>, features: WasmFeatures, op: GcOperator) -> Result<(), Unwritable>
    requires { vec_len out.old + 33 ≤ vec_capacity out.old }
    ensures { WritesImmediates features (gc_immediates op) result out.old out.new }
{
    match op {
        GcOperator::StructNew {
            struct_type_index: a,
        }
        | GcOperator::StructNewDefault {
            struct_type_index: a,
        }
        | GcOperator::ArrayNew {
            array_type_index: a,
        }
        | GcOperator::ArrayNewDefault {
            array_type_index: a,
        }
        | GcOperator::ArrayGet {
            array_type_index: a,
        }
        | GcOperator::ArrayGetS {
            array_type_index: a,
        }
        | GcOperator::ArrayGetU {
            array_type_index: a,
        }
        | GcOperator::ArraySet {
            array_type_index: a,
        }
        | GcOperator::ArrayFill {
            array_type_index: a,
        }
        | GcOperator::StructNewDesc {
            struct_type_index: a,
        }
        | GcOperator::StructNewDefaultDesc {
            struct_type_index: a,
        }
        | GcOperator::RefGetDesc { type_index: a } => a.write(out, features, 0),
        GcOperator::StructGet {
            struct_type_index: a,
            field_index: b,
        }
        | GcOperator::StructGetS {
            struct_type_index: a,
            field_index: b,
        }
        | GcOperator::StructGetU {
            struct_type_index: a,
            field_index: b,
        }
        | GcOperator::StructSet {
            struct_type_index: a,
            field_index: b,
        }
        | GcOperator::ArrayNewFixed {
            array_type_index: a,
            array_size: b,
        }
        | GcOperator::ArrayNewData {
            array_type_index: a,
            array_data_index: b,
        }
        | GcOperator::ArrayNewElem {
            array_type_index: a,
            array_elem_index: b,
        }
        | GcOperator::ArrayCopy {
            array_type_index_dst: a,
            array_type_index_src: b,
        }
        | GcOperator::ArrayInitData {
            array_type_index: a,
            array_data_index: b,
        }
        | GcOperator::ArrayInitElem {
            array_type_index: a,
            array_elem_index: b,
        } => (a, b).write(out, features, 0),
        GcOperator::ArrayLen
        | GcOperator::AnyConvertExtern
        | GcOperator::ExternConvertAny
        | GcOperator::RefI31
        | GcOperator::I31GetS
        | GcOperator::I31GetU => Ok(()),
        GcOperator::RefTestNonNull { hty: a }
        | GcOperator::RefTestNullable { hty: a }
        | GcOperator::RefCastNonNull { hty: a }
        | GcOperator::RefCastNullable { hty: a }
        | GcOperator::RefCastDescEqNonNull { hty: a }
        | GcOperator::RefCastDescEqNullable { hty: a } => a.write(out, features, 0),
        GcOperator::BrOnCast {
            relative_depth: a,
            from_ref_type: b,
            to_ref_type: c,
        }
        | GcOperator::BrOnCastFail {
            relative_depth: a,
            from_ref_type: b,
            to_ref_type: c,
        }
        | GcOperator::BrOnCastDescEq {
            relative_depth: a,
            from_ref_type: b,
            to_ref_type: c,
        }
        | GcOperator::BrOnCastDescEqFail {
            relative_depth: a,
            from_ref_type: b,
            to_ref_type: c,
        } => Cast {
            relative_depth: a,
            from: b,
            to: c,
        }
        .write(out, features, 0),
    }
}
