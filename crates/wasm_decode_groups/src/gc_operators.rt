//! Decoding of operators with prefix 0xfb. Written by tools/lists.py from tools/operators.tsv.
ghost use Rattle.std.specs.Prelude.{Some};
ghost use Rattle.wasm_grammar.specs.declared.frame_kind.FrameKind.{FrameKind};
ghost use Rattle.wasm_instr.specs.declared.operator.Operator.{Operator};
ghost use Rattle.wasm_decode_opcodes.specs.Decoding.{DecodesAt, IsAfterCode};
ghost use Rattle.wasm_decode_groups.specs.Arms.{ReadsOperatorAt};

use crate::arm::{At, Gc, Maker, Makes, arm};
use crate::read_arm::read_arm;
use wasm_below::{BinaryReader, HeapType, Result};
use wasm_decode_opcodes::unknown_subopcode;
use wasm_imm::Cast;
use wasm_instr_ops::GcOperator;
use wasm_visit_groups::{ByAny, Own, VisitGc, Visitor};

/// Reads the immediates of an operator with prefix 0xfb and visits it.
#[inline(always)]
pub fn gc<V: VisitGc>(
    v: &mut V,
    reader: &mut BinaryReader<'_>,
    start: usize,
    code: u32,
) -> Result<V::Output>
    requires after { IsAfterCode start (Some 0xfb) code reader.old }
    ensures { (frame : FrameKind) → DecodesAt V.visits frame start result reader.old reader.new v.old v.new }
{
    gc_by::<V, Own>(v, reader, start, code)
}

/// Reads the immediates of an operator with prefix 0xfb and passes them to `R`.
#[inline(always)]
pub fn gc_by<V: Visitor, R: AtGc<V>>(
    v: &mut V,
    reader: &mut BinaryReader<'_>,
    start: usize,
    code: u32,
) -> Result<V::Output>
    requires after { IsAfterCode start (Some 0xfb) code reader.old }
    ensures { (frame : FrameKind) → DecodesAt V.visits frame start result reader.old reader.new v.old v.new }
{
    match code {
        0x00..=0x01 => arm::<V, Gc, u32, R>(v, reader, start, code, 0),
        0x06..=0x07 => arm::<V, Gc, u32, R>(v, reader, start, code, 0),
        0x0b..=0x0e => arm::<V, Gc, u32, R>(v, reader, start, code, 0),
        0x10 => arm::<V, Gc, u32, R>(v, reader, start, 0x10, 0),
        0x20..=0x22 => arm::<V, Gc, u32, R>(v, reader, start, code, 0),
        0x02..=0x05 => arm::<V, Gc, (u32, u32), R>(v, reader, start, code, 0),
        0x08..=0x0a => arm::<V, Gc, (u32, u32), R>(v, reader, start, code, 0),
        0x11..=0x13 => arm::<V, Gc, (u32, u32), R>(v, reader, start, code, 0),
        0x0f => arm::<V, Gc, (), R>(v, reader, start, 0x0f, 0),
        0x1a..=0x1e => arm::<V, Gc, (), R>(v, reader, start, code, 0),
        0x14..=0x17 => arm::<V, Gc, HeapType, R>(v, reader, start, code, 0),
        0x23..=0x24 => arm::<V, Gc, HeapType, R>(v, reader, start, code, 0),
        0x18..=0x19 => arm::<V, Gc, Cast, R>(v, reader, start, code, 0),
        0x25..=0x26 => arm::<V, Gc, Cast, R>(v, reader, start, code, 0),
        _ => Err(unknown_subopcode(reader, start, 0xfb, code)),
    }
}

/// Reads the immediates of an operator with prefix 0xfb and returns the operator.
#[inline(always)]
pub fn read_gc_operator(
    reader: &mut BinaryReader<'_>,
    start: usize,
    code: u32,
) -> Result<GcOperator>
    requires after { IsAfterCode start (Some 0xfb) code reader.old }
    ensures { (frame : FrameKind) → ReadsOperatorAt (λ op. Operator.Gc op) frame start result reader.old reader.new }
{
    match code {
        0x00..=0x01 => read_arm::<Gc, u32>(reader, start, code, 0),
        0x06..=0x07 => read_arm::<Gc, u32>(reader, start, code, 0),
        0x0b..=0x0e => read_arm::<Gc, u32>(reader, start, code, 0),
        0x10 => read_arm::<Gc, u32>(reader, start, 0x10, 0),
        0x20..=0x22 => read_arm::<Gc, u32>(reader, start, code, 0),
        0x02..=0x05 => read_arm::<Gc, (u32, u32)>(reader, start, code, 0),
        0x08..=0x0a => read_arm::<Gc, (u32, u32)>(reader, start, code, 0),
        0x11..=0x13 => read_arm::<Gc, (u32, u32)>(reader, start, code, 0),
        0x0f => read_arm::<Gc, ()>(reader, start, 0x0f, 0),
        0x1a..=0x1e => read_arm::<Gc, ()>(reader, start, code, 0),
        0x14..=0x17 => read_arm::<Gc, HeapType>(reader, start, code, 0),
        0x23..=0x24 => read_arm::<Gc, HeapType>(reader, start, code, 0),
        0x18..=0x19 => read_arm::<Gc, Cast>(reader, start, code, 0),
        0x25..=0x26 => read_arm::<Gc, Cast>(reader, start, code, 0),
        _ => Err(unknown_subopcode(reader, start, 0xfb, code)),
    }
}

/// A route for the operators with prefix 0xfb.
pub trait AtGc<V: Visitor>: At<V, Gc, u32>
    + At<V, Gc, (u32, u32)>
    + At<V, Gc, ()>
    + At<V, Gc, HeapType>
    + At<V, Gc, Cast> {}

impl<V: VisitGc> AtGc<V> for Own {}

impl<V: Visitor> AtGc<V> for ByAny {}

impl Makes<Gc, u32> for Maker {
    #[inline(always)]
    fn make(code: u32, it: u32) -> GcOperator {
        match code {
            0x00 => GcOperator::StructNew {
                struct_type_index: it,
            },
            0x01 => GcOperator::StructNewDefault {
                struct_type_index: it,
            },
            0x06 => GcOperator::ArrayNew {
                array_type_index: it,
            },
            0x07 => GcOperator::ArrayNewDefault {
                array_type_index: it,
            },
            0x0b => GcOperator::ArrayGet {
                array_type_index: it,
            },
            0x0c => GcOperator::ArrayGetS {
                array_type_index: it,
            },
            0x0d => GcOperator::ArrayGetU {
                array_type_index: it,
            },
            0x0e => GcOperator::ArraySet {
                array_type_index: it,
            },
            0x10 => GcOperator::ArrayFill {
                array_type_index: it,
            },
            0x20 => GcOperator::StructNewDesc {
                struct_type_index: it,
            },
            0x21 => GcOperator::StructNewDefaultDesc {
                struct_type_index: it,
            },
            _ => GcOperator::RefGetDesc { type_index: it },
        }
    }
}

impl<V: VisitGc> At<V, Gc, u32> for Own {
    #[inline(always)]
    fn at(v: &mut V, code: u32, it: u32) -> V::Output {
        match code {
            0x00 => v.visit_struct_new(it),
            0x01 => v.visit_struct_new_default(it),
            0x06 => v.visit_array_new(it),
            0x07 => v.visit_array_new_default(it),
            0x0b => v.visit_array_get(it),
            0x0c => v.visit_array_get_s(it),
            0x0d => v.visit_array_get_u(it),
            0x0e => v.visit_array_set(it),
            0x10 => v.visit_array_fill(it),
            0x20 => v.visit_struct_new_desc(it),
            0x21 => v.visit_struct_new_default_desc(it),
            _ => v.visit_ref_get_desc(it),
        }
    }
}

impl Makes<Gc, (u32, u32)> for Maker {
    #[inline(always)]
    fn make(code: u32, it: (u32, u32)) -> GcOperator {
        match code {
            0x02 => GcOperator::StructGet {
                struct_type_index: it.0,
                field_index: it.1,
            },
            0x03 => GcOperator::StructGetS {
                struct_type_index: it.0,
                field_index: it.1,
            },
            0x04 => GcOperator::StructGetU {
                struct_type_index: it.0,
                field_index: it.1,
            },
            0x05 => GcOperator::StructSet {
                struct_type_index: it.0,
                field_index: it.1,
            },
            0x08 => GcOperator::ArrayNewFixed {
                array_type_index: it.0,
                array_size: it.1,
            },
            0x09 => GcOperator::ArrayNewData {
                array_type_index: it.0,
                array_data_index: it.1,
            },
            0x0a => GcOperator::ArrayNewElem {
                array_type_index: it.0,
                array_elem_index: it.1,
            },
            0x11 => GcOperator::ArrayCopy {
                array_type_index_dst: it.0,
                array_type_index_src: it.1,
            },
            0x12 => GcOperator::ArrayInitData {
                array_type_index: it.0,
                array_data_index: it.1,
            },
            _ => GcOperator::ArrayInitElem {
                array_type_index: it.0,
                array_elem_index: it.1,
            },
        }
    }
}

impl<V: VisitGc> At<V, Gc, (u32, u32)> for Own {
    #[inline(always)]
    fn at(v: &mut V, code: u32, it: (u32, u32)) -> V::Output {
        match code {
            0x02 => v.visit_struct_get(it.0, it.1),
            0x03 => v.visit_struct_get_s(it.0, it.1),
            0x04 => v.visit_struct_get_u(it.0, it.1),
            0x05 => v.visit_struct_set(it.0, it.1),
            0x08 => v.visit_array_new_fixed(it.0, it.1),
            0x09 => v.visit_array_new_data(it.0, it.1),
            0x0a => v.visit_array_new_elem(it.0, it.1),
            0x11 => v.visit_array_copy(it.0, it.1),
            0x12 => v.visit_array_init_data(it.0, it.1),
            _ => v.visit_array_init_elem(it.0, it.1),
        }
    }
}

impl Makes<Gc, ()> for Maker {
    #[inline(always)]
    fn make(code: u32, _it: ()) -> GcOperator {
        match code {
            0x0f => GcOperator::ArrayLen,
            0x1a => GcOperator::AnyConvertExtern,
            0x1b => GcOperator::ExternConvertAny,
            0x1c => GcOperator::RefI31,
            0x1d => GcOperator::I31GetS,
            _ => GcOperator::I31GetU,
        }
    }
}

impl<V: VisitGc> At<V, Gc, ()> for Own {
    #[inline(always)]
    fn at(v: &mut V, code: u32, _it: ()) -> V::Output {
        match code {
            0x0f => v.visit_array_len(),
            0x1a => v.visit_any_convert_extern(),
            0x1b => v.visit_extern_convert_any(),
            0x1c => v.visit_ref_i31(),
            0x1d => v.visit_i31_get_s(),
            _ => v.visit_i31_get_u(),
        }
    }
}

impl Makes<Gc, HeapType> for Maker {
    #[inline(always)]
    fn make(code: u32, it: HeapType) -> GcOperator {
        match code {
            0x14 => GcOperator::RefTestNonNull { hty: it },
            0x15 => GcOperator::RefTestNullable { hty: it },
            0x16 => GcOperator::RefCastNonNull { hty: it },
            0x17 => GcOperator::RefCastNullable { hty: it },
            0x23 => GcOperator::RefCastDescEqNonNull { hty: it },
            _ => GcOperator::RefCastDescEqNullable { hty: it },
        }
    }
}

impl<V: VisitGc> At<V, Gc, HeapType> for Own {
    #[inline(always)]
    fn at(v: &mut V, code: u32, it: HeapType) -> V::Output {
        match code {
            0x14 => v.visit_ref_test_non_null(it),
            0x15 => v.visit_ref_test_nullable(it),
            0x16 => v.visit_ref_cast_non_null(it),
            0x17 => v.visit_ref_cast_nullable(it),
            0x23 => v.visit_ref_cast_desc_eq_non_null(it),
            _ => v.visit_ref_cast_desc_eq_nullable(it),
        }
    }
}

impl Makes<Gc, Cast> for Maker {
    #[inline(always)]
    fn make(code: u32, it: Cast) -> GcOperator {
        match code {
            0x18 => GcOperator::BrOnCast {
                relative_depth: it.relative_depth,
                from_ref_type: it.from,
                to_ref_type: it.to,
            },
            0x19 => GcOperator::BrOnCastFail {
                relative_depth: it.relative_depth,
                from_ref_type: it.from,
                to_ref_type: it.to,
            },
            0x25 => GcOperator::BrOnCastDescEq {
                relative_depth: it.relative_depth,
                from_ref_type: it.from,
                to_ref_type: it.to,
            },
            _ => GcOperator::BrOnCastDescEqFail {
                relative_depth: it.relative_depth,
                from_ref_type: it.from,
                to_ref_type: it.to,
            },
        }
    }
}

impl<V: VisitGc> At<V, Gc, Cast> for Own {
    #[inline(always)]
    fn at(v: &mut V, code: u32, it: Cast) -> V::Output {
        match code {
            0x18 => v.visit_br_on_cast(it.relative_depth, it.from, it.to),
            0x19 => v.visit_br_on_cast_fail(it.relative_depth, it.from, it.to),
            0x25 => v.visit_br_on_cast_desc_eq(it.relative_depth, it.from, it.to),
            _ => v.visit_br_on_cast_desc_eq_fail(it.relative_depth, it.from, it.to),
        }
    }
}
