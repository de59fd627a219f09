//! Decoding of operators with prefix 0xfc. Written by tools/lists.py from tools/operators.tsv.
ghost use Rattle.std.specs.Prelude.{Some};
ghost use Rattle.wasm_grammar.specs.declared.frame_kind.FrameKind.{FrameKind};
ghost use Rattle.wasm_decode_opcodes.specs.Decoding.{DecodesAt, IsAfterCode};

use crate::arm::{At, Maker, Makes, Misc, arm};
use wasm_below::{BinaryReader, Result};
use wasm_decode_opcodes::unknown_subopcode;
use wasm_instr_ops::MiscOperator;
use wasm_visit_groups::{ByAny, Own, VisitMisc, Visitor};

/// Reads the immediates of an operator with prefix 0xfc and visits it.
#[inline(always)]
pub fn misc<V: VisitMisc>(
    v: &mut V,
    reader: &mut BinaryReader<'_>,
    start: usize,
    code: u32,
) -> Result<V::Output>
    requires after { IsAfterCode start (Some 0xfc) code reader.old }
    ensures { (frame : FrameKind) → DecodesAt V.visits frame start result reader.old reader.new v.old v.new }
{
    misc_by::<V, Own>(v, reader, start, code)
}

/// Reads the immediates of an operator with prefix 0xfc and passes them to `R`.
#[inline(always)]
pub fn misc_by<V: Visitor, R: AtMisc<V>>(
    v: &mut V,
    reader: &mut BinaryReader<'_>,
    start: usize,
    code: u32,
) -> Result<V::Output>
    requires after { IsAfterCode start (Some 0xfc) code reader.old }
    ensures { (frame : FrameKind) → DecodesAt V.visits frame start result reader.old reader.new v.old v.new }
{
    match code {
        0x00..=0x07 => arm::<V, Misc, (), R>(v, reader, start, code, 0),
        0x13..=0x16 => arm::<V, Misc, (), R>(v, reader, start, code, 0),
        0x08 => arm::<V, Misc, (u32, u32), R>(v, reader, start, 0x08, 0),
        0x0a => arm::<V, Misc, (u32, u32), R>(v, reader, start, 0x0a, 0),
        0x0c => arm::<V, Misc, (u32, u32), R>(v, reader, start, 0x0c, 0),
        0x0e => arm::<V, Misc, (u32, u32), R>(v, reader, start, 0x0e, 0),
        0x09 => arm::<V, Misc, u32, R>(v, reader, start, 0x09, 0),
        0x0b => arm::<V, Misc, u32, R>(v, reader, start, 0x0b, 0),
        0x0d => arm::<V, Misc, u32, R>(v, reader, start, 0x0d, 0),
        0x0f..=0x12 => arm::<V, Misc, u32, R>(v, reader, start, code, 0),
        _ => Err(unknown_subopcode(reader, start, 0xfc, code)),
    }
}

/// A route for the operators with prefix 0xfc.
pub trait AtMisc<V: Visitor>: At<V, Misc, ()> + At<V, Misc, (u32, u32)> + At<V, Misc, u32> {}

impl<V: VisitMisc> AtMisc<V> for Own {}

impl<V: Visitor> AtMisc<V> for ByAny {}

impl Makes<Misc, ()> for Maker {
    #[inline(always)]
    fn make(code: u32, _it: ()) -> MiscOperator {
        match code {
            0x00 => MiscOperator::I32TruncSatF32S,
            0x01 => MiscOperator::I32TruncSatF32U,
            0x02 => MiscOperator::I32TruncSatF64S,
            0x03 => MiscOperator::I32TruncSatF64U,
            0x04 => MiscOperator::I64TruncSatF32S,
            0x05 => MiscOperator::I64TruncSatF32U,
            0x06 => MiscOperator::I64TruncSatF64S,
            0x07 => MiscOperator::I64TruncSatF64U,
            0x13 => MiscOperator::I64Add128,
            0x14 => MiscOperator::I64Sub128,
            0x15 => MiscOperator::I64MulWideS,
            _ => MiscOperator::I64MulWideU,
        }
    }
}

impl<V: VisitMisc> At<V, Misc, ()> for Own {
    #[inline(always)]
    fn at(v: &mut V, code: u32, _it: ()) -> V::Output {
        match code {
            0x00 => v.visit_i32_trunc_sat_f32_s(),
            0x01 => v.visit_i32_trunc_sat_f32_u(),
            0x02 => v.visit_i32_trunc_sat_f64_s(),
            0x03 => v.visit_i32_trunc_sat_f64_u(),
            0x04 => v.visit_i64_trunc_sat_f32_s(),
            0x05 => v.visit_i64_trunc_sat_f32_u(),
            0x06 => v.visit_i64_trunc_sat_f64_s(),
            0x07 => v.visit_i64_trunc_sat_f64_u(),
            0x13 => v.visit_i64_add128(),
            0x14 => v.visit_i64_sub128(),
            0x15 => v.visit_i64_mul_wide_s(),
            _ => v.visit_i64_mul_wide_u(),
        }
    }
}

impl Makes<Misc, (u32, u32)> for Maker {
    #[inline(always)]
    fn make(code: u32, it: (u32, u32)) -> MiscOperator {
        match code {
            0x08 => MiscOperator::MemoryInit {
                data_index: it.0,
                mem: it.1,
            },
            0x0a => MiscOperator::MemoryCopy {
                dst_mem: it.0,
                src_mem: it.1,
            },
            0x0c => MiscOperator::TableInit {
                elem_index: it.0,
                table: it.1,
            },
            _ => MiscOperator::TableCopy {
                dst_table: it.0,
                src_table: it.1,
            },
        }
    }
}

impl<V: VisitMisc> At<V, Misc, (u32, u32)> for Own {
    #[inline(always)]
    fn at(v: &mut V, code: u32, it: (u32, u32)) -> V::Output {
        match code {
            0x08 => v.visit_memory_init(it.0, it.1),
            0x0a => v.visit_memory_copy(it.0, it.1),
            0x0c => v.visit_table_init(it.0, it.1),
            _ => v.visit_table_copy(it.0, it.1),
        }
    }
}

impl Makes<Misc, u32> for Maker {
    #[inline(always)]
    fn make(code: u32, it: u32) -> MiscOperator {
        match code {
            0x09 => MiscOperator::DataDrop { data_index: it },
            0x0b => MiscOperator::MemoryFill { mem: it },
            0x0d => MiscOperator::ElemDrop { elem_index: it },
            0x0f => MiscOperator::TableGrow { table: it },
            0x10 => MiscOperator::TableSize { table: it },
            0x11 => MiscOperator::TableFill { table: it },
            _ => MiscOperator::MemoryDiscard { mem: it },
        }
    }
}

impl<V: VisitMisc> At<V, Misc, u32> for Own {
    #[inline(always)]
    fn at(v: &mut V, code: u32, it: u32) -> V::Output {
        match code {
            0x09 => v.visit_data_drop(it),
            0x0b => v.visit_memory_fill(it),
            0x0d => v.visit_elem_drop(it),
            0x0f => v.visit_table_grow(it),
            0x10 => v.visit_table_size(it),
            0x11 => v.visit_table_fill(it),
            _ => v.visit_memory_discard(it),
        }
    }
}
