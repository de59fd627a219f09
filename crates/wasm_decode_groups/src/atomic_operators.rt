//! Decoding of operators with prefix 0xfe. Written by tools/lists.py from tools/operators.tsv.
ghost use Rattle.std.specs.Prelude.{◌≡◌, [], ◌∷◌, Some};
ghost use Rattle.wasm_grammar.specs.declared.frame_kind.FrameKind.{FrameKind};
ghost use Rattle.wasm_imm.specs.Immediate.{is_memory_argument};
ghost use Rattle.wasm_decode_opcodes.specs.Decoding.{DecodesAt, IsAfterCode};
ghost use Rattle.wasm_decode_opcodes.specs.Entries.{align_at};
ghost use Rattle.wasm_decode_groups.specs.Arms.{HasKindsAt};

use crate::arm::{At, Atomic, Maker, Makes, arm};
use wasm_below::{BinaryReader, Result};
use wasm_decode_opcodes::{FenceOrdering, OpMemArg, PlainMemArg, RmwMemArg, unknown_subopcode};
use wasm_imm::{MemArgKind, Ordering};
use wasm_instr_ops::AtomicOperator;
use wasm_visit_groups::{ByAny, Own, VisitAtomic, Visitor};

/// Reads the immediates of an operator with prefix 0xfe and visits it.
#[inline(always)]
pub fn atomic<V: VisitAtomic>(
    v: &mut V,
    reader: &mut BinaryReader<'_>,
    start: usize,
    code: u32,
) -> Result<V::Output>
    requires after { IsAfterCode start (Some 0xfe) code reader.old }
    ensures { (frame : FrameKind) → DecodesAt V.visits frame start result reader.old reader.new v.old v.new }
{
    atomic_by::<V, Own>(v, reader, start, code)
}

/// Reads the immediates of an operator with prefix 0xfe and passes them to `R`.
#[inline(always)]
pub fn atomic_by<V: Visitor, R: AtAtomic<V>>(
    v: &mut V,
    reader: &mut BinaryReader<'_>,
    start: usize,
    code: u32,
) -> Result<V::Output>
    requires after { IsAfterCode start (Some 0xfe) code reader.old }
    ensures { (frame : FrameKind) → DecodesAt V.visits frame start result reader.old reader.new v.old v.new }
{
    match code {
        0x00..=0x02 => arm::<V, Atomic, PlainMemArg, R>(
            v,
            reader,
            start,
            code,
            align_of_memory(code),
        ),
        0x03 => arm::<V, Atomic, FenceOrdering, R>(v, reader, start, 0x03, 0),
        0x10..=0x1d => arm::<V, Atomic, OpMemArg, R>(
            v,
            reader,
            start,
            code,
            align_of_memory_op(code),
        ),
        0x1e..=0x4e => arm::<V, Atomic, RmwMemArg, R>(
            v,
            reader,
            start,
            code,
            align_of_memory_rmw(code),
        ),
        0x4f..=0x5b => arm::<V, Atomic, (Ordering, u32), R>(v, reader, start, code, 0),
        0x67..=0x71 => arm::<V, Atomic, (Ordering, u32), R>(v, reader, start, code, 0),
        0x5c..=0x66 => arm::<V, Atomic, (Ordering, (u32, u32)), R>(v, reader, start, code, 0),
        0x04 => arm::<V, Atomic, (), R>(v, reader, start, 0x04, 0),
        0x72 => arm::<V, Atomic, (), R>(v, reader, start, 0x72, 0),
        _ => Err(unknown_subopcode(reader, start, 0xfe, code)),
    }
}

/// A route for the operators with prefix 0xfe.
pub trait AtAtomic<V: Visitor>: At<V, Atomic, PlainMemArg>
    + At<V, Atomic, FenceOrdering>
    + At<V, Atomic, OpMemArg>
    + At<V, Atomic, RmwMemArg>
    + At<V, Atomic, (Ordering, u32)>
    + At<V, Atomic, (Ordering, (u32, u32))>
    + At<V, Atomic, ()> {}

impl<V: VisitAtomic> AtAtomic<V> for Own {}

impl<V: Visitor> AtAtomic<V> for ByAny {}

/// Returns the natural alignment as an exponent.
#[inline(always)]
fn align_of_memory(code: u32) -> u8
    requires { HasKindsAt (Some 0xfe) code (λ bound. is_memory_argument MemArgKind.Plain bound ∷ []) }
    ensures { result ≡ align_at (Some 0xfe) code }
{
    match code {
        0x00 => 2,
        0x01 => 2,
        _ => 3,
    }
}

impl Makes<Atomic, PlainMemArg> for Maker {
    #[inline(always)]
    fn make(code: u32, it: PlainMemArg) -> AtomicOperator {
        match code {
            0x00 => AtomicOperator::MemoryAtomicNotify { memarg: it.0 },
            0x01 => AtomicOperator::MemoryAtomicWait32 { memarg: it.0 },
            _ => AtomicOperator::MemoryAtomicWait64 { memarg: it.0 },
        }
    }
}

impl<V: VisitAtomic> At<V, Atomic, PlainMemArg> for Own {
    #[inline(always)]
    fn at(v: &mut V, code: u32, it: PlainMemArg) -> V::Output {
        match code {
            0x00 => v.visit_memory_atomic_notify(it.0),
            0x01 => v.visit_memory_atomic_wait32(it.0),
            _ => v.visit_memory_atomic_wait64(it.0),
        }
    }
}

impl Makes<Atomic, FenceOrdering> for Maker {
    #[inline(always)]
    fn make(_code: u32, it: FenceOrdering) -> AtomicOperator {
        AtomicOperator::AtomicFence { ordering: it.0 }
    }
}

impl<V: VisitAtomic> At<V, Atomic, FenceOrdering> for Own {
    #[inline(always)]
    fn at(v: &mut V, _code: u32, it: FenceOrdering) -> V::Output {
        v.visit_atomic_fence(it.0)
    }
}

/// Returns the natural alignment as an exponent.
#[inline(always)]
fn align_of_memory_op(code: u32) -> u8
    requires { HasKindsAt (Some 0xfe) code (λ bound. is_memory_argument MemArgKind.Op bound ∷ []) }
    ensures { result ≡ align_at (Some 0xfe) code }
{
    match code {
        0x10 => 2,
        0x11 => 3,
        0x12 => 0,
        0x13 => 1,
        0x14 => 0,
        0x15 => 1,
        0x16 => 2,
        0x17 => 2,
        0x18 => 3,
        0x19 => 0,
        0x1a => 1,
        0x1b => 0,
        0x1d => 2,
        _ => 1,
    }
}

impl Makes<Atomic, OpMemArg> for Maker {
    #[inline(always)]
    fn make(code: u32, it: OpMemArg) -> AtomicOperator {
        match code {
            0x10 => AtomicOperator::I32AtomicLoad { memarg: it.0 },
            0x11 => AtomicOperator::I64AtomicLoad { memarg: it.0 },
            0x12 => AtomicOperator::I32AtomicLoad8U { memarg: it.0 },
            0x13 => AtomicOperator::I32AtomicLoad16U { memarg: it.0 },
            0x14 => AtomicOperator::I64AtomicLoad8U { memarg: it.0 },
            0x15 => AtomicOperator::I64AtomicLoad16U { memarg: it.0 },
            0x16 => AtomicOperator::I64AtomicLoad32U { memarg: it.0 },
            0x17 => AtomicOperator::I32AtomicStore { memarg: it.0 },
            0x18 => AtomicOperator::I64AtomicStore { memarg: it.0 },
            0x19 => AtomicOperator::I32AtomicStore8 { memarg: it.0 },
            0x1a => AtomicOperator::I32AtomicStore16 { memarg: it.0 },
            0x1b => AtomicOperator::I64AtomicStore8 { memarg: it.0 },
            0x1c => AtomicOperator::I64AtomicStore16 { memarg: it.0 },
            _ => AtomicOperator::I64AtomicStore32 { memarg: it.0 },
        }
    }
}

impl<V: VisitAtomic> At<V, Atomic, OpMemArg> for Own {
    #[inline(always)]
    fn at(v: &mut V, code: u32, it: OpMemArg) -> V::Output {
        match code {
            0x10 => v.visit_i32_atomic_load(it.0),
            0x11 => v.visit_i64_atomic_load(it.0),
            0x12 => v.visit_i32_atomic_load8_u(it.0),
            0x13 => v.visit_i32_atomic_load16_u(it.0),
            0x14 => v.visit_i64_atomic_load8_u(it.0),
            0x15 => v.visit_i64_atomic_load16_u(it.0),
            0x16 => v.visit_i64_atomic_load32_u(it.0),
            0x17 => v.visit_i32_atomic_store(it.0),
            0x18 => v.visit_i64_atomic_store(it.0),
            0x19 => v.visit_i32_atomic_store8(it.0),
            0x1a => v.visit_i32_atomic_store16(it.0),
            0x1b => v.visit_i64_atomic_store8(it.0),
            0x1c => v.visit_i64_atomic_store16(it.0),
            _ => v.visit_i64_atomic_store32(it.0),
        }
    }
}

/// Returns the natural alignment as an exponent.
#[inline(always)]
fn align_of_memory_rmw(code: u32) -> u8
    requires { HasKindsAt (Some 0xfe) code (λ bound. is_memory_argument MemArgKind.Rmw bound ∷ []) }
    ensures { result ≡ align_at (Some 0xfe) code }
{
    match code {
        0x1e => 2,
        0x1f => 3,
        0x20 => 0,
        0x21 => 1,
        0x22 => 0,
        0x23 => 1,
        0x24 => 2,
        0x25 => 2,
        0x26 => 3,
        0x27 => 0,
        0x28 => 1,
        0x29 => 0,
        0x2a => 1,
        0x2b => 2,
        0x2c => 2,
        0x2d => 3,
        0x2e => 0,
        0x2f => 1,
        0x30 => 0,
        0x31 => 1,
        0x32 => 2,
        0x33 => 2,
        0x34 => 3,
        0x35 => 0,
        0x36 => 1,
        0x37 => 0,
        0x38 => 1,
        0x39 => 2,
        0x3a => 2,
        0x3b => 3,
        0x3c => 0,
        0x3d => 1,
        0x3e => 0,
        0x3f => 1,
        0x40 => 2,
        0x41 => 2,
        0x42 => 3,
        0x43 => 0,
        0x44 => 1,
        0x45 => 0,
        0x46 => 1,
        0x47 => 2,
        0x48 => 2,
        0x49 => 3,
        0x4a => 0,
        0x4b => 1,
        0x4c => 0,
        0x4e => 2,
        _ => 1,
    }
}

impl Makes<Atomic, RmwMemArg> for Maker {
    #[inline(always)]
    fn make(code: u32, it: RmwMemArg) -> AtomicOperator {
        match code {
            0x1e => AtomicOperator::I32AtomicRmwAdd { memarg: it.0 },
            0x1f => AtomicOperator::I64AtomicRmwAdd { memarg: it.0 },
            0x20 => AtomicOperator::I32AtomicRmw8AddU { memarg: it.0 },
            0x21 => AtomicOperator::I32AtomicRmw16AddU { memarg: it.0 },
            0x22 => AtomicOperator::I64AtomicRmw8AddU { memarg: it.0 },
            0x23 => AtomicOperator::I64AtomicRmw16AddU { memarg: it.0 },
            0x24 => AtomicOperator::I64AtomicRmw32AddU { memarg: it.0 },
            0x25 => AtomicOperator::I32AtomicRmwSub { memarg: it.0 },
            0x26 => AtomicOperator::I64AtomicRmwSub { memarg: it.0 },
            0x27 => AtomicOperator::I32AtomicRmw8SubU { memarg: it.0 },
            0x28 => AtomicOperator::I32AtomicRmw16SubU { memarg: it.0 },
            0x29 => AtomicOperator::I64AtomicRmw8SubU { memarg: it.0 },
            0x2a => AtomicOperator::I64AtomicRmw16SubU { memarg: it.0 },
            0x2b => AtomicOperator::I64AtomicRmw32SubU { memarg: it.0 },
            0x2c => AtomicOperator::I32AtomicRmwAnd { memarg: it.0 },
            0x2d => AtomicOperator::I64AtomicRmwAnd { memarg: it.0 },
            0x2e => AtomicOperator::I32AtomicRmw8AndU { memarg: it.0 },
            0x2f => AtomicOperator::I32AtomicRmw16AndU { memarg: it.0 },
            0x30 => AtomicOperator::I64AtomicRmw8AndU { memarg: it.0 },
            0x31 => AtomicOperator::I64AtomicRmw16AndU { memarg: it.0 },
            0x32 => AtomicOperator::I64AtomicRmw32AndU { memarg: it.0 },
            0x33 => AtomicOperator::I32AtomicRmwOr { memarg: it.0 },
            0x34 => AtomicOperator::I64AtomicRmwOr { memarg: it.0 },
            0x35 => AtomicOperator::I32AtomicRmw8OrU { memarg: it.0 },
            0x36 => AtomicOperator::I32AtomicRmw16OrU { memarg: it.0 },
            0x37 => AtomicOperator::I64AtomicRmw8OrU { memarg: it.0 },
            0x38 => AtomicOperator::I64AtomicRmw16OrU { memarg: it.0 },
            0x39 => AtomicOperator::I64AtomicRmw32OrU { memarg: it.0 },
            0x3a => AtomicOperator::I32AtomicRmwXor { memarg: it.0 },
            0x3b => AtomicOperator::I64AtomicRmwXor { memarg: it.0 },
            0x3c => AtomicOperator::I32AtomicRmw8XorU { memarg: it.0 },
            0x3d => AtomicOperator::I32AtomicRmw16XorU { memarg: it.0 },
            0x3e => AtomicOperator::I64AtomicRmw8XorU { memarg: it.0 },
            0x3f => AtomicOperator::I64AtomicRmw16XorU { memarg: it.0 },
            0x40 => AtomicOperator::I64AtomicRmw32XorU { memarg: it.0 },
            0x41 => AtomicOperator::I32AtomicRmwXchg { memarg: it.0 },
            0x42 => AtomicOperator::I64AtomicRmwXchg { memarg: it.0 },
            0x43 => AtomicOperator::I32AtomicRmw8XchgU { memarg: it.0 },
            0x44 => AtomicOperator::I32AtomicRmw16XchgU { memarg: it.0 },
            0x45 => AtomicOperator::I64AtomicRmw8XchgU { memarg: it.0 },
            0x46 => AtomicOperator::I64AtomicRmw16XchgU { memarg: it.0 },
            0x47 => AtomicOperator::I64AtomicRmw32XchgU { memarg: it.0 },
            0x48 => AtomicOperator::I32AtomicRmwCmpxchg { memarg: it.0 },
            0x49 => AtomicOperator::I64AtomicRmwCmpxchg { memarg: it.0 },
            0x4a => AtomicOperator::I32AtomicRmw8CmpxchgU { memarg: it.0 },
            0x4b => AtomicOperator::I32AtomicRmw16CmpxchgU { memarg: it.0 },
            0x4c => AtomicOperator::I64AtomicRmw8CmpxchgU { memarg: it.0 },
            0x4d => AtomicOperator::I64AtomicRmw16CmpxchgU { memarg: it.0 },
            _ => AtomicOperator::I64AtomicRmw32CmpxchgU { memarg: it.0 },
        }
    }
}

impl<V: VisitAtomic> At<V, Atomic, RmwMemArg> for Own {
    #[inline(always)]
    fn at(v: &mut V, code: u32, it: RmwMemArg) -> V::Output {
        match code {
            0x1e => v.visit_i32_atomic_rmw_add(it.0),
            0x1f => v.visit_i64_atomic_rmw_add(it.0),
            0x20 => v.visit_i32_atomic_rmw8_add_u(it.0),
            0x21 => v.visit_i32_atomic_rmw16_add_u(it.0),
            0x22 => v.visit_i64_atomic_rmw8_add_u(it.0),
            0x23 => v.visit_i64_atomic_rmw16_add_u(it.0),
            0x24 => v.visit_i64_atomic_rmw32_add_u(it.0),
            0x25 => v.visit_i32_atomic_rmw_sub(it.0),
            0x26 => v.visit_i64_atomic_rmw_sub(it.0),
            0x27 => v.visit_i32_atomic_rmw8_sub_u(it.0),
            0x28 => v.visit_i32_atomic_rmw16_sub_u(it.0),
            0x29 => v.visit_i64_atomic_rmw8_sub_u(it.0),
            0x2a => v.visit_i64_atomic_rmw16_sub_u(it.0),
            0x2b => v.visit_i64_atomic_rmw32_sub_u(it.0),
            0x2c => v.visit_i32_atomic_rmw_and(it.0),
            0x2d => v.visit_i64_atomic_rmw_and(it.0),
            0x2e => v.visit_i32_atomic_rmw8_and_u(it.0),
            0x2f => v.visit_i32_atomic_rmw16_and_u(it.0),
            0x30 => v.visit_i64_atomic_rmw8_and_u(it.0),
            0x31 => v.visit_i64_atomic_rmw16_and_u(it.0),
            0x32 => v.visit_i64_atomic_rmw32_and_u(it.0),
            0x33 => v.visit_i32_atomic_rmw_or(it.0),
            0x34 => v.visit_i64_atomic_rmw_or(it.0),
            0x35 => v.visit_i32_atomic_rmw8_or_u(it.0),
            0x36 => v.visit_i32_atomic_rmw16_or_u(it.0),
            0x37 => v.visit_i64_atomic_rmw8_or_u(it.0),
            0x38 => v.visit_i64_atomic_rmw16_or_u(it.0),
            0x39 => v.visit_i64_atomic_rmw32_or_u(it.0),
            0x3a => v.visit_i32_atomic_rmw_xor(it.0),
            0x3b => v.visit_i64_atomic_rmw_xor(it.0),
            0x3c => v.visit_i32_atomic_rmw8_xor_u(it.0),
            0x3d => v.visit_i32_atomic_rmw16_xor_u(it.0),
            0x3e => v.visit_i64_atomic_rmw8_xor_u(it.0),
            0x3f => v.visit_i64_atomic_rmw16_xor_u(it.0),
            0x40 => v.visit_i64_atomic_rmw32_xor_u(it.0),
            0x41 => v.visit_i32_atomic_rmw_xchg(it.0),
            0x42 => v.visit_i64_atomic_rmw_xchg(it.0),
            0x43 => v.visit_i32_atomic_rmw8_xchg_u(it.0),
            0x44 => v.visit_i32_atomic_rmw16_xchg_u(it.0),
            0x45 => v.visit_i64_atomic_rmw8_xchg_u(it.0),
            0x46 => v.visit_i64_atomic_rmw16_xchg_u(it.0),
            0x47 => v.visit_i64_atomic_rmw32_xchg_u(it.0),
            0x48 => v.visit_i32_atomic_rmw_cmpxchg(it.0),
            0x49 => v.visit_i64_atomic_rmw_cmpxchg(it.0),
            0x4a => v.visit_i32_atomic_rmw8_cmpxchg_u(it.0),
            0x4b => v.visit_i32_atomic_rmw16_cmpxchg_u(it.0),
            0x4c => v.visit_i64_atomic_rmw8_cmpxchg_u(it.0),
            0x4d => v.visit_i64_atomic_rmw16_cmpxchg_u(it.0),
            _ => v.visit_i64_atomic_rmw32_cmpxchg_u(it.0),
        }
    }
}

impl Makes<Atomic, (Ordering, u32)> for Maker {
    #[inline(always)]
    fn make(code: u32, it: (Ordering, u32)) -> AtomicOperator {
        match code {
            0x4f => AtomicOperator::GlobalAtomicGet {
                ordering: it.0,
                global_index: it.1,
            },
            0x50 => AtomicOperator::GlobalAtomicSet {
                ordering: it.0,
                global_index: it.1,
            },
            0x51 => AtomicOperator::GlobalAtomicRmwAdd {
                ordering: it.0,
                global_index: it.1,
            },
            0x52 => AtomicOperator::GlobalAtomicRmwSub {
                ordering: it.0,
                global_index: it.1,
            },
            0x53 => AtomicOperator::GlobalAtomicRmwAnd {
                ordering: it.0,
                global_index: it.1,
            },
            0x54 => AtomicOperator::GlobalAtomicRmwOr {
                ordering: it.0,
                global_index: it.1,
            },
            0x55 => AtomicOperator::GlobalAtomicRmwXor {
                ordering: it.0,
                global_index: it.1,
            },
            0x56 => AtomicOperator::GlobalAtomicRmwXchg {
                ordering: it.0,
                global_index: it.1,
            },
            0x57 => AtomicOperator::GlobalAtomicRmwCmpxchg {
                ordering: it.0,
                global_index: it.1,
            },
            0x58 => AtomicOperator::TableAtomicGet {
                ordering: it.0,
                table_index: it.1,
            },
            0x59 => AtomicOperator::TableAtomicSet {
                ordering: it.0,
                table_index: it.1,
            },
            0x5a => AtomicOperator::TableAtomicRmwXchg {
                ordering: it.0,
                table_index: it.1,
            },
            0x5b => AtomicOperator::TableAtomicRmwCmpxchg {
                ordering: it.0,
                table_index: it.1,
            },
            0x67 => AtomicOperator::ArrayAtomicGet {
                ordering: it.0,
                array_type_index: it.1,
            },
            0x68 => AtomicOperator::ArrayAtomicGetS {
                ordering: it.0,
                array_type_index: it.1,
            },
            0x69 => AtomicOperator::ArrayAtomicGetU {
                ordering: it.0,
                array_type_index: it.1,
            },
            0x6a => AtomicOperator::ArrayAtomicSet {
                ordering: it.0,
                array_type_index: it.1,
            },
            0x6b => AtomicOperator::ArrayAtomicRmwAdd {
                ordering: it.0,
                array_type_index: it.1,
            },
            0x6c => AtomicOperator::ArrayAtomicRmwSub {
                ordering: it.0,
                array_type_index: it.1,
            },
            0x6d => AtomicOperator::ArrayAtomicRmwAnd {
                ordering: it.0,
                array_type_index: it.1,
            },
            0x6e => AtomicOperator::ArrayAtomicRmwOr {
                ordering: it.0,
                array_type_index: it.1,
            },
            0x6f => AtomicOperator::ArrayAtomicRmwXor {
                ordering: it.0,
                array_type_index: it.1,
            },
            0x70 => AtomicOperator::ArrayAtomicRmwXchg {
                ordering: it.0,
                array_type_index: it.1,
            },
            _ => AtomicOperator::ArrayAtomicRmwCmpxchg {
                ordering: it.0,
                array_type_index: it.1,
            },
        }
    }
}

impl<V: VisitAtomic> At<V, Atomic, (Ordering, u32)> for Own {
    #[inline(always)]
    fn at(v: &mut V, code: u32, it: (Ordering, u32)) -> V::Output {
        match code {
            0x4f => v.visit_global_atomic_get(it.0, it.1),
            0x50 => v.visit_global_atomic_set(it.0, it.1),
            0x51 => v.visit_global_atomic_rmw_add(it.0, it.1),
            0x52 => v.visit_global_atomic_rmw_sub(it.0, it.1),
            0x53 => v.visit_global_atomic_rmw_and(it.0, it.1),
            0x54 => v.visit_global_atomic_rmw_or(it.0, it.1),
            0x55 => v.visit_global_atomic_rmw_xor(it.0, it.1),
            0x56 => v.visit_global_atomic_rmw_xchg(it.0, it.1),
            0x57 => v.visit_global_atomic_rmw_cmpxchg(it.0, it.1),
            0x58 => v.visit_table_atomic_get(it.0, it.1),
            0x59 => v.visit_table_atomic_set(it.0, it.1),
            0x5a => v.visit_table_atomic_rmw_xchg(it.0, it.1),
            0x5b => v.visit_table_atomic_rmw_cmpxchg(it.0, it.1),
            0x67 => v.visit_array_atomic_get(it.0, it.1),
            0x68 => v.visit_array_atomic_get_s(it.0, it.1),
            0x69 => v.visit_array_atomic_get_u(it.0, it.1),
            0x6a => v.visit_array_atomic_set(it.0, it.1),
            0x6b => v.visit_array_atomic_rmw_add(it.0, it.1),
            0x6c => v.visit_array_atomic_rmw_sub(it.0, it.1),
            0x6d => v.visit_array_atomic_rmw_and(it.0, it.1),
            0x6e => v.visit_array_atomic_rmw_or(it.0, it.1),
            0x6f => v.visit_array_atomic_rmw_xor(it.0, it.1),
            0x70 => v.visit_array_atomic_rmw_xchg(it.0, it.1),
            _ => v.visit_array_atomic_rmw_cmpxchg(it.0, it.1),
        }
    }
}

impl Makes<Atomic, (Ordering, (u32, u32))> for Maker {
    #[inline(always)]
    fn make(code: u32, it: (Ordering, (u32, u32))) -> AtomicOperator {
        match code {
            0x5c => AtomicOperator::StructAtomicGet {
                ordering: it.0,
                struct_type_index: it.1.0,
                field_index: it.1.1,
            },
            0x5d => AtomicOperator::StructAtomicGetS {
                ordering: it.0,
                struct_type_index: it.1.0,
                field_index: it.1.1,
            },
            0x5e => AtomicOperator::StructAtomicGetU {
                ordering: it.0,
                struct_type_index: it.1.0,
                field_index: it.1.1,
            },
            0x5f => AtomicOperator::StructAtomicSet {
                ordering: it.0,
                struct_type_index: it.1.0,
                field_index: it.1.1,
            },
            0x60 => AtomicOperator::StructAtomicRmwAdd {
                ordering: it.0,
                struct_type_index: it.1.0,
                field_index: it.1.1,
            },
            0x61 => AtomicOperator::StructAtomicRmwSub {
                ordering: it.0,
                struct_type_index: it.1.0,
                field_index: it.1.1,
            },
            0x62 => AtomicOperator::StructAtomicRmwAnd {
                ordering: it.0,
                struct_type_index: it.1.0,
                field_index: it.1.1,
            },
            0x63 => AtomicOperator::StructAtomicRmwOr {
                ordering: it.0,
                struct_type_index: it.1.0,
                field_index: it.1.1,
            },
            0x64 => AtomicOperator::StructAtomicRmwXor {
                ordering: it.0,
                struct_type_index: it.1.0,
                field_index: it.1.1,
            },
            0x65 => AtomicOperator::StructAtomicRmwXchg {
                ordering: it.0,
                struct_type_index: it.1.0,
                field_index: it.1.1,
            },
            _ => AtomicOperator::StructAtomicRmwCmpxchg {
                ordering: it.0,
                struct_type_index: it.1.0,
                field_index: it.1.1,
            },
        }
    }
}

impl<V: VisitAtomic> At<V, Atomic, (Ordering, (u32, u32))> for Own {
    #[inline(always)]
    fn at(v: &mut V, code: u32, it: (Ordering, (u32, u32))) -> V::Output {
        match code {
            0x5c => v.visit_struct_atomic_get(it.0, it.1.0, it.1.1),
            0x5d => v.visit_struct_atomic_get_s(it.0, it.1.0, it.1.1),
            0x5e => v.visit_struct_atomic_get_u(it.0, it.1.0, it.1.1),
            0x5f => v.visit_struct_atomic_set(it.0, it.1.0, it.1.1),
            0x60 => v.visit_struct_atomic_rmw_add(it.0, it.1.0, it.1.1),
            0x61 => v.visit_struct_atomic_rmw_sub(it.0, it.1.0, it.1.1),
            0x62 => v.visit_struct_atomic_rmw_and(it.0, it.1.0, it.1.1),
            0x63 => v.visit_struct_atomic_rmw_or(it.0, it.1.0, it.1.1),
            0x64 => v.visit_struct_atomic_rmw_xor(it.0, it.1.0, it.1.1),
            0x65 => v.visit_struct_atomic_rmw_xchg(it.0, it.1.0, it.1.1),
            _ => v.visit_struct_atomic_rmw_cmpxchg(it.0, it.1.0, it.1.1),
        }
    }
}

impl Makes<Atomic, ()> for Maker {
    #[inline(always)]
    fn make(code: u32, _it: ()) -> AtomicOperator {
        match code {
            0x04 => AtomicOperator::Pause,
            _ => AtomicOperator::RefI31Shared,
        }
    }
}

impl<V: VisitAtomic> At<V, Atomic, ()> for Own {
    #[inline(always)]
    fn at(v: &mut V, code: u32, _it: ()) -> V::Output {
        match code {
            0x04 => v.visit_pause(),
            _ => v.visit_ref_i31_shared(),
        }
    }
}
