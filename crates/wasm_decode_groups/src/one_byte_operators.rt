//! Decoding of operators with a one-byte opcode. Written by tools/lists.py from tools/operators.tsv.
ghost use Rattle.std.specs.Prelude.{◌≡◌, ◌<◌, [], ◌∷◌, None};
ghost use Rattle.wasm_grammar.specs.declared.frame_kind.FrameKind.{FrameKind};
ghost use Rattle.wasm_imm.specs.Immediate.{is_memory_argument};
ghost use Rattle.wasm_decode_opcodes.specs.Decoding.{DecodesAt, IsAfterCode};
ghost use Rattle.wasm_decode_opcodes.specs.Entries.{align_at};
ghost use Rattle.wasm_decode_groups.specs.Arms.{HasKindsAt};
ghost use Rattle.wasm_decode_groups.specs.OneByte.{IsOneByteCode};

use crate::arm::{At, Maker, Makes, arm};
use crate::one_byte_arms::{AtList, OneByte, guarded_arm, list_arm};
use crate::out_of_line::other_one_byte_by;
use std::alloc::Global;
use wasm_below::{BinaryReader, HeapType, Result};
use wasm_decode_opcodes::{Guard, MemoryIndex, Only, PlainMemArg, TableIndex, unknown_opcode};
use wasm_grammar::FrameKind;
use wasm_imm::{BlockType, Ieee32, Ieee64, MemArgKind, ResumeTable, Select, TryTable};
use wasm_instr::Operator;
use wasm_visit_groups::{ByAny, Own, VisitOneByte, Visitor};

/// Reads the immediates of an operator with a one-byte opcode and visits it. Common operators from
/// 0x20 on are inlined.
#[inline(always)]
pub fn one_byte<V: VisitOneByte>(
    alloc: Global,
    v: &mut V,
    reader: &mut BinaryReader<'_>,
    start: usize,
    frame: FrameKind,
    code: u8,
) -> Result<V::Output>
    requires after { IsAfterCode start None code reader.old }
    requires apart { IsOneByteCode code }
    ensures { DecodesAt V.visits frame start result reader.old reader.new v.old v.new }
{
    one_byte_by::<V, Own>(alloc, v, reader, start, frame, code)
}

/// Reads the immediates of an operator with a one-byte opcode and passes them to `R`. Common
/// operators from 0x20 on are inlined. The most frequent, 0x20 to 0x26, are compared first.
#[inline(always)]
pub fn one_byte_by<V: Visitor, R: AtOneByte<V>>(
    alloc: Global,
    v: &mut V,
    reader: &mut BinaryReader<'_>,
    start: usize,
    frame: FrameKind,
    code: u8,
) -> Result<V::Output>
    requires after { IsAfterCode start None code reader.old }
    requires apart { IsOneByteCode code }
    ensures { DecodesAt V.visits frame start result reader.old reader.new v.old v.new }
{
    match code {
        0x20..=0x26 => arm::<V, OneByte, u32, R>(v, reader, start, code as u32, 0),
        _ => match code {
            0x28..=0x3e => arm::<V, OneByte, PlainMemArg, R>(
                v,
                reader,
                start,
                code as u32,
                align_of_memory(code as u32),
            ),
            0x41 => arm::<V, OneByte, i32, R>(v, reader, start, 0x41, 0),
            0x42 => arm::<V, OneByte, i64, R>(v, reader, start, 0x42, 0),
            _ => other_one_byte_by::<V, R>(alloc, v, reader, start, frame, code),
        },
    }
}

/// Reads the immediates of an operator with an opcode below 0x20 and visits it. Common operators
/// are inlined.
#[inline(always)]
pub fn below_0x20<V: VisitOneByte>(
    alloc: Global,
    v: &mut V,
    reader: &mut BinaryReader<'_>,
    start: usize,
    frame: FrameKind,
    code: u8,
) -> Result<V::Output>
    requires after { IsAfterCode start None code reader.old }
    requires apart { IsOneByteCode code }
    requires low { code < 0x20 }
    ensures { DecodesAt V.visits frame start result reader.old reader.new v.old v.new }
{
    below_0x20_by::<V, Own>(alloc, v, reader, start, frame, code)
}

/// Reads the immediates of an operator with an opcode below 0x20 and passes them to `R`. Common
/// operators are inlined.
#[inline(always)]
pub fn below_0x20_by<V: Visitor, R: AtOneByte<V>>(
    alloc: Global,
    v: &mut V,
    reader: &mut BinaryReader<'_>,
    start: usize,
    frame: FrameKind,
    code: u8,
) -> Result<V::Output>
    requires after { IsAfterCode start None code reader.old }
    requires apart { IsOneByteCode code }
    requires low { code < 0x20 }
    ensures { DecodesAt V.visits frame start result reader.old reader.new v.old v.new }
{
    match code {
        0x02..=0x04 => arm::<V, OneByte, BlockType, R>(v, reader, start, code as u32, 0),
        0x00 => arm::<V, OneByte, Only<0x00, ()>, R>(v, reader, start, 0x00, 0),
        0x0b => arm::<V, OneByte, Only<0x0b, ()>, R>(v, reader, start, 0x0b, 0),
        0x0c => arm::<V, OneByte, Only<0x0c, u32>, R>(v, reader, start, 0x0c, 0),
        0x0d => arm::<V, OneByte, Only<0x0d, u32>, R>(v, reader, start, 0x0d, 0),
        0x0f => arm::<V, OneByte, Only<0x0f, ()>, R>(v, reader, start, 0x0f, 0),
        0x10 => arm::<V, OneByte, Only<0x10, u32>, R>(v, reader, start, 0x10, 0),
        0x1a => arm::<V, OneByte, Only<0x1a, ()>, R>(v, reader, start, 0x1a, 0),
        0x1b => arm::<V, OneByte, Only<0x1b, ()>, R>(v, reader, start, 0x1b, 0),
        _ => other_one_byte_by::<V, R>(alloc, v, reader, start, frame, code),
    }
}

/// Reads the immediates of an operator with a one-byte opcode and passes them to `R`. Every
/// operator has an arm here.
#[inline(always)]
pub fn any_one_byte_by<V: Visitor, R: AtOneByte<V>>(
    alloc: Global,
    v: &mut V,
    reader: &mut BinaryReader<'_>,
    start: usize,
    frame: FrameKind,
    code: u8,
) -> Result<V::Output>
    requires after { IsAfterCode start None code reader.old }
    requires apart { IsOneByteCode code }
    ensures { DecodesAt V.visits frame start result reader.old reader.new v.old v.new }
{
    match code {
        0x00..=0x01 => arm::<V, OneByte, (), R>(v, reader, start, code as u32, 0),
        0x0a..=0x0b => arm::<V, OneByte, (), R>(v, reader, start, code as u32, 0),
        0x0f => arm::<V, OneByte, (), R>(v, reader, start, 0x0f, 0),
        0x1a..=0x1b => arm::<V, OneByte, (), R>(v, reader, start, code as u32, 0),
        0xd1 => arm::<V, OneByte, (), R>(v, reader, start, 0xd1, 0),
        0xd3..=0xd4 => arm::<V, OneByte, (), R>(v, reader, start, code as u32, 0),
        0x02..=0x04 => arm::<V, OneByte, BlockType, R>(v, reader, start, code as u32, 0),
        0x08..=0x09 => arm::<V, OneByte, u32, R>(v, reader, start, code as u32, 0),
        0x0c..=0x0d => arm::<V, OneByte, u32, R>(v, reader, start, code as u32, 0),
        0x10 => arm::<V, OneByte, u32, R>(v, reader, start, 0x10, 0),
        0x12 => arm::<V, OneByte, u32, R>(v, reader, start, 0x12, 0),
        0x14..=0x15 => arm::<V, OneByte, u32, R>(v, reader, start, code as u32, 0),
        0x20..=0x26 => arm::<V, OneByte, u32, R>(v, reader, start, code as u32, 0),
        0xd2 => arm::<V, OneByte, u32, R>(v, reader, start, 0xd2, 0),
        0xd5..=0xd6 => arm::<V, OneByte, u32, R>(v, reader, start, code as u32, 0),
        0xe0 => arm::<V, OneByte, u32, R>(v, reader, start, 0xe0, 0),
        0xe2 => arm::<V, OneByte, u32, R>(v, reader, start, 0xe2, 0),
        0x11 => arm::<V, OneByte, (u32, TableIndex), R>(v, reader, start, 0x11, 0),
        0x28..=0x3e => arm::<V, OneByte, PlainMemArg, R>(
            v,
            reader,
            start,
            code as u32,
            align_of_memory(code as u32),
        ),
        0x3f..=0x40 => arm::<V, OneByte, MemoryIndex, R>(v, reader, start, code as u32, 0),
        0x41 => arm::<V, OneByte, i32, R>(v, reader, start, 0x41, 0),
        0x42 => arm::<V, OneByte, i64, R>(v, reader, start, 0x42, 0),
        0x43 => arm::<V, OneByte, Ieee32, R>(v, reader, start, 0x43, 0),
        0x44 => arm::<V, OneByte, Ieee64, R>(v, reader, start, 0x44, 0),
        0xd0 => arm::<V, OneByte, HeapType, R>(v, reader, start, 0xd0, 0),
        0x13 => arm::<V, OneByte, (u32, u32), R>(v, reader, start, 0x13, 0),
        0xe1 => arm::<V, OneByte, (u32, u32), R>(v, reader, start, 0xe1, 0),
        0xe6 => arm::<V, OneByte, (u32, u32), R>(v, reader, start, 0xe6, 0),
        0x05 => guarded_arm::<V, (), R>(v, reader, start, frame, 0x05, Guard::Else),
        0x06 => guarded_arm::<V, BlockType, R>(v, reader, start, frame, 0x06, Guard::Try),
        0x07 => guarded_arm::<V, u32, R>(v, reader, start, frame, 0x07, Guard::Catch),
        0x18 => guarded_arm::<V, u32, R>(v, reader, start, frame, 0x18, Guard::Delegate),
        0x19 => guarded_arm::<V, (), R>(v, reader, start, frame, 0x19, Guard::CatchAll),
        0x1c => list_arm::<V, Select, R>(alloc, v, reader, start, 0x1c),
        0x1f => list_arm::<V, TryTable, R>(alloc, v, reader, start, 0x1f),
        0xe3 => list_arm::<V, (u32, ResumeTable), R>(alloc, v, reader, start, 0xe3),
        0xe4 => list_arm::<V, (u32, (u32, ResumeTable)), R>(alloc, v, reader, start, 0xe4),
        0xe5 => list_arm::<V, (u32, ResumeTable), R>(alloc, v, reader, start, 0xe5),
        _ => Err(unknown_opcode(reader, start, code)),
    }
}

/// A route for the operators with a one-byte opcode.
pub trait AtOneByte<V: Visitor>: At<V, OneByte, ()>
    + At<V, OneByte, BlockType>
    + At<V, OneByte, u32>
    + At<V, OneByte, (u32, TableIndex)>
    + At<V, OneByte, PlainMemArg>
    + At<V, OneByte, MemoryIndex>
    + At<V, OneByte, i32>
    + At<V, OneByte, i64>
    + At<V, OneByte, Ieee32>
    + At<V, OneByte, Ieee64>
    + At<V, OneByte, HeapType>
    + At<V, OneByte, (u32, u32)>
    + At<V, OneByte, Only<0x00, ()>>
    + At<V, OneByte, Only<0x0b, ()>>
    + At<V, OneByte, Only<0x0c, u32>>
    + At<V, OneByte, Only<0x0d, u32>>
    + At<V, OneByte, Only<0x0f, ()>>
    + At<V, OneByte, Only<0x10, u32>>
    + At<V, OneByte, Only<0x1a, ()>>
    + At<V, OneByte, Only<0x1b, ()>>
    + AtList<V, Select>
    + AtList<V, TryTable>
    + AtList<V, (u32, ResumeTable)>
    + AtList<V, (u32, (u32, ResumeTable))> {}

impl<V: VisitOneByte> AtOneByte<V> for Own {}

impl<V: Visitor> AtOneByte<V> for ByAny {}

impl Makes<OneByte, ()> for Maker {
    #[inline(always)]
    fn make(code: u32, _it: ()) -> Operator<'static> {
        match code {
            0x00 => Operator::Unreachable,
            0x01 => Operator::Nop,
            0x05 => Operator::Else,
            0x0a => Operator::ThrowRef,
            0x0b => Operator::End,
            0x0f => Operator::Return,
            0x19 => Operator::CatchAll,
            0x1a => Operator::Drop,
            0x1b => Operator::Select,
            0xd1 => Operator::RefIsNull,
            0xd3 => Operator::RefEq,
            _ => Operator::RefAsNonNull,
        }
    }
}

impl<V: VisitOneByte> At<V, OneByte, ()> for Own {
    #[inline(always)]
    fn at(v: &mut V, code: u32, _it: ()) -> V::Output {
        match code {
            0x00 => v.visit_unreachable(),
            0x01 => v.visit_nop(),
            0x05 => v.visit_else(),
            0x0a => v.visit_throw_ref(),
            0x0b => v.visit_end(),
            0x0f => v.visit_return(),
            0x19 => v.visit_catch_all(),
            0x1a => v.visit_drop(),
            0x1b => v.visit_select(),
            0xd1 => v.visit_ref_is_null(),
            0xd3 => v.visit_ref_eq(),
            _ => v.visit_ref_as_non_null(),
        }
    }
}

impl Makes<OneByte, BlockType> for Maker {
    #[inline(always)]
    fn make(code: u32, it: BlockType) -> Operator<'static> {
        match code {
            0x02 => Operator::Block { blockty: it },
            0x03 => Operator::Loop { blockty: it },
            0x04 => Operator::If { blockty: it },
            _ => Operator::Try { blockty: it },
        }
    }
}

impl<V: VisitOneByte> At<V, OneByte, BlockType> for Own {
    #[inline(always)]
    fn at(v: &mut V, code: u32, it: BlockType) -> V::Output {
        match code {
            0x02 => v.visit_block(it),
            0x03 => v.visit_loop(it),
            0x04 => v.visit_if(it),
            _ => v.visit_try(it),
        }
    }
}

impl Makes<OneByte, u32> for Maker {
    #[inline(always)]
    fn make(code: u32, it: u32) -> Operator<'static> {
        match code {
            0x07 => Operator::Catch { tag_index: it },
            0x08 => Operator::Throw { tag_index: it },
            0x09 => Operator::Rethrow { relative_depth: it },
            0x0c => Operator::Br { relative_depth: it },
            0x0d => Operator::BrIf { relative_depth: it },
            0x10 => Operator::Call { function_index: it },
            0x12 => Operator::ReturnCall { function_index: it },
            0x14 => Operator::CallRef { type_index: it },
            0x15 => Operator::ReturnCallRef { type_index: it },
            0x18 => Operator::Delegate { relative_depth: it },
            0x20 => Operator::LocalGet { local_index: it },
            0x21 => Operator::LocalSet { local_index: it },
            0x22 => Operator::LocalTee { local_index: it },
            0x23 => Operator::GlobalGet { global_index: it },
            0x24 => Operator::GlobalSet { global_index: it },
            0x25 => Operator::TableGet { table: it },
            0x26 => Operator::TableSet { table: it },
            0xd2 => Operator::RefFunc { function_index: it },
            0xd5 => Operator::BrOnNull { relative_depth: it },
            0xd6 => Operator::BrOnNonNull { relative_depth: it },
            0xe0 => Operator::ContNew {
                cont_type_index: it,
            },
            _ => Operator::Suspend { tag_index: it },
        }
    }
}

impl<V: VisitOneByte> At<V, OneByte, u32> for Own {
    #[inline(always)]
    fn at(v: &mut V, code: u32, it: u32) -> V::Output {
        match code {
            0x07 => v.visit_catch(it),
            0x08 => v.visit_throw(it),
            0x09 => v.visit_rethrow(it),
            0x0c => v.visit_br(it),
            0x0d => v.visit_br_if(it),
            0x10 => v.visit_call(it),
            0x12 => v.visit_return_call(it),
            0x14 => v.visit_call_ref(it),
            0x15 => v.visit_return_call_ref(it),
            0x18 => v.visit_delegate(it),
            0x20 => v.visit_local_get(it),
            0x21 => v.visit_local_set(it),
            0x22 => v.visit_local_tee(it),
            0x23 => v.visit_global_get(it),
            0x24 => v.visit_global_set(it),
            0x25 => v.visit_table_get(it),
            0x26 => v.visit_table_set(it),
            0xd2 => v.visit_ref_func(it),
            0xd5 => v.visit_br_on_null(it),
            0xd6 => v.visit_br_on_non_null(it),
            0xe0 => v.visit_cont_new(it),
            _ => v.visit_suspend(it),
        }
    }
}

impl Makes<OneByte, (u32, TableIndex)> for Maker {
    #[inline(always)]
    fn make(_code: u32, it: (u32, TableIndex)) -> Operator<'static> {
        Operator::CallIndirect {
            type_index: it.0,
            table_index: it.1.0,
        }
    }
}

impl<V: VisitOneByte> At<V, OneByte, (u32, TableIndex)> for Own {
    #[inline(always)]
    fn at(v: &mut V, _code: u32, it: (u32, TableIndex)) -> V::Output {
        v.visit_call_indirect(it.0, it.1.0)
    }
}

/// Returns the natural alignment as an exponent.
#[inline(always)]
fn align_of_memory(code: u32) -> u8
    requires { HasKindsAt None code (λ bound. is_memory_argument MemArgKind.Plain bound ∷ []) }
    ensures { result ≡ align_at None code }
{
    match code {
        0x28 => 2,
        0x29 => 3,
        0x2a => 2,
        0x2b => 3,
        0x2c => 0,
        0x2d => 0,
        0x2e => 1,
        0x2f => 1,
        0x30 => 0,
        0x31 => 0,
        0x32 => 1,
        0x33 => 1,
        0x34 => 2,
        0x35 => 2,
        0x36 => 2,
        0x37 => 3,
        0x38 => 2,
        0x39 => 3,
        0x3a => 0,
        0x3b => 1,
        0x3c => 0,
        0x3e => 2,
        _ => 1,
    }
}

impl Makes<OneByte, PlainMemArg> for Maker {
    #[inline(always)]
    fn make(code: u32, it: PlainMemArg) -> Operator<'static> {
        match code {
            0x28 => Operator::I32Load { memarg: it.0 },
            0x29 => Operator::I64Load { memarg: it.0 },
            0x2a => Operator::F32Load { memarg: it.0 },
            0x2b => Operator::F64Load { memarg: it.0 },
            0x2c => Operator::I32Load8S { memarg: it.0 },
            0x2d => Operator::I32Load8U { memarg: it.0 },
            0x2e => Operator::I32Load16S { memarg: it.0 },
            0x2f => Operator::I32Load16U { memarg: it.0 },
            0x30 => Operator::I64Load8S { memarg: it.0 },
            0x31 => Operator::I64Load8U { memarg: it.0 },
            0x32 => Operator::I64Load16S { memarg: it.0 },
            0x33 => Operator::I64Load16U { memarg: it.0 },
            0x34 => Operator::I64Load32S { memarg: it.0 },
            0x35 => Operator::I64Load32U { memarg: it.0 },
            0x36 => Operator::I32Store { memarg: it.0 },
            0x37 => Operator::I64Store { memarg: it.0 },
            0x38 => Operator::F32Store { memarg: it.0 },
            0x39 => Operator::F64Store { memarg: it.0 },
            0x3a => Operator::I32Store8 { memarg: it.0 },
            0x3b => Operator::I32Store16 { memarg: it.0 },
            0x3c => Operator::I64Store8 { memarg: it.0 },
            0x3d => Operator::I64Store16 { memarg: it.0 },
            _ => Operator::I64Store32 { memarg: it.0 },
        }
    }
}

impl<V: VisitOneByte> At<V, OneByte, PlainMemArg> for Own {
    #[inline(always)]
    fn at(v: &mut V, code: u32, it: PlainMemArg) -> V::Output {
        match code {
            0x28 => v.visit_i32_load(it.0),
            0x29 => v.visit_i64_load(it.0),
            0x2a => v.visit_f32_load(it.0),
            0x2b => v.visit_f64_load(it.0),
            0x2c => v.visit_i32_load8_s(it.0),
            0x2d => v.visit_i32_load8_u(it.0),
            0x2e => v.visit_i32_load16_s(it.0),
            0x2f => v.visit_i32_load16_u(it.0),
            0x30 => v.visit_i64_load8_s(it.0),
            0x31 => v.visit_i64_load8_u(it.0),
            0x32 => v.visit_i64_load16_s(it.0),
            0x33 => v.visit_i64_load16_u(it.0),
            0x34 => v.visit_i64_load32_s(it.0),
            0x35 => v.visit_i64_load32_u(it.0),
            0x36 => v.visit_i32_store(it.0),
            0x37 => v.visit_i64_store(it.0),
            0x38 => v.visit_f32_store(it.0),
            0x39 => v.visit_f64_store(it.0),
            0x3a => v.visit_i32_store8(it.0),
            0x3b => v.visit_i32_store16(it.0),
            0x3c => v.visit_i64_store8(it.0),
            0x3d => v.visit_i64_store16(it.0),
            _ => v.visit_i64_store32(it.0),
        }
    }
}

impl Makes<OneByte, MemoryIndex> for Maker {
    #[inline(always)]
    fn make(code: u32, it: MemoryIndex) -> Operator<'static> {
        match code {
            0x3f => Operator::MemorySize { mem: it.0 },
            _ => Operator::MemoryGrow { mem: it.0 },
        }
    }
}

impl<V: VisitOneByte> At<V, OneByte, MemoryIndex> for Own {
    #[inline(always)]
    fn at(v: &mut V, code: u32, it: MemoryIndex) -> V::Output {
        match code {
            0x3f => v.visit_memory_size(it.0),
            _ => v.visit_memory_grow(it.0),
        }
    }
}

impl Makes<OneByte, i32> for Maker {
    #[inline(always)]
    fn make(_code: u32, it: i32) -> Operator<'static> {
        Operator::I32Const { value: it }
    }
}

impl<V: VisitOneByte> At<V, OneByte, i32> for Own {
    #[inline(always)]
    fn at(v: &mut V, _code: u32, it: i32) -> V::Output {
        v.visit_i32_const(it)
    }
}

impl Makes<OneByte, i64> for Maker {
    #[inline(always)]
    fn make(_code: u32, it: i64) -> Operator<'static> {
        Operator::I64Const { value: it }
    }
}

impl<V: VisitOneByte> At<V, OneByte, i64> for Own {
    #[inline(always)]
    fn at(v: &mut V, _code: u32, it: i64) -> V::Output {
        v.visit_i64_const(it)
    }
}

impl Makes<OneByte, Ieee32> for Maker {
    #[inline(always)]
    fn make(_code: u32, it: Ieee32) -> Operator<'static> {
        Operator::F32Const { value: it }
    }
}

impl<V: VisitOneByte> At<V, OneByte, Ieee32> for Own {
    #[inline(always)]
    fn at(v: &mut V, _code: u32, it: Ieee32) -> V::Output {
        v.visit_f32_const(it)
    }
}

impl Makes<OneByte, Ieee64> for Maker {
    #[inline(always)]
    fn make(_code: u32, it: Ieee64) -> Operator<'static> {
        Operator::F64Const { value: it }
    }
}

impl<V: VisitOneByte> At<V, OneByte, Ieee64> for Own {
    #[inline(always)]
    fn at(v: &mut V, _code: u32, it: Ieee64) -> V::Output {
        v.visit_f64_const(it)
    }
}

impl Makes<OneByte, HeapType> for Maker {
    #[inline(always)]
    fn make(_code: u32, it: HeapType) -> Operator<'static> {
        Operator::RefNull { hty: it }
    }
}

impl<V: VisitOneByte> At<V, OneByte, HeapType> for Own {
    #[inline(always)]
    fn at(v: &mut V, _code: u32, it: HeapType) -> V::Output {
        v.visit_ref_null(it)
    }
}

impl Makes<OneByte, (u32, u32)> for Maker {
    #[inline(always)]
    fn make(code: u32, it: (u32, u32)) -> Operator<'static> {
        match code {
            0x13 => Operator::ReturnCallIndirect {
                type_index: it.0,
                table_index: it.1,
            },
            0xe1 => Operator::ContBind {
                argument_index: it.0,
                result_index: it.1,
            },
            _ => Operator::Switch {
                cont_type_index: it.0,
                tag_index: it.1,
            },
        }
    }
}

impl<V: VisitOneByte> At<V, OneByte, (u32, u32)> for Own {
    #[inline(always)]
    fn at(v: &mut V, code: u32, it: (u32, u32)) -> V::Output {
        match code {
            0x13 => v.visit_return_call_indirect(it.0, it.1),
            0xe1 => v.visit_cont_bind(it.0, it.1),
            _ => v.visit_switch(it.0, it.1),
        }
    }
}

impl<V: VisitOneByte> At<V, OneByte, Only<0x00, ()>> for Own {
    #[inline(always)]
    fn at(v: &mut V, _code: u32, _it: Only<0x00, ()>) -> V::Output {
        v.visit_unreachable()
    }
}

impl<V: VisitOneByte> At<V, OneByte, Only<0x0b, ()>> for Own {
    #[inline(always)]
    fn at(v: &mut V, _code: u32, _it: Only<0x0b, ()>) -> V::Output {
        v.visit_end()
    }
}

impl<V: VisitOneByte> At<V, OneByte, Only<0x0c, u32>> for Own {
    #[inline(always)]
    fn at(v: &mut V, _code: u32, it: Only<0x0c, u32>) -> V::Output {
        v.visit_br(it.0)
    }
}

impl<V: VisitOneByte> At<V, OneByte, Only<0x0d, u32>> for Own {
    #[inline(always)]
    fn at(v: &mut V, _code: u32, it: Only<0x0d, u32>) -> V::Output {
        v.visit_br_if(it.0)
    }
}

impl<V: VisitOneByte> At<V, OneByte, Only<0x0f, ()>> for Own {
    #[inline(always)]
    fn at(v: &mut V, _code: u32, _it: Only<0x0f, ()>) -> V::Output {
        v.visit_return()
    }
}

impl<V: VisitOneByte> At<V, OneByte, Only<0x10, u32>> for Own {
    #[inline(always)]
    fn at(v: &mut V, _code: u32, it: Only<0x10, u32>) -> V::Output {
        v.visit_call(it.0)
    }
}

impl<V: VisitOneByte> At<V, OneByte, Only<0x1a, ()>> for Own {
    #[inline(always)]
    fn at(v: &mut V, _code: u32, _it: Only<0x1a, ()>) -> V::Output {
        v.visit_drop()
    }
}

impl<V: VisitOneByte> At<V, OneByte, Only<0x1b, ()>> for Own {
    #[inline(always)]
    fn at(v: &mut V, _code: u32, _it: Only<0x1b, ()>) -> V::Output {
        v.visit_select()
    }
}
