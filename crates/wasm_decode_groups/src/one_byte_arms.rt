//! The arms of operators whose feature and frame are checked, or that may own a list.
ghost use Rattle.std.specs.Prelude.{◌≡◌, ◌≤◌, ◌<◌, Some, None};
ghost use Rattle.wasm_grammar.specs.declared.frame_kind.FrameKind.{FrameKind};
ghost use Rattle.wasm_instr.specs.declared.operator.Operator.{Operator};
ghost use Rattle.wasm_decode_opcodes.specs.Decoding.{DecodesAt, IsAfterCode, VisitsRow};
ghost use Rattle.wasm_decode_opcodes.specs.Entries.{entry_at};
ghost use Rattle.wasm_decode_opcodes.specs.Entry.{entry_kinds, free, guarded};
ghost use Rattle.wasm_decode_opcodes.specs.Refused.{LeadsList};
ghost use Rattle.wasm_decode_groups.specs.Arms.{IsRow};

use crate::arm::{At, Group, Maker};
use std::alloc::Global;
use wasm_below::{BinaryReader, Result};
use wasm_decode_opcodes::{Guard, Immediates, Lists};
use wasm_grammar::FrameKind;
use wasm_imm::{ResumeTable, Select, TryTable};
use wasm_instr::Operator;
use wasm_visit_groups::{ByAny, Own, VisitOneByte, Visitor};

/// The operators without a prefix byte, except the numeric ones.
pub struct OneByte;

impl Group for OneByte {
    type Operator = Operator<'static>;

    ghost prefix = { None };

    ghost codes = { λ code. 0x45 ≤ code → code ≤ 0xc4 → ⊥ };

    ghost operator = { λ op. op };

    #[inline(always)]
    fn embed(op: Operator<'static>) -> Operator<'static> {
        op
    }
}

/// As `Makes`, for immediates that may own a list.
pub trait MakesList<I: Lists> {
    fn make_list(code: u32, it: I) -> Operator<'static>
        requires { entry_kinds (entry_at None code) ≡ Some I.kinds }
        ensures { IsRow None code (I.listed it) result };
}

/// As `At`, for immediates that may own a list.
pub trait AtList<V: Visitor, I: Lists> {
    fn at_list(v: &mut V, code: u32, it: I) -> V::Output
        requires { entry_kinds (entry_at None code) ≡ Some I.kinds }
        ensures { VisitsRow V.visits None code (I.listed it) v.old result v.new };
}

impl<V: Visitor, I: Lists> AtList<V, I> for ByAny
where
    Maker: MakesList<I>,
{
    #[inline(always)]
    fn at_list(v: &mut V, code: u32, it: I) -> V::Output {
        v.visit_any(<Maker as MakesList<I>>::make_list(code, it))
    }
}

/// As `arm`, for immediates that may own a list.
#[inline(always)]
pub fn list_arm<V: Visitor, I: Lists, R: AtList<V, I>>(
    alloc: Global,
    v: &mut V,
    reader: &mut BinaryReader<'_>,
    start: usize,
    code: u32,
) -> Result<V::Output>
    requires after { IsAfterCode start None code reader.old }
    requires kinds { entry_at None code ≡ free I.kinds }
    requires leads { LeadsList code }
    ensures { (frame : FrameKind) → DecodesAt V.visits frame start result reader.old reader.new v.old v.new }
{
    match I::read_list(alloc, reader, start) {
        Ok(it) => Ok(R::at_list(v, code, it)),
        Err(e) => Err(e),
    }
}

/// As `arm`, but checks feature and frame first.
#[inline(always)]
pub fn guarded_arm<V: Visitor, I: Immediates, R: At<V, OneByte, I>>(
    v: &mut V,
    reader: &mut BinaryReader<'_>,
    start: usize,
    frame: FrameKind,
    code: u32,
    guard: Guard,
) -> Result<V::Output>
    requires after { IsAfterCode start None code reader.old }
    requires low { code < 0x45 }
    requires kinds { entry_at None code ≡ guarded guard (I.kinds 0) }
    requires known { I.known code }
    ensures { DecodesAt V.visits frame start result reader.old reader.new v.old v.new }
{
    match guard.check(reader, start, frame) {
        Ok(()) => match I::read(reader, start, 0) {
            Ok(it) => Ok(R::at(v, code, it)),
            Err(e) => {
                reader.rewind(start);
                Err(e)
            }
        },
        Err(e) => Err(e),
    }
}

impl MakesList<Select> for Maker {
    #[inline(always)]
    fn make_list(_code: u32, it: Select) -> Operator<'static> {
        match it {
            Select::One { ty } => Operator::TypedSelect { ty },
            Select::Multi { tys } => Operator::TypedSelectMulti { tys },
        }
    }
}

impl<V: VisitOneByte> AtList<V, Select> for Own {
    #[inline(always)]
    fn at_list(v: &mut V, _code: u32, it: Select) -> V::Output {
        match it {
            Select::One { ty } => v.visit_typed_select(ty),
            Select::Multi { tys } => v.visit_typed_select_multi(tys),
        }
    }
}

impl MakesList<TryTable> for Maker {
    #[inline(always)]
    fn make_list(_code: u32, it: TryTable) -> Operator<'static> {
        Operator::TryTable { try_table: it }
    }
}

impl<V: VisitOneByte> AtList<V, TryTable> for Own {
    #[inline(always)]
    fn at_list(v: &mut V, _code: u32, it: TryTable) -> V::Output {
        v.visit_try_table(it)
    }
}

impl MakesList<(u32, ResumeTable)> for Maker {
    #[inline(always)]
    fn make_list(code: u32, it: (u32, ResumeTable)) -> Operator<'static> {
        let (cont_type_index, resume_table) = it;
        match code {
            0xe3 => Operator::Resume {
                cont_type_index,
                resume_table,
            },
            _ => Operator::ResumeThrowRef {
                cont_type_index,
                resume_table,
            },
        }
    }
}

impl<V: VisitOneByte> AtList<V, (u32, ResumeTable)> for Own {
    #[inline(always)]
    fn at_list(v: &mut V, code: u32, it: (u32, ResumeTable)) -> V::Output {
        let (cont_type_index, resume_table) = it;
        match code {
            0xe3 => v.visit_resume(cont_type_index, resume_table),
            _ => v.visit_resume_throw_ref(cont_type_index, resume_table),
        }
    }
}

impl MakesList<(u32, (u32, ResumeTable))> for Maker {
    #[inline(always)]
    fn make_list(_code: u32, it: (u32, (u32, ResumeTable))) -> Operator<'static> {
        let (cont_type_index, (tag_index, resume_table)) = it;
        Operator::ResumeThrow {
            cont_type_index,
            tag_index,
            resume_table,
        }
    }
}

impl<V: VisitOneByte> AtList<V, (u32, (u32, ResumeTable))> for Own {
    #[inline(always)]
    fn at_list(v: &mut V, _code: u32, it: (u32, (u32, ResumeTable))) -> V::Output {
        let (cont_type_index, (tag_index, resume_table)) = it;
        v.visit_resume_throw(cont_type_index, tag_index, resume_table)
    }
}
