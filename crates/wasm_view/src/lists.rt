ghost use Rattle.std.specs.Prelude.{ℕ, List, Option, map};
ghost use Rattle.wasm_imm.specs.BranchTables.{numbers_of};
ghost use Rattle.wasm_instr.specs.declared.operator.Operator.{Operator};
ghost use Rattle.wasm_view.specs.Lists.{targets_of, types_of, catches_of, handles_of, PlacesMembers, ReturnsMembers, PlacesOne};

use crate::members::{Member, WasmHandler, WasmType, type_of};
use wasm_imm::BrTable;
use wasm_instr::Operator;

/// A list that some operators have.
pub trait MemberList {
    /// The C struct, or number, of a member.
    type Member: Copy;

    /// The members of an operator's list; `None` for an operator without one.
    ghost members_of: { Operator → Option (List Self.Member) };

    /// Writes the members of the operator's list: those from index `from` on that fit. Returns the
    /// number of all; for an operator without such a list `None`, with `out` unchanged.
    fn place_members(op: &Operator<'_>, from: usize, out: &mut [Self::Member]) -> Option<usize>
        ensures { ReturnsMembers (members_of op.now) from out.old result out.new };
}

/// The targets of a `br_table`, without the default target.
pub struct Targets;

/// The types of a `select` that has types.
pub struct Types;

/// The clauses of a `try_table`.
pub struct Catches;

/// The clauses of a `resume`, `resume_throw` or `resume_throw_ref`.
pub struct Handles;

/// Writes the member with this index to `out[index - from]`, if that exists.
fn place<T: Copy>(member: T, index: usize, from: usize, out: &mut [T])
    ensures { PlacesOne member index from out.old out.new }
{
    if index >= from && index - from < out.len() {
        out[index - from] = member;
    }
}

fn place_targets(table: &BrTable<'_>, from: usize, out: &mut [u32]) -> usize
    ensures { PlacesMembers (numbers_of table.now.targets) from out.old result out.new }
{
    let count = table.len() as usize;
    let mut index: usize = 0;
    for target in table.targets() {
        if let Ok(label) = target {
            place(label, index, from, out);
            index += 1;
        }
    }
    count
}

fn place_all<T: Member>(list: &[T], from: usize, out: &mut [T::Plain]) -> usize
    ensures { PlacesMembers (map T.plain list.now) from out.old result out.new }
{
    let count = list.len();
    'members: for index in 0..count {
        place(list[index].plain(), index, from, out);
    }
    count
}

impl MemberList for Targets {
    type Member = u32;

    ghost members_of = { targets_of };

    fn place_members(op: &Operator<'_>, from: usize, out: &mut [u32]) -> Option<usize> {
        match op {
            Operator::BrTable { targets } => Some(place_targets(targets, from, out)),
            _ => None,
        }
    }
}

impl MemberList for Types {
    type Member = WasmType;

    ghost members_of = { types_of };

    fn place_members(op: &Operator<'_>, from: usize, out: &mut [WasmType]) -> Option<usize> {
        match op {
            Operator::TypedSelect { ty } => {
                place(type_of(ty), 0, from, out);
                Some(1)
            }
            Operator::TypedSelectMulti { tys } => Some(place_all(tys.as_slice(), from, out)),
            _ => None,
        }
    }
}

impl MemberList for Catches {
    type Member = WasmHandler;

    ghost members_of = { catches_of };

    fn place_members(op: &Operator<'_>, from: usize, out: &mut [WasmHandler]) -> Option<usize> {
        match op {
            Operator::TryTable { try_table } => {
                Some(place_all(try_table.catches.as_slice(), from, out))
            }
            _ => None,
        }
    }
}

impl MemberList for Handles {
    type Member = WasmHandler;

    ghost members_of = { handles_of };

    fn place_members(op: &Operator<'_>, from: usize, out: &mut [WasmHandler]) -> Option<usize> {
        match op {
            Operator::Resume { resume_table, .. }
            | Operator::ResumeThrow { resume_table, .. }
            | Operator::ResumeThrowRef { resume_table, .. } => {
                Some(place_all(resume_table.handlers.as_slice(), from, out))
            }
            _ => None,
        }
    }
}
