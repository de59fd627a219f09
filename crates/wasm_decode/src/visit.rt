ghost use Rattle.std.specs.Prelude.{◌<◌, ◌≤◌, [], ◌∷◌, None};
ghost use Rattle.wasm_grammar.specs.declared.frame_kind.FrameKind.{FrameKind};
ghost use Rattle.wasm_imm.specs.Immediate.{branch_table, is_branch_table};
ghost use Rattle.wasm_decode_opcodes.specs.Decoding.{DecodesIn, DecodesScalarIn, IsAfterCode, DecodesAt, ReadsKinds, GoesBack};
ghost use Rattle.wasm_decode.specs.OperatorSets.{OperatorSet, DecodesSetAt, DecodesSetIn};

use crate::operator_sets::{AllOperators, OperatorSet, ScalarOperators};
use crate::out_of_line::visit_after_prefix;
use crate::prefixes::{FIRST_PREFIX, Gc, OtherPrefix};
use crate::refusals::no_frame;
use std::alloc::Global;
use wasm_below::{BinaryReader, Result};
use wasm_decode_opcodes::immediates;
use wasm_grammar::FrameKind;
use wasm_imm::BrTable;
use wasm_visit::VisitOperator;

/// Reads and visits the operator at the start of the rest. `frame` is the innermost frame.
///
/// Fails with `OperatorsRemaining` there if no frame is open, otherwise with `EndOfData`,
/// `FeatureRequired`, `WrongFrame`, `IllegalOpcode`, `UnknownSubopcode`, or the error of an
/// immediate (`docs/ERRORS-AND-FEATURES.md`). `OutOfMemory` has the offset of the operator's start,
/// and occurs only for an operator that owns a list.
#[inline(always)]
pub fn visit_operator_simd<'a, V: VisitOperator<'a>>(
    alloc: Global,
    v: &mut V,
    reader: &mut BinaryReader<'a>,
    frame: Option<FrameKind>,
) -> Result<V::Output>
    ensures { DecodesIn V.visits frame result reader.old reader.new v.old v.new }
{
    visit_of_set::<V, AllOperators>(alloc, v, reader, frame)
}

/// Reads and visits like `visit_operator_simd`, for a visitor without SIMD operators. Fails with
/// `UnexpectedSimd` at the byte 0xfd, whatever follows.
#[inline(always)]
pub fn visit_operator<'a, V: VisitOperator<'a>>(
    alloc: Global,
    v: &mut V,
    reader: &mut BinaryReader<'a>,
    frame: Option<FrameKind>,
) -> Result<V::Output>
    ensures { DecodesScalarIn V.visits frame result reader.old reader.new v.old v.new }
{
    visit_of_set::<V, ScalarOperators>(alloc, v, reader, frame)
}

#[inline(always)]
fn visit_of_set<'a, V: VisitOperator<'a>, S: OperatorSet<V>>(
    alloc: Global,
    v: &mut V,
    reader: &mut BinaryReader<'a>,
    frame: Option<FrameKind>,
) -> Result<V::Output>
    ensures { DecodesSetIn S.set V.visits frame result reader.old reader.new v.old v.new }
{
    let Some(frame) = frame else {
        return Err(no_frame(reader));
    };
    let start = reader.current_position();
    match reader.read_u8() {
        Ok(code) => {
            if code < 0x20 {
                return visit_below_0x20(alloc, v, reader, start, frame, code);
            }
            visit_after_opcode::<V, S>(alloc, v, reader, start, frame, code)
        }
        Err(e) => Err(e),
    }
}

/// Reads the rest of the operator with this opcode, which was read at the position `start`, and
/// visits it if it is in the set `S`. On an error, goes back to `start`. For an opcode below 0x20,
/// `visit_below_0x20` is faster.
///
/// Fails like `visit_operator_simd`, but never for a missing frame or opcode, or like
/// `visit_operator` if the set is `ScalarOperators`.
#[inline(always)]
pub fn visit_after_opcode<'a, V: VisitOperator<'a>, S: OperatorSet<V>>(
    alloc: Global,
    v: &mut V,
    reader: &mut BinaryReader<'a>,
    start: usize,
    frame: FrameKind,
    code: u8,
) -> Result<V::Output>
    requires { IsAfterCode start None code reader.old }
    ensures { DecodesSetAt S.set V.visits frame start result reader.old reader.new v.old v.new }
{
    if code >= FIRST_PREFIX {
        match code {
            0xfb => visit_after_prefix(v, reader, start, Gc),
            0xfd => S::visit_after_0xfd(v, reader, start),
            byte => visit_after_prefix(v, reader, start, OtherPrefix { byte }),
        }
    } else {
        match code {
            0x0e => table_after_opcode(v, reader, start),
            0x45..=0xc4 => Ok(v.decode_numeric(code)),
            _ => v.decode_one_byte(alloc, reader, start, frame, code),
        }
    }
}

/// Reads and visits like `visit_after_opcode`, for an opcode below 0x20: a control or parametric
/// instruction, which each set contains.
#[inline(always)]
pub fn visit_below_0x20<'a, V: VisitOperator<'a>>(
    alloc: Global,
    v: &mut V,
    reader: &mut BinaryReader<'a>,
    start: usize,
    frame: FrameKind,
    code: u8,
) -> Result<V::Output>
    requires after { IsAfterCode start None code reader.old }
    requires low { code < 0x20 }
    ensures { (set : OperatorSet) → DecodesSetAt set V.visits frame start result reader.old reader.new v.old v.new }
{
    match code {
        0x0e => table_after_opcode(v, reader, start),
        _ => v.decode_below_0x20(alloc, reader, start, frame, code),
    }
}

#[inline(always)]
fn table_after_opcode<'a, V: VisitOperator<'a>>(
    v: &mut V,
    reader: &mut BinaryReader<'a>,
    start: usize,
) -> Result<V::Output>
    requires { IsAfterCode start None 0x0e reader.old }
    ensures { (frame : FrameKind) → DecodesAt V.visits frame start result reader.old reader.new v.old v.new }
{
    match branch_table(reader, start) {
        Ok(targets) => Ok(v.visit_br_table(targets)),
        Err(e) => Err(e),
    }
}

/// Reads the targets of a branch table by a call that borrows a copy of the reader.
#[inline(always)]
fn branch_table<'a>(reader: &mut BinaryReader<'a>, start: usize) -> Result<BrTable<'a>>
    requires { start ≤ reader.old.position }
    ensures { ReadsKinds (is_branch_table ∷ []) (λ t. branch_table t ∷ []) (λ r. ⊥) GoesBack start result reader.old reader.new }
{
    let mut copy = reader.clone();
    let targets = immediates::branch_table(&mut copy, start);
    reader.set_position(copy.current_position());
    targets
}
