ghost use Rattle.std.specs.Prelude.{◌≡◌, ◌+◌, ◌-◌, ◌^◌, ◌<◌, length, IfOk};
ghost use Rattle.wasm_operators.specs.instr.Kinds.{IsSimd};
ghost use Rattle.uses.specs.Tallies.{CountsOne, TakesOne};

use std::alloc::Global;
use wasm_operators::{
    BinaryReader, BrTable, ByAny, FrameKind, FrameStack, Operator, ReadSimdVisits, ReadVisits,
    Result, VisitOperator, Visitor, visit_operator_with_simd, visit_owned, visit_owned_simd,
};

#[derive(Debug, Drop)]
pub struct Tally {
    pub operators: u64,
}

impl Visitor for Tally {
    type Output = ();

    type Visits = ByAny;

    ghost visits = { λ before op outcome after. CountsOne before.operators after.operators };

    fn visit_any(&mut self, _op: Operator<'static>) {
        self.operators = self.operators.saturating_add(1);
    }
}

impl<'a> VisitOperator<'a> for Tally {
    fn visit_br_table(&mut self, _targets: BrTable<'a>) {
        self.operators = self.operators.saturating_add(1);
    }
}

/// Single operators are visited as if inside a block.
impl FrameStack for Tally {
    ghost use Rattle.std.specs.Prelude.{Some};
    ghost use Rattle.wasm_operators.specs.grammar.declared.frame_kind.FrameKind.TheVariants.{Block};

    ghost frame = { λ _. Some Block };

    fn current_frame(&self) -> Option<FrameKind> {
        Some(FrameKind::Block)
    }
}

pub fn tally_next(alloc: Global, reader: &mut BinaryReader<'_>, tally: &mut Tally) -> Result<()>
    ensures taken { IfOk result (λ _. TakesOne reader.old reader.new) }
    ensures counted { IfOk result (λ _. CountsOne tally.old.operators tally.new.operators) }
{
    reader.visit_operator_simd(alloc, tally)
}

/// Reads and counts the operator at the reader's position. Fails at a SIMD operator.
pub fn tally_next_scalar(
    alloc: Global,
    reader: &mut BinaryReader<'_>,
    tally: &mut Tally,
) -> Result<()>
    ensures taken { IfOk result (λ _. TakesOne reader.old reader.new) }
    ensures counted { IfOk result (λ _. CountsOne tally.old.operators tally.new.operators) }
{
    reader.visit_operator(alloc, tally)
}

pub fn tally_owned(tally: &mut Tally, op: Operator<'_>)
    ensures { CountsOne tally.old.operators tally.new.operators }
{
    visit_owned_simd(tally, op)
}

pub fn tally_scalar(tally: &mut Tally, op: Operator<'_>)
    ensures simd { IsSimd op.entry → tally.new ≡ tally.old }
    ensures scalar { ¬ IsSimd op.entry → CountsOne tally.old.operators tally.new.operators }
{
    if op.is_simd() {
        return;
    }
    visit_owned(tally, op)
}

pub fn tally_list(alloc: Global, tally: &mut Tally, list: &[(Operator<'_>, u64)]) -> Result<()>
    ensures { IfOk result (λ _. tally.old.operators + length list.now < 2 ^ 64
        → tally.new.operators ≡ tally.old.operators + length list.now) }
{
    for (op, _offset) in list {
        visit_operator_with_simd(alloc, tally, op)?;
    }
    Ok(())
}
