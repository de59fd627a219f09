//! The longest prefix of an expression in incomplete or invalid bytes, as in an editor.
ghost use Rattle.std.specs.Prelude.{◌≡◌, ◌++◌, replicate, IfOk, IfErr};
ghost use Rattle.wasm_operators.specs.Expression.{operators, AreWalk, IsLongestBeginning};
ghost use Rattle.uses.specs.Frames.{opens, closes, open_after};
ghost use Rattle.uses.specs.Input.{input};

use std::alloc::Global;
use wasm_operators::{
    BinaryReader, Message, Operator, OperatorsReader, Result, WasmFeatures, expression_laws,
    grammar_laws,
};

#[derive(Drop)]
pub struct Kept<'a> {
    pub operators: Vec<(Operator<'a>, u64)>,
    pub ends: usize,
}

fn opens(op: &Operator<'_>) -> usize
    ensures { result ≡ opens op.now }
{
    match op {
        Operator::Block { .. }
        | Operator::Loop { .. }
        | Operator::If { .. }
        | Operator::Try { .. }
        | Operator::TryTable { .. } => 1,
        _ => 0,
    }
}

fn closes(op: &Operator<'_>) -> usize
    ensures { result ≡ closes op.now }
{
    match op {
        Operator::End | Operator::Delegate { .. } => 1,
        _ => 0,
    }
}

fn open_frames(list: &[(Operator<'_>, u64)]) -> usize
    ensures { result ≡ open_after 1 (operators list.now) }
{
    let mut open: usize = 1;
    for (op, _offset) in list {
        open = (open + opens(op)).saturating_sub(closes(op));
    }
    open
}

fn keep<'a>(found: Vec<(Operator<'a>, u64)>) -> Kept<'a>
    ensures operators { result.operators.items ≡ found.entry.items }
    ensures ends { result.ends ≡ open_after 1 (operators found.entry.items) }
{
    let ends = open_frames(found.as_slice());
    Kept {
        operators: found,
        ends,
    }
}

/// Returns the longest prefix of an expression, and the number of `end`s that complete it. Only
/// allocation can fail.
///
/// If `read_all` fails, this is the clause `beginning`, with the laws `path_is_run` and
/// `ends_complete`; otherwise the clause `tree`, with the law `whole_is_longest`.
pub fn longest_beginning<'a>(
    alloc: Global,
    features: WasmFeatures,
    bytes: &'a [u8],
) -> Result<Kept<'a>>
    ensures longest { IfOk result (λ kept. IsLongestBeginning (input features bytes.now) kept.operators.items) }
    ensures completed { IfOk result
        (λ kept. AreWalk (operators kept.operators.items ++ replicate kept.ends Operator.End)) }
    ensures memory { IfErr result (λ e. e.message ≡ Message.OutOfMemory) }
{
    expression_laws::whole_is_longest();
    grammar_laws::path_is_run::<Operator<'a>>();
    grammar_laws::rules_accept_walks::<Operator<'a>>();
    grammar_laws::ends_complete::<Operator<'a>>();
    let mut found = Vec::new(alloc);
    let mut reader = OperatorsReader::new(alloc, BinaryReader::new_features(bytes, 0, features));
    match reader.read_all(&mut found) {
        Ok(()) => Ok(keep(found)),
        Err(error) => match error.message() {
            Message::OutOfMemory => Err(error),
            _ => Ok(keep(found)),
        },
    }
}
