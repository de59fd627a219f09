//! A rewriter: `local.tee x` in place of `local.set x` and the `local.get x` after it.
ghost use Rattle.std.specs.Prelude.{◌≡◌, ◌<◌, ◌≤◌, ◌+◌, ◌∷◌, ◌++◌, [], length, drop, IfSome, IsTrue, MatchOption};
ghost use Rattle.wasm_operators.specs.Expression.{operators};
ghost use Rattle.uses.specs.Peephole.{AreTeed, AreSetAndGet, StartWithPair, WritesTeed};

use std::alloc::Global;
use wasm_encode::{Unwritable, write_operators};
use wasm_operators::{Operator, WasmFeatures};

/// Appends the operators in their shortest encodings, after `with_tees`.
pub fn write_with_tees(
    alloc: Global,
    features: WasmFeatures,
    ops: &[(Operator<'_>, u64)],
    out: &mut Vec<u8>,
) -> Result<(), Unwritable>
    ensures { WritesTeed features (operators ops.now) result out.old.items out.new.items }
{
    match with_tees(alloc, ops) {
        Some(teed) => write_operators(out, features, teed.as_slice()),
        None => Err(Unwritable::OutOfMemory),
    }
}

/// Returns the operators, with `local.tee x` in place of each `local.set x` and the `local.get x`
/// after it; `None` if allocation fails.
pub fn with_tees<'a>(alloc: Global, ops: &[(Operator<'a>, u64)]) -> Option<Vec<(Operator<'a>, u64)>>
    ensures { IfSome result (λ teed. AreTeed (operators ops.now) (operators teed.items)) }
{
    let mut teed = Vec::new(alloc);
    let mut at = 0;
    while at < ops.len() {
        match set_and_get(ops, at) {
            Some(local_index) => {
                if !add(&mut teed, Operator::LocalTee { local_index }, ops[at].1) {
                    return None;
                }
                at += 2;
            }
            None => {
                if !add_copy(alloc, &mut teed, &ops[at]) {
                    return None;
                }
                at += 1;
            }
        }
    }
    Some(teed)
}

/// Adds an operator. Returns `false` if allocation fails.
fn add<'a>(teed: &mut Vec<(Operator<'a>, u64)>, op: Operator<'a>, offset: u64) -> bool
    ensures { IsTrue result → operators teed.new.items ≡ operators teed.old.items ++ (op.entry ∷ []) }
{
    match teed.push((op, offset)) {
        Ok(()) => true,
        Err(_) => false,
    }
}

/// Adds a copy of an operator. Returns `false` if allocation fails.
fn add_copy<'a>(
    alloc: Global,
    teed: &mut Vec<(Operator<'a>, u64)>,
    op: &(Operator<'a>, u64),
) -> bool
    ensures { IsTrue result → operators teed.new.items ≡ operators teed.old.items ++ (op.now.0 ∷ []) }
{
    match op.0.clone(alloc) {
        Ok(copy) => add(teed, copy, op.1),
        Err(_) => false,
    }
}

/// Returns the local of a `local.set` and the `local.get` after it.
fn set_and_get(ops: &[(Operator<'_>, u64)], at: usize) -> Option<u32>
    requires { at < length ops.now }
    ensures { MatchOption result (¬ StartWithPair (operators (drop at ops.now))) (λ x. AreSetAndGet x (operators (drop at ops.now)) (operators (drop (at + 2) ops.now)) × (at + 2 ≤ length ops.now)) }
{
    if ops.len() - at < 2 {
        return None;
    }
    match &ops[at].0 {
        Operator::LocalSet { local_index: set } => match &ops[at + 1].0 {
            Operator::LocalGet { local_index: get } => if set == get { Some(*set) } else { None },
            _ => None,
        },
        _ => None,
    }
}
