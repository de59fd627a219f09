//! Premises of rules about immediates.
ghost use Rattle.std.specs.Prelude.{◌≡◌, nat_lt};
ghost use Rattle.wasm_check_operators.specs.Forms.{is_valid_argument, is_atomic_argument, are_below, shuffled, has_lanes, is_ordered};

use wasm_imm::{MemArg, Ordering};
use wasm_instr_ops::AtomicOperator;
use wasm_instr_simd::SimdOperator;
use wasm_signatures::lane_index;

/// Returns whether the alignment and the offset are in range. Specification: Memory Instructions.
pub fn is_valid_argument(memarg: &MemArg, is_64: bool) -> bool
    ensures { result ≡ is_valid_argument memarg.now is_64 }
{
    if memarg.align > memarg.max_align {
        return false;
    }
    if is_64 {
        return true;
    }
    memarg.offset <= u32::MAX as u64
}

/// Returns whether an atomic access may have this alignment and ordering. Proposal threads.
pub fn is_atomic_argument(memarg: &MemArg) -> bool
    ensures { result ≡ is_atomic_argument memarg.now }
{
    if memarg.align != memarg.max_align {
        return false;
    }
    memarg.ordering.is_none()
}

/// Returns whether a fence has the ordering of the proposal threads.
pub fn is_ordered(op: &AtomicOperator) -> bool
    ensures { result ≡ is_ordered op.now }
{
    match op {
        AtomicOperator::AtomicFence { ordering } => match ordering {
            Ordering::SeqCst => true,
            Ordering::AcqRel => false,
        },
        _ => true,
    }
}

fn is_below(lane: u8, count: u8) -> bool
    ensures { result ≡ nat_lt lane count }
{
    lane < count
}

fn are_below(lanes: &[u8], count: u8) -> bool
    ensures { result ≡ are_below count lanes.now }
{
    for i in 0..lanes.len() {
        if !is_below(lanes[i], count) {
            return false;
        }
    }
    true
}

fn shuffled(op: &SimdOperator) -> &[u8]
    ensures { result.now ≡ shuffled op.now }
{
    match op {
        SimdOperator::I8x16Shuffle { lanes } => lanes,
        _ => &[],
    }
}

/// Returns whether each lane index is below the number of lanes. Specification: Vector
/// Instructions.
pub fn has_lanes(op: &SimdOperator) -> bool
    ensures { result ≡ has_lanes op.now }
{
    if let Some((lane, count)) = lane_index(op) {
        if lane >= count {
            return false;
        }
    }
    are_below(shuffled(op), 32)
}
