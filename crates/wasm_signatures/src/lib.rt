//! The types of operands and results of every operator, or the rule that determines them.
#![tactic(auto)]

mod atomic;
mod gc;
mod misc;
mod numeric;
mod operand_type;
mod operator;
mod premises;
mod rows;
mod rule;
mod signature;
mod simd;

pub use atomic::atomic_typing;
pub use gc::gc_typing;
pub use misc::misc_typing;
pub use numeric::numeric_signature;
pub use operand_type::OperandType;
pub use operator::operator_typing;
pub use premises::{lane_index, memory_argument};
pub use rows::{Row, row_at};
pub use rule::Rule;
pub use signature::{Signature, Typing};
pub use simd::simd_signature;
