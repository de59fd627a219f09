//! The operators with the prefix bytes 0xfb, 0xfc and 0xfe, and the numeric operators. `specs/` has
//! the rows of the table of operators, by columns.
#![tactic(auto)]

mod atomic;
mod gc;
mod misc;
mod numeric;

pub use atomic::AtomicOperator;
pub use gc::GcOperator;
pub use misc::MiscOperator;
pub use numeric::NumericOperator;
