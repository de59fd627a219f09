//! The decoders of the groups of visits. Each starts after an opcode or subopcode, reads the
//! immediates, and calls the visit.
#![tactic(auto)]

mod arm;
mod atomic_operators;
mod gc_operators;
mod misc_operators;
mod numeric_operators;
mod one_byte_arms;
mod one_byte_operators;
mod out_of_line;
mod read_arm;
mod simd_high_operators;
mod simd_low_operators;
mod simd_without_immediates;

pub use atomic_operators::{AtAtomic, atomic, atomic_by};
pub use gc_operators::{AtGc, gc, gc_by, read_gc_operator};
pub use misc_operators::{AtMisc, misc, misc_by};
pub use numeric_operators::{numeric, numeric_by};
pub use one_byte_operators::{AtOneByte, below_0x20, below_0x20_by, one_byte, one_byte_by};
pub use out_of_line::no_error;
pub use simd_high_operators::{AtSimdHigh, simd_high, simd_high_by};
pub use simd_low_operators::{AtSimdLow, simd_low, simd_low_by};
pub use simd_without_immediates::{
    has_no_immediates, simd_high_without_immediates, simd_low_without_immediates,
};
