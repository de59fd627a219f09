//! Writes LEB128 numbers in the fewest bytes (Core Specification 3.0, Binary Format, Values,
//! Integers).
//!
//! Each function appends to a vector that has the capacity, so it cannot fail and does not
//! allocate.
#![tactic(auto)]

pub mod laws;
mod numbers;

pub use numbers::{write_bytes, write_i32, write_i64, write_s33, write_u32, write_u64};
