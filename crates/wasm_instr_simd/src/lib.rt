//! The SIMD operators, with the prefix byte 0xfd. `specs/` has the rows of the table of operators,
//! by columns.
#![tactic(auto)]

mod simd;

pub use simd::SimdOperator;
