//! Decodes one operator from its bytes, and visits or returns it.
//!
//! The decoder reads the opcode, and calls the visitor's method for the group of the operator. So
//! only a visitor that makes operators builds an `Operator`. `wasm_decode_opcodes` defines the
//! contracts: `Decodes`, `EncodesAllowed` and `OperatorFault`.
#![tactic(auto)]

mod after;
pub mod laws;
mod operator_sets;
mod out_of_line;
mod prefixes;
mod read;
mod refusals;
mod visit;

pub use operator_sets::{AllOperators, OperatorSet, ScalarOperators};
pub use read::{read_after_opcode, read_below_0x20, read_operator};
pub use refusals::no_frame;
pub use visit::{visit_after_opcode, visit_below_0x20, visit_operator, visit_operator_simd};
