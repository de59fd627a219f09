//! The types of WebAssembly instructions: matching, the typing rules, and the validation algorithm
//! with the law that it accepts what the rules type. Definitions are in `specs/`.
#![tactic(auto)]

pub mod laws;
mod value_type;

pub use value_type::{Heap, ValueType};
