//! The validation of modules, from bytes.
//!
//! The main theorem is the contract of [`validate_module`]. Any call that allocates may fail with an
//! error that says so.
#![tactic(auto)]

mod fault;
mod modules;

pub use fault::{Fault, FaultyBody};
pub use modules::{Validator, validate_module};
