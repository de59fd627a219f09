//! Writes an operator in its shortest encoding (Core Specification 3.0, Binary Format,
//! Instructions; and the proposals).
#![tactic(auto)]

mod codes;
mod common;
mod forms;
mod immediates;
mod opcode;
mod operator;

pub use operator::write_operator;
