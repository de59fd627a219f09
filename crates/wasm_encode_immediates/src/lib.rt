//! Writes the immediates of operators in their shortest encodings (Core Specification 3.0, Binary
//! Format, Types and Instructions; and the proposals).
//!
//! `Writes` is the inverse of `Immediates` of `wasm_decode_opcodes`: the same types, with the same
//! immediates.
#![tactic(auto)]

mod kinds;
mod lists;
mod memory_argument;
mod types;
mod unwritable;
mod writes;

pub use lists::{
    write_branch_table, write_one_type, write_resume, write_resume_throw, write_try_table,
    write_types,
};
pub use types::{write_block_type, write_value_type};
pub use unwritable::Unwritable;
pub use writes::Writes;
