//! Opcodes: the kinds of their immediates, which are types, and the errors of operators.
//!
//! `specs/Entries.antt` lists all opcodes and subopcodes. `specs/OperatorFaults.antt` defines the
//! errors.
#![tactic(auto)]

mod guard;
pub mod immediates;
mod kinds;
mod lists;
mod unknown;

pub use guard::Guard;
pub use kinds::{
    FenceOrdering, Immediates, MemoryIndex, Only, OpMemArg, PlainMemArg, RmwMemArg, TableIndex,
};
pub use lists::Lists;
pub use unknown::{unknown_opcode, unknown_subopcode};
