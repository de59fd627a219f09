//! The immediates of operators: the values after an opcode. A read that returns `Err` leaves the
//! reader unchanged.
//!
//! Only lists of control operators allocate. Every call that allocates may fail with `OutOfMemory`,
//! at the offset where the call began; a `clone`, at offset 0.
#![tactic(auto)]

mod block_type;
mod branch_table;
mod cast;
pub mod constant_laws;
mod constants;
pub mod control_laws;
mod handler_tables;
mod handlers;
pub mod immediate_laws;
mod index;
mod lanes;
mod lists;
mod members;
mod memory_argument;
pub mod memory_laws;
mod operator_info;
mod ordering;
mod proposal;
mod read_immediates;
mod select;

pub use block_type::BlockType;
pub use branch_table::{BrTable, BrTableTargets};
pub use cast::Cast;
pub use constants::{Ieee32, Ieee64, V128};
pub use handler_tables::{ResumeTable, TryTable};
pub use handlers::{Catch, Handle};
pub use index::{read_memory_index, read_table_index};
pub use lanes::{read_lane, read_lanes};
pub use lists::refuse_from;
pub use members::{Catches, Handles, Members, SelectTypes};
pub use memory_argument::{MemArg, MemArgKind, MemArgOrdering, MemArgTarget};
pub use operator_info::OperatorInfo;
pub use ordering::Ordering;
pub use proposal::Proposal;
pub use read_immediates::ReadImmediates;
pub use select::Select;
