//! The types of a module: which of them are equal, and which match which.
//!
//! `Types::add` adds the groups of a type section. Any call that allocates may fail with
//! `OutOfMemory`.
#![tactic(auto)]

mod composites;
mod defined;
mod error;
mod keys;
mod matching;
mod only;
mod ranges;
mod type_list;
mod types;
mod validity;

pub use defined::Defined;
pub use error::TypeError;
pub use matching::{composite_matches, value_matches};
pub use types::Types;
