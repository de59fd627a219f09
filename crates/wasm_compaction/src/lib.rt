//! Rewrites the code section of a module with the shortest encodings, and leaves everything else as
//! it is (Core Specification 3.0, Binary Format, Modules).
//!
//! [`compact`] takes the bytes of a module and returns the bytes of the new module. Custom sections
//! may hold offsets into the code section: [`custom_kind`] knows their names.
//!
//! Every call that allocates may fail with `Memory`; it then returns no result.
#![tactic(auto)]

mod body;
mod code;
mod custom;
mod fault;
mod module;

pub use custom::{Choices, CustomKind, custom_kind};
pub use fault::CompactionFault;
pub use module::compact;
