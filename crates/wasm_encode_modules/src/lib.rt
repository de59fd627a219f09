//! Writes modules from the contents of their sections (Core Specification 3.0, Binary Format, Modules).
//!
//! A call that writes may fail with `OutOfMemory`, if the vector can't grow. On `Err`, nothing is
//! appended.
#![tactic(auto)]

mod module;
mod section;

pub use module::write_module;
pub use section::{SectionContents, raw_sections, write_section};
