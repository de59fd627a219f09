//! The custom section `name`: its subsections, and the names in them, read one by one. Specification:
//! Custom Sections, Name Section.
//!
//! Texts and maps of names stay in the section's bytes, so nothing here allocates. Every error leaves
//! a reader unchanged.
#![tactic(auto)]

mod indirect;
mod name;
mod naming;
mod section;

pub use indirect::{IndirectNameMap, IndirectNaming};
pub use name::Name;
pub use naming::{NameMap, Naming};
pub use section::{NameSectionReader, read_name};
