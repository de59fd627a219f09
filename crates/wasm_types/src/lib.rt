//! The types of a type section, as values that own their lists.
//!
//! `read_from` of `Read` reads each; `RecGroup` is an item of the section. Any call that allocates
//! may fail with `OutOfMemory`. Then the reader is unchanged.
#![tactic(auto)]

mod composites;
mod fields;
mod functions;
mod recursive;

pub use composites::{CompositeInnerType, CompositeType};
pub use fields::{ArrayType, FieldType, StorageType, StructType};
pub use functions::{ContType, FuncType};
pub use recursive::{RecGroup, SubType};
