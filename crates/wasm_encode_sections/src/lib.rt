//! Writes the items of a module's sections by the grammars that read them.
//!
//! A call that writes may fail with `OutOfMemory`, if the vector can't grow. Any other error is the
//! message with which a reader refuses the part of the value that no bytes encode.
#![tactic(auto)]

mod composites;
mod data;
mod elements;
mod external_types;
mod fields;
mod flags;
mod functions;
mod imports;
mod limits;
mod lists;
mod names;
mod parts;
mod recursive;
mod tables;
mod texts;
mod value_types;
mod write;

pub use elements::{ListedElement, ListedItems, listed_elements};
pub use lists::{append_items, append_list};
pub use names::ListedNaming;
pub use write::{Write, write_value};
