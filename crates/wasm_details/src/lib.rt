//! The contents of a module's sections as lines, in the form of `wasm-objdump -x` of wabt.
#![tactic(auto)]

mod bodies;
mod constants;
mod contents;
mod data;
mod details;
mod elements;
mod externals;
mod globals;
mod items;
mod module;
mod name_section;
mod namings;
mod place;
mod types;

pub use constants::{ConstantDetails, SegmentDetails, ShownConstant, Usage};
pub use details::Details;
pub use items::{write_items, write_section};
pub use module::list_details;
pub use name_section::write_names;
pub use namings::Label;
pub use place::{Imported, Place};
pub use types::push_type_name;
