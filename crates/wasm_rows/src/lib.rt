//! Bytes as rows of sixteen, in the form of `wasm-objdump` of wabt, and the contents of a module's
//! sections in that form. Also the title of a module's listings.
//!
//! A call that appends to a text may fail with `AllocError`. The text may then end with a part of
//! what is appended.
#![tactic(auto)]

mod chosen;
mod contents;
mod fault;
mod rows;
mod titles;
mod writing;

pub use chosen::{has_section, is_chosen};
pub use contents::list_contents;
pub use fault::Fault;
pub use rows::write_rows;
pub use titles::push_title;
pub use writing::write_text;
