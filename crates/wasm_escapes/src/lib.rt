//! Names as listings show them: without ASCII control characters.
//!
//! A call that writes may fail with `AllocError`. `out` may then end with a part of the text.
#![tactic(auto)]

mod escapes;
pub mod laws;

pub use escapes::write_escaped;
