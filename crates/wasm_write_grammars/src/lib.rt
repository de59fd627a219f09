//! Writing by grammars: what a call that writes promises, the steps of its proof, and writers of parts.
//! `README.md` shows the form by one example.
//!
//! A call that writes may fail with `OutOfMemory`, if the vector can't grow. Any other error is the
//! message with which a reader refuses the part of the value that no bytes encode.
#![tactic(auto)]

mod again;
mod parts;

pub use again::{read_back, written_is_read};
pub use parts::{append_byte, append_bytes, append_size, append_sized, append_u32, append_u64};
