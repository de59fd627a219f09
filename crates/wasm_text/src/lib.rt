//! Operators in the text format, and the lines of a disassembly in the form of `wasm-objdump -d` of
//! wabt: an address, at most nine bytes, and a text.
//!
//! The main theorems are the contracts of [`write_operator`] and [`write_line`].
//!
//! A call that writes may fail with `AllocError`. `out` may then end with a part of the text.
#![tactic(auto)]

mod bytes;
mod digits;
mod floats;
mod function;
mod lists;
mod names;
mod operands;
mod operator;
mod operators;
mod rows;
mod types;
mod values;
mod write;

pub use bytes::{write_byte, write_spaced_byte};
pub use function::{write_header, write_indices};
pub use names::text_name;
pub use operator::{bytes_between, write_line};
pub use rows::{begin_line, end_line};
pub use types::write_value_type;
pub use values::Written;
pub use write::write_operator;
