//! Writes operators, expressions and bodies in their shortest encodings (Core Specification 3.0,
//! Binary Format, Instructions, Expressions, Code Section; and the proposals).
//!
//! Callers list this crate and `wasm_operators`. On `Err`, the elements of the vector are
//! unchanged. Every call may fail with `OutOfMemory`; each other reason means that no encoding
//! exists.
#![tactic(auto)]

mod body;
mod operators;
mod rewrite;
mod shortened;

pub use body::write_body;
pub use operators::write_operators;
pub use rewrite::{RewriteError, read_back, rewrite_expression};
pub use shortened::{write_shortened, write_shortened_body};
pub use wasm_encode_immediates::Unwritable;
pub use wasm_encode_operators::write_operator;
