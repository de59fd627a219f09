//! Constant expressions in the items of a module that are written (Core Specification 3.0, Binary
//! Format, Expressions).
//!
//! A read that returns `Err` leaves the reader unchanged. Reading and writing a constant expression
//! may allocate, and then fail with `OutOfMemory`.
#![tactic(auto)]

mod bytes;

pub use bytes::ConstantBytes;
