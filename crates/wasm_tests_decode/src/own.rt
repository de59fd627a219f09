//! The visits that `Teller` overrides: all, from a list for each group.
mod atomic;
mod gc;
mod misc;
mod numeric;
mod one_byte;
mod simd_high;
mod simd_low;

/// The visit that an operator received.
#[derive(Clone, Copy, Debug, PartialEq, Eq)]
pub enum Call {
    Own,
    Any,
    Table,
}
