//! Writes the immediates of operators, by their kinds.
pub mod atomic;
pub mod gc;
pub mod misc;
pub mod own;
pub mod simd;
