mod atomic;
mod gc;
mod misc;
pub mod own;
mod simd;
