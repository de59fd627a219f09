//! The structure of WebAssembly expressions: trees of instructions, and the frames that are open
//! after each operator. The laws relate the two; `specs/` defines them.
#![tactic(auto)]

mod frame_change;
mod frame_kind;
pub mod laws;

pub use frame_change::FrameChange;
pub use frame_kind::FrameKind;
