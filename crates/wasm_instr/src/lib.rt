//! The operators of WebAssembly as one type, with rows, encodings, roles and arities (`specs/`).
#![tactic(auto)]

mod arity;
mod fixed_arity;
mod frame_changes;
mod frame_stack;
pub mod laws;
mod operator;

pub use arity::ModuleArity;
pub use frame_changes::frame_change_at;
pub use frame_stack::FrameStack;
pub use operator::Operator;
