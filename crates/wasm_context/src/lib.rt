//! The context of a module, in which its function bodies are checked.
//!
//! `Context::new` makes the context of a module that has only types, `add_function` and the like add
//! to it. Any call that allocates may fail with `OutOfMemory`; a call that fails changes nothing.
#![tactic(auto)]

mod adding;
mod context;
mod error;
mod faults;
mod function;
mod names;
mod unsupported;

pub use adding::data_fault;
pub use context::Context;
pub use error::{ContextError, Counted};
pub use function::Function;
pub use unsupported::Unsupported;
