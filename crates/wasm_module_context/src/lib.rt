//! The context of a module, from its payloads.
//!
//! Any call that allocates may fail with `OutOfMemory`.
#![tactic(auto)]

mod constants;
mod data;
mod elements;
mod error;
mod expressions;
mod function_index;
mod items;
mod laws;
mod modules;
mod parts;
mod payloads;
mod references;

pub use error::PayloadError;
pub use function_index::FunctionIndex;
pub use items::{AddToContext, add_items};
pub use laws::context_laws;
pub use modules::add_payloads;
pub use payloads::add_payload;
