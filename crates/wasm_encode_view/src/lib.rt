//! Writes the C struct of an operator without a list in the operator's shortest encoding (Core
//! Specification 3.0, Binary Format, Instructions; and the proposals). Writes declarations of
//! locals, bodies and sections (Binary Format, Modules).
//!
//! No call allocates. The bytes of an operator are in a `Buffer`, other bytes in the caller's array.
#![tactic(auto)]

mod buffer;
mod local;
mod memory;
mod numbers;
mod put;
mod section;
mod types;
mod view;

pub use buffer::Buffer;
pub use section::{WasmLocals, encode_body, encode_locals, encode_section};
pub use view::{has_list, is_view_of, write_view};
