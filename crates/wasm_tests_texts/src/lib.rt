//! What test programs share: input, bytes in hexadecimal, names of frames, operators as text with
//! all fields.
#![tactic(auto)]

mod bytes;
mod fields;
mod frames;
mod values;

pub use bytes::{read_hex, read_input};
pub use fields::write_operator;
pub use frames::frame_named;
pub use values::{Written, write_value_type};
