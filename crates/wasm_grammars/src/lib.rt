//! Reading by grammars. A grammar in `specs/` says which bytes encode a value, which error other
//! bytes have, and where allocation may fail; `README.md` shows the form by one example.
//!
//! Any call that allocates may fail with `OutOfMemory`. Then the reader is unchanged.
#![tactic(auto)]

mod bytes;
mod lists;
mod parts;
mod read;
mod within;

pub use bytes::{Bytes, read_contents};
pub use lists::{read_counted, read_list};
pub use parts::read_u32_up_to;
pub use read::{Read, grammar_laws};
pub use within::read_within;
