//! External types, imports and exports, by grammars. A read that returns `Err` leaves the reader
//! unchanged. Nothing here allocates; the parameter `alloc` of `read_from` is the trait's.
#![tactic(auto)]

mod export;
mod external;
mod flags;
mod global_type;
mod import;
mod limits;
mod memory_type;
mod table_type;
mod tag_type;
mod text;

pub use export::Export;
pub use external::{ExternalKind, TypeRef};
pub use global_type::GlobalType;
pub use import::Import;
pub use memory_type::MemoryType;
pub use table_type::TableType;
pub use tag_type::{TagKind, TagType};
pub use text::{Text, utf8_law};
