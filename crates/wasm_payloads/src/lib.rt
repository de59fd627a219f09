//! The payloads of a module, in the order of its bytes. Specification: Binary Format, Modules.
//!
//! Nothing here allocates. The allocator is kept for the items of a section.
#![tactic(auto)]

mod contents;
mod custom;
mod laws;
mod parser;
mod payload;
mod unread;

pub use custom::CustomSectionReader;
pub use laws::payload_laws;
pub use parser::{Parser, ParserState, parse_all};
pub use payload::{
    Encoding, ExportSectionReader, FunctionSectionReader, ImportSectionReader, MemorySectionReader,
    Payload, TagSectionReader, TypeSectionReader,
};
pub use unread::UnreadItems;
