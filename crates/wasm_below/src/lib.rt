//! Errors, features, and a reader of bytes, LEB128 numbers and types.
//!
//! A read returns `Ok` if and only if a prefix of the rest encodes a value, and advances past that
//! prefix. On `Err`, the reader is unchanged.
//!
//! Every call that allocates may fail with `OutOfMemory` at the offset where it began. Reading a
//! type does not allocate.
#![tactic(auto)]

mod binary_reader;
pub mod byte_laws;
mod error;
mod features;
mod from_reader;
mod long_numbers;
mod malformed;
mod memory_use;
mod message;
mod packed_reads;
pub mod type_laws;
mod type_readers;
mod types;

pub use binary_reader::BinaryReader;
pub use error::{BinaryReaderError, Error, ErrorKind, Result};
pub use features::WasmFeatures;
pub use from_reader::{BinaryReaderIter, FromReader};
pub use malformed::Malformed;
pub use memory_use::{May, MemoryUse, Never, TakesMemory, UsesMemory};
pub use message::{
    FrameName, InstructionName, LeadingByteName, Message, NumberName, SizeName, TypeName,
    hexadecimal_indent,
};
pub use types::{AbstractHeapType, HeapType, RefType, ValType};
