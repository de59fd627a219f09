ghost use Rattle.wasm_externals.specs.Limits.{memory_type};

use crate::flags::{IS_64, SHARED, read_flags};
use crate::limits::{read_address, read_maximum, read_page_size};
use std::alloc::Global;
use wasm_below::{BinaryReader, Malformed, Result};
use wasm_grammars::Read;

/// Specification: Memory Types; the proposals threads and custom page sizes.
#[derive(Clone, Copy, Debug, PartialEq, Eq)]
pub struct MemoryType {
    /// Addresses are of type i64, else of type i32.
    pub memory64: bool,
    pub shared: bool,
    /// The number of pages at the start.
    pub initial: u64,
    /// The greatest number of pages.
    pub maximum: Option<u64>,
    /// The logarithm to base 2 of the page size in bytes, at most 63. `None` is a page of 65536 bytes.
    pub page_size_log2: Option<u32>,
}

impl<'a> Read<'a> for MemoryType {
    ghost grammar = { memory_type };

    /// Fails with `MemoryFlags` at flags above 15; then like `read_var_u64` with memory64, like
    /// `read_var_u32` without it; then with `PageSize`, at the flags, if the logarithm is above 63.
    fn read_from(_alloc: Global, reader: &mut BinaryReader<'a>) -> Result<MemoryType> {
        let start = reader.original_position();
        let mut ahead = reader.clone();
        let flags = read_flags(&mut ahead, 15, Malformed::MemoryFlags)?;
        let initial = read_address(&mut ahead)?;
        let maximum = read_maximum(&mut ahead, flags)?;
        let page_size_log2 = read_page_size(&mut ahead, start, flags)?;
        *reader = ahead;
        Ok(MemoryType {
            memory64: flags / IS_64 % 2 == 1,
            shared: flags / SHARED % 2 == 1,
            initial,
            maximum,
            page_size_log2,
        })
    }
}
