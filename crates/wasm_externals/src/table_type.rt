ghost use Rattle.wasm_externals.specs.Limits.{table_type};

use crate::flags::{IS_64, SHARED, read_flags};
use crate::limits::{read_address, read_maximum};
use std::alloc::Global;
use wasm_below::{BinaryReader, Malformed, RefType, Result};
use wasm_grammars::Read;

/// Specification: Table Types.
#[derive(Clone, Copy, Debug, PartialEq, Eq)]
pub struct TableType {
    pub element_type: RefType,
    /// Indices are of type i64, else of type i32.
    pub table64: bool,
    /// The number of elements at the start.
    pub initial: u64,
    /// The greatest number of elements.
    pub maximum: Option<u64>,
    pub shared: bool,
}

impl<'a> Read<'a> for TableType {
    ghost grammar = { table_type };

    /// Fails like `RefType::read`; then with `TableFlags` at flags above 7; then like `read_var_u64`
    /// with memory64, like `read_var_u32` without it.
    fn read_from(_alloc: Global, reader: &mut BinaryReader<'a>) -> Result<TableType> {
        let mut ahead = reader.clone();
        let element_type = RefType::read(&mut ahead)?;
        let flags = read_flags(&mut ahead, 7, Malformed::TableFlags)?;
        let initial = read_address(&mut ahead)?;
        let maximum = read_maximum(&mut ahead, flags)?;
        *reader = ahead;
        Ok(TableType {
            element_type,
            table64: flags / IS_64 % 2 == 1,
            initial,
            maximum,
            shared: flags / SHARED % 2 == 1,
        })
    }
}
