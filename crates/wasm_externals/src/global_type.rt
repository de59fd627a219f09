ghost use Rattle.wasm_externals.specs.Globals.{global_type};

use crate::flags::{MUTABLE, SHARED, read_flags};
use std::alloc::Global;
use wasm_below::{BinaryReader, Malformed, Result, ValType};
use wasm_grammars::Read;

/// Specification: Global Types; the proposal shared-everything threads.
#[derive(Clone, Copy, Debug, PartialEq, Eq)]
pub struct GlobalType {
    pub content_type: ValType,
    pub mutable: bool,
    pub shared: bool,
}

impl<'a> Read<'a> for GlobalType {
    ghost grammar = { λ features. global_type };

    /// Fails like `ValType::read`; then with `GlobalFlags` at flags above 3.
    fn read_from(_alloc: Global, reader: &mut BinaryReader<'a>) -> Result<GlobalType> {
        let mut ahead = reader.clone();
        let content_type = ValType::read(&mut ahead)?;
        let flags = read_flags(&mut ahead, 3, Malformed::GlobalFlags)?;
        *reader = ahead;
        Ok(GlobalType {
            content_type,
            mutable: flags / MUTABLE % 2 == 1,
            shared: flags / SHARED % 2 == 1,
        })
    }
}
