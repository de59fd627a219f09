ghost use Rattle.wasm_externals.specs.Globals.{tag_type};

use crate::flags::read_flags;
use std::alloc::Global;
use wasm_below::{BinaryReader, Malformed, Result};
use wasm_grammars::Read;

/// What a tag is for.
#[derive(Clone, Copy, Debug, PartialEq, Eq)]
pub enum TagKind {
    Exception,
}

/// Specification: Tag Types.
#[derive(Clone, Copy, Debug, PartialEq, Eq)]
pub struct TagType {
    pub kind: TagKind,
    /// The index of the function type whose parameters are the values of an exception.
    pub func_type_idx: u32,
}

impl<'a> Read<'a> for TagType {
    ghost grammar = { λ features. tag_type };

    /// Fails with `TagAttributes` if the first byte is not 0; then like `read_var_u32`.
    fn read_from(_alloc: Global, reader: &mut BinaryReader<'a>) -> Result<TagType> {
        let mut ahead = reader.clone();
        read_flags(&mut ahead, 0, Malformed::TagAttributes)?;
        let func_type_idx = ahead.read_var_u32()?;
        *reader = ahead;
        Ok(TagType {
            kind: TagKind::Exception,
            func_type_idx,
        })
    }
}
