//! Reading calls of `wasm_externals`, by name.
use crate::failure::{Failure, Written};
use std::alloc::Global;
use std::fmt::Debug;
use wasm_below::{BinaryReader, ErrorKind};
use wasm_externals::{
    Export, ExternalKind, GlobalType, Import, MemoryType, TableType, TagType, Text, TypeRef,
};
use wasm_grammars::Read;

/// Reads a value of the type that `call` names, and writes its text and the offset of the next byte,
/// or the error.
pub fn write_external(
    alloc: Global,
    text: &mut String,
    call: &str,
    reader: &mut BinaryReader<'_>,
) -> Written {
    match call {
        "text" => write_read::<Text<'_>>(alloc, text, reader),
        "external_kind" => write_read::<ExternalKind>(alloc, text, reader),
        "table_type" => write_read::<TableType>(alloc, text, reader),
        "memory_type" => write_read::<MemoryType>(alloc, text, reader),
        "global_type" => write_read::<GlobalType>(alloc, text, reader),
        "tag_type" => write_read::<TagType>(alloc, text, reader),
        "type_ref" => write_read::<TypeRef>(alloc, text, reader),
        "import" => write_read::<Import<'_>>(alloc, text, reader),
        "export" => write_read::<Export<'_>>(alloc, text, reader),
        _ => Err(Failure::Malformed),
    }
}

fn write_read<'a, T: Read<'a> + Debug>(
    alloc: Global,
    text: &mut String,
    reader: &mut BinaryReader<'a>,
) -> Written {
    let start = reader.original_position();
    match T::read_from(alloc, reader) {
        Ok(value) => {
            write!(text, "{value:?}; next {}", reader.original_position())?;
            Ok(())
        }
        Err(e) if e.kind() == ErrorKind::OutOfMemory => Err(Failure::OutOfMemory),
        Err(_) if reader.original_position() != start => Err(Failure::Malformed),
        Err(e) => {
            write!(text, "{e}")?;
            Ok(())
        }
    }
}
