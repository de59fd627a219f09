use super::write_result;
use crate::failure::Written;
use wasm_below::BinaryReader;
use wasm_imm::{
    Cast, Catch, Handle, MemArg, MemArgKind, Ordering, V128, read_lane, read_lanes,
    read_memory_index, read_table_index,
};

#[derive(Clone, Copy)]
pub enum Immediate {
    MemArg(MemArgKind),
    Catch,
    Handle,
    Cast,
    V128,
    Lane,
    Lanes,
    MemoryIndex,
    TableIndex,
    Ordering,
    Fence,
}

impl Immediate {
    /// Writes the result of reading. `argument` is a memory argument's natural alignment (an
    /// exponent), or a fence's offset.
    pub fn write(self, text: &mut String, argument: u8, reader: &mut BinaryReader<'_>) -> Written {
        match self {
            Immediate::MemArg(kind) => {
                write_result(text, MemArg::read(reader, argument, kind), reader)
            }
            Immediate::Catch => write_result(text, Catch::read(reader), reader),
            Immediate::Handle => write_result(text, Handle::read(reader), reader),
            Immediate::Cast => write_result(text, Cast::read(reader), reader),
            Immediate::V128 => write_result(text, V128::read(reader), reader),
            Immediate::Lane => write_result(text, read_lane(reader), reader),
            Immediate::Lanes => write_result(text, read_lanes(reader), reader),
            Immediate::MemoryIndex => write_result(text, read_memory_index(reader), reader),
            Immediate::TableIndex => write_result(text, read_table_index(reader), reader),
            Immediate::Ordering => write_result(text, Ordering::read(reader), reader),
            Immediate::Fence => {
                let start = reader.original_position().min(u64::from(argument));
                write_result(text, Ordering::read_fence(reader, start), reader)
            }
        }
    }
}
