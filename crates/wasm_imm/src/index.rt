ghost use Rattle.wasm_below.specs.Source.{Reads};
ghost use Rattle.wasm_imm.specs.Indices.{EncodesIndex, EncodesMemoryIndex, EncodesTableIndex, IndexFault, MemoryIndexFault, TableIndexFault};

use wasm_below::{BinaryReader, Message, Result, WasmFeatures};

/// Reads the memory index of `memory.size` or `memory.grow`. Specification: Memory Instructions.
///
/// With multi_memory, fails like `read_var_u32`; without it, with `EndOfData`, or with
/// `ZeroByteExpected` at a byte that is not 0.
#[inline(never)]
pub fn read_memory_index(reader: &mut BinaryReader<'_>) -> Result<u32>
    ensures { Reads (EncodesMemoryIndex reader.old.features) (MemoryIndexFault reader.old.features) result reader.old reader.new }
{
    read_index(reader, WasmFeatures::MULTI_MEMORY)
}

/// Reads the table index of `call_indirect`. Specification: Control Instructions.
///
/// Fails like `read_memory_index`, with call_indirect_overlong in place of multi_memory.
#[inline(never)]
pub fn read_table_index(reader: &mut BinaryReader<'_>) -> Result<u32>
    ensures { Reads (EncodesTableIndex reader.old.features) (TableIndexFault reader.old.features) result reader.old reader.new }
{
    read_index(reader, WasmFeatures::CALL_INDIRECT_OVERLONG)
}

#[inline(always)]
fn read_index(reader: &mut BinaryReader<'_>, feature: WasmFeatures) -> Result<u32>
    ensures { Reads (EncodesIndex feature reader.old.features) (IndexFault feature reader.old.features) result reader.old reader.new }
{
    if reader.features().contains(feature) {
        return reader.read_var_u32();
    }
    let start = reader.current_position();
    match reader.read_u8() {
        Ok(0) => Ok(0),
        Ok(_) => Err(reader.refuse(start, Message::ZeroByteExpected)),
        Err(e) => Err(e),
    }
}
