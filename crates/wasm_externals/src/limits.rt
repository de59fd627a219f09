ghost use Rattle.std.specs.Prelude.{◌≤◌};
ghost use Rattle.wasm_below.specs.Source.{offset_of};
ghost use Rattle.wasm_grammars.specs.Reading.{Reads, ReadsAhead};
ghost use Rattle.wasm_externals.specs.Limits.{address, maximum, page_size};

use crate::flags::{HAS_MAXIMUM, HAS_PAGE_SIZE};
use wasm_below::{BinaryReader, Error, Malformed, Message, Result, WasmFeatures};

const MAX_PAGE_SIZE_LOG2: u32 = 63;

/// Reads a size: with memory64 a u64, without it a u32.
pub(crate) fn read_address(reader: &mut BinaryReader<'_>) -> Result<u64>
    ensures { Reads (address reader.old.features) result reader.old reader.new }
{
    if reader.features().contains(WasmFeatures::MEMORY64) {
        return match reader.read_var_u64() {
            Ok(size) => Ok(size),
            Err(e) => Err(e),
        };
    }
    match reader.read_var_u32() {
        Ok(size) => Ok(u64::from(size)),
        Err(e) => Err(e),
    }
}

/// Reads a size if the flags announce a maximum.
pub(crate) fn read_maximum(reader: &mut BinaryReader<'_>, flags: u8) -> Result<Option<u64>>
    ensures { Reads (maximum flags reader.old.features) result reader.old reader.new }
{
    if flags / HAS_MAXIMUM % 2 == 0 {
        return Ok(None);
    }
    match read_address(reader) {
        Ok(size) => Ok(Some(size)),
        Err(e) => Err(e),
    }
}

/// Reads the logarithm of a page size if the flags announce one, of a memory type that starts at
/// `start`.
pub(crate) fn read_page_size(
    reader: &mut BinaryReader<'_>,
    start: u64,
    flags: u8,
) -> Result<Option<u32>>
    requires { start ≤ offset_of reader.old }
    ensures { ReadsAhead (page_size flags) start result reader.old reader.new }
{
    if flags / HAS_PAGE_SIZE % 2 == 0 {
        return Ok(None);
    }
    reader.is_within();
    let log2 = reader.read_var_u32()?;
    if log2 > MAX_PAGE_SIZE_LOG2 {
        return Err(Error::new(Message::Malformed(Malformed::PageSize), start));
    }
    Ok(Some(log2))
}
