ghost use Rattle.std.specs.Prelude.{◌≡◌};
ghost use Rattle.wasm_c_sections.specs.Ranges.{ending_at, placed_text, range_of};
ghost use Rattle.wasm_grammars.specs.Reading.{Reads};

use std::alloc::Global;
use std::ops::Range;
use wasm_below::{BinaryReader, Result};
use wasm_externals::Text;
use wasm_grammars::Read;

/// Some bytes of a module, as a C struct of 16 bytes.
#[repr(C)]
#[derive(Clone, Copy, Debug, PartialEq, Eq)]
pub struct WasmRange {
    /// The offset of the first byte.
    pub offset: u64,
    /// The number of bytes.
    pub length: u64,
}

impl WasmRange {
    /// Returns the range of no bytes at offset 0.
    pub fn none() -> WasmRange
        ensures { result ≡ record { offset = 0; length = 0 } }
    {
        WasmRange {
            offset: 0,
            length: 0,
        }
    }

    pub fn of(range: &Range<u64>) -> WasmRange
        ensures { result ≡ range_of range.now.start range.now.end }
    {
        WasmRange {
            offset: range.start,
            length: range.end.saturating_sub(range.start),
        }
    }
}

/// Returns where bytes are that end at this offset.
pub fn bytes_before(end: u64, bytes: &[u8]) -> WasmRange
    ensures { result ≡ ending_at end bytes.now }
{
    let length = bytes.len() as u64;
    WasmRange {
        offset: end.saturating_sub(length),
        length,
    }
}

/// Returns where a text is that ends at this offset.
pub fn ending_at(end: u64, text: &str) -> WasmRange
    ensures { result ≡ ending_at end text.now }
{
    bytes_before(end, text.as_bytes())
}

/// Reads a text like `Text::read_from`. Returns where it is.
pub fn read_text(alloc: Global, reader: &mut BinaryReader<'_>) -> Result<WasmRange>
    ensures { Reads placed_text result reader.old reader.new }
{
    let mut ahead = reader.clone();
    let text = Text::read_from(alloc, &mut ahead)?;
    let range = ending_at(ahead.original_position(), text.as_str());
    *reader = ahead;
    Ok(range)
}
