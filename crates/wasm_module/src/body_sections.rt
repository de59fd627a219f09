ghost use Rattle.std.specs.Prelude.{◌≡◌, ◌+◌, IfOk, IfErr, IfSome, IfNone};
ghost use Rattle.wasm_below.specs.Source.{Reader};
ghost use Rattle.wasm_module.specs.Bodies.{InSection, Declares, RefusesCount};

use crate::find_section;
use crate::function_laws::sections;
use wasm_below::{BinaryReader, Result, WasmFeatures};

/// The number of the function section.
pub const FUNCTIONS: u8 = 3;

/// The number of the code section.
pub const CODE: u8 = 10;

/// Returns a reader after `read` bytes of a section's contents, and the position before them.
/// Returns `None` if there is no such section, or if it is shorter.
pub fn place_in<'a>(bytes: &'a [u8], id: u8, read: u64) -> Option<(BinaryReader<'a>, usize)>
    ensures some { IfSome result (λ found. InSection bytes.now id read found.0) }
    ensures start { IfSome result (λ found. found.0.position ≡ found.1 + read) }
    ensures none { IfNone result ((there : Reader) → InSection bytes.now id read there → ⊥) }
{
    sections();
    let contents = match find_section(WasmFeatures::all(), bytes, id) {
        Ok(Some(contents)) => contents,
        Ok(None) => return None,
        Err(_) => return None,
    };
    let start = contents.current_position();
    if read == 0 {
        return Some((contents, start));
    }
    if read > contents.bytes_remaining() as u64 {
        return None;
    }
    let mut place = contents;
    match place.read_bytes(read as usize) {
        Ok(_) => Some((place, start)),
        Err(_) => None,
    }
}

/// Returns the number of a section's items, and how many bytes encode that number. Without a
/// section both are 0.
pub fn read_count(contents: Option<BinaryReader<'_>>) -> Result<(u32, u64)>
    ensures declares { IfOk result (λ found. Declares contents.entry found.0 found.1) }
    ensures refused { IfErr result (λ e. RefusesCount e contents.entry) }
{
    let Some(mut reader) = contents else {
        return Ok((0, 0));
    };
    let start = reader.current_position();
    match reader.read_var_u32() {
        Ok(count) => Ok((count, (reader.current_position() - start) as u64)),
        Err(e) => Err(e),
    }
}
