ghost use Rattle.std.specs.Prelude.{◌≡◌, ◌<◌};
ghost use Rattle.wasm_grammars.specs.Reading.{Reads};
ghost use Rattle.wasm_segments.specs.Flags.{has_flag, index_if};

use wasm_below::{BinaryReader, Result};

/// Returns whether the flags have the bit of this weight.
pub(crate) fn is_set(flags: u32, weight: u32) -> bool
    requires { 0 < weight }
    ensures { result ≡ has_flag flags weight }
{
    flags / weight % 2 == 1
}

/// Reads an index if the flags announce one.
pub(crate) fn read_index(reader: &mut BinaryReader<'_>, present: bool) -> Result<Option<u32>>
    ensures { Reads (index_if present) result reader.old reader.new }
{
    if !present {
        return Ok(None);
    }
    match reader.read_var_u32() {
        Ok(index) => Ok(Some(index)),
        Err(e) => Err(e),
    }
}
