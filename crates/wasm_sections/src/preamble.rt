ghost use Rattle.std.specs.Prelude.{◌≡◌};
ghost use Rattle.wasm_grammars.specs.Reading.{Reads};
ghost use Rattle.wasm_sections.specs.Preamble.{preamble, version};

use wasm_below::{BinaryReader, Error, Message, Result};

/// The bytes `\0asm` as a number.
const MAGIC: u32 = 0x6d73_6100;

/// The version of a module.
const MODULE: u32 = 1;

/// Reads the preamble of a module, and returns the version, which is 1.
///
/// Fails with `EndOfData` at the start of the number that the data lacks, with `BadMagic` at the
/// start, or with `UnknownVersion` four bytes later. A component has another version.
/// Specification: Modules.
pub fn read_preamble(reader: &mut BinaryReader<'_>) -> Result<u32>
    ensures { Reads preamble result reader.old reader.new }
{
    reader.is_within();
    let mut ahead = reader.clone();
    let magic = ahead.read_u32()?;
    if magic != MAGIC {
        return Err(Error::new(Message::BadMagic(magic), reader.original_position()));
    }
    let version = read_version(&mut ahead)?;
    *reader = ahead;
    Ok(version)
}

fn read_version(reader: &mut BinaryReader<'_>) -> Result<u32>
    ensures { Reads version result reader.old reader.new }
{
    reader.is_within();
    let mut ahead = reader.clone();
    let version = ahead.read_u32()?;
    if version != MODULE {
        return Err(Error::new(Message::UnknownVersion(version), reader.original_position()));
    }
    *reader = ahead;
    Ok(version)
}
