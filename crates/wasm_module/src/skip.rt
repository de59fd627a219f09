//! Skips the type of an import after the byte of its kind.
//!
//! If one of these calls fails, the reader may have moved.
ghost use Rattle.wasm_below.specs.Source.{Reads};
ghost use Rattle.wasm_below.specs.Ahead.{ReadsAhead};
ghost use Rattle.wasm_module.specs.Imports.{IsMost, MostFault, IsLimits, LimitsFault, IsTable, TableFault, IsGlobal, GlobalFault, IsTag, TagFault};

use wasm_below::byte_laws::unsigned_numbers;
use wasm_below::type_laws::{reference_types, value_types};
use wasm_below::{BinaryReader, RefType, Result, ValType};

fn skip_most(reader: &mut BinaryReader<'_>, flags: u8) -> Result<()>
    ensures { Reads (IsMost flags) (MostFault flags) result reader.old reader.new }
{
    if flags % 2 != 1 {
        return Ok(());
    }
    match reader.read_var_u64() {
        Ok(_) => Ok(()),
        Err(e) => Err(e),
    }
}

pub fn skip_limits(reader: &mut BinaryReader<'_>) -> Result<()>
    ensures { ReadsAhead IsLimits LimitsFault result reader.old reader.new }
{
    unsigned_numbers();
    let flags = reader.read_u8()?;
    reader.read_var_u64()?;
    skip_most(reader, flags)?;
    Ok(())
}

pub fn skip_table(reader: &mut BinaryReader<'_>) -> Result<()>
    ensures { ReadsAhead IsTable TableFault result reader.old reader.new }
{
    reference_types();
    RefType::read(reader)?;
    skip_limits(reader)?;
    Ok(())
}

pub fn skip_global(reader: &mut BinaryReader<'_>) -> Result<()>
    ensures { ReadsAhead IsGlobal GlobalFault result reader.old reader.new }
{
    value_types();
    ValType::read(reader)?;
    reader.read_u8()?;
    Ok(())
}

pub fn skip_tag(reader: &mut BinaryReader<'_>) -> Result<()>
    ensures { ReadsAhead IsTag TagFault result reader.old reader.new }
{
    reader.read_u8()?;
    reader.read_var_u32()?;
    Ok(())
}
