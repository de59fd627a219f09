ghost use Rattle.std.specs.Prelude.{◌↔◌, IsTrue};
ghost use Rattle.wasm_below.specs.Sequence.{PrefixCode};
ghost use Rattle.wasm_below.specs.Source.{Reads, rest};
ghost use Rattle.wasm_below.specs.TypeEncoding.{LedBy, ValTypeFault};
ghost use Rattle.wasm_below.specs.Ahead.{ReadsAhead};
ghost use Rattle.wasm_module.specs.Types.{IsPackedByte, IsStorage, IsField, FieldFault};

use crate::list::Item;
use wasm_below::type_laws::value_types;
use wasm_below::{BinaryReader, Result, ValType};

const I16: u8 = 0x77;

const I8: u8 = 0x78;

fn is_packed_next(reader: &BinaryReader<'_>) -> bool
    ensures { IsTrue result ↔ LedBy IsPackedByte (rest reader.now) }
{
    matches!(reader.remaining_buffer(), [I16 | I8, ..])
}

fn skip_packed(reader: &mut BinaryReader<'_>) -> Result<()>
    requires { LedBy IsPackedByte (rest reader.old) }
    ensures { Reads IsStorage ValTypeFault result reader.old reader.new }
{
    match reader.read_u8() {
        Ok(_) => Ok(()),
        Err(e) => Err(e),
    }
}

fn skip_storage(reader: &mut BinaryReader<'_>) -> Result<()>
    ensures { Reads IsStorage ValTypeFault result reader.old reader.new }
{
    if is_packed_next(reader) {
        return skip_packed(reader);
    }
    match ValType::read(reader) {
        Ok(_) => Ok(()),
        Err(e) => Err(e),
    }
}

/// A field of a struct or array type.
pub struct Field;

impl Item for Field {
    type Value = ();

    ghost encodes = { λ text done. IsField text done };

    ghost fault = { λ m r offset. FieldFault m r offset };

    fn read_item(reader: &mut BinaryReader<'_>) -> Result<()>
        ensures { ReadsAhead IsField FieldFault result reader.old reader.new }
    {
        value_types();
        skip_storage(reader)?;
        reader.read_u8()?;
        Ok(())
    }

    fn is_prefix_code()
        ensures { PrefixCode IsField }
    {
        value_types();
    }
}
