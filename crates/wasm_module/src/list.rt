//! Lists of which only the length is kept.
ghost use Rattle.std.specs.Prelude.{ℕ, List};
ghost use Rattle.wasm_below.specs.declared.message.Message.{Message};
ghost use Rattle.wasm_below.specs.Number.{EncodesUnsigned};
ghost use Rattle.wasm_below.specs.Sequence.{PrefixCode};
ghost use Rattle.wasm_below.specs.Source.{Reader, U32Fault};
ghost use Rattle.wasm_below.specs.TypeEncoding.{EncodesValType, ValTypeFault};
ghost use Rattle.wasm_below.specs.Ahead.{ReadsAhead};
ghost use Rattle.wasm_module.specs.Types.{EncodesLength, LengthFault};

use wasm_below::byte_laws::unsigned_numbers;
use wasm_below::type_laws::value_types;
use wasm_below::{BinaryReader, Result, ValType};

/// What a list holds.
pub trait Item {
    type Value: Drop;

    ghost encodes: { List ℕ → Self.Value → Type 0 };

    ghost fault: { Message → Reader → ℕ → Type 0 };

    /// Reads an item. If this fails, the reader may have moved.
    fn read_item(reader: &mut BinaryReader<'_>) -> Result<Self::Value>
        ensures { ReadsAhead encodes fault result reader.old reader.new };

    fn is_prefix_code()
        ensures { PrefixCode encodes };
}

impl Item for u32 {
    type Value = u32;

    ghost encodes = { λ text n. EncodesUnsigned 32 text n };

    ghost fault = { λ m r offset. U32Fault m r offset };

    fn read_item(reader: &mut BinaryReader<'_>) -> Result<u32> {
        reader.read_var_u32()
    }

    fn is_prefix_code() {
        unsigned_numbers();
    }
}

impl Item for ValType {
    type Value = ValType;

    ghost encodes = { λ text ty. EncodesValType text ty };

    ghost fault = { λ m r offset. ValTypeFault m r offset };

    fn read_item(reader: &mut BinaryReader<'_>) -> Result<ValType> {
        ValType::read(reader)
    }

    fn is_prefix_code() {
        value_types();
    }
}

/// Reads a list and returns its length. If this fails, the reader may have moved. Specification:
/// Lists.
pub fn read_length<T: Item>(reader: &mut BinaryReader<'_>) -> Result<u32>
    ensures { ReadsAhead (EncodesLength T.encodes) (LengthFault T.encodes T.fault) result reader.old reader.new }
{
    unsigned_numbers();
    T::is_prefix_code();
    let length = reader.read_var_u32()?;
    for _item in 0..length {
        T::read_item(reader)?;
    }
    Ok(length)
}
