ghost use Rattle.wasm_below.specs.Source.{Reads};
ghost use Rattle.wasm_below.specs.TypeEncoding.{HeapTypeFault};
ghost use Rattle.wasm_imm.specs.CastFaults.{CastFault};
ghost use Rattle.wasm_imm.specs.Casts.{EncodesCast, EncodesReference};

use wasm_below::{BinaryReader, Error, HeapType, Message, RefType, Result};

/// The immediates of `br_on_cast` and its variants.
#[derive(Clone, Copy, Debug, PartialEq, Eq)]
pub struct Cast {
    /// The label, counted outwards from the innermost block.
    pub relative_depth: u32,
    pub from: RefType,
    /// The type that the reference is tested for.
    pub to: RefType,
}

impl Cast {
    /// Reads a cast. Specification: Control Instructions.
    ///
    /// Fails with `EndOfData` at the flags, then like `read_var_u32` at the label, then with
    /// `InvalidCastFlags` at flags above 3, then like `HeapType::read`.
    #[inline(never)]
    pub fn read(reader: &mut BinaryReader<'_>) -> Result<Cast>
        ensures { Reads EncodesCast CastFault result reader.old reader.new }
    {
        let mut ahead = reader.clone();
        let flags = ahead.read_u8()?;
        let relative_depth = ahead.read_var_u32()?;
        if flags > 3 {
            return Err(Error::new(Message::InvalidCastFlags(flags), reader.original_position()));
        }
        let from = read_reference(&mut ahead, flags % 2 == 1)?;
        let to = read_reference(&mut ahead, flags / 2 == 1)?;
        *reader = ahead;
        Ok(Cast {
            relative_depth,
            from,
            to,
        })
    }
}

fn read_reference(reader: &mut BinaryReader<'_>, nullable: bool) -> Result<RefType>
    ensures { Reads (EncodesReference nullable) HeapTypeFault result reader.old reader.new }
{
    match HeapType::read(reader) {
        Ok(heap_type) => match RefType::new(nullable, heap_type) {
            Some(ty) => Ok(ty),
            None => unreachable!(),
        },
        Err(e) => Err(e),
    }
}
