ghost use Rattle.std.specs.Prelude.{◌<◌, ◌≤◌};
ghost use Rattle.wasm_below.specs.Ahead.{ReadsAhead};
ghost use Rattle.wasm_below.specs.Source.{Reads};
ghost use Rattle.wasm_imm.specs.HandlerFaults.{PairFault, IndicesFault, CatchFault, HandleFault};
ghost use Rattle.wasm_imm.specs.Handlers.{EncodesPair, EncodesCatch, EncodesHandle, IsCatchAfterByte, IsHandleAfterByte};

use std::alloc::Global;
use wasm_below::{
    BinaryReader, Error, FromReader, LeadingByteName, MemoryUse, Message, Never, Result, UsesMemory,
};

#[derive(Clone, Copy, Debug, PartialEq, Eq)]
pub enum Catch {
    /// Exceptions with this tag branch to this label, with their values.
    One { tag: u32, label: u32 },
    /// Like `One`, with a reference to the exception too.
    OneRef { tag: u32, label: u32 },
    /// All exceptions branch to this label.
    All { label: u32 },
    /// Like `All`, with a reference to the exception.
    AllRef { label: u32 },
}

impl Catch {
    /// Reads a catch. Specification: Control Instructions.
    ///
    /// Fails with `EndOfData`, with `InvalidLeadingByte` at a first byte above 3, or then like
    /// `read_var_u32`.
    #[inline(always)]
    pub fn read(reader: &mut BinaryReader<'_>) -> Result<Catch>
        ensures { Reads EncodesCatch CatchFault result reader.old reader.new }
    {
        let mut ahead = reader.clone();
        let byte = ahead.read_u8()?;
        if byte > 3 {
            return Err(Error::new(
                Message::InvalidLeadingByte(byte, LeadingByteName::Catch),
                reader.original_position(),
            ));
        }
        let catch = Catch::read_after_byte(&mut ahead, byte)?;
        *reader = ahead;
        Ok(catch)
    }

    #[inline(always)]
    fn read_after_byte(reader: &mut BinaryReader<'_>, byte: u8) -> Result<Catch>
        requires { byte ≤ 3 }
        ensures { ReadsAhead (IsCatchAfterByte byte) (IndicesFault 1 byte) result reader.old reader.new }
    {
        if byte <= 1 {
            return match read_pair(reader) {
                Ok((tag, label)) => Ok(if byte == 0 {
                    Catch::One { tag, label }
                } else {
                    Catch::OneRef { tag, label }
                }),
                Err(e) => Err(e),
            };
        }
        match reader.read_var_u32() {
            Ok(label) => Ok(if byte == 2 {
                Catch::All { label }
            } else {
                Catch::AllRef { label }
            }),
            Err(e) => Err(e),
        }
    }
}

impl UsesMemory for Catch {
    type Memory = Never;
}

impl<'a> FromReader<'a> for Catch {
    ghost encodes = { λ features text c. EncodesCatch text c };

    ghost fault = { λ m r offset. CatchFault m r offset };

    fn from_reader(_alloc: Global, reader: &mut BinaryReader<'a>) -> Result<Catch> {
        Catch::read(reader)
    }

    fn is_prefix_code() {}

    fn determines_refusal() {}
}

/// A clause of a resume table. Proposal stack switching.
#[derive(Clone, Copy, Debug, PartialEq, Eq)]
pub enum Handle {
    /// Suspensions with this tag branch to this label.
    OnLabel { tag: u32, label: u32 },
    /// Handles a switch with this tag, without a label.
    OnSwitch { tag: u32 },
}

impl Handle {
    /// Reads a clause. Proposal stack switching.
    ///
    /// Fails with `EndOfData`, with `InvalidLeadingByte` at a first byte above 1, or then like
    /// `read_var_u32`.
    #[inline(always)]
    pub fn read(reader: &mut BinaryReader<'_>) -> Result<Handle>
        ensures { Reads EncodesHandle HandleFault result reader.old reader.new }
    {
        let mut ahead = reader.clone();
        let byte = ahead.read_u8()?;
        if byte > 1 {
            return Err(Error::new(
                Message::InvalidLeadingByte(byte, LeadingByteName::OnClause),
                reader.original_position(),
            ));
        }
        let handle = Handle::read_after_byte(&mut ahead, byte)?;
        *reader = ahead;
        Ok(handle)
    }

    #[inline(always)]
    fn read_after_byte(reader: &mut BinaryReader<'_>, byte: u8) -> Result<Handle>
        requires { byte ≤ 1 }
        ensures { ReadsAhead (IsHandleAfterByte byte) (IndicesFault 0 byte) result reader.old reader.new }
    {
        if byte == 0 {
            return match read_pair(reader) {
                Ok((tag, label)) => Ok(Handle::OnLabel { tag, label }),
                Err(e) => Err(e),
            };
        }
        match reader.read_var_u32() {
            Ok(tag) => Ok(Handle::OnSwitch { tag }),
            Err(e) => Err(e),
        }
    }
}

impl UsesMemory for Handle {
    type Memory = Never;
}

impl<'a> FromReader<'a> for Handle {
    ghost encodes = { λ features text h. EncodesHandle text h };

    ghost fault = { λ m r offset. HandleFault m r offset };

    fn from_reader(_alloc: Global, reader: &mut BinaryReader<'a>) -> Result<Handle> {
        Handle::read(reader)
    }

    fn is_prefix_code() {}

    fn determines_refusal() {}
}

#[inline(always)]
fn read_pair(reader: &mut BinaryReader<'_>) -> Result<(u32, u32)>
    ensures { ReadsAhead EncodesPair PairFault result reader.old reader.new }
{
    let first = reader.read_var_u32()?;
    let second = reader.read_var_u32()?;
    Ok((first, second))
}
