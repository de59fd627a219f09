ghost use Rattle.std.specs.Prelude.{◌<◌, length};
ghost use Rattle.wasm_grammars.specs.Blocks.{block, sized};
ghost use Rattle.wasm_grammars.specs.Parts.{byte, u32, u64, size};
ghost use Rattle.wasm_write_grammars.specs.Writing.{AppendsBy, NoReason, SizeReason, SizedReason};

use wasm_below::{Message, NumberName, SizeName};
use wasm_encode_numbers::{write_bytes, write_u32, write_u64};

pub fn append_byte(out: &mut Vec<u8>, value: u8) -> Result<(), Message>
    ensures { AppendsBy byte NoReason value result out.old.items out.new.items }
{
    match out.push(value) {
        Ok(()) => Ok(()),
        Err(_) => Err(Message::OutOfMemory),
    }
}

/// Appends a number of 32 bits in the fewest bytes.
pub fn append_u32(out: &mut Vec<u8>, number: u32) -> Result<(), Message>
    ensures { AppendsBy u32 NoReason number result out.old.items out.new.items }
{
    match out.reserve(10) {
        Ok(()) => {
            write_u32(out, number);
            Ok(())
        }
        Err(_) => Err(Message::OutOfMemory),
    }
}

/// Appends a number of 64 bits in the fewest bytes.
pub fn append_u64(out: &mut Vec<u8>, number: u64) -> Result<(), Message>
    ensures { AppendsBy u64 NoReason number result out.old.items out.new.items }
{
    match out.reserve(10) {
        Ok(()) => {
            write_u64(out, number);
            Ok(())
        }
        Err(_) => Err(Message::OutOfMemory),
    }
}

/// Appends a count in the fewest bytes. Fails with `SizeOutOfBounds` above `limit`.
pub fn append_size(
    out: &mut Vec<u8>,
    limit: usize,
    desc: SizeName,
    count: usize,
) -> Result<(), Message>
    requires { limit < 4294967296 }
    ensures { AppendsBy (size limit desc) (SizeReason limit desc) count result out.old.items out.new.items }
{
    if count > limit {
        return Err(Message::SizeOutOfBounds(desc));
    }
    match append_u32(out, count as u32) {
        Ok(()) => Ok(()),
        Err(message) => Err(message),
    }
}

/// Appends bytes as they are, without their number.
pub fn append_bytes(out: &mut Vec<u8>, bytes: &[u8]) -> Result<(), Message>
    ensures { AppendsBy (block (length bytes.now)) NoReason bytes.now result out.old.items out.new.items }
{
    match out.extend_from_slice(bytes) {
        Ok(()) => Ok(()),
        Err(_) => Err(Message::OutOfMemory),
    }
}

/// Appends a number of bytes, and the bytes. Fails with `IntegerTooLarge` for 2^32 bytes or more.
pub fn append_sized(out: &mut Vec<u8>, bytes: &[u8]) -> Result<(), Message>
    ensures { AppendsBy sized SizedReason bytes.now result out.old.items out.new.items }
{
    if bytes.len() > 0xffff_ffff {
        return Err(Message::IntegerTooLarge(NumberName::VarU32));
    }
    append_u32(out, bytes.len() as u32)?;
    append_bytes(out, bytes)?;
    Ok(())
}
