ghost use Rattle.std.specs.Prelude.{◌≡◌, ◌<◌, ◌^◌, [], length, OnOk, IfErr};
ghost use Rattle.wasm_below.specs.Source.{rest};
ghost use Rattle.wasm_encode_numbers.specs.Appended.{Appends};
ghost use Rattle.wasm_compaction.specs.Blocks.{EncodesBlock};
ghost use Rattle.wasm_compaction.specs.Compaction.{CompactsCode};
ghost use Rattle.wasm_compaction.specs.Faults.{RefusesCode, RefusesNext};
ghost use Rattle.wasm_compaction.specs.Reading.{ReadsBody};

use crate::CompactionFault;
use crate::body::compact_body;
use std::alloc::Global;
use wasm_encode_numbers::{write_bytes, write_u32};
use wasm_operators::{BinaryReader, Error, Message};

/// Writes the contents of a code section with the shortest encodings into an empty vector: at most
/// as many bytes.
///
/// Fails with `Refused` at the number of bodies, at the size of a body or at data after the bodies,
/// and with `Body`.
pub fn compact_code(
    alloc: Global,
    contents: BinaryReader<'_>,
    out: &mut Vec<u8>,
) -> Result<(), CompactionFault>
    requires { out.old.items ≡ [] }
    ensures compacts { OnOk result (CompactsCode contents.entry.features (rest contents.entry) out.new.items) }
    ensures refuses { IfErr result (λ fault. RefusesCode fault contents.entry) }
{
    let mut reader = contents;
    let count = match reader.read_var_u32() {
        Ok(count) => count,
        Err(e) => return Err(CompactionFault::Refused(e)),
    };
    if out.reserve(10).is_err() {
        return Err(CompactionFault::Memory);
    }
    write_u32(out, count);
    'bodies: for index in 0..count {
        compact_next(alloc, index, &mut reader, out)?;
    }
    if !reader.eof() {
        let e = Error::new(Message::DataAfterSection, reader.original_position());
        return Err(CompactionFault::Refused(e));
    }
    Ok(())
}

/// Reads the size of a body and the body, and appends both with the shortest encodings.
fn compact_next(
    alloc: Global,
    index: u32,
    reader: &mut BinaryReader<'_>,
    out: &mut Vec<u8>,
) -> Result<(), CompactionFault>
    ensures compacts { OnOk result (ReadsBody reader.old reader.new out.old.items out.new.items) }
    ensures refuses { IfErr result (λ fault. RefusesNext index fault reader.old) }
{
    let part = match reader.read_reader() {
        Ok(part) => part,
        Err(e) => return Err(CompactionFault::Refused(e)),
    };
    let mut body = Vec::new(alloc);
    match compact_body(alloc, part, &mut body) {
        Ok(()) => append_block(out, body.as_slice()),
        Err(e) => match e.message() {
            Message::OutOfMemory => Err(CompactionFault::Memory),
            _ => Err(CompactionFault::Body(index, e)),
        },
    }
}

/// Appends the number of bytes, in its shortest encoding, and the bytes. Fails with `Memory`.
pub fn append_block(out: &mut Vec<u8>, block: &[u8]) -> Result<(), CompactionFault>
    requires { length block.now < 2 ^ 32 }
    ensures appends { OnOk result (Appends EncodesBlock block.now out.old.items out.new.items) }
    ensures memory { IfErr result (λ fault. fault ≡ CompactionFault.Memory) }
{
    match out.reserve(10 + block.len()) {
        Ok(()) => {
            write_u32(out, block.len() as u32);
            write_bytes(out, block);
            Ok(())
        }
        Err(_) => Err(CompactionFault::Memory),
    }
}
