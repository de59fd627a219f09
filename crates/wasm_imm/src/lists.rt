ghost use Rattle.std.specs.Prelude.{◌≡◌, ◌+◌, ◌≤◌, ⊤, false, IfOk, vec_capacity};
ghost use Rattle.wasm_below.specs.Fault.{ManyFault};
ghost use Rattle.wasm_below.specs.FromReader.{ReadsValue};
ghost use Rattle.wasm_below.specs.Source.{at_position, offset_of, end_of};
ghost use Rattle.wasm_imm.specs.ListFaults.{ListFault};
ghost use Rattle.wasm_imm.specs.Lists.{HasCount, EncodesMany, EncodesList, items_of};
ghost use Rattle.wasm_imm.specs.OutOfMemory.{IsRefusedFrom};

use crate::members::Members;
use std::alloc::Global;
use wasm_below::{BinaryReader, Error, FromReader, Message, Result, SizeName};

/// Reads a count of at most `limit`, and that many members. Allocates once.
///
/// Fails like `read_size`, then like `T::from_reader`. Allocation can fail only after a count
/// within the limit.
pub fn read_list<'a, T: FromReader<'a>>(
    alloc: Global,
    reader: &mut BinaryReader<'a>,
    limit: usize,
    desc: SizeName,
) -> Result<Members<T>>
    requires { T.Memory.TAKES ≡ false }
    ensures { ReadsValue (EncodesList limit (T.encodes reader.old.features))
        (ListFault desc limit (T.encodes reader.old.features) T.fault) (HasCount limit) result reader.old reader.new }
{
    let start = reader.current_position();
    let count = match reader.read_size(limit, desc) {
        Ok(count) => count,
        Err(e) => return Err(e),
    };
    match read_members::<T>(alloc, reader, count) {
        Ok(members) => Ok(members),
        Err(e) => Err(refuse_from(reader, start, e)),
    }
}

/// Reads `count` members, as `read_items` does.
pub fn read_members<'a, T: FromReader<'a>>(
    alloc: Global,
    reader: &mut BinaryReader<'a>,
    count: usize,
) -> Result<Members<T>>
    requires lean { T.Memory.TAKES ≡ false }
    requires within { offset_of reader.old ≤ end_of reader.old }
    ensures { ReadsValue (EncodesMany (T.encodes reader.old.features) count)
        (ManyFault (T.encodes reader.old.features) T.fault count) (λ old. ⊤) result reader.old reader.new }
{
    match read_items::<T>(alloc, reader, count) {
        Ok(items) => Ok(Members::from_vec(items)),
        Err(e) => Err(e),
    }
}

/// Reads `count` items. Allocates once, for exactly that many.
fn read_items<'a, T: FromReader<'a>>(
    alloc: Global,
    reader: &mut BinaryReader<'a>,
    count: usize,
) -> Result<Vec<T>>
    requires lean { T.Memory.TAKES ≡ false }
    requires within { offset_of reader.old ≤ end_of reader.old }
    ensures reads { ReadsValue (EncodesMany (T.encodes reader.old.features) count)
        (ManyFault (T.encodes reader.old.features) T.fault count) (λ old. ⊤) (items_of result) reader.old reader.new }
    ensures exact { IfOk result (λ items. vec_capacity items ≡ count) }
{
    T::is_prefix_code();
    let mut ahead = reader.clone();
    let mut items = match Vec::with_capacity(alloc, count) {
        Ok(items) => items,
        Err(_) => return Err(Error::new(Message::OutOfMemory, reader.original_position())),
    };
    for _member in 0..count {
        let item = T::from_reader(alloc, &mut ahead)?;
        items.push_reserved(item);
    }
    *reader = ahead;
    Ok(items)
}

/// Goes back to `position`, where a call began. `OutOfMemory` gets that offset; other errors are
/// unchanged.
#[cold]
#[inline(never)]
pub fn refuse_from(reader: &mut BinaryReader<'_>, position: usize, e: Error) -> Error
    requires { position ≤ reader.old.position }
    ensures back { reader.new ≡ at_position reader.old position }
    ensures reported { IsRefusedFrom (reader.old.start + position) e result }
{
    reader.rewind(position);
    match e.message {
        Message::OutOfMemory => Error::new(e.message, reader.original_position()),
        _ => e,
    }
}
