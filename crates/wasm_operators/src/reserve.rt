//! Reserving capacity, with the allocation out of line.
ghost use Rattle.std.specs.Prelude.{◌≡◌, ◌+◌, ◌<◌, ◌≤◌, length, max, OnOk, OnErr, vec_capacity, vec_len};
ghost use Rattle.wasm_operators.specs.Collecting.{GrowsAsFilled};

use std::alloc::AllocError;

/// The capacity of a list's first allocation.
const LEAST: usize = 4;

/// Reserves capacity for one more item. The capacity of a full list doubles, or becomes `LEAST`
/// more.
#[inline(always)]
pub fn reserve_one<T>(list: &mut Vec<T>) -> Result<(), AllocError>
    ensures items { list.new.items ≡ list.old.items }
    ensures room { OnOk result (vec_len list.new < vec_capacity list.new) }
    ensures full { OnErr result (vec_capacity list.new < vec_len list.new + 1) }
    ensures kept { vec_capacity list.old ≤ vec_capacity list.new }
    ensures grows { GrowsAsFilled (vec_capacity list.old) (length list.old.items) (vec_capacity list.new) }
{
    if list.len() < list.capacity() {
        return Ok(());
    }
    let more = list.len().max(LEAST);
    if reserve_exact(list, more).is_err() {
        return Err(AllocError);
    }
    Ok(())
}

#[cold]
#[inline(never)]
pub fn reserve_exact<T>(list: &mut Vec<T>, more: usize) -> Result<(), AllocError>
    ensures items { list.new.items ≡ list.old.items }
    ensures kept { vec_capacity list.old ≤ vec_capacity list.new }
    ensures room { OnOk result (vec_len list.new + more ≤ vec_capacity list.new) }
    ensures exact { OnOk result (vec_capacity list.new ≡ max (vec_capacity list.old) (vec_len list.old + more)) }
    ensures refused { OnErr result (vec_capacity list.new ≡ vec_capacity list.old) }
{
    list.try_reserve_exact(more)
}
