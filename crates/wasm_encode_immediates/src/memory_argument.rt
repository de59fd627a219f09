//! Writes memory arguments (Binary Format, Instructions, Memory Instructions).
ghost use Rattle.std.specs.Prelude.{◌≡◌, ◌+◌, ◌++◌, ◌≤◌, OnOk, IfErr, IsTrue, ◌↔◌, vec_len, vec_capacity};
ghost use Rattle.wasm_imm.specs.MemoryArgument.{ordering_byte, rmw_byte, EncodesMemArg};
ghost use Rattle.wasm_encode_immediates.specs.MemoryBytes.{IsWritable, memory_argument_bytes, target_part, target_bytes, ordering_part, ordering_bytes};
ghost use Rattle.wasm_encode_immediates.specs.Reasons.{HasMemoryReason, IsOfKind};
ghost use Rattle.wasm_encode_immediates.specs.Written.{WritesValue};

use crate::unwritable::Unwritable;
use wasm_below::WasmFeatures;
use wasm_encode_numbers::write_u64;
use wasm_imm::{MemArg, MemArgKind, MemArgOrdering, MemArgTarget, Ordering};

/// Appends the shortest encoding of a memory argument. `max_align` is the operator's natural
/// alignment as an exponent.
///
/// Fails with the first reason that applies: `NaturalAlignment`, `Alignment`, `NeedsFeature` of the
/// offset, of the target and of the ordering, `WrongOrdering`.
#[inline(always)]
pub fn write_memory_argument(
    out: &mut Vec<u8>,
    features: WasmFeatures,
    kind: MemArgKind,
    max_align: u8,
    value: MemArg,
) -> Result<(), Unwritable>
    requires { vec_len out.old + 22 ≤ vec_capacity out.old }
    ensures written { WritesValue (EncodesMemArg features kind max_align) (HasMemoryReason features kind max_align)
        value result out.old out.new }
    ensures len { vec_len out.new ≤ vec_len out.old + 22 }
{
    match check(features, kind, max_align, value) {
        Ok(()) => {
            write_parts(out, value);
            Ok(())
        }
        Err(why) => Err(why),
    }
}

/// Checks that a memory argument has an encoding.
#[inline(always)]
fn check(
    features: WasmFeatures,
    kind: MemArgKind,
    max_align: u8,
    value: MemArg,
) -> Result<(), Unwritable>
    ensures writable { OnOk result (IsWritable features kind max_align value) }
    ensures unwritable { IfErr result (λ e. HasMemoryReason features kind max_align value e) }
{
    if value.max_align != max_align {
        return Err(Unwritable::NaturalAlignment);
    }
    if value.align > 15 {
        return Err(Unwritable::Alignment);
    }
    if value.offset >= 0x1_0000_0000 && !features.contains(WasmFeatures::MEMORY64) {
        return Err(Unwritable::NeedsFeature(WasmFeatures::MEMORY64));
    }
    match value.target {
        MemArgTarget::Memory(index) => {
            if index != 0 && !features.contains(WasmFeatures::MULTI_MEMORY) {
                return Err(Unwritable::NeedsFeature(WasmFeatures::MULTI_MEMORY));
            }
        }
        MemArgTarget::Array(_) => {
            if !features.contains(WasmFeatures::MULTIBYTE_ARRAY_ACCESS) {
                return Err(Unwritable::NeedsFeature(WasmFeatures::MULTIBYTE_ARRAY_ACCESS));
            }
        }
    }
    match value.ordering {
        None => Ok(()),
        Some(ordering) => {
            if !features.contains(WasmFeatures::ACQUIRE_RELEASE_ATOMICS) {
                return Err(Unwritable::NeedsFeature(WasmFeatures::ACQUIRE_RELEASE_ATOMICS));
            }
            if is_of_kind(kind, ordering) {
                Ok(())
            } else {
                Err(Unwritable::WrongOrdering)
            }
        }
    }
}

fn is_of_kind(kind: MemArgKind, ordering: MemArgOrdering) -> bool
    ensures { IsTrue result ↔ IsOfKind kind ordering }
{
    match ordering {
        MemArgOrdering::Op(_) => matches!(kind, MemArgKind::Op),
        MemArgOrdering::Rmw(_) => matches!(kind, MemArgKind::Rmw),
    }
}

/// Returns the flag of an index: 64 for a memory other than 0, 32 for an array.
#[inline(always)]
fn target_part(target: MemArgTarget) -> u8
    ensures value { result ≡ target_part target }
    ensures small { result ≤ 64 }
{
    match target {
        MemArgTarget::Memory(index) => if index == 0 { 0 } else { 64 },
        MemArgTarget::Array(_) => 32,
    }
}

/// Returns the flag of an ordering: 16.
#[inline(always)]
fn ordering_part(ordering: Option<MemArgOrdering>) -> u8
    ensures value { result ≡ ordering_part ordering }
    ensures small { result ≤ 16 }
{
    match ordering {
        None => 0,
        Some(_) => 16,
    }
}

/// Appends the index if a flag announces one.
#[inline(always)]
fn write_target(out: &mut Vec<u8>, target: MemArgTarget)
    requires { vec_len out.old + 10 ≤ vec_capacity out.old }
    ensures bytes { out.new.items ≡ out.old.items ++ target_bytes target }
    ensures len { vec_len out.new ≤ vec_len out.old + 10 }
    ensures capacity { vec_capacity out.old ≤ vec_capacity out.new }
{
    match target {
        MemArgTarget::Memory(index) => {
            if index == 0 {
                return;
            }
            write_u64(out, index as u64)
        }
        MemArgTarget::Array(index) => write_u64(out, index as u64),
    }
}

/// Returns the byte of an ordering that is alone or in a load or store.
#[inline(always)]
pub fn ordering_byte(ordering: Ordering) -> u8
    ensures { result ≡ ordering_byte ordering }
{
    match ordering {
        Ordering::SeqCst => 0x00,
        Ordering::AcqRel => 0x01,
    }
}

/// Returns the byte of an ordering in a read-modify-write operator.
fn rmw_byte(ordering: Ordering) -> u8
    ensures { result ≡ rmw_byte ordering }
{
    match ordering {
        Ordering::SeqCst => 0x00,
        Ordering::AcqRel => 0x11,
    }
}

/// Appends the ordering if a flag announces one.
#[inline(always)]
fn write_ordering(out: &mut Vec<u8>, ordering: Option<MemArgOrdering>)
    requires { vec_len out.old + 1 ≤ vec_capacity out.old }
    ensures bytes { out.new.items ≡ out.old.items ++ ordering_bytes ordering }
    ensures len { vec_len out.new ≤ vec_len out.old + 1 }
    ensures capacity { vec_capacity out.old ≤ vec_capacity out.new }
{
    match ordering {
        None => {}
        Some(MemArgOrdering::Op(order)) => out.push_reserved(ordering_byte(order)),
        Some(MemArgOrdering::Rmw(order)) => out.push_reserved(rmw_byte(order)),
    }
}

#[inline(always)]
fn write_parts(out: &mut Vec<u8>, value: MemArg)
    requires align { value.align ≤ 15 }
    requires space { vec_len out.old + 22 ≤ vec_capacity out.old }
    ensures bytes { out.new.items ≡ out.old.items ++ memory_argument_bytes value }
    ensures len { vec_len out.new ≤ vec_len out.old + 22 }
    ensures capacity { vec_capacity out.old ≤ vec_capacity out.new }
{
    out.push_reserved(value.align + ordering_part(value.ordering) + target_part(value.target));
    write_target(out, value.target);
    write_ordering(out, value.ordering);
    write_u64(out, value.offset);
}
