//! Writes one immediate of each kind that owns no list and borrows nothing.
ghost use Rattle.std.specs.Prelude.{◌+◌, ◌≤◌, vec_len, vec_capacity};
ghost use Rattle.std.specs.Int.{w32, w64};
ghost use Rattle.wasm_below.specs.Number.{EncodesFixed};
ghost use Rattle.wasm_encode_numbers.specs.Appended.{Appends};
ghost use Rattle.wasm_encode_immediates.specs.Written.{WritesValue};
ghost use Rattle.wasm_encode_immediates.specs.Reasons.{HasIndexReason, HasFenceReason};
ghost use Rattle.wasm_imm.specs.Indices.{EncodesIndex};
ghost use Rattle.wasm_imm.specs.Orderings.{EncodesFence};

use crate::memory_argument::{ordering_byte, write_memory_argument};
use crate::types::{write_block_type, write_cast, write_heap_type};
use crate::unwritable::Unwritable;
use crate::writes::Writes;
use wasm_below::{HeapType, WasmFeatures};
use wasm_decode_opcodes::{
    FenceOrdering, MemoryIndex, OpMemArg, PlainMemArg, RmwMemArg, TableIndex,
};
use wasm_encode_numbers::{write_bytes, write_i32, write_i64, write_u32};
use wasm_imm::{BlockType, Cast, Ieee32, Ieee64, MemArgKind, Ordering, V128};

impl Writes for u32 {
    ghost most = { 10 };

    #[inline(always)]
    fn write(
        self,
        out: &mut Vec<u8>,
        _features: WasmFeatures,
        _bound: u8,
    ) -> Result<(), Unwritable> {
        write_u32(out, self);
        Ok(())
    }
}

impl Writes for i32 {
    ghost most = { 10 };

    #[inline(always)]
    fn write(
        self,
        out: &mut Vec<u8>,
        _features: WasmFeatures,
        _bound: u8,
    ) -> Result<(), Unwritable> {
        write_i32(out, self);
        Ok(())
    }
}

impl Writes for i64 {
    ghost most = { 10 };

    #[inline(always)]
    fn write(
        self,
        out: &mut Vec<u8>,
        _features: WasmFeatures,
        _bound: u8,
    ) -> Result<(), Unwritable> {
        write_i64(out, self);
        Ok(())
    }
}

impl Writes for Ieee32 {
    ghost most = { 4 };

    #[inline(always)]
    fn write(
        self,
        out: &mut Vec<u8>,
        _features: WasmFeatures,
        _bound: u8,
    ) -> Result<(), Unwritable> {
        write_float_32(out, self.bits());
        Ok(())
    }
}

impl Writes for Ieee64 {
    ghost most = { 8 };

    #[inline(always)]
    fn write(
        self,
        out: &mut Vec<u8>,
        _features: WasmFeatures,
        _bound: u8,
    ) -> Result<(), Unwritable> {
        write_float_64(out, self.bits());
        Ok(())
    }
}

impl Writes for V128 {
    ghost most = { 16 };

    #[inline(always)]
    fn write(
        self,
        out: &mut Vec<u8>,
        _features: WasmFeatures,
        _bound: u8,
    ) -> Result<(), Unwritable> {
        write_bytes(out, &self.0);
        Ok(())
    }
}

impl Writes for u8 {
    ghost most = { 1 };

    #[inline(always)]
    fn write(
        self,
        out: &mut Vec<u8>,
        _features: WasmFeatures,
        _bound: u8,
    ) -> Result<(), Unwritable> {
        out.push_reserved(self);
        Ok(())
    }
}

impl Writes for [u8; 16] {
    ghost most = { 16 };

    #[inline(always)]
    fn write(
        self,
        out: &mut Vec<u8>,
        _features: WasmFeatures,
        _bound: u8,
    ) -> Result<(), Unwritable> {
        write_bytes(out, &self);
        Ok(())
    }
}

impl Writes for HeapType {
    ghost most = { 11 };

    #[inline(always)]
    fn write(
        self,
        out: &mut Vec<u8>,
        _features: WasmFeatures,
        _bound: u8,
    ) -> Result<(), Unwritable> {
        write_heap_type(out, self)
    }
}

impl Writes for Cast {
    ghost most = { 33 };

    #[inline(always)]
    fn write(
        self,
        out: &mut Vec<u8>,
        _features: WasmFeatures,
        _bound: u8,
    ) -> Result<(), Unwritable> {
        write_cast(out, self);
        Ok(())
    }
}

impl Writes for BlockType {
    ghost most = { 12 };

    #[inline(always)]
    fn write(
        self,
        out: &mut Vec<u8>,
        _features: WasmFeatures,
        _bound: u8,
    ) -> Result<(), Unwritable> {
        write_block_type(out, self);
        Ok(())
    }
}

impl Writes for Ordering {
    ghost most = { 1 };

    #[inline(always)]
    fn write(
        self,
        out: &mut Vec<u8>,
        _features: WasmFeatures,
        _bound: u8,
    ) -> Result<(), Unwritable> {
        out.push_reserved(ordering_byte(self));
        Ok(())
    }
}

impl Writes for MemoryIndex {
    ghost most = { 10 };

    #[inline(always)]
    fn write(
        self,
        out: &mut Vec<u8>,
        features: WasmFeatures,
        _bound: u8,
    ) -> Result<(), Unwritable> {
        write_index(out, features, WasmFeatures::MULTI_MEMORY, self.0)
    }
}

impl Writes for TableIndex {
    ghost most = { 10 };

    #[inline(always)]
    fn write(
        self,
        out: &mut Vec<u8>,
        features: WasmFeatures,
        _bound: u8,
    ) -> Result<(), Unwritable> {
        write_index(out, features, WasmFeatures::CALL_INDIRECT_OVERLONG, self.0)
    }
}

impl Writes for PlainMemArg {
    ghost most = { 22 };

    #[inline(always)]
    fn write(self, out: &mut Vec<u8>, features: WasmFeatures, bound: u8) -> Result<(), Unwritable> {
        write_memory_argument(out, features, MemArgKind::Plain, bound, self.0)
    }
}

impl Writes for OpMemArg {
    ghost most = { 22 };

    #[inline(always)]
    fn write(self, out: &mut Vec<u8>, features: WasmFeatures, bound: u8) -> Result<(), Unwritable> {
        write_memory_argument(out, features, MemArgKind::Op, bound, self.0)
    }
}

impl Writes for RmwMemArg {
    ghost most = { 22 };

    #[inline(always)]
    fn write(self, out: &mut Vec<u8>, features: WasmFeatures, bound: u8) -> Result<(), Unwritable> {
        write_memory_argument(out, features, MemArgKind::Rmw, bound, self.0)
    }
}

impl Writes for FenceOrdering {
    ghost most = { 1 };

    #[inline(always)]
    fn write(
        self,
        out: &mut Vec<u8>,
        features: WasmFeatures,
        _bound: u8,
    ) -> Result<(), Unwritable> {
        write_fence(out, features, self.0)
    }
}

/// Appends an index: a u32 with the feature, the byte 0 without it. Fails with `NeedsFeature` if
/// the index is not 0 and the feature is off.
#[inline(always)]
fn write_index(
    out: &mut Vec<u8>,
    features: WasmFeatures,
    feature: WasmFeatures,
    index: u32,
) -> Result<(), Unwritable>
    requires { vec_len out.old + 10 ≤ vec_capacity out.old }
    ensures written { WritesValue (EncodesIndex feature features) (HasIndexReason feature features)
        index result out.old out.new }
    ensures len { vec_len out.new ≤ vec_len out.old + 10 }
{
    if features.contains(feature) {
        write_u32(out, index);
        return Ok(());
    }
    if index == 0 {
        out.push_reserved(0);
        return Ok(());
    }
    Err(Unwritable::NeedsFeature(feature))
}

/// Appends the byte of a fence. Without ACQUIRE_RELEASE_ATOMICS only `SeqCst` has one; else it
/// fails with `NeedsFeature`.
fn write_fence(
    out: &mut Vec<u8>,
    features: WasmFeatures,
    ordering: Ordering,
) -> Result<(), Unwritable>
    requires { vec_len out.old + 1 ≤ vec_capacity out.old }
    ensures written { WritesValue (EncodesFence features) (HasFenceReason features) ordering result out.old out.new }
    ensures len { vec_len out.new ≤ vec_len out.old + 1 }
{
    if features.contains(WasmFeatures::ACQUIRE_RELEASE_ATOMICS) {
        out.push_reserved(ordering_byte(ordering));
        return Ok(());
    }
    match ordering {
        Ordering::SeqCst => {
            out.push_reserved(0);
            Ok(())
        }
        Ordering::AcqRel => Err(Unwritable::NeedsFeature(WasmFeatures::ACQUIRE_RELEASE_ATOMICS)),
    }
}

#[inline(always)]
fn write_float_32(out: &mut Vec<u8>, bits: u32)
    requires { vec_len out.old + 4 ≤ vec_capacity out.old }
    ensures written { Appends (EncodesFixed w32) bits out.old.items out.new.items }
    ensures len { vec_len out.new ≤ vec_len out.old + 4 }
    ensures capacity { vec_capacity out.old ≤ vec_capacity out.new }
{
    let bytes = bits.to_le_bytes();
    write_bytes(out, &bytes);
}

#[inline(always)]
fn write_float_64(out: &mut Vec<u8>, bits: u64)
    requires { vec_len out.old + 8 ≤ vec_capacity out.old }
    ensures written { Appends (EncodesFixed w64) bits out.old.items out.new.items }
    ensures len { vec_len out.new ≤ vec_len out.old + 8 }
    ensures capacity { vec_capacity out.old ≤ vec_capacity out.new }
{
    let bytes = bits.to_le_bytes();
    write_bytes(out, &bytes);
}
