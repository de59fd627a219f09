ghost use Rattle.std.specs.Prelude.{◌≡◌, ◌==◌};
ghost use Rattle.wasm_grammars.specs.Blocks.{sized};
ghost use Rattle.wasm_segments.specs.Segments.{memory_index, data_kind, data_segment};
ghost use Rattle.wasm_write_grammars.specs.Writing.{AppendsBy, NoReason, SizedReason};
ghost use Rattle.wasm_encode_sections.specs.SegmentReasons.{PlaceReason, DataReason};
ghost use Rattle.wasm_encode_sections.specs.SegmentFlags.{active_flags, data_flags};

use crate::write::Write;
use wasm_below::{Message, WasmFeatures};
use wasm_grammars::Bytes;
use wasm_segments::{Data, DataKind};
use wasm_write_grammars::{append_sized, append_u32};

impl<'a> Write for Bytes<'a> {
    ghost grammar = { λ features. sized };

    ghost reason = { λ features. SizedReason };

    fn append_to(&self, _features: WasmFeatures, out: &mut Vec<u8>) -> Result<(), Message> {
        match append_sized(out, self.as_slice()) {
            Ok(()) => Ok(()),
            Err(message) => Err(message),
        }
    }
}

/// Returns the number at the start of a segment of this kind.
fn data_flags<C>(kind: &DataKind<C>) -> u32
    ensures { result ≡ data_flags kind.now }
{
    match kind {
        DataKind::Passive => 1,
        DataKind::Active { memory_index, .. } => active_flags(*memory_index == 0),
    }
}

fn active_flags(is_first: bool) -> u32
    ensures { result ≡ active_flags is_first }
{
    if is_first { 0 } else { 2 }
}

/// Appends a memory's index, unless it is 0.
fn append_memory_index(out: &mut Vec<u8>, index: u32) -> Result<(), Message>
    ensures { AppendsBy (memory_index (active_flags (index == 0) == 2)) NoReason index result out.old.items out.new.items }
{
    if index == 0 {
        return Ok(());
    }
    append_u32(out, index)
}

/// Appends the memory's index and the offset of an active segment.
fn append_place<C: Write>(
    out: &mut Vec<u8>,
    features: WasmFeatures,
    kind: &DataKind<C>,
) -> Result<(), Message>
    ensures { AppendsBy (data_kind (C.grammar features) (data_flags kind.now)) (PlaceReason (C.reason features))
        kind.now result out.old.items out.new.items }
{
    match kind {
        DataKind::Passive => Ok(()),
        DataKind::Active {
            memory_index,
            offset_expr,
        } => {
            append_memory_index(out, *memory_index)?;
            offset_expr.append_to(features, out)?;
            Ok(())
        }
    }
}

/// The index of memory 0 is not written, which is shorter.
impl<'a, C: Write> Write for Data<'a, C> {
    ghost grammar = { λ features. data_segment (C.grammar features) };

    ghost reason = { λ features. DataReason (C.reason features) };

    fn append_to(&self, features: WasmFeatures, out: &mut Vec<u8>) -> Result<(), Message> {
        append_u32(out, data_flags(&self.kind))?;
        append_place(out, features, &self.kind)?;
        self.data.append_to(features, out)?;
        Ok(())
    }
}
