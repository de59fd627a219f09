//! Data segments.
ghost use Rattle.std.specs.Prelude.{◌≡◌, ◌++◌, OnOk, option_map, string_bytes};
ghost use Rattle.wasm_details.specs.Segments.{data_offset, memory_of, size_text, segment_begin, data_head, ListsSegment};

use crate::constants::{ConstantDetails, show_offset};
use crate::details::Details;
use crate::elements::{address_of, after_segment};
use crate::externals::push_name;
use crate::place::Place;
use std::alloc::Global;
use std::io::Write;
use wasm_index_names::Names;
use wasm_rows::{Fault, write_rows, write_text};
use wasm_segments::{Data, DataKind};
use wasm_text::Written;

/// Returns the offset of an active segment.
fn data_offset<C>(kind: &DataKind<C>) -> Option<&C>
    ensures { option_map (λ c. c.now) result ≡ data_offset kind.now }
{
    match kind {
        DataKind::Active {
            memory_index: _,
            offset_expr,
        } => Some(offset_expr),
        DataKind::Passive => None,
    }
}

/// Appends the memory of an active segment, or that a segment is passive.
fn push_memory_of<C>(out: &mut String, kind: &DataKind<C>) -> Written
    ensures { OnOk result (string_bytes out.new ≡ string_bytes out.old ++ memory_of kind.now) }
{
    match kind {
        DataKind::Active {
            memory_index,
            offset_expr: _,
        } => write!(out, " memory={memory_index}"),
        DataKind::Passive => out.push_str(" passive"),
    }
}

#[tactic(auto, unfolding(crate::specs::Segments::segment_begin))]
/// Appends the index of a segment.
fn push_segment(out: &mut String, index: u32) -> Written
    ensures { OnOk result (string_bytes out.new ≡ string_bytes out.old ++ segment_begin index) }
{
    write!(out, " - segment[{index}]")
}

/// Appends the number of a segment's bytes, and its offset.
fn push_size(out: &mut String, size: usize, offset: &str) -> Written
    ensures { OnOk result (string_bytes out.new ≡ string_bytes out.old ++ size_text size offset.now) }
{
    write!(out, " size={size}")?;
    out.push_str(offset)?;
    out.push_str("\n")
}

/// Appends the line of a segment.
fn push_data<C>(
    out: &mut String,
    names: &Names,
    index: u32,
    segment: &Data<'_, C>,
    offset: &str,
) -> Written
    ensures { OnOk result (string_bytes out.new ≡ string_bytes out.old ++ data_head names.now index segment.now offset.now) }
{
    push_segment(out, index)?;
    push_name(out, names.segment(index))?;
    push_memory_of(out, &segment.kind)?;
    push_size(out, segment.data.as_slice().len(), offset)
}

impl<'a, C: ConstantDetails<'a>> Details<'a, Names> for Data<'a, C> {
    ghost lists = { λ names. ListsSegment C.shows names };

    fn write_lines<W: Write>(
        self,
        alloc: Global,
        writer: &mut W,
        line: &mut String,
        names: &Names,
        place: Place,
    ) -> Result<Place, Fault> {
        let Ok(shown) = show_offset(alloc, names, data_offset(&self.kind)) else {
            return Err(Fault::Memory);
        };
        line.clear();
        if push_data(line, names, place.next, &self, shown.text.as_str()).is_err() {
            return Err(Fault::Memory);
        }
        if let Err(fault) = write_text(writer, line.as_str()) {
            return Err(fault);
        }
        let address = address_of(shown.number, place.address);
        let next = after_segment(place, shown.number);
        match write_rows(writer, line, "  - ", address, self.data.as_slice()) {
            Ok(()) => Ok(next),
            Err(fault) => Err(fault),
        }
    }
}
