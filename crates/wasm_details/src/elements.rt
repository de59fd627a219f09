//! Element segments.
ghost use Rattle.std.specs.Prelude.{◌≡◌, ◌<◌, ◌++◌, ℕ, OnOk, option_map, string_bytes};
ghost use Rattle.wasm_grammars.specs.Parts.{u32};
ghost use Rattle.wasm_details.specs.Segments.{element_offset, table_or_first, table_of, active_flags, kind_flags, items_flags, count_of, flags_text, counts_text, element_head, element_index, entry_begin, entry_line, function_entry, address_of, after_segment, first_element, ListsFunction, ListsExpression, ListsReferences, ListsInside, ListsElement};
ghost use Rattle.wasm_rows.specs.Writing.{WritesText};

use crate::constants::{ConstantDetails, Usage, show_offset};
use crate::details::Details;
use crate::externals::push_name;
use crate::items::write_items;
use crate::place::{Place, after_index, after_one};
use std::alloc::Global;
use std::io::Write;
use std::marker::Model;
use wasm_below::{BinaryReader, Result as ReadResult};
use wasm_grammars::Read;
use wasm_index_names::Names;
use wasm_rows::{Fault, write_text};
use wasm_sections::SectionReader;
use wasm_segments::{Element, ElementItems, ElementKind};
use wasm_text::Written;

/// An element that is the index of a function.
#[derive(Drop)]
struct FunctionElement {
    index: u32,
}

impl Model for FunctionElement {
    ghost use Rattle.std.specs.Prelude.{ℕ};

    ghost Value = { ℕ };

    ghost view = { λ e. e.index };
}

impl<'a> Read<'a> for FunctionElement {
    ghost grammar = { λ features. u32 };

    fn read_from(alloc: Global, reader: &mut BinaryReader<'a>) -> ReadResult<FunctionElement> {
        match u32::read_from(alloc, reader) {
            Ok(index) => Ok(FunctionElement { index }),
            Err(e) => Err(e),
        }
    }
}

/// Appends the index of an element in its table.
fn push_element_index(out: &mut String, place: Place) -> Written
    ensures { OnOk result (string_bytes out.new ≡ string_bytes out.old ++ entry_begin place) }
{
    let index = place.address.wrapping_add(u64::from(place.next));
    write!(out, "  - elem[{index}] = ")
}

/// Appends the line of an element that is the index of a function.
fn push_function_element(out: &mut String, names: &Names, place: Place, index: u32) -> Written
    ensures { OnOk result (string_bytes out.new ≡ string_bytes out.old ++ function_entry names.now place index) }
{
    push_element_index(out, place)?;
    write!(out, "func[{index}]")?;
    push_name(out, names.function(index))?;
    out.push_str("\n")
}

impl<'a> Details<'a, Names> for FunctionElement {
    ghost lists = { ListsFunction };

    fn write_lines<W: Write>(
        self,
        _alloc: Global,
        writer: &mut W,
        line: &mut String,
        names: &Names,
        place: Place,
    ) -> Result<Place, Fault> {
        line.clear();
        if push_function_element(line, names, place, self.index).is_err() {
            return Err(Fault::Memory);
        }
        match write_text(writer, line.as_str()) {
            Ok(()) => Ok(after_one(place)),
            Err(fault) => Err(fault),
        }
    }
}

/// An element that is a constant expression.
#[derive(Drop)]
struct ExpressionElement<C> {
    expression: C,
}

impl<C> Model for ExpressionElement<C> {
    ghost Value = { C };

    ghost view = { λ e. e.expression };
}

impl<'a, C: Read<'a>> Read<'a> for ExpressionElement<C> {
    ghost grammar = { C.grammar };

    fn read_from(alloc: Global, reader: &mut BinaryReader<'a>) -> ReadResult<ExpressionElement<C>> {
        match C::read_from(alloc, reader) {
            Ok(expression) => Ok(ExpressionElement { expression }),
            Err(e) => Err(e),
        }
    }
}

/// Appends the line of an element with this text.
fn push_expression(out: &mut String, place: Place, shown: &str) -> Written
    ensures { OnOk result (string_bytes out.new ≡ string_bytes out.old ++ entry_line place shown.now) }
{
    push_element_index(out, place)?;
    out.push_str(shown)?;
    out.push_str("\n")
}

impl<'a, C: ConstantDetails<'a>> Details<'a, Names> for ExpressionElement<C> {
    ghost lists = { λ names. ListsExpression C.shows names };

    fn write_lines<W: Write>(
        self,
        alloc: Global,
        writer: &mut W,
        line: &mut String,
        names: &Names,
        place: Place,
    ) -> Result<Place, Fault> {
        let Ok(shown) = self.expression.show(alloc, names, Usage::Element) else {
            return Err(Fault::Memory);
        };
        line.clear();
        if push_expression(line, place, shown.text.as_str()).is_err() {
            return Err(Fault::Memory);
        }
        match write_text(writer, line.as_str()) {
            Ok(()) => Ok(after_one(place)),
            Err(fault) => Err(fault),
        }
    }
}

/// Writes the elements, of which the first is at this place.
fn write_elements<'a, W: Write, C: ConstantDetails<'a>>(
    alloc: Global,
    writer: &mut W,
    line: &mut String,
    names: &Names,
    items: &ElementItems<'a, C>,
    first: Place,
) -> Result<Place, Fault>
    ensures { ListsReferences (record { grammar = C.grammar; shows = C.shows }) names.now items.now first result (W.contents writer.old) (W.contents writer.new) }
{
    match items {
        ElementItems::Functions(indices) => {
            let section: SectionReader<'a, FunctionElement> = SectionReader::of_items(
                alloc,
                indices.count(),
                indices.get_binary_reader(),
            );
            write_items(alloc, writer, line, names, first, section)
        }
        ElementItems::Expressions(_, values) => {
            let section: SectionReader<'a, ExpressionElement<C>> = SectionReader::of_items(
                alloc,
                values.count(),
                values.get_binary_reader(),
            );
            write_items(alloc, writer, line, names, first, section)
        }
    }
}

/// Returns the offset of an active segment.
fn element_offset<C>(kind: &ElementKind<C>) -> Option<&C>
    ensures { option_map (λ c. c.now) result ≡ element_offset kind.now }
{
    match kind {
        ElementKind::Active {
            table_index: _,
            offset_expr,
        } => Some(offset_expr),
        ElementKind::Passive | ElementKind::Declared => None,
    }
}

/// Returns the index of the segment's table, or 0 if it is not written.
fn table_of<C>(kind: &ElementKind<C>) -> u32
    ensures { result ≡ table_of kind.now }
{
    match kind {
        ElementKind::Active {
            table_index: Some(index),
            offset_expr: _,
        } => *index,
        _ => 0,
    }
}

/// Returns the lower two bits of a segment's flags.
fn kind_flags<C>(kind: &ElementKind<C>) -> u32
    ensures value { result ≡ kind_flags kind.now }
    ensures few { result < 4 }
{
    match kind {
        ElementKind::Passive => 1,
        ElementKind::Active {
            table_index: Some(_),
            offset_expr: _,
        } => 2,
        ElementKind::Active {
            table_index: None,
            offset_expr: _,
        } => 0,
        ElementKind::Declared => 3,
    }
}

/// Returns the third bit of a segment's flags.
fn items_flags<C>(items: &ElementItems<'_, C>) -> u32
    ensures value { result ≡ items_flags items.now }
    ensures few { result < 5 }
{
    match items {
        ElementItems::Functions(_) => 0,
        ElementItems::Expressions(_, _) => 4,
    }
}

fn count_of<C>(items: &ElementItems<'_, C>) -> u32
    ensures { result ≡ count_of items.now }
{
    match items {
        ElementItems::Functions(indices) => indices.count(),
        ElementItems::Expressions(_, values) => values.count(),
    }
}

#[tactic(auto, unfolding(crate::specs::Segments::flags_text))]
/// Appends the index and the flags of a segment.
fn push_flags(out: &mut String, index: u32, flags: u32) -> Written
    ensures { OnOk result (string_bytes out.new ≡ string_bytes out.old ++ flags_text index flags) }
{
    write!(out, " - segment[{index}] flags={flags}")
}

#[tactic(auto, unfolding(crate::specs::Segments::counts_text))]
/// Appends the table of a segment and the number of its elements.
fn push_counts(out: &mut String, table: u32, count: u32) -> Written
    ensures { OnOk result (string_bytes out.new ≡ string_bytes out.old ++ counts_text table count) }
{
    write!(out, " table={table} count={count}")
}

/// Appends the line of a segment.
fn push_element<C>(out: &mut String, index: u32, element: &Element<'_, C>, offset: &str) -> Written
    ensures { OnOk result (string_bytes out.new ≡ string_bytes out.old ++ element_head index element.now offset.now) }
{
    push_flags(
        out,
        index,
        kind_flags(&element.kind) + items_flags(&element.items),
    )?;
    push_counts(out, table_of(&element.kind), count_of(&element.items))?;
    out.push_str(offset)?;
    out.push_str("\n")
}

/// Returns the address of a segment with this offset after a segment at `before`.
pub fn address_of(number: Option<u64>, before: u64) -> u64
    ensures { result ≡ address_of number before }
{
    match number {
        Some(number) => number,
        None => before,
    }
}

/// Returns the place after a segment with this offset.
pub fn after_segment(place: Place, number: Option<u64>) -> Place
    ensures { result ≡ after_segment place number }
{
    Place {
        next: after_index(place.next),
        address: address_of(number, place.address),
        imported: place.imported,
    }
}

fn first_element(place: Place, number: Option<u64>) -> Place
    ensures { result ≡ first_element place number }
{
    Place {
        next: 0,
        address: address_of(number, place.address),
        imported: place.imported,
    }
}

/// Writes the elements of a segment. Returns `next`.
fn write_inside<'a, W: Write, C: ConstantDetails<'a>>(
    alloc: Global,
    writer: &mut W,
    line: &mut String,
    names: &Names,
    items: &ElementItems<'a, C>,
    first: Place,
    next: Place,
) -> Result<Place, Fault>
    ensures { ListsInside (record { grammar = C.grammar; shows = C.shows }) names.now items.now first next result (W.contents writer.old) (W.contents writer.new) }
{
    match write_elements(alloc, writer, line, names, items, first) {
        Ok(_) => Ok(next),
        Err(fault) => Err(fault),
    }
}

impl<'a, C: ConstantDetails<'a>> Details<'a, Names> for Element<'a, C> {
    ghost lists = { ListsElement (record { grammar = C.grammar; shows = C.shows }) };

    fn write_lines<W: Write>(
        self,
        alloc: Global,
        writer: &mut W,
        line: &mut String,
        names: &Names,
        place: Place,
    ) -> Result<Place, Fault> {
        let Ok(shown) = show_offset(alloc, names, element_offset(&self.kind)) else {
            return Err(Fault::Memory);
        };
        line.clear();
        if push_element(line, place.next, &self, shown.text.as_str()).is_err() {
            return Err(Fault::Memory);
        }
        if let Err(fault) = write_text(writer, line.as_str()) {
            return Err(fault);
        }
        let first = first_element(place, shown.number);
        let next = after_segment(place, shown.number);
        write_inside(alloc, writer, line, names, &self.items, first, next)
    }
}
