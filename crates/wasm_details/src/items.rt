ghost use Rattle.std.specs.Prelude.{◌≡◌, ◌++◌, OnOk, string_bytes};
ghost use Rattle.wasm_details.specs.Items.{ListsItems, ListsSection, title_text};
ghost use Rattle.wasm_rows.specs.Writing.{WritesText};

use crate::details::Details;
use crate::place::Place;
use std::alloc::{AllocError, Global};
use std::io::Write;
use wasm_below::BinaryReader;
use wasm_rows::{Fault, write_text};
use wasm_sections::SectionReader;

/// Writes the lines of items, of which the first is at this place. Returns the place after them.
///
/// Fails with `Section` at the first item in error.
pub fn write_items<'a, W: Write, C, T: Details<'a, C>>(
    alloc: Global,
    writer: &mut W,
    line: &mut String,
    context: &C,
    place: Place,
    section: SectionReader<'a, T>,
) -> Result<Place, Fault>
    ensures { ListsItems T.grammar (T.lists context.now) section.entry place result (W.contents writer.old) (W.contents writer.new) }
{
    let mut items = section.into_iter();
    let mut reached = place;
    'items: while let Some(item) = items.next() {
        let item = match item {
            Ok(item) => item,
            Err(e) => return Err(Fault::Section(e)),
        };
        reached = match item.write_lines(alloc, writer, line, context, reached) {
            Ok(after) => after,
            Err(fault) => return Err(fault),
        };
    }
    Ok(reached)
}

/// Appends the title of a section with this number of items.
fn push_title(out: &mut String, title: &str, count: u32) -> Result<(), AllocError>
    ensures { OnOk result (string_bytes out.new ≡ string_bytes out.old ++ title_text title.now count) }
{
    out.push_str(title)?;
    write!(out, "[{count}]:\n")
}

/// Writes the title of a section with this number of items.
fn write_title<W: Write>(
    writer: &mut W,
    line: &mut String,
    title: &str,
    count: u32,
) -> Result<(), Fault>
    ensures { WritesText (title_text title.now count) result (W.contents writer.old) (W.contents writer.new) }
{
    line.clear();
    if push_title(line, title, count).is_err() {
        return Err(Fault::Memory);
    }
    write_text(writer, line.as_str())
}

/// Writes a section: its title, and the lines of its items, of which the first is at this place.
/// Returns the place after them.
///
/// Fails with `Section` if the number of items or an item is in error.
pub fn write_section<'a, W: Write, C, T: Details<'a, C>>(
    alloc: Global,
    writer: &mut W,
    line: &mut String,
    context: &C,
    place: Place,
    title: &str,
    contents: BinaryReader<'a>,
) -> Result<Place, Fault>
    ensures { ListsSection T.grammar (T.lists context.now) title.now contents.entry place result (W.contents writer.old) (W.contents writer.new) }
{
    let section: SectionReader<'a, T> = match SectionReader::new(alloc, contents) {
        Ok(section) => section,
        Err(e) => return Err(Fault::Section(e)),
    };
    if let Err(fault) = write_title(writer, line, title, section.count()) {
        return Err(fault);
    }
    write_items(alloc, writer, line, context, place, section)
}
