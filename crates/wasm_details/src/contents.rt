ghost use Rattle.std.specs.Prelude.{◌≡◌, ◌<◌};
ghost use Rattle.wasm_below.specs.declared.message.Message.TheVariants as message;
ghost use Rattle.wasm_below.specs.declared.malformed.Malformed.TheVariants as malformed;
ghost use Rattle.wasm_details.specs.Bodies.{start_text, data_count_text};
ghost use Rattle.wasm_details.specs.Namings.{custom_text};
ghost use Rattle.wasm_details.specs.Contents.{first_index, first_place, ListsNumber, unknown_text, ListsCustom, ListsCustomData, is_name, ListsContents};
ghost use Rattle.wasm_details.specs.Writing.{WritesLine};
ghost use Rattle.wasm_rows.specs.Writing.{WritesText};

use crate::bodies::{push_data_count, push_start};
use crate::constants::SegmentDetails;
use crate::items::write_section;
use crate::name_section::write_names;
use crate::namings::push_custom;
use crate::place::{Imported, Place};
use std::alloc::Global;
use std::io::Write;
use wasm_below::{BinaryReader, Malformed, Message};
use wasm_externals::{Export, Import, MemoryType, TagType, Text};
use wasm_grammars::Read;
use wasm_index_names::Names;
use wasm_rows::{Fault, write_text};
use wasm_sections::read_all;
use wasm_segments::Table;
use wasm_types::RecGroup;

/// Returns the index of the first thing that a section with this id defines.
fn first_index(id: u8, imported: Imported) -> u32
    ensures { result ≡ first_index id imported }
{
    match id {
        3 => imported.functions,
        4 => imported.tables,
        5 => imported.memories,
        6 => imported.globals,
        10 => imported.functions,
        13 => imported.tags,
        _ => 0,
    }
}

/// Returns the place of the first item of a section with this id.
pub fn first_place(id: u8, imported: Imported) -> Place
    ensures { result ≡ first_place id imported }
{
    Place {
        next: first_index(id, imported),
        address: 0,
        imported,
    }
}

/// Writes the start section.
fn write_start<W: Write>(
    alloc: Global,
    writer: &mut W,
    line: &mut String,
    names: &Names,
    place: Place,
    contents: BinaryReader<'_>,
) -> Result<Place, Fault>
    ensures { ListsNumber (start_text names.now) (message.Malformed malformed.StartContent) contents.entry place result
        (W.contents writer.old) (W.contents writer.new) }
{
    let left_over = Message::Malformed(Malformed::StartContent);
    let index: u32 = match read_all(alloc, contents, left_over) {
        Ok(index) => index,
        Err(e) => return Err(Fault::Section(e)),
    };
    line.clear();
    if push_start(line, names, index).is_err() {
        return Err(Fault::Memory);
    }
    match write_text(writer, line.as_str()) {
        Ok(()) => Ok(place),
        Err(fault) => Err(fault),
    }
}

/// Writes the data count section.
fn write_data_count<W: Write>(
    alloc: Global,
    writer: &mut W,
    line: &mut String,
    place: Place,
    contents: BinaryReader<'_>,
) -> Result<Place, Fault>
    ensures { ListsNumber data_count_text (message.Malformed malformed.DataCountContent) contents.entry place result
        (W.contents writer.old) (W.contents writer.new) }
{
    let left_over = Message::Malformed(Malformed::DataCountContent);
    let count: u32 = match read_all(alloc, contents, left_over) {
        Ok(count) => count,
        Err(e) => return Err(Fault::Section(e)),
    };
    line.clear();
    if push_data_count(line, count).is_err() {
        return Err(Fault::Memory);
    }
    match write_text(writer, line.as_str()) {
        Ok(()) => Ok(place),
        Err(fault) => Err(fault),
    }
}

/// Writes the title of a section that is not known.
fn write_unknown<W: Write>(writer: &mut W, place: Place) -> Result<Place, Fault>
    ensures { WritesLine unknown_text place result (W.contents writer.old) (W.contents writer.new) }
{
    match write_text(writer, "Unknown:\n") {
        Ok(()) => Ok(place),
        Err(fault) => Err(fault),
    }
}

/// Writes the title of a custom section.
fn write_custom_title<W: Write>(
    alloc: Global,
    writer: &mut W,
    line: &mut String,
    name: &str,
) -> Result<(), Fault>
    ensures { WritesText (custom_text name.now) result (W.contents writer.old) (W.contents writer.new) }
{
    line.clear();
    if push_custom(alloc, line, name).is_err() {
        return Err(Fault::Memory);
    }
    write_text(writer, line.as_str())
}

/// Writes the data of a custom section with the name `name`; of others nothing.
fn write_data<W: Write>(
    alloc: Global,
    writer: &mut W,
    line: &mut String,
    place: Place,
    name: &str,
    contents: BinaryReader<'_>,
) -> Result<Place, Fault>
    ensures { ListsCustomData (is_name name.now) contents.entry place result (W.contents writer.old) (W.contents writer.new) }
{
    let is_name = name == "name";
    if is_name {
        write_names(alloc, writer, line, place, contents)
    } else {
        Ok(place)
    }
}

/// Writes the name of a custom section, and the names in the section `name`.
fn write_custom<W: Write>(
    alloc: Global,
    writer: &mut W,
    line: &mut String,
    place: Place,
    contents: BinaryReader<'_>,
) -> Result<Place, Fault>
    ensures { ListsCustom contents.entry place result (W.contents writer.old) (W.contents writer.new) }
{
    let mut reader = contents;
    let name = match Text::read_from(alloc, &mut reader) {
        Ok(name) => name,
        Err(e) => return Err(Fault::Section(e)),
    };
    let shown = name.as_str();
    if let Err(fault) = write_custom_title(alloc, writer, line, shown) {
        return Err(fault);
    }
    write_data(alloc, writer, line, place, shown, reader)
}

/// Writes a section with this id and these contents, whose first item is at this place. Returns the
/// place after the last item.
///
/// Fails with `Section` if the section is in error, after the items before the error.
pub fn write_contents<'a, W: Write, C: SegmentDetails<'a>>(
    alloc: Global,
    writer: &mut W,
    line: &mut String,
    names: &Names,
    place: Place,
    id: u8,
    contents: BinaryReader<'a>,
) -> Result<Place, Fault>
    ensures { ListsContents (record { grammar = C.grammar; shows = C.shows }) names.now id contents.entry place result (W.contents writer.old) (W.contents writer.new) }
{
    match id {
        0 => write_custom(alloc, writer, line, place, contents),
        1 => write_section::<W, Names, RecGroup>(
            alloc, writer, line, names, place, "Type", contents,
        ),
        2 => write_section::<W, Names, Import<'a>>(
            alloc, writer, line, names, place, "Import", contents,
        ),
        3 => write_section::<W, Names, u32>(
            alloc, writer, line, names, place, "Function", contents,
        ),
        4 => write_section::<W, Names, Table<C>>(
            alloc, writer, line, names, place, "Table", contents,
        ),
        5 => write_section::<W, Names, MemoryType>(
            alloc, writer, line, names, place, "Memory", contents,
        ),
        6 => write_section::<W, Names, wasm_segments::Global<C>>(
            alloc, writer, line, names, place, "Global", contents,
        ),
        _ => write_late::<W, C>(alloc, writer, line, names, place, id, contents),
    }
}

/// Writes a section with an id above 6.
fn write_late<'a, W: Write, C: SegmentDetails<'a>>(
    alloc: Global,
    writer: &mut W,
    line: &mut String,
    names: &Names,
    place: Place,
    id: u8,
    contents: BinaryReader<'a>,
) -> Result<Place, Fault>
    requires { 6 < id }
    ensures { ListsContents (record { grammar = C.grammar; shows = C.shows }) names.now id contents.entry place result (W.contents writer.old) (W.contents writer.new) }
{
    match id {
        7 => write_section::<W, Names, Export<'a>>(
            alloc, writer, line, names, place, "Export", contents,
        ),
        8 => write_start(alloc, writer, line, names, place, contents),
        9 => C::write_element_section(alloc, writer, line, names, place, contents),
        10 => write_section::<W, Names, BinaryReader<'a>>(
            alloc, writer, line, names, place, "Code", contents,
        ),
        11 => C::write_data_section(alloc, writer, line, names, place, contents),
        12 => write_data_count(alloc, writer, line, place, contents),
        13 => write_section::<W, Names, TagType>(
            alloc, writer, line, names, place, "Tag", contents,
        ),
        _ => write_unknown(writer, place),
    }
}
