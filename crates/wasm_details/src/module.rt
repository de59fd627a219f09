ghost use Rattle.std.specs.Prelude.{◌≡◌, None, ◌++◌, IfErr, IfOk, OnOk, map, option_map, string_bytes};
ghost use Rattle.wasm_below.specs.Source.{reader_of};
ghost use Rattle.wasm_module.specs.Refusals.{SectionsFault};
ghost use Rattle.wasm_module.specs.Sections.{BeginsModule};
ghost use Rattle.wasm_details.specs.Contents.{ListsContents};
ghost use Rattle.wasm_details.specs.Module.{ListsChosen, ListsDetails, heading_of, ListsModule, none_imported};
ghost use Rattle.wasm_rows.specs.Writing.{WritesText};

use crate::constants::SegmentDetails;
use crate::contents::{first_place, write_contents};
use crate::place::{Imported, Place};
use std::alloc::Global;
use std::io::{Sink, Write, sink};
use wasm_below::{BinaryReader, WasmFeatures};
use wasm_index_names::{Names, known_names};
use wasm_module::{ModuleFault, Section, function_laws, module_name, open_sections, read_section};
use wasm_rows::{Fault, is_chosen, push_title, write_text};
use wasm_text::Written;

/// Reads a section with this id and these contents as `write_contents` does, and writes nothing.
fn read_contents<'a, C: SegmentDetails<'a>>(
    alloc: Global,
    line: &mut String,
    names: &Names,
    place: Place,
    id: u8,
    contents: BinaryReader<'a>,
) -> Result<Place, Fault>
    ensures { ListsContents (record { grammar = C.grammar; shows = C.shows }) names.now id contents.entry place result None None }
{
    let mut unseen = sink();
    write_contents::<Sink, C>(alloc, &mut unseen, line, names, place, id, contents)
}

/// Writes a section whose first item is at this place, if it is shown; otherwise only reads it.
/// Returns the place after the last item.
///
/// Fails as `write_contents` does.
fn write_chosen<'a, W: Write, C: SegmentDetails<'a>>(
    alloc: Global,
    writer: &mut W,
    line: &mut String,
    names: &Names,
    asked: Option<&str>,
    place: Place,
    section: &Section<'a>,
) -> Result<Place, Fault>
    ensures { ListsChosen (record { grammar = C.grammar; shows = C.shows }) names.now (option_map (λ text. text.now) asked.entry) section.now place result
        (W.contents writer.old) (W.contents writer.new) }
{
    let number = section.id();
    let contents = section.contents();
    if is_chosen(asked, section) {
        return write_contents::<W, C>(alloc, writer, line, names, place, number, contents);
    }
    read_contents::<C>(alloc, line, names, place, number, contents)
}

/// Writes the sections after the preamble that are shown.
///
/// Fails with `Section` at the first section in error, after its part before the error.
fn write_details<'a, W: Write, C: SegmentDetails<'a>>(
    alloc: Global,
    writer: &mut W,
    names: &Names,
    asked: Option<&str>,
    sections: BinaryReader<'a>,
) -> Result<(), Fault>
    ensures { ListsDetails (record { grammar = C.grammar; shows = C.shows }) names.now (option_map (λ text. text.now) asked.entry) sections.entry result (W.contents writer.old) (W.contents writer.new) }
{
    function_laws::next_section();
    let mut reader = sections;
    let mut line = String::new(alloc);
    let mut imported = Imported::none();
    'sections: while !reader.eof() {
        let section = match read_section(&mut reader) {
            Ok(section) => section,
            Err(e) => return Err(Fault::Section(e)),
        };
        let place = first_place(section.id(), imported);
        imported = match write_chosen::<W, C>(
            alloc, writer, &mut line, names, asked, place, &section,
        ) {
            Ok(after) => after.imported,
            Err(fault) => return Err(fault),
        };
    }
    Ok(())
}

/// Appends the heading, with the names of the file and the module unless `file` is `None`.
fn push_heading(alloc: Global, out: &mut String, file: Option<&str>, name: &[u8]) -> Written
    ensures { OnOk result (string_bytes out.new ≡ string_bytes out.old ++ heading_of (option_map (λ text. text.now) file.entry) name.now) }
{
    push_title(alloc, out, file, name)?;
    out.push_str("\nSection Details:\n\n")
}

/// Writes the heading.
fn write_heading<W: Write>(
    alloc: Global,
    file: Option<&str>,
    name: &[u8],
    writer: &mut W,
) -> Result<(), Fault>
    ensures { WritesText (heading_of (option_map (λ text. text.now) file.entry) name.now) result (W.contents writer.old) (W.contents writer.new) }
{
    let mut heading = String::new(alloc);
    if push_heading(alloc, &mut heading, file, name).is_err() {
        return Err(Fault::Memory);
    }
    write_text(writer, heading.as_str())
}

/// Writes the heading and the sections, which follow the preamble.
fn list_opened<'a, W: Write, C: SegmentDetails<'a>>(
    alloc: Global,
    features: WasmFeatures,
    file: Option<&str>,
    asked: Option<&str>,
    bytes: &[u8],
    writer: &mut W,
    sections: BinaryReader<'a>,
) -> Result<(), Fault>
    requires { BeginsModule (reader_of features 0 bytes.now) sections }
    ensures { ListsModule (record { grammar = C.grammar; shows = C.shows }) features (option_map (λ text. text.now) file.entry) (option_map (λ text. text.now) asked.entry) bytes.now result
        (W.contents writer.old) (W.contents writer.new) }
{
    let names = match known_names(alloc, features, bytes) {
        Ok(names) => names,
        Err(_) => return Err(Fault::Memory),
    };
    if let Err(fault) = write_heading(alloc, file, module_name(features, bytes), writer) {
        return Err(fault);
    }
    write_details::<W, C>(alloc, writer, &names, asked, sections)
}

/// Writes a heading, with the names of the file and the module unless `file` is `None`, and the
/// contents of all sections, or of those with the name `asked`. Returns the result of writing: `Section` at the first section in
/// error, after its part before the error.
///
/// Fails if the bytes do not start with a module's preamble, and then writes nothing.
pub fn list_details<'a, W: Write, C: SegmentDetails<'a>>(
    alloc: Global,
    features: WasmFeatures,
    file: Option<&str>,
    asked: Option<&str>,
    bytes: &'a [u8],
    writer: &mut W,
) -> Result<Result<(), Fault>, ModuleFault>
    ensures lists { IfOk result (λ listed. ListsModule (record { grammar = C.grammar; shows = C.shows }) features (option_map (λ text. text.now) file.entry) (option_map (λ text. text.now) asked.entry) bytes.now listed
        (W.contents writer.old) (W.contents writer.new)) }
    ensures refused { IfErr result (λ fault. SectionsFault fault (reader_of features 0 bytes.now)) }
    ensures nothing { IfErr result (λ fault. writer.new ≡ writer.old) }
{
    match open_sections(features, bytes) {
        Ok(sections) => Ok(list_opened::<W, C>(
            alloc, features, file, asked, bytes, writer, sections,
        )),
        Err(fault) => Err(fault),
    }
}
