//! The contents of sections as rows of bytes.
ghost use Rattle.std.specs.Prelude.{◌≡◌, ◌++◌, Bool, true, IfErr, IfOk, OnOk, option_map, string_bytes};
ghost use Rattle.std.specs.Io.KnownBytes.{Appends};
ghost use Rattle.wasm_below.specs.Source.{reader_of};
ghost use Rattle.wasm_module.specs.Refusals.{SectionsFault};
ghost use Rattle.wasm_module.specs.Sections.{BeginsModule};
ghost use Rattle.wasm_rows.specs.Contents.{IsChosen, section_heading, section_text, text_if, ListsSections, ListsContents};
ghost use Rattle.wasm_rows.specs.Writing.{IsHalt, AppendsPart, WritesText, WritesPieces};

use crate::chosen::{is_chosen, section_word};
use crate::fault::Fault;
use crate::rows::write_rows;
use crate::titles::write_title;
use crate::writing::write_text;
use std::alloc::{AllocError, Global};
use std::io::Write;
use wasm_below::{BinaryReader, WasmFeatures};
use wasm_module::{ModuleFault, Section, function_laws, module_name, open_sections, read_section};

/// Appends the heading of a section with this number.
fn push_section_heading(out: &mut String, id: u8) -> Result<(), AllocError>
    ensures { OnOk result (string_bytes out.new ≡ string_bytes out.old ++ section_heading id) }
{
    out.push_str("\nContents of section ")?;
    out.push_str(section_word(id))?;
    out.push_str(":\n")
}

/// Writes the heading of a section with this number, through the buffer `line`.
fn write_section_heading<W: Write>(writer: &mut W, line: &mut String, id: u8) -> Result<(), Fault>
    ensures { WritesText (section_heading id) result (W.contents writer.old) (W.contents writer.new) }
{
    line.clear();
    if push_section_heading(line, id).is_err() {
        return Err(Fault::Memory);
    }
    write_text(writer, line.as_str())
}

/// Writes the heading and the rows of a section.
fn write_section<W: Write>(
    writer: &mut W,
    line: &mut String,
    section: &Section<'_>,
) -> Result<(), Fault>
    ensures { WritesPieces (section_text section.now) result (W.contents writer.old) (W.contents writer.new) }
{
    if let Err(fault) = write_section_heading(writer, line, section.id()) {
        return Err(fault);
    }
    let contents = section.contents();
    let offset = contents.original_position();
    let bytes = contents.remaining_buffer();
    write_rows(writer, line, "", offset, bytes)
}

/// Writes a section, if it is shown.
fn write_chosen<W: Write>(
    writer: &mut W,
    line: &mut String,
    asked: Option<&str>,
    section: &Section<'_>,
) -> Result<(), Fault>
    ensures ok { OnOk result ((shown : Bool) × IsChosen (option_map (λ text. text.now) asked.entry) section.now shown
        × Appends (W.contents writer.old) (W.contents writer.new) (text_if shown section.now)) }
    ensures err { IfErr result (λ fault. IsChosen (option_map (λ text. text.now) asked.entry) section.now true × IsHalt fault
        × AppendsPart (W.contents writer.old) (W.contents writer.new) (section_text section.now)) }
{
    if is_chosen(asked, section) {
        write_section(writer, line, section)
    } else {
        Ok(())
    }
}

/// Writes the sections that are shown.
///
/// Fails with `Section` at the first section in error, after those before it.
fn write_sections<W: Write>(
    writer: &mut W,
    line: &mut String,
    asked: Option<&str>,
    sections: BinaryReader<'_>,
) -> Result<(), Fault>
    ensures { ListsSections (option_map (λ text. text.now) asked.entry) sections.entry result (W.contents writer.old) (W.contents writer.new) }
{
    function_laws::next_section();
    let mut reader = sections;
    'sections: while !reader.eof() {
        let section = match read_section(&mut reader) {
            Ok(section) => section,
            Err(e) => return Err(Fault::Section(e)),
        };
        if let Err(fault) = write_chosen(writer, line, asked, &section) {
            return Err(fault);
        }
    }
    Ok(())
}

/// Writes the title and the sections that are shown.
fn list_opened<W: Write>(
    alloc: Global,
    features: WasmFeatures,
    file: Option<&str>,
    asked: Option<&str>,
    bytes: &[u8],
    writer: &mut W,
    sections: BinaryReader<'_>,
) -> Result<(), Fault>
    requires { BeginsModule (reader_of features 0 bytes.now) sections }
    ensures { ListsContents (option_map (λ text. text.now) asked.entry) features (option_map (λ text. text.now) file.entry) bytes.now result
        (W.contents writer.old) (W.contents writer.new) }
{
    if let Err(fault) = write_title(alloc, file, module_name(features, bytes), writer) {
        return Err(fault);
    }
    let mut line = String::new(alloc);
    write_sections(writer, &mut line, asked, sections)
}

/// Writes the names of the file and the module, unless `file` is `None`, and the bytes of all
/// sections, or of those with the name `asked`. Returns the result of writing: `Section` at the
/// first section in error, after those before it.
///
/// Fails if the bytes do not start with a module's preamble, and then writes nothing.
pub fn list_contents<W: Write>(
    alloc: Global,
    features: WasmFeatures,
    file: Option<&str>,
    asked: Option<&str>,
    bytes: &[u8],
    writer: &mut W,
) -> Result<Result<(), Fault>, ModuleFault>
    ensures lists { IfOk result (λ listed. ListsContents (option_map (λ text. text.now) asked.entry) features (option_map (λ text. text.now) file.entry) bytes.now listed
        (W.contents writer.old) (W.contents writer.new)) }
    ensures refused { IfErr result (λ fault. SectionsFault fault (reader_of features 0 bytes.now)) }
    ensures nothing { IfErr result (λ fault. writer.new ≡ writer.old) }
{
    match open_sections(features, bytes) {
        Ok(sections) => Ok(list_opened(alloc, features, file, asked, bytes, writer, sections)),
        Err(fault) => Err(fault),
    }
}
