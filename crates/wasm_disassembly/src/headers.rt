ghost use Rattle.std.specs.Prelude.{◌≡◌, ◌++◌, ◌+◌, ◌/◌, ◌%◌, IfErr, OnOk, string_bytes};
ghost use Rattle.std.specs.Io.KnownBytes.{Appends};
ghost use Rattle.wasm_disassembly.specs.Headers.{section_name, hex_text, range_text, detail_text, HasDetail, section_line, ListsSections, IsSectionFault};
ghost use Rattle.wasm_disassembly.specs.Listing.{IsHalt};

use crate::listing_fault::Fault;
use crate::writing::write_text;
use std::alloc::Global;
use std::io::Write;
use wasm_escapes::write_escaped;
use wasm_module::{CustomSection, Section, function_laws, read_section};
use wasm_operators::{BinaryReader, Error};
use wasm_text::{Written, write_byte};

/// What the line of a section says about its contents.
#[derive(Clone, Copy)]
pub enum Detail<'a> {
    /// The name of a custom section.
    Custom(&'a [u8]),
    /// The index of the start function.
    Start(u32),
    /// The number of items.
    Count(u32),
    /// The number of a section that the standard does not have.
    Unknown(u8),
}

/// Returns the name of a section number, aligned right in nine columns.
fn section_name(id: u8) -> &'static str
    ensures { result.now ≡ section_name id }
{
    match id {
        0 => "   Custom",
        1 => "     Type",
        2 => "   Import",
        3 => " Function",
        4 => "    Table",
        5 => "   Memory",
        6 => "   Global",
        7 => "   Export",
        8 => "    Start",
        9 => "     Elem",
        10 => "     Code",
        11 => "     Data",
        12 => "DataCount",
        13 => "      Tag",
        _ => "  Unknown",
    }
}

/// Writes a number in hexadecimal, of at least eight digits.
fn write_hex(out: &mut String, number: u64) -> Written
    ensures { OnOk result (string_bytes out.new ≡ string_bytes out.old ++ hex_text number) }
{
    if number >= 0x1_0000_0000 {
        return write!(out, "{number:x}");
    }
    write_byte(out, (number / 0x100_0000) as u8)?;
    write_byte(out, (number / 0x1_0000 % 0x100) as u8)?;
    write_byte(out, (number / 0x100 % 0x100) as u8)?;
    write_byte(out, (number % 0x100) as u8)
}

/// Writes where the contents start and end, and their size.
fn write_range(out: &mut String, contents: &BinaryReader<'_>) -> Written
    ensures { OnOk result (string_bytes out.new ≡ string_bytes out.old ++ range_text contents.now) }
{
    let range = contents.remaining_range();
    out.push_str(" start=0x")?;
    write_hex(out, range.start)?;
    out.push_str(" end=0x")?;
    write_hex(out, range.end)?;
    out.push_str(" (size=0x")?;
    write_hex(out, contents.bytes_remaining() as u64)?;
    out.push_str(") ")
}

/// Writes what the line of a section says about its contents.
fn write_detail(alloc: Global, out: &mut String, detail: Detail<'_>) -> Written
    ensures { OnOk result (string_bytes out.new ≡ string_bytes out.old ++ detail_text detail.entry) }
{
    match detail {
        Detail::Custom(name) => {
            out.push_str("\"")?;
            write_escaped(alloc, out, name)?;
            out.push_str("\"")
        }
        Detail::Start(index) => write!(out, "start: {index}"),
        Detail::Count(number) => write!(out, "count: {number}"),
        Detail::Unknown(id) => write!(out, "id: {id}"),
    }
}

/// Returns the section's `Detail`. Fails with the error of reading a name or number.
fn detail_of<'a>(section: &Section<'a>) -> Result<Detail<'a>, Error>
    ensures { HasDetail section.now result }
{
    let id = section.id();
    if id == 0 {
        return match CustomSection::new(section.contents()) {
            Ok(custom) => Ok(Detail::Custom(custom.name())),
            Err(e) => Err(e),
        };
    }
    if id >= 14 {
        return Ok(Detail::Unknown(id));
    }
    let mut contents = section.contents();
    match contents.read_var_u32() {
        Ok(number) => {
            if id == 8 {
                Ok(Detail::Start(number))
            } else {
                Ok(Detail::Count(number))
            }
        }
        Err(e) => Err(e),
    }
}

/// Appends the line of a section.
fn push_section(
    alloc: Global,
    out: &mut String,
    section: &Section<'_>,
    detail: Detail<'_>,
) -> Written
    ensures { OnOk result (string_bytes out.new ≡ string_bytes out.old ++ section_line section.now detail.entry) }
{
    out.push_str(section_name(section.id()))?;
    write_range(out, &section.contents())?;
    write_detail(alloc, out, detail)?;
    out.push_str("\n")
}

/// Writes the line of a section, through the buffer `line`.
fn write_section<W: Write>(
    alloc: Global,
    writer: &mut W,
    line: &mut String,
    section: &Section<'_>,
    detail: Detail<'_>,
) -> Result<(), Fault>
    ensures ok { OnOk result (Appends (W.contents writer.old) (W.contents writer.new) (section_line section.now detail.entry)) }
    ensures halts { IfErr result (λ fault. IsHalt fault) }
{
    line.clear();
    if push_section(alloc, line, section, detail).is_err() {
        return Err(Fault::Memory);
    }
    write_text(writer, line.as_str(), Fault::Writing)
}

/// Writes a line for each section.
///
/// Fails with `Section` at the first section that can't be read.
pub fn list_sections<W: Write>(
    alloc: Global,
    sections: BinaryReader<'_>,
    writer: &mut W,
) -> Result<(), Fault>
    ensures lists { ListsSections sections.entry result (W.contents writer.old) (W.contents writer.new) }
    ensures kinds { IfErr result (λ fault. IsSectionFault fault) }
{
    function_laws::next_section();
    let mut reader = sections;
    let mut line = String::new(alloc);
    'sections: while !reader.eof() {
        let section = match read_section(&mut reader) {
            Ok(section) => section,
            Err(e) => return Err(Fault::Section(e)),
        };
        let detail = match detail_of(&section) {
            Ok(detail) => detail,
            Err(e) => return Err(Fault::Section(e)),
        };
        write_section(alloc, writer, &mut line, &section, detail)?;
    }
    Ok(())
}
