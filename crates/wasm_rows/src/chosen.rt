//! Sections by their names.
ghost use Rattle.std.specs.Prelude.{◌≡◌, Some, option_map, IfOk, IfErr};
ghost use Rattle.wasm_below.specs.Source.{Reader, reader_of};
ghost use Rattle.wasm_module.specs.Refusals.{SectionsFault};
ghost use Rattle.wasm_module.specs.Sections.{BeginsModule};
ghost use Rattle.wasm_rows.specs.Contents.{section_word, IsChosen, HasSection};

use wasm_below::{BinaryReader, WasmFeatures};
use wasm_module::{
    CustomSection, ModuleFault, Section, function_laws, open_sections, read_section,
};

/// Returns the word for a section number.
pub fn section_word(id: u8) -> &'static str
    ensures { result.now ≡ section_word id }
{
    match id {
        0 => "Custom",
        1 => "Type",
        2 => "Import",
        3 => "Function",
        4 => "Table",
        5 => "Memory",
        6 => "Global",
        7 => "Export",
        8 => "Start",
        9 => "Elem",
        10 => "Code",
        11 => "Data",
        12 => "DataCount",
        13 => "Tag",
        _ => "Unknown",
    }
}

/// Returns whether a section has this name; a custom section its own, another the word for its
/// number. Upper and lower case of ASCII letters is the same.
fn is_called(name: &str, section: &Section<'_>) -> bool
    ensures { IsChosen (Some name.now) section.now result }
{
    if section.id() != 0 {
        return section_word(section.id()).eq_ignore_ascii_case(name);
    }
    match CustomSection::new(section.contents()) {
        Ok(custom) => custom.name().eq_ignore_ascii_case(name.as_bytes()),
        Err(_) => false,
    }
}

/// Returns whether a section is shown: each if no name is given, otherwise those with this name.
pub fn is_chosen(asked: Option<&str>, section: &Section<'_>) -> bool
    ensures { IsChosen (option_map (λ text. text.now) asked.entry) section.now result }
{
    match asked {
        Some(name) => is_called(name, section),
        None => true,
    }
}

/// Returns whether a section has this name, of those before the first that is in error.
fn find_called(name: &str, sections: BinaryReader<'_>) -> bool
    ensures { HasSection name.now sections.entry result }
{
    function_laws::next_section();
    let mut reader = sections;
    'sections: while !reader.eof() {
        let section = match read_section(&mut reader) {
            Ok(section) => section,
            Err(_) => return false,
        };
        if is_called(name, &section) {
            return true;
        }
    }
    false
}

/// Returns whether a module has a section with this name before its first section in error.
///
/// Fails if the bytes do not start with a module's preamble.
pub fn has_section(features: WasmFeatures, name: &str, bytes: &[u8]) -> Result<bool, ModuleFault>
    ensures found { IfOk result (λ found. (after : Reader) × BeginsModule (reader_of features 0 bytes.now) after × HasSection name.now after found) }
    ensures refused { IfErr result (λ fault. SectionsFault fault (reader_of features 0 bytes.now)) }
{
    match open_sections(features, bytes) {
        Ok(sections) => Ok(find_called(name, sections)),
        Err(fault) => Err(fault),
    }
}
