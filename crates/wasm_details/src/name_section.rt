ghost use Rattle.std.specs.Prelude.{◌≡◌};
ghost use Rattle.wasm_details.specs.Names.{ListsName, ListsNames};
ghost use Rattle.wasm_details.specs.Namings.{module_line};
ghost use Rattle.wasm_details.specs.Writing.{WritesLine};

use crate::items::write_items;
use crate::namings::{Label, push_module};
use crate::place::Place;
use std::alloc::Global;
use std::io::Write;
use wasm_below::BinaryReader;
use wasm_names::{Name, NameSectionReader};
use wasm_rows::{Fault, write_text};

/// Writes the name of the module.
fn write_module_name<W: Write>(
    alloc: Global,
    writer: &mut W,
    line: &mut String,
    place: Place,
    name: &str,
) -> Result<Place, Fault>
    ensures { WritesLine (module_line name.now) place result (W.contents writer.old) (W.contents writer.new) }
{
    line.clear();
    if push_module(alloc, line, name).is_err() {
        return Err(Fault::Memory);
    }
    match write_text(writer, line.as_str()) {
        Ok(()) => Ok(place),
        Err(fault) => Err(fault),
    }
}

/// Writes the names in a subsection. Fails with `Section` at a name in error.
fn write_name<W: Write>(
    alloc: Global,
    writer: &mut W,
    line: &mut String,
    place: Place,
    name: Name<'_>,
) -> Result<Place, Fault>
    ensures { ListsName name.entry place result (W.contents writer.old) (W.contents writer.new) }
{
    match name {
        Name::Module {
            name,
            name_range: _,
        } => write_module_name(alloc, writer, line, place, name.as_str()),
        Name::Function(map) => write_items(alloc, writer, line, &Label::Function, place, map),
        Name::Type(map) => write_items(alloc, writer, line, &Label::Type, place, map),
        Name::Table(map) => write_items(alloc, writer, line, &Label::Table, place, map),
        Name::Memory(map) => write_items(alloc, writer, line, &Label::Memory, place, map),
        Name::Global(map) => write_items(alloc, writer, line, &Label::Global, place, map),
        Name::Element(map) => write_items(alloc, writer, line, &Label::Element, place, map),
        Name::Data(map) => write_items(alloc, writer, line, &Label::Data, place, map),
        Name::Tag(map) => write_items(alloc, writer, line, &Label::Tag, place, map),
        Name::Local(map) => write_items(alloc, writer, line, &(), place, map),
        Name::Label(_) | Name::Field(_) => Ok(place),
        Name::Unknown {
            ty: _,
            data: _,
            range: _,
        } => Ok(place),
    }
}

/// Writes the names in the custom section `name`.
///
/// Fails with `Section` at the first subsection or name in error, after the names before it.
pub fn write_names<W: Write>(
    alloc: Global,
    writer: &mut W,
    line: &mut String,
    place: Place,
    contents: BinaryReader<'_>,
) -> Result<Place, Fault>
    ensures { ListsNames place contents.entry result (W.contents writer.old) (W.contents writer.new) }
{
    let mut names = NameSectionReader::new(alloc, contents);
    'subsections: while let Some(item) = names.next() {
        let name = match item {
            Ok(name) => name,
            Err(e) => return Err(Fault::Section(e)),
        };
        let _after = match write_name(alloc, writer, line, place, name) {
            Ok(after) => after,
            Err(fault) => return Err(fault),
        };
    }
    Ok(place)
}
