//! The custom section `name`.
ghost use Rattle.std.specs.Prelude.{OnOk};
ghost use Rattle.wasm_index_names.specs.Sections.{GivesName, GivesNames, GivesIf, GivesCustom, is_name};

use crate::giving::GivenNames;
use crate::items::give_items;
use std::alloc::{AllocError, Global};
use wasm_below::BinaryReader;
use wasm_externals::Text;
use wasm_grammars::Read;
use wasm_names::{Name, NameSectionReader};

/// Gives the names of a subsection.
fn give_name(alloc: Global, name: Name<'_>, given: &mut GivenNames) -> Result<(), AllocError>
    ensures { OnOk result (GivesName name.entry given.old given.new) }
{
    match name {
        Name::Type(map) => give_items(alloc, map, &mut given.types),
        Name::Table(map) => give_items(alloc, map, &mut given.tables),
        Name::Global(map) => give_items(alloc, map, &mut given.globals),
        Name::Tag(map) => give_items(alloc, map, &mut given.tags),
        Name::Data(map) => give_items(alloc, map, &mut given.segments),
        Name::Local(map) => give_items(alloc, map, &mut given.locals),
        _ => Ok(()),
    }
}

/// Gives the names of all subsections, or of those before the first that is in error.
fn give_names(
    alloc: Global,
    contents: BinaryReader<'_>,
    given: &mut GivenNames,
) -> Result<(), AllocError>
    ensures { OnOk result (GivesNames contents.entry given.old given.new) }
{
    let mut names = NameSectionReader::new(alloc, contents);
    'subsections: while let Some(item) = names.next() {
        let name = match item {
            Ok(name) => name,
            Err(_) => return Ok(()),
        };
        if let Err(e) = give_name(alloc, name, given) {
            return Err(e);
        }
    }
    Ok(())
}

/// Gives the names in the data of a custom section with the name `name`; of others none.
fn give_if(
    alloc: Global,
    name: &str,
    contents: BinaryReader<'_>,
    given: &mut GivenNames,
) -> Result<(), AllocError>
    ensures { OnOk result (GivesIf (is_name name.now) contents.entry given.old given.new) }
{
    let is_name = name == "name";
    if is_name {
        give_names(alloc, contents, given)
    } else {
        Ok(())
    }
}

/// Gives the names in a custom section.
pub fn give_custom(
    alloc: Global,
    contents: BinaryReader<'_>,
    given: &mut GivenNames,
) -> Result<(), AllocError>
    ensures { OnOk result (GivesCustom contents.entry given.old given.new) }
{
    let mut reader = contents;
    let name = match Text::read_from(alloc, &mut reader) {
        Ok(name) => name,
        Err(_) => return Ok(()),
    };
    give_if(alloc, name.as_str(), reader, given)
}
