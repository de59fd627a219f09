//! The sections that give names.
ghost use Rattle.std.specs.Prelude.{OnOk};
ghost use Rattle.wasm_index_names.specs.Sections.{GivesSection, GivesSections};

use crate::giving::GivenNames;
use crate::items::give_counted;
use crate::list::NameList;
use crate::subsections::give_custom;
use std::alloc::{AllocError, Global};
use wasm_below::BinaryReader;
use wasm_externals::{Export, Import};
use wasm_module::{function_laws, read_section};

/// Gives the names of the section with this id.
fn give_section(
    alloc: Global,
    id: u8,
    contents: BinaryReader<'_>,
    given: &mut GivenNames,
) -> Result<(), AllocError>
    ensures { OnOk result (GivesSection id contents.entry given.old given.new) }
{
    match id {
        0 => give_custom(alloc, contents, given),
        2 => give_counted::<GivenNames, Import<'_>>(alloc, contents, given),
        7 => give_counted::<NameList, Export<'_>>(alloc, contents, &mut given.globals),
        _ => Ok(()),
    }
}

/// Gives the names of all sections, or of those before the first that is in error.
pub fn give_sections(
    alloc: Global,
    sections: BinaryReader<'_>,
    given: &mut GivenNames,
) -> Result<(), AllocError>
    ensures { OnOk result (GivesSections sections.entry given.old given.new) }
{
    function_laws::next_section();
    let mut reader = sections;
    'sections: while !reader.eof() {
        let section = match read_section(&mut reader) {
            Ok(section) => section,
            Err(_) => return Ok(()),
        };
        if let Err(e) = give_section(alloc, section.id(), section.contents(), given) {
            return Err(e);
        }
    }
    Ok(())
}
