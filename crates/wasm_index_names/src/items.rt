ghost use Rattle.std.specs.Prelude.{OnOk, List, ℕ};
ghost use Rattle.wasm_index_names.specs.Giving.{GivesItems, GivesCounted};

use std::alloc::{AllocError, Global};
use wasm_below::BinaryReader;
use wasm_grammars::Read;
use wasm_sections::SectionReader;

/// An item of a section that gives names to a state.
pub trait Gives<'a, S>: Read<'a> {
    /// The state before, the item, and the state after.
    ghost gives: { S → Self → S → Type 0 };

    /// Gives the item's names.
    fn give(self, alloc: Global, state: &mut S) -> Result<(), AllocError>
        ensures { OnOk result (gives state.old self state.new) };
}

/// Gives the names of all items, or of those before the first that is in error.
pub fn give_items<'a, S, T: Gives<'a, S>>(
    alloc: Global,
    section: SectionReader<'a, T>,
    state: &mut S,
) -> Result<(), AllocError>
    ensures { OnOk result (GivesItems T.grammar T.gives section.entry state.old state.new) }
{
    let mut items = section.into_iter();
    'items: while let Some(item) = items.next() {
        let item = match item {
            Ok(item) => item,
            Err(_) => return Ok(()),
        };
        if let Err(e) = item.give(alloc, state) {
            return Err(e);
        }
    }
    Ok(())
}

/// Gives the names of a section's items, like `give_items`; of none if their number is in error.
pub fn give_counted<'a, S, T: Gives<'a, S>>(
    alloc: Global,
    contents: BinaryReader<'a>,
    state: &mut S,
) -> Result<(), AllocError>
    ensures { OnOk result (GivesCounted T.grammar T.gives contents.entry state.old state.new) }
{
    let section: SectionReader<'a, T> = match SectionReader::new(alloc, contents) {
        Ok(section) => section,
        Err(_) => return Ok(()),
    };
    give_items(alloc, section, state)
}
