ghost use Rattle.std.specs.Prelude.{List, ℕ, Option, Result};
ghost use Rattle.wasm_rows.specs.declared.fault.Fault.{Fault};
ghost use Rattle.wasm_details.specs.declared.place.Place.{Place};

use crate::place::Place;
use std::alloc::Global;
use std::io::Write;
use wasm_grammars::Read;
use wasm_rows::Fault;

/// An item of a section that is shown as lines, which depend on a context, such as the names of a
/// module's things.
pub trait Details<'a, C>: Read<'a> {
    /// What is written for the item at a place, and the place after it.
    ghost lists: { C → Place → Self → Result Place Fault → Option (List ℕ) → Option (List ℕ) → Type 0 };

    /// Writes the lines of the item, which is at this place, through the buffer `line`. Returns the
    /// place after it.
    fn write_lines<W: Write>(
        self,
        alloc: Global,
        writer: &mut W,
        line: &mut String,
        context: &C,
        place: Place,
    ) -> Result<Place, Fault>
        ensures { lists context.now place self result (W.contents writer.old) (W.contents writer.new) };
}
