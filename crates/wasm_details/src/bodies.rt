ghost use Rattle.std.specs.Prelude.{◌≡◌, ◌++◌, OnOk, length, string_bytes};
ghost use Rattle.wasm_below.specs.Source.{rest};
ghost use Rattle.wasm_details.specs.Bodies.{body_line, last_name, named_index, start_text, data_count_text};
ghost use Rattle.wasm_details.specs.Places.{after_one};
ghost use Rattle.wasm_details.specs.Writing.{WritesLine};

use crate::details::Details;
use crate::externals::push_name;
use crate::place::{Place, after_one};
use std::alloc::Global;
use std::io::Write;
use wasm_below::BinaryReader;
use wasm_index_names::Names;
use wasm_rows::{Fault, write_text};
use wasm_text::Written;

/// Appends the line of a body with this size.
fn push_body(out: &mut String, names: &Names, index: u32, size: usize) -> Written
    ensures { OnOk result (string_bytes out.new ≡ string_bytes out.old ++ body_line names.now index size) }
{
    write!(out, " - func[{index}] size={size}")?;
    push_name(out, names.function(index))?;
    out.push_str("\n")
}

/// An item of the code section: a function's body, without its size.
impl<'a> Details<'a, Names> for BinaryReader<'a> {
    ghost lists = { λ names place body. WritesLine (body_line names place.next (length (rest body))) (after_one place) };

    fn write_lines<W: Write>(
        self,
        _alloc: Global,
        writer: &mut W,
        line: &mut String,
        names: &Names,
        place: Place,
    ) -> Result<Place, Fault> {
        line.clear();
        if push_body(line, names, place.next, self.bytes_remaining()).is_err() {
            return Err(Fault::Memory);
        }
        match write_text(writer, line.as_str()) {
            Ok(()) => Ok(after_one(place)),
            Err(fault) => Err(fault),
        }
    }
}

/// Appends a name in angle brackets, unless it is empty, and the end of the line.
fn push_last_name(out: &mut String, name: &str) -> Written
    ensures { OnOk result (string_bytes out.new ≡ string_bytes out.old ++ last_name name.now) }
{
    push_name(out, name)?;
    out.push_str("\n")
}

/// Appends a function's index and name, and the end of the line.
fn push_named_index(out: &mut String, names: &Names, index: u32) -> Written
    ensures { OnOk result (string_bytes out.new ≡ string_bytes out.old ++ named_index names.now index) }
{
    write!(out, "{index}")?;
    push_last_name(out, names.function(index))
}

/// Appends a text, a function's index and name, and the end of the line.
fn push_index_after(out: &mut String, before: &str, names: &Names, index: u32) -> Written
    ensures { OnOk result (string_bytes out.new ≡ string_bytes out.old ++ (before.now ++ named_index names.now index)) }
{
    out.push_str(before)?;
    push_named_index(out, names, index)
}

/// Appends the start section.
pub fn push_start(out: &mut String, names: &Names, index: u32) -> Written
    ensures { OnOk result (string_bytes out.new ≡ string_bytes out.old ++ start_text names.now index) }
{
    push_index_after(out, "Start:\n - start function: ", names, index)
}

/// Appends the data count section.
pub fn push_data_count(out: &mut String, count: u32) -> Written
    ensures { OnOk result (string_bytes out.new ≡ string_bytes out.old ++ data_count_text count) }
{
    write!(out, "DataCount:\n - data count: {count}\n")
}
