ghost use Rattle.std.specs.Prelude.{◌≡◌, ◌++◌, OnOk, string_bytes};
ghost use Rattle.wasm_escapes.specs.Escapes.{escaped};
ghost use Rattle.wasm_details.specs.Names.{ListsFunctionLocals};
ghost use Rattle.wasm_details.specs.Namings.{label_text, naming_line, module_line, custom_text};
ghost use Rattle.wasm_details.specs.Writing.{WritesLine};

use crate::details::Details;
use crate::items::write_items;
use crate::place::Place;
use std::alloc::Global;
use std::io::Write;
use wasm_escapes::write_escaped;
use wasm_names::{IndirectNaming, Naming};
use wasm_rows::{Fault, write_text};
use wasm_text::Written;

/// What a map names.
#[derive(Clone, Copy)]
pub enum Label {
    Function,
    Type,
    Table,
    Memory,
    Global,
    Element,
    Data,
    Tag,
    /// Locals of the function with this index.
    Local(u32),
}

/// Appends the words before the index of a local of the function with this index.
fn push_local_label(out: &mut String, function: u32) -> Written
    ensures { OnOk result (string_bytes out.new ≡ string_bytes out.old ++ label_text (Label.Local function)) }
{
    write!(out, " - func[{function}] local[")
}

/// Appends the words before the index of what is named.
fn push_label(out: &mut String, label: Label) -> Written
    ensures { OnOk result (string_bytes out.new ≡ string_bytes out.old ++ label_text label) }
{
    match label {
        Label::Function => out.push_str(" - func["),
        Label::Type => out.push_str(" - type["),
        Label::Table => out.push_str(" - table["),
        Label::Memory => out.push_str(" - memory["),
        Label::Global => out.push_str(" - global["),
        Label::Element => out.push_str(" - elemseg["),
        Label::Data => out.push_str(" - dataseg["),
        Label::Tag => out.push_str(" - tag["),
        Label::Local(function) => push_local_label(out, function),
    }
}

/// Appends the line of a name.
fn push_naming(alloc: Global, out: &mut String, label: Label, naming: &Naming<'_>) -> Written
    ensures { OnOk result (string_bytes out.new ≡ string_bytes out.old ++ naming_line label naming.now) }
{
    let index = naming.index;
    push_label(out, label)?;
    write!(out, "{index}] <")?;
    write_escaped(alloc, out, naming.name.as_str().as_bytes())?;
    out.push_str(">\n")
}

/// A name in a map of the custom section `name`.
impl<'a> Details<'a, Label> for Naming<'a> {
    ghost lists = { λ label place n. WritesLine (naming_line label n) place };

    fn write_lines<W: Write>(
        self,
        alloc: Global,
        writer: &mut W,
        line: &mut String,
        label: &Label,
        place: Place,
    ) -> Result<Place, Fault> {
        line.clear();
        if push_naming(alloc, line, *label, &self).is_err() {
            return Err(Fault::Memory);
        }
        match write_text(writer, line.as_str()) {
            Ok(()) => Ok(place),
            Err(fault) => Err(fault),
        }
    }
}

/// The names of a function's locals in the custom section `name`.
impl<'a> Details<'a, ()> for IndirectNaming<'a> {
    ghost lists = { λ context. ListsFunctionLocals };

    fn write_lines<W: Write>(
        self,
        alloc: Global,
        writer: &mut W,
        line: &mut String,
        _context: &(),
        place: Place,
    ) -> Result<Place, Fault> {
        let label = Label::Local(self.index);
        write_items(alloc, writer, line, &label, place, self.names)
    }
}

/// Appends a name, escaped, between two texts.
fn push_between(alloc: Global, out: &mut String, before: &str, name: &str, after: &str) -> Written
    ensures { OnOk result (string_bytes out.new ≡ string_bytes out.old ++ (before.now ++ (escaped name.now ++ after.now))) }
{
    out.push_str(before)?;
    write_escaped(alloc, out, name.as_bytes())?;
    out.push_str(after)
}

/// Appends the name of the module.
pub fn push_module(alloc: Global, out: &mut String, name: &str) -> Written
    ensures { OnOk result (string_bytes out.new ≡ string_bytes out.old ++ module_line name.now) }
{
    push_between(alloc, out, " - module <", name, ">\n")
}

/// Appends the title of a custom section.
pub fn push_custom(alloc: Global, out: &mut String, name: &str) -> Written
    ensures { OnOk result (string_bytes out.new ≡ string_bytes out.old ++ custom_text name.now) }
{
    push_between(alloc, out, "Custom:\n - name: \"", name, "\"\n")
}
