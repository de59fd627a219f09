//! Globals and tables, with their values at the start.
ghost use Rattle.std.specs.Prelude.{◌≡◌, ◌++◌, OnOk, string_bytes};
ghost use Rattle.wasm_details.specs.Segments.{initial_text, global_line, table_head, table_line, filled_table_line, ListsGlobal, ListsInitial, ListsTable};

use crate::constants::{ConstantDetails, Usage};
use crate::details::Details;
use crate::externals::{push_global, push_name, push_table};
use crate::place::{Place, after_one};
use std::alloc::Global;
use std::io::Write;
use wasm_externals::{GlobalType, TableType};
use wasm_index_names::Names;
use wasm_rows::{Fault, write_text};
use wasm_segments::TableInit;
use wasm_text::Written;

/// Appends a value at the start, and the end of the line.
fn push_initial(out: &mut String, shown: &str) -> Written
    ensures { OnOk result (string_bytes out.new ≡ string_bytes out.old ++ initial_text shown.now) }
{
    out.push_str(" - init ")?;
    out.push_str(shown)?;
    out.push_str("\n")
}

/// Appends the line of a global.
fn push_global_line(
    alloc: Global,
    out: &mut String,
    names: &Names,
    index: u32,
    ty: GlobalType,
    shown: &str,
) -> Written
    ensures { OnOk result (string_bytes out.new ≡ string_bytes out.old ++ global_line names.now index ty shown.now) }
{
    push_global(alloc, out, index, ty)?;
    push_name(out, names.global(index))?;
    push_initial(out, shown)
}

impl<'a, C: ConstantDetails<'a>> Details<'a, Names> for wasm_segments::Global<C> {
    ghost lists = { λ names. ListsGlobal C.shows names };

    fn write_lines<W: Write>(
        self,
        alloc: Global,
        writer: &mut W,
        line: &mut String,
        names: &Names,
        place: Place,
    ) -> Result<Place, Fault> {
        let Ok(shown) = self.init_expr.show(alloc, names, Usage::Value) else {
            return Err(Fault::Memory);
        };
        line.clear();
        let text = shown.text.as_str();
        if push_global_line(alloc, line, names, place.next, self.ty, text).is_err() {
            return Err(Fault::Memory);
        }
        match write_text(writer, line.as_str()) {
            Ok(()) => Ok(after_one(place)),
            Err(fault) => Err(fault),
        }
    }
}

/// Appends the type and the name of a table.
fn push_table_head(
    alloc: Global,
    out: &mut String,
    names: &Names,
    index: u32,
    ty: TableType,
) -> Written
    ensures { OnOk result (string_bytes out.new ≡ string_bytes out.old ++ table_head names.now index ty) }
{
    push_table(alloc, out, index, ty)?;
    push_name(out, names.table(index))
}

/// Appends the line of a table without an initial value.
fn push_table_line(
    alloc: Global,
    out: &mut String,
    names: &Names,
    index: u32,
    ty: TableType,
) -> Written
    ensures { OnOk result (string_bytes out.new ≡ string_bytes out.old ++ table_line names.now index ty) }
{
    push_table_head(alloc, out, names, index, ty)?;
    out.push_str("\n")
}

/// Appends the line of a table with an initial value.
fn push_filled_table(
    alloc: Global,
    out: &mut String,
    names: &Names,
    index: u32,
    ty: TableType,
    shown: &str,
) -> Written
    ensures { OnOk result (string_bytes out.new ≡ string_bytes out.old ++ filled_table_line names.now index ty shown.now) }
{
    push_table_head(alloc, out, names, index, ty)?;
    push_initial(out, shown)
}

/// Writes the line of a table.
fn write_table<'a, W: Write, C: ConstantDetails<'a>>(
    alloc: Global,
    writer: &mut W,
    line: &mut String,
    names: &Names,
    place: Place,
    ty: TableType,
    init: &TableInit<C>,
) -> Result<Place, Fault>
    ensures { ListsInitial C.shows names.now place ty init.now result (W.contents writer.old) (W.contents writer.new) }
{
    line.clear();
    match init {
        TableInit::RefNull => {
            if push_table_line(alloc, line, names, place.next, ty).is_err() {
                return Err(Fault::Memory);
            }
            match write_text(writer, line.as_str()) {
                Ok(()) => Ok(after_one(place)),
                Err(fault) => Err(fault),
            }
        }
        TableInit::Expr(value) => {
            let Ok(shown) = value.show(alloc, names, Usage::Value) else {
                return Err(Fault::Memory);
            };
            let text = shown.text.as_str();
            if push_filled_table(alloc, line, names, place.next, ty, text).is_err() {
                return Err(Fault::Memory);
            }
            match write_text(writer, line.as_str()) {
                Ok(()) => Ok(after_one(place)),
                Err(fault) => Err(fault),
            }
        }
    }
}

impl<'a, C: ConstantDetails<'a>> Details<'a, Names> for wasm_segments::Table<C> {
    ghost lists = { λ names. ListsTable C.shows names };

    fn write_lines<W: Write>(
        self,
        alloc: Global,
        writer: &mut W,
        line: &mut String,
        names: &Names,
        place: Place,
    ) -> Result<Place, Fault> {
        write_table(alloc, writer, line, names, place, self.ty, &self.init)
    }
}
