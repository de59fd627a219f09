//! The items of a module that hold constant expressions.
use std::alloc::Global as Allocator;
use std::io::{self, Print};
use wasm_constants::{
    Constant, Data, DataKind, Element, ElementItems, ElementKind, Global, Table, TableInit,
};
use wasm_grammars::Read;
use wasm_payloads::{Payload, UnreadItems};

/// Prints the items of a section that hold constant expressions, one a line.
pub fn print_items<R: Print>(rt: &R, alloc: Allocator, payload: Payload<'_>) -> io::Result<()> {
    match payload {
        Payload::TableSection(items) => print_each::<R, Table<'_>>(rt, alloc, items),
        Payload::GlobalSection(items) => print_each::<R, Global<'_>>(rt, alloc, items),
        Payload::ElementSection(items) => print_each::<R, Element<'_>>(rt, alloc, items),
        Payload::DataSection(items) => print_each::<R, Data<'_>>(rt, alloc, items),
        _ => Ok(()),
    }
}

fn print_each<'a, R: Print, T: Read<'a> + Item>(
    rt: &R,
    alloc: Allocator,
    items: UnreadItems<'a>,
) -> io::Result<()> {
    for item in items.read_as::<T>().into_iter_with_offsets() {
        match item {
            Ok((offset, value)) => {
                print!(rt; "    {offset:x}")?;
                value.print(rt, alloc)?;
                println!(rt;)?
            }
            Err(e) => println!(rt; "    {e}")?,
        }
    }
    Ok(())
}

trait Item {
    fn print<R: Print>(&self, rt: &R, alloc: Allocator) -> io::Result<()>;
}

impl<'a> Item for Table<'a> {
    fn print<R: Print>(&self, rt: &R, _alloc: Allocator) -> io::Result<()> {
        match &self.init {
            TableInit::RefNull => print!(rt; " null"),
            TableInit::Expr(value) => print_constant(rt, value),
        }
    }
}

impl<'a> Item for Global<'a> {
    fn print<R: Print>(&self, rt: &R, _alloc: Allocator) -> io::Result<()> {
        print_constant(rt, &self.init_expr)
    }
}

impl<'a> Item for Data<'a> {
    fn print<R: Print>(&self, rt: &R, _alloc: Allocator) -> io::Result<()> {
        match &self.kind {
            DataKind::Passive => print!(rt; " passive")?,
            DataKind::Active {
                memory_index,
                offset_expr,
            } => {
                print!(rt; " active {memory_index}")?;
                print_constant(rt, offset_expr)?
            }
        }
        print!(rt; "; {} bytes", self.data.as_slice().len())
    }
}

impl<'a> Item for Element<'a> {
    fn print<R: Print>(&self, rt: &R, alloc: Allocator) -> io::Result<()> {
        match &self.kind {
            ElementKind::Passive => print!(rt; " passive;")?,
            ElementKind::Declared => print!(rt; " declared;")?,
            ElementKind::Active {
                table_index,
                offset_expr,
            } => {
                print!(rt; " active {table_index:?}")?;
                print_constant(rt, offset_expr)?;
                print!(rt; ";")?
            }
        }
        print_elements(rt, alloc, &self.items)
    }
}

fn print_elements<R: Print>(rt: &R, alloc: Allocator, items: &ElementItems<'_>) -> io::Result<()> {
    match items {
        ElementItems::Functions(indices) => {
            print!(rt; " functions")?;
            for index in indices.section_reader(alloc) {
                match index {
                    Ok(index) => print!(rt; " {index}")?,
                    Err(e) => print!(rt; " {e}")?,
                }
            }
        }
        ElementItems::Expressions(_, values) => {
            print!(rt; " expressions")?;
            for value in values.section_reader(alloc) {
                match value {
                    Ok(value) => print_constant(rt, &value)?,
                    Err(e) => print!(rt; " {e}")?,
                }
            }
        }
    }
    Ok(())
}

/// Prints the offsets of the expression's bytes.
fn print_constant<R: Print>(rt: &R, constant: &Constant<'_>) -> io::Result<()> {
    let range = constant.expression().get_binary_reader().range();
    print!(rt; " {:x}..{:x}", range.start, range.end)
}
