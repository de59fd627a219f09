use std::io::{self, Print};
use wasm_check_control::ModuleContext;
use wasm_context::Context;

/// More than the test modules have of anything.
const MANY: u32 = 200;

/// Prints what a context says about each index, in the order of the trait's functions.
pub fn print_context<R: Print>(rt: &R, context: &Context) -> io::Result<()> {
    for index in 0..MANY {
        print_type(rt, context, index)?;
    }
    for index in 0..MANY {
        print_function(rt, context, index)?;
    }
    for index in 0..MANY {
        print_others(rt, context, index)?;
    }
    Ok(())
}

fn print_type<R: Print>(rt: &R, context: &Context, index: u32) -> io::Result<()> {
    if context.composite_kind(index).is_some() {
        print!(rt; "type {index}:")?;
        for of in 0..MANY {
            if context.composite_kind(of).is_some() && context.is_subtype(index, of) {
                print!(rt; " {of}")?;
            }
        }
        println!(rt;)?;
    }
    if let Some(ty) = context.type_at(index) {
        println!(rt; "  function {:?} {:?}", ty.params, ty.results)?;
    }
    if let Some(ty) = context.struct_type(index) {
        println!(rt; "  structure {:?}", ty.fields)?;
    }
    if let Some(ty) = context.array_elements(index) {
        println!(rt; "  array {ty:?}")?;
    }
    Ok(())
}

fn print_function<R: Print>(rt: &R, context: &Context, index: u32) -> io::Result<()> {
    if let Some(ty) = context.type_index(index) {
        let declared = context.is_declared(index);
        println!(rt; "function {index}: {ty} {declared}")?;
    }
    if let Some(ty) = context.function_type(index) {
        println!(rt; "  {:?} {:?}", ty.params, ty.results)?;
    }
    if let Some(ty) = context.tag_type(index) {
        println!(rt; "tag {index}: {:?} {:?}", ty.params, ty.results)?;
    }
    Ok(())
}

fn print_others<R: Print>(rt: &R, context: &Context, index: u32) -> io::Result<()> {
    if let Some(ty) = context.table_type(index) {
        println!(rt; "table {index}: {:?} {}", ty.element_type, ty.table64)?;
    }
    if let Some(memory64) = context.memory64(index) {
        println!(rt; "memory {index}: {memory64}")?;
    }
    if let Some(ty) = context.global_type(index) {
        println!(rt; "global {index}: {:?} {}", ty.content_type, ty.mutable)?;
    }
    if let Some(ty) = context.element_type(index) {
        println!(rt; "element {index}: {ty:?}")?;
    }
    if context.has_data(index) {
        println!(rt; "data {index}")?;
    }
    Ok(())
}
