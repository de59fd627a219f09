ghost use Rattle.std.specs.Prelude.{◌≡◌, ◌++◌, OnOk, string_bytes, flat_map};
ghost use Rattle.wasm_details.specs.Types.{type_name, next_type, types_text, results_text, signature_text, storage_text, field_text, inner_text, composite_text, supertype_text, final_text, declared_text, sub_text, type_line, type_lines, after_types, group_lines, after_group};
ghost use Rattle.wasm_details.specs.Writing.{WritesLine};

use crate::details::Details;
use crate::place::{Place, after_index};
use std::alloc::Global;
use std::io::Write;
use wasm_below::ValType;
use wasm_index_names::Names;
use wasm_rows::{Fault, write_text};
use wasm_text::{Written, write_value_type};
use wasm_types::{
    CompositeInnerType, CompositeType, FieldType, FuncType, RecGroup, StorageType, SubType,
};

/// Appends the name of a value type, without the space before it.
pub fn push_type_name(alloc: Global, out: &mut String, ty: ValType) -> Written
    ensures { OnOk result (string_bytes out.new ≡ string_bytes out.old ++ type_name ty) }
{
    let mut spaced = String::new(alloc);
    write_value_type(&mut spaced, ty)?;
    match spaced.as_str().strip_prefix(' ') {
        Some(name) => out.push_str(name),
        None => out.push_str(spaced.as_str()),
    }
}

/// Appends a type after a comma.
fn push_next_type(alloc: Global, out: &mut String, ty: ValType) -> Written
    ensures { OnOk result (string_bytes out.new ≡ string_bytes out.old ++ next_type ty) }
{
    out.push_str(", ")?;
    push_type_name(alloc, out, ty)
}

/// Appends types after the first, each after a comma.
fn push_more_types(alloc: Global, out: &mut String, types: &[ValType]) -> Written
    ensures { OnOk result (string_bytes out.new ≡ string_bytes out.old ++ flat_map next_type types.now) }
{
    for ty in types {
        push_next_type(alloc, out, *ty)?;
    }
    Ok(())
}

/// Appends types in parentheses, with commas between them.
fn push_types(alloc: Global, out: &mut String, types: &[ValType]) -> Written
    ensures { OnOk result (string_bytes out.new ≡ string_bytes out.old ++ types_text types.now) }
{
    out.push_str("(")?;
    if let [first, more @ ..] = types {
        push_type_name(alloc, out, *first)?;
        push_more_types(alloc, out, more)?;
    }
    out.push_str(")")
}

/// Appends the types of results: `nil` without results.
fn push_results(alloc: Global, out: &mut String, types: &[ValType]) -> Written
    ensures { OnOk result (string_bytes out.new ≡ string_bytes out.old ++ results_text types.now) }
{
    match types {
        [] => out.push_str("nil"),
        [ty] => push_type_name(alloc, out, *ty),
        _ => push_types(alloc, out, types),
    }
}

fn push_signature(alloc: Global, out: &mut String, ty: &FuncType) -> Written
    ensures { OnOk result (string_bytes out.new ≡ string_bytes out.old ++ signature_text ty.now) }
{
    push_types(alloc, out, ty.params())?;
    out.push_str(" -> ")?;
    push_results(alloc, out, ty.results())
}

/// Appends the type of a field, after a space.
fn push_storage(out: &mut String, ty: StorageType) -> Written
    ensures { OnOk result (string_bytes out.new ≡ string_bytes out.old ++ storage_text ty) }
{
    match ty {
        StorageType::I8 => out.push_str(" i8"),
        StorageType::I16 => out.push_str(" i16"),
        StorageType::Val(ty) => write_value_type(out, ty),
    }
}

fn push_field(out: &mut String, ty: FieldType) -> Written
    ensures { OnOk result (string_bytes out.new ≡ string_bytes out.old ++ field_text ty) }
{
    if !ty.mutable {
        return push_storage(out, ty.element_type);
    }
    out.push_str(" (mut")?;
    push_storage(out, ty.element_type)?;
    out.push_str(")")
}

fn push_fields(out: &mut String, fields: &[FieldType]) -> Written
    ensures { OnOk result (string_bytes out.new ≡ string_bytes out.old ++ flat_map field_text fields.now) }
{
    for field in fields {
        push_field(out, *field)?;
    }
    Ok(())
}

fn push_inner(alloc: Global, out: &mut String, ty: &CompositeInnerType) -> Written
    ensures { OnOk result (string_bytes out.new ≡ string_bytes out.old ++ inner_text ty.now) }
{
    match ty {
        CompositeInnerType::Func(ty) => push_signature(alloc, out, ty),
        CompositeInnerType::Struct(ty) => {
            out.push_str("(struct")?;
            push_fields(out, ty.fields.as_slice())?;
            out.push_str(")")
        }
        CompositeInnerType::Array(ty) => {
            out.push_str("(array")?;
            push_field(out, ty.0)?;
            out.push_str(")")
        }
        CompositeInnerType::Cont(ty) => {
            let index = ty.0;
            write!(out, "(cont {index})")
        }
    }
}

fn push_composite(alloc: Global, out: &mut String, ty: &CompositeType) -> Written
    ensures { OnOk result (string_bytes out.new ≡ string_bytes out.old ++ composite_text ty.now) }
{
    if !ty.shared {
        return push_inner(alloc, out, &ty.inner);
    }
    out.push_str("(shared ")?;
    push_inner(alloc, out, &ty.inner)?;
    out.push_str(")")
}

fn push_supertype(out: &mut String, supertype: Option<u32>) -> Written
    ensures { OnOk result (string_bytes out.new ≡ string_bytes out.old ++ supertype_text supertype) }
{
    match supertype {
        Some(index) => write!(out, " {index}"),
        None => Ok(()),
    }
}

fn final_words(is_final: bool) -> &'static str
    ensures { result.now ≡ final_text is_final }
{
    if is_final { "(sub final" } else { "(sub" }
}

/// Appends a type with its supertype, and whether it is final.
fn push_declared(alloc: Global, out: &mut String, ty: &SubType) -> Written
    ensures { OnOk result (string_bytes out.new ≡ string_bytes out.old ++ declared_text ty.now) }
{
    out.push_str(final_words(ty.is_final))?;
    push_supertype(out, ty.supertype_idx)?;
    out.push_str(" ")?;
    push_composite(alloc, out, &ty.composite_type)?;
    out.push_str(")")
}

/// Appends a type; a final type without a supertype alone.
fn push_sub(alloc: Global, out: &mut String, ty: &SubType) -> Written
    ensures { OnOk result (string_bytes out.new ≡ string_bytes out.old ++ sub_text ty.now) }
{
    if !ty.is_final {
        return push_declared(alloc, out, ty);
    }
    match ty.supertype_idx {
        Some(_) => push_declared(alloc, out, ty),
        None => push_composite(alloc, out, &ty.composite_type),
    }
}

/// Appends the line of a type.
fn push_type(alloc: Global, out: &mut String, index: u32, ty: &SubType) -> Written
    ensures { OnOk result (string_bytes out.new ≡ string_bytes out.old ++ type_line index ty.now) }
{
    write!(out, " - type[{index}] ")?;
    push_sub(alloc, out, ty)?;
    out.push_str("\n")
}

/// Appends the lines of types, of which the first has this index.
fn push_type_lines(alloc: Global, out: &mut String, index: u32, types: &[SubType]) -> Written
    ensures { OnOk result (string_bytes out.new ≡ string_bytes out.old ++ type_lines index types.now) }
{
    let mut next = index;
    for ty in types {
        push_type(alloc, out, next, ty)?;
        next = after_index(next);
    }
    Ok(())
}

/// Returns the index after types, of which the first has this index.
fn after_types(index: u32, types: &[SubType]) -> u32
    ensures { result ≡ after_types index types.now }
{
    let mut next = index;
    for _ty in types {
        next = after_index(next);
    }
    next
}

/// An item of the type section.
impl<'a> Details<'a, Names> for RecGroup {
    ghost lists = { λ names place group. WritesLine (group_lines place group) (after_group place group) };

    fn write_lines<W: Write>(
        self,
        alloc: Global,
        writer: &mut W,
        line: &mut String,
        _names: &Names,
        place: Place,
    ) -> Result<Place, Fault> {
        line.clear();
        if push_type_lines(alloc, line, place.next, self.types()).is_err() {
            return Err(Fault::Memory);
        }
        match write_text(writer, line.as_str()) {
            Ok(()) => Ok(Place {
                next: after_types(place.next, self.types()),
                address: place.address,
                imported: place.imported,
            }),
            Err(fault) => Err(fault),
        }
    }
}
