ghost use Rattle.std.specs.Prelude.{◌≡◌, ◌++◌, OnOk, string_bytes};
ghost use Rattle.wasm_text.specs.Lines.{shown_name};
ghost use Rattle.wasm_details.specs.Externals.{function_text, function_line, maximum_text, shared_text, address_text, limits_text, page_text, memory_limits, sizes_text, pages_text, memory_text, memory_line, table_text, mutable_text, global_text, tag_text, tag_line, imported_text, import_line, with_import, after_import, kind_text, exported_name, export_line};
ghost use Rattle.wasm_details.specs.Places.{after_one};
ghost use Rattle.wasm_details.specs.Writing.{WritesLine};

use crate::details::Details;
use crate::place::{Imported, Place, after_index, after_one};
use crate::types::push_type_name;
use std::alloc::Global;
use std::io::Write;
use wasm_below::ValType;
use wasm_escapes::write_escaped;
use wasm_externals::{
    Export, ExternalKind, GlobalType, Import, MemoryType, TableType, TagType, TypeRef,
};
use wasm_index_names::Names;
use wasm_rows::{Fault, write_text};
use wasm_text::Written;

/// Appends a name in angle brackets, unless it is empty.
pub fn push_name(out: &mut String, name: &str) -> Written
    ensures { OnOk result (string_bytes out.new ≡ string_bytes out.old ++ shown_name name.now) }
{
    if name.is_empty() {
        return Ok(());
    }
    out.push_str(" <")?;
    out.push_str(name)?;
    out.push_str(">")
}

/// Appends a function's index, type and name.
fn push_function(out: &mut String, names: &Names, index: u32, ty: u32) -> Written
    ensures { OnOk result (string_bytes out.new ≡ string_bytes out.old ++ function_text names.now index ty) }
{
    write!(out, " - func[{index}] sig={ty}")?;
    push_name(out, names.function(index))
}

/// Appends the line of a function.
fn push_function_line(out: &mut String, names: &Names, index: u32, ty: u32) -> Written
    ensures { OnOk result (string_bytes out.new ≡ string_bytes out.old ++ function_line names.now index ty) }
{
    push_function(out, names, index, ty)?;
    out.push_str("\n")
}

/// An item of the function section: the index of a function's type.
impl<'a> Details<'a, Names> for u32 {
    ghost lists = { λ names place ty. WritesLine (function_line names place.next ty) (after_one place) };

    fn write_lines<W: Write>(
        self,
        _alloc: Global,
        writer: &mut W,
        line: &mut String,
        names: &Names,
        place: Place,
    ) -> Result<Place, Fault> {
        line.clear();
        if push_function_line(line, names, place.next, self).is_err() {
            return Err(Fault::Memory);
        }
        match write_text(writer, line.as_str()) {
            Ok(()) => Ok(after_one(place)),
            Err(fault) => Err(fault),
        }
    }
}

/// Appends the greatest size, if there is one.
fn push_maximum(out: &mut String, maximum: Option<u64>) -> Written
    ensures { OnOk result (string_bytes out.new ≡ string_bytes out.old ++ maximum_text maximum) }
{
    match maximum {
        Some(size) => write!(out, " max={size}"),
        None => Ok(()),
    }
}

fn shared_word(shared: bool) -> &'static str
    ensures { result.now ≡ shared_text shared }
{
    if shared { " shared" } else { "" }
}

fn address_word(is_64: bool) -> &'static str
    ensures { result.now ≡ address_text is_64 }
{
    if is_64 { " i64" } else { "" }
}

/// Appends what follows the first size: the greatest, whether it is shared, and the type of
/// addresses.
fn push_limits(out: &mut String, maximum: Option<u64>, shared: bool, is_64: bool) -> Written
    ensures { OnOk result (string_bytes out.new ≡ string_bytes out.old ++ limits_text maximum shared is_64) }
{
    push_maximum(out, maximum)?;
    out.push_str(shared_word(shared))?;
    out.push_str(address_word(is_64))
}

/// Appends the logarithm of the page size, if it is given.
fn push_page_size(out: &mut String, log2: Option<u32>) -> Written
    ensures { OnOk result (string_bytes out.new ≡ string_bytes out.old ++ page_text log2) }
{
    match log2 {
        Some(log2) => write!(out, " page_size=2^{log2}"),
        None => Ok(()),
    }
}

/// Appends what follows the first size of a memory.
fn push_memory_limits(out: &mut String, ty: MemoryType) -> Written
    ensures { OnOk result (string_bytes out.new ≡ string_bytes out.old ++ memory_limits ty) }
{
    push_limits(out, ty.maximum, ty.shared, ty.memory64)?;
    push_page_size(out, ty.page_size_log2)
}

/// Appends a memory's sizes.
fn push_sizes(out: &mut String, ty: MemoryType) -> Written
    ensures { OnOk result (string_bytes out.new ≡ string_bytes out.old ++ sizes_text ty) }
{
    let initial = ty.initial;
    write!(out, "{initial}")?;
    push_memory_limits(out, ty)
}

/// Appends a text and a memory's sizes.
fn push_sizes_after(out: &mut String, before: &str, ty: MemoryType) -> Written
    ensures { OnOk result (string_bytes out.new ≡ string_bytes out.old ++ (before.now ++ sizes_text ty)) }
{
    out.push_str(before)?;
    push_sizes(out, ty)
}

/// Appends what follows a memory's index.
fn push_pages(out: &mut String, ty: MemoryType) -> Written
    ensures { OnOk result (string_bytes out.new ≡ string_bytes out.old ++ pages_text ty) }
{
    push_sizes_after(out, "] pages: initial=", ty)
}

/// Appends a memory's index and sizes.
fn push_memory(out: &mut String, index: u32, ty: MemoryType) -> Written
    ensures { OnOk result (string_bytes out.new ≡ string_bytes out.old ++ memory_text index ty) }
{
    write!(out, " - memory[{index}")?;
    push_pages(out, ty)
}

/// Appends the line of a memory.
fn push_memory_line(out: &mut String, index: u32, ty: MemoryType) -> Written
    ensures { OnOk result (string_bytes out.new ≡ string_bytes out.old ++ memory_line index ty) }
{
    push_memory(out, index, ty)?;
    out.push_str("\n")
}

/// An item of the memory section.
impl<'a> Details<'a, Names> for MemoryType {
    ghost lists = { λ names place ty. WritesLine (memory_line place.next ty) (after_one place) };

    fn write_lines<W: Write>(
        self,
        _alloc: Global,
        writer: &mut W,
        line: &mut String,
        _names: &Names,
        place: Place,
    ) -> Result<Place, Fault> {
        line.clear();
        if push_memory_line(line, place.next, self).is_err() {
            return Err(Fault::Memory);
        }
        match write_text(writer, line.as_str()) {
            Ok(()) => Ok(after_one(place)),
            Err(fault) => Err(fault),
        }
    }
}

/// Appends a table's index, type and sizes.
pub fn push_table(alloc: Global, out: &mut String, index: u32, ty: TableType) -> Written
    ensures { OnOk result (string_bytes out.new ≡ string_bytes out.old ++ table_text index ty) }
{
    write!(out, " - table[{index}] type=")?;
    push_type_name(alloc, out, ValType::Ref(ty.element_type))?;
    let initial = ty.initial;
    write!(out, " initial={initial}")?;
    push_limits(out, ty.maximum, ty.shared, ty.table64)
}

fn mutable_word(mutable: bool) -> &'static str
    ensures { result.now ≡ mutable_text mutable }
{
    if mutable { " mutable=1" } else { " mutable=0" }
}

/// Appends a global's index and type.
pub fn push_global(alloc: Global, out: &mut String, index: u32, ty: GlobalType) -> Written
    ensures { OnOk result (string_bytes out.new ≡ string_bytes out.old ++ global_text index ty) }
{
    write!(out, " - global[{index}] ")?;
    push_type_name(alloc, out, ty.content_type)?;
    out.push_str(mutable_word(ty.mutable))?;
    out.push_str(shared_word(ty.shared))
}

/// Appends a tag's index and type.
fn push_tag(out: &mut String, index: u32, ty: TagType) -> Written
    ensures { OnOk result (string_bytes out.new ≡ string_bytes out.old ++ tag_text index ty) }
{
    let of = ty.func_type_idx;
    write!(out, " - tag[{index}] sig={of}")
}

/// Appends the line of a tag.
fn push_tag_line(out: &mut String, index: u32, ty: TagType) -> Written
    ensures { OnOk result (string_bytes out.new ≡ string_bytes out.old ++ tag_line index ty) }
{
    push_tag(out, index, ty)?;
    out.push_str("\n")
}

/// An item of the tag section.
impl<'a> Details<'a, Names> for TagType {
    ghost lists = { λ names place ty. WritesLine (tag_line place.next ty) (after_one place) };

    fn write_lines<W: Write>(
        self,
        _alloc: Global,
        writer: &mut W,
        line: &mut String,
        _names: &Names,
        place: Place,
    ) -> Result<Place, Fault> {
        line.clear();
        if push_tag_line(line, place.next, self).is_err() {
            return Err(Fault::Memory);
        }
        match write_text(writer, line.as_str()) {
            Ok(()) => Ok(after_one(place)),
            Err(fault) => Err(fault),
        }
    }
}

/// Appends the thing that is imported.
fn push_imported(
    alloc: Global,
    out: &mut String,
    names: &Names,
    imported: Imported,
    ty: TypeRef,
) -> Written
    ensures { OnOk result (string_bytes out.new ≡ string_bytes out.old ++ imported_text names.now imported ty) }
{
    match ty {
        TypeRef::Func(ty) => push_function(out, names, imported.functions, ty),
        TypeRef::Table(ty) => push_table(alloc, out, imported.tables, ty),
        TypeRef::Memory(ty) => push_memory(out, imported.memories, ty),
        TypeRef::Global(ty) => push_global(alloc, out, imported.globals, ty),
        TypeRef::Tag(ty) => {
            push_tag(out, imported.tags, ty)?;
            push_name(out, names.tag(imported.tags))
        }
    }
}

/// Returns what is imported after an import of this type.
fn with_import(imported: Imported, ty: TypeRef) -> Imported
    ensures { result ≡ with_import imported ty }
{
    let mut now = imported;
    match ty {
        TypeRef::Func(_) => now.functions = after_index(now.functions),
        TypeRef::Table(_) => now.tables = after_index(now.tables),
        TypeRef::Memory(_) => now.memories = after_index(now.memories),
        TypeRef::Global(_) => now.globals = after_index(now.globals),
        TypeRef::Tag(_) => now.tags = after_index(now.tags),
    }
    now
}

/// Appends the line of an import.
fn push_import(
    alloc: Global,
    out: &mut String,
    names: &Names,
    imported: Imported,
    import: &Import<'_>,
) -> Written
    ensures { OnOk result (string_bytes out.new ≡ string_bytes out.old ++ import_line names.now imported import.now) }
{
    push_imported(alloc, out, names, imported, import.ty)?;
    out.push_str(" <- ")?;
    write_escaped(alloc, out, import.module.as_str().as_bytes())?;
    out.push_str(".")?;
    write_escaped(alloc, out, import.name.as_str().as_bytes())?;
    out.push_str("\n")
}

impl<'a> Details<'a, Names> for Import<'a> {
    ghost lists = { λ names place i. WritesLine (import_line names place.imported i) (after_import place i) };

    fn write_lines<W: Write>(
        self,
        alloc: Global,
        writer: &mut W,
        line: &mut String,
        names: &Names,
        place: Place,
    ) -> Result<Place, Fault> {
        line.clear();
        if push_import(alloc, line, names, place.imported, &self).is_err() {
            return Err(Fault::Memory);
        }
        match write_text(writer, line.as_str()) {
            Ok(()) => Ok(Place {
                next: after_index(place.next),
                address: place.address,
                imported: with_import(place.imported, self.ty),
            }),
            Err(fault) => Err(fault),
        }
    }
}

fn kind_words(kind: ExternalKind) -> &'static str
    ensures { result.now ≡ kind_text kind }
{
    match kind {
        ExternalKind::Func => " - func[",
        ExternalKind::Table => " - table[",
        ExternalKind::Memory => " - memory[",
        ExternalKind::Global => " - global[",
        ExternalKind::Tag => " - tag[",
    }
}

/// Returns the name of a function, or an empty one for other kinds.
fn exported_name(names: &Names, kind: ExternalKind, index: u32) -> &str
    ensures { result.now ≡ exported_name names.now kind index }
{
    match kind {
        ExternalKind::Func => names.function(index),
        _ => "",
    }
}

/// Appends the line of an export.
fn push_export(alloc: Global, out: &mut String, names: &Names, export: &Export<'_>) -> Written
    ensures { OnOk result (string_bytes out.new ≡ string_bytes out.old ++ export_line names.now export.now) }
{
    let index = export.index;
    out.push_str(kind_words(export.kind))?;
    write!(out, "{index}]")?;
    push_name(out, exported_name(names, export.kind, index))?;
    out.push_str(" -> \"")?;
    write_escaped(alloc, out, export.name.as_str().as_bytes())?;
    out.push_str("\"\n")
}

impl<'a> Details<'a, Names> for Export<'a> {
    ghost lists = { λ names place e. WritesLine (export_line names e) (after_one place) };

    fn write_lines<W: Write>(
        self,
        alloc: Global,
        writer: &mut W,
        line: &mut String,
        names: &Names,
        place: Place,
    ) -> Result<Place, Fault> {
        line.clear();
        if push_export(alloc, line, names, &self).is_err() {
            return Err(Fault::Memory);
        }
        match write_text(writer, line.as_str()) {
            Ok(()) => Ok(after_one(place)),
            Err(fault) => Err(fault),
        }
    }
}
