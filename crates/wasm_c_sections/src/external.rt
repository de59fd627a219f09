//! The types of what modules import, as C structs.
ghost use Rattle.std.specs.Prelude.{◌≡◌, ◌≤◌};
ghost use Rattle.wasm_c_sections.specs.Externals.{flag, kind_number, table_of, memory_of, global_of, indexed, external_of, external_item};
ghost use Rattle.wasm_grammars.specs.Reading.{Reads};

use std::alloc::Global;
use wasm_below::{BinaryReader, Result, ValType};
use wasm_externals::{ExternalKind, GlobalType, MemoryType, TableType, TypeRef};
use wasm_grammars::Read;
use wasm_view::{WasmType, type_of};

const MAXIMUM: u32 = 1;

const SHARED: u32 = 2;

const IS_64: u32 = 4;

const PAGE_SIZE: u32 = 8;

const MUTABLE: u32 = 16;

/// The type of a function, table, memory, global or tag, as a C struct of 40 bytes. Fields without a
/// meaning are 0.
#[repr(C)]
#[derive(Clone, Copy, Debug, PartialEq, Eq)]
pub struct WasmExternal {
    /// The number of elements of a table, or of pages of a memory, at the start.
    pub initial: u64,
    /// Their greatest number, if `flags` say that there is one.
    pub maximum: u64,
    /// The type of a table's elements, or of a global's value.
    pub ty: WasmType,
    /// 0 a function, 1 a table, 2 a memory, 3 a global, 4 a tag.
    pub kind: u32,
    /// The type's index, of a function or a tag.
    pub index: u32,
    /// 1 has a maximum, 2 shared, 4 of 64 bits, 8 has a page size, 16 mutable.
    pub flags: u32,
    /// The logarithm to base 2 of a memory's page size in bytes, if `flags` say that there is one.
    pub page_size_log2: u32,
}

fn flag(is: bool, weight: u32) -> u32
    ensures is { result ≡ flag is weight }
    ensures small { result ≤ weight }
{
    if is { weight } else { 0 }
}

/// Returns the number of a kind.
pub fn kind_number(kind: ExternalKind) -> u32
    ensures { result ≡ kind_number kind }
{
    match kind {
        ExternalKind::Func => 0,
        ExternalKind::Table => 1,
        ExternalKind::Memory => 2,
        ExternalKind::Global => 3,
        ExternalKind::Tag => 4,
    }
}

pub fn table_of(table: TableType) -> WasmExternal
    ensures { result ≡ table_of table }
{
    WasmExternal {
        initial: table.initial,
        maximum: table.maximum.unwrap_or(0),
        ty: type_of(&ValType::Ref(table.element_type)),
        kind: 1,
        index: 0,
        flags: flag(table.maximum.is_some(), MAXIMUM)
            + flag(table.shared, SHARED)
            + flag(table.table64, IS_64),
        page_size_log2: 0,
    }
}

pub fn memory_of(memory: MemoryType) -> WasmExternal
    ensures { result ≡ memory_of memory }
{
    WasmExternal {
        initial: memory.initial,
        maximum: memory.maximum.unwrap_or(0),
        ty: WasmType { kind: 0, index: 0 },
        kind: 2,
        index: 0,
        flags: flag(memory.maximum.is_some(), MAXIMUM)
            + flag(memory.shared, SHARED)
            + flag(memory.memory64, IS_64)
            + flag(memory.page_size_log2.is_some(), PAGE_SIZE),
        page_size_log2: memory.page_size_log2.unwrap_or(0),
    }
}

pub fn global_of(global: GlobalType) -> WasmExternal
    ensures { result ≡ global_of global }
{
    WasmExternal {
        initial: 0,
        maximum: 0,
        ty: type_of(&global.content_type),
        kind: 3,
        index: 0,
        flags: flag(global.shared, SHARED) + flag(global.mutable, MUTABLE),
        page_size_log2: 0,
    }
}

/// Returns the C struct of a function or a tag, whose type has this index.
fn indexed(kind: u32, index: u32) -> WasmExternal
    ensures { result ≡ indexed kind index }
{
    WasmExternal {
        initial: 0,
        maximum: 0,
        ty: WasmType { kind: 0, index: 0 },
        kind,
        index,
        flags: 0,
        page_size_log2: 0,
    }
}

/// Returns the C struct of a type.
pub fn external_of(ty: TypeRef) -> WasmExternal
    ensures { result ≡ external_of ty }
{
    match ty {
        TypeRef::Func(index) => indexed(0, index),
        TypeRef::Table(table) => table_of(table),
        TypeRef::Memory(memory) => memory_of(memory),
        TypeRef::Global(global) => global_of(global),
        TypeRef::Tag(tag) => indexed(4, tag.func_type_idx),
    }
}

/// Reads a type like `TypeRef::read_from`.
pub fn read_external(alloc: Global, reader: &mut BinaryReader<'_>) -> Result<WasmExternal>
    ensures { Reads (external_item reader.old.features) result reader.old reader.new }
{
    match TypeRef::read_from(alloc, reader) {
        Ok(ty) => Ok(external_of(ty)),
        Err(e) => Err(e),
    }
}
