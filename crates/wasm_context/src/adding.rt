//! Adding the parts of a module to its context.
ghost use Rattle.std.specs.Prelude.{◌≡◌, ℕ, ◌++◌, ◌∷◌, [], length, None, OnOk, IfOk, IfErr};
ghost use Rattle.wasm_types.specs.Types.{types_of};
ghost use Rattle.wasm_externals.specs.declared.external.ExternalKind.TheVariants as kind;
ghost use Rattle.wasm_subtypes.specs.Errors.{Blames};
ghost use Rattle.wasm_subtypes.specs.Types.{IsFirstEqual, AllExtend, Added, placed};
ghost use Rattle.wasm_subtypes.specs.Composites.{AreValid};
ghost use Rattle.wasm_context.specs.declared.error.ContextError.TheVariants as context_error;
ghost use Rattle.wasm_context.specs.Components.{with_types, with_function, with_table, with_memory, with_global, with_tag, with_element, with_data_segments, with_declared};
ghost use Rattle.wasm_context.specs.Faults.{Adds, Changes, BlamesTypes, group_fault, start_fault, function_fault, table_fault, memory_fault, global_fault, tag_fault, element_fault, data_fault, external_fault, export_fault, count_of, import_fault, with_import, with_export};

use crate::context::Context;
use crate::error::{ContextError, Counted};
use crate::faults::{
    group_fault, heap_fault, limit_fault, memory_type_fault, or_else, sharing_fault,
    table_limits_fault, tag_use_fault, use_fault, value_fault,
};
use crate::function::Function;
use crate::unsupported::Unsupported;
use std::alloc::Global;
use wasm_below::RefType;
use wasm_check_control::ModuleContext;
use wasm_externals::{ExternalKind, GlobalType, MemoryType, TableType, TagType, TypeRef};
use wasm_subtypes::TypeError;
use wasm_types::RecGroup;

const MAX_DATA_SEGMENTS: u32 = 100_000;

/// Returns an error if a module may not have so many data segments.
pub fn data_fault(count: u32) -> Option<ContextError>
    ensures { result ≡ data_fault count }
{
    if count > MAX_DATA_SEGMENTS {
        Some(ContextError::TooMany(Counted::DataSegments))
    } else {
        None
    }
}

/// Adds an item at the end.
fn push<T: Drop>(items: &mut Vec<T>, item: T) -> Result<(), ContextError>
    ensures added { OnOk result (items.new.items ≡ items.old.items ++ item ∷ []) }
    ensures memory { IfErr result (λ e. e ≡ context_error.OutOfMemory) }
    ensures unchanged { IfErr result (λ e. items.new.items ≡ items.old.items) }
{
    match items.push(item) {
        Ok(()) => Ok(()),
        Err(_) => Err(ContextError::OutOfMemory),
    }
}

impl Context {
    /// Adds a group of the type section. Specification: Validation, Types, Recursive Types.
    ///
    /// Fails with `Unsupported`; with `Type`, with the errors of `Types::add`.
    pub fn add_group(self, alloc: Global, group: RecGroup) -> Result<Context, ContextError>
        ensures added { IfOk result (λ new. (new ≡ with_types self new.types) × Added self.types (types_of group) new.types) }
        ensures valid { IfOk result (λ new. AreValid new.types (length self.types)) }
        ensures supported { IfOk result (λ new. group_fault (types_of group) ≡ None) }
        ensures blames { IfErr result (λ e. BlamesTypes e (group_fault (types_of group)) (λ t. (start : ℕ) → IsFirstEqual self.types (types_of group) start →
            Blames t (AllExtend self.types (length self.types) start (types_of group)) (AreValid (self.types ++ placed (length self.types) start (types_of group)) (length self.types)))) }
    {
        if let Some(e) = group_fault(group.types()) {
            return Err(e);
        }
        let Context {
            types,
            functions,
            tables,
            memories,
            globals,
            tags,
            elements,
            data_segments,
            exports,
        } = self;
        match types.add(alloc, group) {
            Ok(types) => Ok(Context {
                types,
                functions,
                tables,
                memories,
                globals,
                tags,
                elements,
                data_segments,
                exports,
            }),
            Err(TypeError::OutOfMemory) => Err(ContextError::OutOfMemory),
            Err(e) => Err(ContextError::Type(e)),
        }
    }

    /// Adds a function, which is not declared. Specification: Validation, Modules, Functions.
    ///
    /// Fails with `TooMany` if there are 1,000,000; with `UnknownType`; with `NotFunction`.
    pub fn add_function(&mut self, type_index: u32) -> Result<(), ContextError>
        ensures { Adds (function_fault self.old type_index) (with_function self.old type_index) result self.old self.new }
    {
        let full = limit_fault(self.functions.len(), Counted::Functions);
        if let Some(e) = or_else(full, use_fault(&self.types, type_index)) {
            return Err(e);
        }
        let function = Function {
            type_index,
            declared: false,
        };
        push(&mut self.functions, function)
    }

    /// Adds a table. Specification: Validation, Modules, Tables.
    ///
    /// Fails with `TooMany` if there are 100; with `UnknownType`; with `MinimumAboveMaximum`; with
    /// `Unsupported`; with `TableSize` if indices are of type i32 and a size is above 2^32 - 1.
    pub fn add_table(&mut self, ty: TableType) -> Result<(), ContextError>
        ensures { Adds (table_fault self.old ty) (with_table self.old ty) result self.old self.new }
    {
        let full = limit_fault(self.tables.len(), Counted::Tables);
        let heap = heap_fault(self.types.len(), ty.element_type.heap_type());
        if let Some(e) = or_else(full, or_else(heap, table_limits_fault(ty))) {
            return Err(e);
        }
        push(&mut self.tables, ty)
    }

    /// Adds a memory. Specification: Validation, Modules, Memories.
    ///
    /// Fails with `TooMany` if there are 100; with `MinimumAboveMaximum`; with `PageSize`; with
    /// `MemorySize` if the limits are above the address space, 65,536 pages if addresses are of type
    /// i32; with `SharedWithoutMaximum`.
    pub fn add_memory(&mut self, ty: MemoryType) -> Result<(), ContextError>
        ensures { Adds (memory_fault self.old ty) (with_memory self.old ty) result self.old self.new }
    {
        let full = limit_fault(self.memories.len(), Counted::Memories);
        if let Some(e) = or_else(full, memory_type_fault(ty)) {
            return Err(e);
        }
        push(&mut self.memories, ty)
    }

    /// Returns what is wrong with a global of this type, if anything is: what `add_global` fails with.
    pub fn global_fault(&self, ty: GlobalType) -> Option<ContextError>
        ensures { result ≡ global_fault self.now ty }
    {
        let full = limit_fault(self.globals.len(), Counted::Globals);
        let shared = sharing_fault(ty.shared, Unsupported::SharedGlobal);
        let value = value_fault(self.types.len(), ty.content_type);
        or_else(full, or_else(value, shared))
    }

    /// Adds a global. Specification: Validation, Modules, Globals.
    ///
    /// Fails with `TooMany` if there are 1,000,000; with `UnknownType`; with `Unsupported`.
    pub fn add_global(&mut self, ty: GlobalType) -> Result<(), ContextError>
        ensures { Adds (global_fault self.old ty) (with_global self.old ty) result self.old self.new }
    {
        let full = limit_fault(self.globals.len(), Counted::Globals);
        let shared = sharing_fault(ty.shared, Unsupported::SharedGlobal);
        let value = value_fault(self.types.len(), ty.content_type);
        if let Some(e) = or_else(full, or_else(value, shared)) {
            return Err(e);
        }
        push(&mut self.globals, ty)
    }

    /// Adds a tag. Specification: Validation, Modules, Tags.
    ///
    /// Fails with `TooMany` if there are 1,000,000; with `UnknownType`; with `NotFunction`; with
    /// `TagResults`.
    pub fn add_tag(&mut self, ty: TagType) -> Result<(), ContextError>
        ensures { Adds (tag_fault self.old ty) (with_tag self.old ty) result self.old self.new }
    {
        let full = limit_fault(self.tags.len(), Counted::Tags);
        if let Some(e) = or_else(full, tag_use_fault(&self.types, ty.func_type_idx)) {
            return Err(e);
        }
        push(&mut self.tags, ty)
    }

    /// Adds an element segment with elements of a type. Specification: Validation, Modules, Element
    /// Segments.
    ///
    /// Fails with `TooMany` if there are 100,000; with `Unsupported`; with `UnknownType`.
    pub fn add_element(&mut self, ty: RefType) -> Result<(), ContextError>
        ensures { Adds (element_fault self.old ty) (with_element self.old ty) result self.old self.new }
    {
        let full = limit_fault(self.elements.len(), Counted::ElementSegments);
        if let Some(e) = or_else(full, heap_fault(self.types.len(), ty.heap_type())) {
            return Err(e);
        }
        push(&mut self.elements, ty)
    }

    /// Sets the number of data segments. Specification: Validation, Modules, Data Segments.
    ///
    /// Fails with `TooMany` if there are more than 100,000.
    pub fn set_data_segments(&mut self, count: u32) -> Result<(), ContextError>
        ensures { Changes (data_fault count) (with_data_segments self.old count) result self.old self.new }
    {
        if let Some(e) = data_fault(count) {
            return Err(e);
        }
        self.data_segments = count;
        Ok(())
    }

    /// Declares a reference to a function, such as `ref.func` in the value of a global.
    /// Specification: Validation, Conventions, Contexts, REFS.
    ///
    /// Fails with `Unknown` if there is no function with this index.
    pub fn declare(&mut self, function_index: u32) -> Result<(), ContextError>
        ensures { Changes (external_fault self.old kind.Func function_index) (with_declared self.old function_index) result self.old self.new }
    {
        let index = function_index as usize;
        match self.functions.get(index) {
            Some(function) => {
                let declared = Function {
                    type_index: function.type_index,
                    declared: true,
                };
                self.functions[index] = declared;
                Ok(())
            }
            None => Err(ContextError::Unknown(ExternalKind::Func, function_index)),
        }
    }

    /// Returns what is wrong with a start function, if anything is: `Unknown` if there is no function
    /// with this index, `StartType` if it has parameters or results. Specification: Validation,
    /// Modules, Start Function.
    pub fn start_fault(&self, function_index: u32) -> Option<ContextError>
        ensures { result ≡ start_fault self.now function_index }
    {
        match self.function_type(function_index) {
            Some(ty) => {
                if ty.params.is_empty() && ty.results.is_empty() {
                    None
                } else {
                    Some(ContextError::StartType)
                }
            }
            None => Some(ContextError::Unknown(ExternalKind::Func, function_index)),
        }
    }

    /// Adds what an import imports. Specification: Validation, Modules, Imports.
    ///
    /// Fails like `add_function`, `add_table`, `add_memory`, `add_global` or `add_tag`.
    pub fn add_import(&mut self, ty: TypeRef) -> Result<(), ContextError>
        ensures { Adds (import_fault self.old ty) (with_import self.old ty) result self.old self.new }
    {
        match ty {
            TypeRef::Func(type_index) => self.add_function(type_index),
            TypeRef::Table(ty) => self.add_table(ty),
            TypeRef::Memory(ty) => self.add_memory(ty),
            TypeRef::Global(ty) => self.add_global(ty),
            TypeRef::Tag(ty) => self.add_tag(ty),
        }
    }

    /// Returns the number of things of a kind.
    fn count(&self, kind: ExternalKind) -> usize
        ensures { result ≡ count_of self.now kind }
    {
        match kind {
            ExternalKind::Func => self.functions.len(),
            ExternalKind::Table => self.tables.len(),
            ExternalKind::Memory => self.memories.len(),
            ExternalKind::Global => self.globals.len(),
            ExternalKind::Tag => self.tags.len(),
        }
    }

    /// Adds the name of an export, and declares the function that it exports. Specification:
    /// Validation, Modules, Exports.
    ///
    /// Fails with `TooMany` if there are 1,000,000; with `Unknown` if there is nothing of this kind
    /// with this index; with `DuplicateExport`.
    pub fn add_export(
        &mut self,
        alloc: Global,
        kind: ExternalKind,
        index: u32,
        name: &str,
    ) -> Result<(), ContextError>
        ensures { Adds (export_fault self.old kind index name.now) (with_export self.old kind index name.now) result self.old self.new }
    {
        if let Some(e) = limit_fault(self.exports.len(), Counted::Exports) {
            return Err(e);
        }
        if (index as usize) >= self.count(kind) {
            return Err(ContextError::Unknown(kind, index));
        }
        if self.exports.contains(name) {
            return Err(ContextError::DuplicateExport);
        }
        self.exports.insert(alloc, name)?;
        match kind {
            ExternalKind::Func => self.declare(index),
            ExternalKind::Table | ExternalKind::Memory | ExternalKind::Global | ExternalKind::Tag =>
                Ok(()),
        }
    }
}
