ghost use Rattle.std.specs.Prelude.{◌≡◌, length};
ghost use Rattle.wasm_context.specs.Components.{of_types};
ghost use Rattle.wasm_context.specs.Validity.{IsWellFormed};

use crate::function::Function;
use crate::names::Names;
use std::alloc::Global;
use std::marker::Model;
use wasm_below::{RefType, ValType};
use wasm_check_control as checking;
use wasm_check_control::{CompositeKind, FuncType, LocalType, ModuleContext, StructType};
use wasm_externals::{GlobalType, MemoryType, TableType, TagType};
use wasm_subtypes::Types;
use wasm_types::{CompositeInnerType, FieldType};

/// What the sections of a module say about the types of operators. Specification: Validation,
/// Contexts.
#[derive(Drop)]
pub struct Context {
    pub(crate) types: Types,
    pub(crate) functions: Vec<Function>,
    pub(crate) tables: Vec<TableType>,
    pub(crate) memories: Vec<MemoryType>,
    pub(crate) globals: Vec<GlobalType>,
    pub(crate) tags: Vec<TagType>,
    /// The types of element segments.
    pub(crate) elements: Vec<RefType>,
    /// The number of data segments.
    pub(crate) data_segments: u32,
    /// The names of exports.
    pub(crate) exports: Names,
}

impl Model for Context {
    ghost use Rattle.wasm_context.specs.Components.{Components};
    ghost use Rattle.wasm_context.specs.Validity.{IsWellFormed};

    ghost Value = { Components };

    ghost view = { λ c. record {
      types = c.types;
      functions = c.functions.items;
      tables = c.tables.items;
      memories = c.memories.items;
      globals = c.globals.items;
      tags = c.tags.items;
      elements = c.elements.items;
      data_segments = c.data_segments;
      exports = c.exports;
    } };

    ghost invariant = { λ c. IsWellFormed record {
      types = c.types;
      functions = c.functions.items;
      tables = c.tables.items;
      memories = c.memories.items;
      globals = c.globals.items;
      tags = c.tags.items;
      elements = c.elements.items;
      data_segments = c.data_segments;
      exports = c.exports;
    } };
}

impl Context {
    /// Creates the context of a module that has only types.
    pub fn new(alloc: Global, types: Types) -> Context
        ensures { result ≡ of_types types }
    {
        Context {
            types,
            functions: Vec::new(alloc),
            tables: Vec::new(alloc),
            memories: Vec::new(alloc),
            globals: Vec::new(alloc),
            tags: Vec::new(alloc),
            elements: Vec::new(alloc),
            data_segments: 0,
            exports: Names::new(alloc),
        }
    }

    /// Returns the number of functions, imported ones included.
    pub fn function_count(&self) -> usize
        ensures { result ≡ length self.now.functions }
    {
        self.functions.len()
    }

    /// States that each type index has a type, and that functions and tags have function
    /// types. The body is empty.
    pub fn is_valid(&self)
        ensures { IsWellFormed self.now }
    {
        let _types = &self.types;
    }
}

impl ModuleContext for Context {
    ghost use Rattle.wasm_context.specs.Environment.{environment_of};

    ghost environment = { environment_of };

    fn is_well_formed(&self) {
        self.types.is_ordered()
    }

    fn is_subtype(&self, index: u32, of: u32) -> bool {
        self.types.is_subtype(index, of)
    }

    fn composite_kind(&self, index: u32) -> Option<CompositeKind> {
        self.types.composite_kind(index)
    }

    fn type_at(&self, index: u32) -> Option<FuncType<'_>> {
        match self.types.get(index) {
            Some(defined) => match &defined.ty.composite_type.inner {
                CompositeInnerType::Func(ty) => Some(FuncType {
                    params: ty.params(),
                    results: ty.results(),
                }),
                CompositeInnerType::Array(_)
                | CompositeInnerType::Struct(_)
                | CompositeInnerType::Cont(_) => None,
            },
            None => None,
        }
    }

    fn struct_type(&self, index: u32) -> Option<StructType<'_>> {
        match self.types.get(index) {
            Some(defined) => match &defined.ty.composite_type.inner {
                CompositeInnerType::Struct(ty) => Some(StructType {
                    fields: ty.fields.as_slice(),
                }),
                CompositeInnerType::Func(_)
                | CompositeInnerType::Array(_)
                | CompositeInnerType::Cont(_) => None,
            },
            None => None,
        }
    }

    fn array_elements(&self, index: u32) -> Option<FieldType> {
        match self.types.get(index) {
            Some(defined) => match &defined.ty.composite_type.inner {
                CompositeInnerType::Array(ty) => Some(ty.0),
                CompositeInnerType::Func(_)
                | CompositeInnerType::Struct(_)
                | CompositeInnerType::Cont(_) => None,
            },
            None => None,
        }
    }

    fn function_type(&self, index: u32) -> Option<FuncType<'_>> {
        match self.functions.get(index as usize) {
            Some(function) => self.type_at(function.type_index),
            None => None,
        }
    }

    fn local_type(&self, _index: u32) -> Option<LocalType> {
        None
    }

    fn global_type(&self, index: u32) -> Option<checking::GlobalType> {
        match self.globals.get(index as usize) {
            Some(ty) => Some(checking::GlobalType {
                content_type: ty.content_type,
                mutable: ty.mutable,
            }),
            None => None,
        }
    }

    fn table_type(&self, index: u32) -> Option<checking::TableType> {
        match self.tables.get(index as usize) {
            Some(ty) => Some(checking::TableType {
                element_type: ty.element_type,
                table64: ty.table64,
            }),
            None => None,
        }
    }

    fn memory64(&self, index: u32) -> Option<bool> {
        match self.memories.get(index as usize) {
            Some(ty) => Some(ty.memory64),
            None => None,
        }
    }

    fn tag_type(&self, index: u32) -> Option<FuncType<'_>> {
        match self.tags.get(index as usize) {
            Some(ty) => self.type_at(ty.func_type_idx),
            None => None,
        }
    }

    fn element_type(&self, index: u32) -> Option<RefType> {
        self.elements.get(index as usize).copied()
    }

    fn has_data(&self, index: u32) -> bool {
        index < self.data_segments
    }

    fn is_declared(&self, function_index: u32) -> bool {
        match self.functions.get(function_index as usize) {
            Some(function) => function.declared,
            None => false,
        }
    }

    fn type_index(&self, function_index: u32) -> Option<u32> {
        match self.functions.get(function_index as usize) {
            Some(function) => Some(function.type_index),
            None => None,
        }
    }

    fn results(&self) -> &[ValType] {
        &[]
    }
}
