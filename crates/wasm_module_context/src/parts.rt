//! The items of the sections.
ghost use Rattle.std.specs.Prelude.{IfOk, IfErr};
ghost use Rattle.wasm_context.specs.Faults.{function_fault, memory_fault, tag_fault, export_fault, import_fault};
ghost use Rattle.wasm_module_context.specs.Parts.{FailsAt, AddsGroup, FailsGroup, AddsImport, AddsFunction, AddsMemory, AddsTag, AddsExport, AddsTable, FailsTable, AddsGlobal, FailsGlobal};

use crate::constants::add_constant;
use crate::error::PayloadError;
use crate::items::AddToContext;
use std::alloc::Global as Allocator;
use wasm_below::ValType;
use wasm_constants::{Constant, Global, Table};
use wasm_context::Context;
use wasm_externals::{Export, GlobalType, Import, MemoryType, TagType};
use wasm_types::RecGroup;

impl<'a> AddToContext<'a> for RecGroup {
    ghost adds = { AddsGroup };

    ghost refuses = { FailsGroup };

    fn add_to(
        self,
        alloc: Allocator,
        context: Context,
        offset: u64,
    ) -> Result<Context, PayloadError> {
        match context.add_group(alloc, self) {
            Ok(context) => Ok(context),
            Err(e) => Err(PayloadError::Context(e, offset)),
        }
    }
}

impl<'a> AddToContext<'a> for Import<'a> {
    ghost adds = { AddsImport };

    ghost refuses = { λ i c at e. FailsAt (import_fault c i.ty) at e };

    fn add_to(
        self,
        _alloc: Allocator,
        context: Context,
        offset: u64,
    ) -> Result<Context, PayloadError> {
        let mut context = context;
        match context.add_import(self.ty) {
            Ok(()) => Ok(context),
            Err(e) => Err(PayloadError::Context(e, offset)),
        }
    }
}

impl<'a> AddToContext<'a> for u32 {
    ghost adds = { AddsFunction };

    ghost refuses = { λ x c at e. FailsAt (function_fault c x) at e };

    /// Adds a function, of which this is the index of the type.
    fn add_to(
        self,
        _alloc: Allocator,
        context: Context,
        offset: u64,
    ) -> Result<Context, PayloadError> {
        let mut context = context;
        match context.add_function(self) {
            Ok(()) => Ok(context),
            Err(e) => Err(PayloadError::Context(e, offset)),
        }
    }
}

impl<'a> AddToContext<'a> for MemoryType {
    ghost adds = { AddsMemory };

    ghost refuses = { λ t c at e. FailsAt (memory_fault c t) at e };

    fn add_to(
        self,
        _alloc: Allocator,
        context: Context,
        offset: u64,
    ) -> Result<Context, PayloadError> {
        let mut context = context;
        match context.add_memory(self) {
            Ok(()) => Ok(context),
            Err(e) => Err(PayloadError::Context(e, offset)),
        }
    }
}

impl<'a> AddToContext<'a> for TagType {
    ghost adds = { AddsTag };

    ghost refuses = { λ t c at e. FailsAt (tag_fault c t) at e };

    fn add_to(
        self,
        _alloc: Allocator,
        context: Context,
        offset: u64,
    ) -> Result<Context, PayloadError> {
        let mut context = context;
        match context.add_tag(self) {
            Ok(()) => Ok(context),
            Err(e) => Err(PayloadError::Context(e, offset)),
        }
    }
}

impl<'a> AddToContext<'a> for Export<'a> {
    ghost adds = { AddsExport };

    ghost refuses = { λ x c at e. FailsAt (export_fault c x.kind x.index x.name) at e };

    fn add_to(
        self,
        alloc: Allocator,
        context: Context,
        offset: u64,
    ) -> Result<Context, PayloadError> {
        let mut context = context;
        match context.add_export(alloc, self.kind, self.index, self.name.as_str()) {
            Ok(()) => Ok(context),
            Err(e) => Err(PayloadError::Context(e, offset)),
        }
    }
}

impl<'a> AddToContext<'a> for Table<'a> {
    ghost adds = { AddsTable };

    ghost refuses = { FailsTable };

    fn add_to(
        self,
        alloc: Allocator,
        context: Context,
        offset: u64,
    ) -> Result<Context, PayloadError> {
        let wasm_segments::Table { ty, init } = self;
        let mut context = context;
        if let Err(e) = context.add_table(ty) {
            return Err(PayloadError::Context(e, offset));
        }
        match init {
            wasm_segments::TableInit::RefNull => {
                if ty.element_type.is_nullable() {
                    Ok(context)
                } else {
                    Err(PayloadError::NoInitialValue(offset))
                }
            }
            wasm_segments::TableInit::Expr(value) => {
                add_constant(alloc, context, ValType::Ref(ty.element_type), value)
            }
        }
    }
}

impl<'a> AddToContext<'a> for Global<'a> {
    ghost adds = { AddsGlobal };

    ghost refuses = { FailsGlobal };

    fn add_to(
        self,
        alloc: Allocator,
        context: Context,
        offset: u64,
    ) -> Result<Context, PayloadError> {
        let wasm_segments::Global { ty, init_expr } = self;
        add_global(alloc, context, offset, ty, init_expr)
    }
}

/// Adds a global of a type with an initial value. It is at `offset`.
fn add_global<'a>(
    alloc: Allocator,
    context: Context,
    offset: u64,
    ty: GlobalType,
    value: Constant<'a>,
) -> Result<Context, PayloadError>
    ensures added { IfOk result (λ new. AddsGlobal (record { ty = ty; init_expr = value.entry }) context new) }
    ensures refused { IfErr result (λ e. FailsGlobal (record { ty = ty; init_expr = value.entry }) context offset e) }
{
    let same = GlobalType {
        content_type: ty.content_type,
        mutable: ty.mutable,
        shared: ty.shared,
    };
    if let Some(e) = context.global_fault(same) {
        return Err(PayloadError::Context(e, offset));
    }
    let mut context = match add_constant(alloc, context, ty.content_type, value) {
        Ok(context) => context,
        Err(e) => return Err(e),
    };
    match context.add_global(ty) {
        Ok(()) => Ok(context),
        Err(e) => Err(PayloadError::Context(e, offset)),
    }
}
