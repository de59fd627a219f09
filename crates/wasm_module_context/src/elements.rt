//! Element segments.
ghost use Rattle.std.specs.Prelude.{◌≡◌, ℕ, Some, IfOk, IfErr};
ghost use Rattle.wasm_below.specs.declared.types.ValType.TheVariants as value;
ghost use Rattle.wasm_typing.specs.Types.{value_type};
ghost use Rattle.wasm_typing.specs.Matching.{matches};
ghost use Rattle.wasm_check_control.specs.Environment.{table_of};
ghost use Rattle.wasm_subtypes.specs.Types.{order_of};
ghost use Rattle.wasm_module_context.specs.Parts.{type_of_items, index_of, AddsInTable, FailsInTable, AddsOffset, FailsOffset, DeclaresElements, FailsElements, AddsElement, FailsElement};

use crate::constants::{add_constant, address_type};
use crate::error::PayloadError;
use crate::expressions::add_expressions;
use crate::function_index::FunctionIndex;
use crate::items::{AddToContext, add_items};
use std::alloc::Global;
use wasm_below::{AbstractHeapType, HeapType, RefType};
use wasm_check_control::{ModuleContext, TableType, matches};
use wasm_constants::{Constant, Element, ElementItems, ElementKind};
use wasm_context::{Context, ContextError};
use wasm_externals::ExternalKind;
use wasm_sections::SectionReader;
use wasm_typing::{Heap, ValueType};

fn type_of_items(items: &ElementItems<'_>) -> RefType
    ensures { result ≡ type_of_items items.now }
{
    match items {
        wasm_segments::ElementItems::Functions(_) => {
            let heap_type = HeapType::Abstract {
                shared: false,
                ty: AbstractHeapType::Func,
            };
            RefType::new(false, heap_type).unwrap()
        }
        wasm_segments::ElementItems::Expressions(ty, _) => *ty,
    }
}

/// Returns whether references of a type may be elements of a table with elements of another.
fn fits(context: &Context, ty: RefType, element: RefType) -> bool
    ensures { result ≡ matches (order_of context.now.types) (value_type (value.Ref ty)) (value_type (value.Ref element)) }
{
    let found = ValueType::Ref {
        nullable: ty.is_nullable(),
        heap: Heap::Known(ty.heap_type()),
    };
    let wanted = ValueType::Ref {
        nullable: element.is_nullable(),
        heap: Heap::Known(element.heap_type()),
    };
    matches(context, found, wanted)
}

/// Returns the index of the table of an active segment.
fn index_of(table_index: Option<u32>) -> u32
    ensures { result ≡ index_of table_index }
{
    match table_index {
        Some(index) => index,
        None => 0,
    }
}

/// Checks the type and the offset of a segment in a table. The segment is at `offset`.
fn add_in_table<'a>(
    alloc: Global,
    context: Context,
    table: TableType,
    value: Constant<'a>,
    ty: RefType,
    offset: u64,
) -> Result<Context, PayloadError>
    ensures added { IfOk result (λ new. AddsInTable (Some (table_of table)) value.entry ty context new) }
    ensures refused { (x : ℕ) → IfErr result (λ e. FailsInTable (Some (table_of table)) x value.entry ty context offset e) }
{
    if !fits(&context, ty, table.element_type) {
        return Err(PayloadError::ElementType {
            offset,
            found: ty,
            expected: table.element_type,
        });
    }
    add_constant(alloc, context, address_type(table.table64), value)
}

/// Checks the table and the offset of an active segment with elements of a type. It is at `offset`.
fn add_offset<'a>(
    alloc: Global,
    context: Context,
    kind: ElementKind<'a>,
    ty: RefType,
    offset: u64,
) -> Result<Context, PayloadError>
    ensures added { IfOk result (λ new. AddsOffset kind.entry ty context new) }
    ensures refused { IfErr result (λ e. FailsOffset kind.entry ty context offset e) }
{
    match kind {
        wasm_segments::ElementKind::Active {
            table_index,
            offset_expr,
        } => {
            let index = index_of(table_index);
            match context.table_type(index) {
                Some(table) => add_in_table(alloc, context, table, offset_expr, ty, offset),
                None => {
                    let error = ContextError::Unknown(ExternalKind::Table, index);
                    Err(PayloadError::Context(error, offset))
                }
            }
        }
        wasm_segments::ElementKind::Passive | wasm_segments::ElementKind::Declared => Ok(context),
    }
}

fn declare_elements<'a>(
    alloc: Global,
    context: Context,
    items: ElementItems<'a>,
) -> Result<Context, PayloadError>
    ensures declared { IfOk result (λ new. DeclaresElements items.entry context new) }
    ensures refused { IfErr result (λ e. FailsElements items.entry context e) }
{
    match items {
        wasm_segments::ElementItems::Functions(items) => {
            let section: SectionReader<'a, FunctionIndex> = SectionReader::of_items(
                alloc,
                items.count(),
                items.get_binary_reader(),
            );
            add_items(alloc, context, section)
        }
        wasm_segments::ElementItems::Expressions(ty, items) => {
            add_expressions(alloc, context, ty, items.section_reader(alloc))
        }
    }
}

impl<'a> AddToContext<'a> for Element<'a> {
    ghost adds = { AddsElement };

    ghost refuses = { FailsElement };

    fn add_to(self, alloc: Global, context: Context, offset: u64) -> Result<Context, PayloadError> {
        let wasm_segments::Element { kind, items } = self;
        let mut context = context;
        if let Err(e) = context.add_element(type_of_items(&items)) {
            return Err(PayloadError::Context(e, offset));
        }
        match add_offset(alloc, context, kind, type_of_items(&items), offset) {
            Ok(context) => declare_elements(alloc, context, items),
            Err(e) => Err(e),
        }
    }
}
