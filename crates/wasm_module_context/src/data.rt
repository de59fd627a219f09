//! Data segments.
ghost use Rattle.std.specs.Prelude.{IfOk, IfErr};
ghost use Rattle.wasm_module_context.specs.Parts.{AddsPlace, FailsPlace, AddsData, FailsData, AddsDataSection, FailsDataSection};

use crate::constants::{address_type, check_value};
use crate::error::PayloadError;
use crate::items::{AddToContext, add_items};
use std::alloc::Global;
use wasm_check_control::ModuleContext;
use wasm_constants::{Data, DataKind};
use wasm_context::{Context, ContextError, data_fault};
use wasm_externals::ExternalKind;
use wasm_payloads::UnreadItems;

/// Checks the memory and the offset of a segment, which is at `offset`.
fn add_place<'a>(
    alloc: Global,
    context: Context,
    kind: DataKind<'a>,
    offset: u64,
) -> Result<Context, PayloadError>
    ensures added { IfOk result (λ new. AddsPlace kind.entry context new) }
    ensures refused { IfErr result (λ e. FailsPlace kind.entry context offset e) }
{
    match kind {
        wasm_segments::DataKind::Passive => Ok(context),
        wasm_segments::DataKind::Active {
            memory_index,
            offset_expr,
        } => match context.memory64(memory_index) {
            Some(is_64) => match check_value(alloc, &context, address_type(is_64), &offset_expr) {
                Ok(()) => Ok(context),
                Err(e) => Err(e),
            },
            None => {
                let error = ContextError::Unknown(ExternalKind::Memory, memory_index);
                Err(PayloadError::Context(error, offset))
            }
        },
    }
}

impl<'a> AddToContext<'a> for Data<'a> {
    ghost adds = { AddsData };

    ghost refuses = { FailsData };

    /// Checks the memory and the offset of an active segment.
    fn add_to(self, alloc: Global, context: Context, offset: u64) -> Result<Context, PayloadError> {
        let wasm_segments::Data { kind, data: _ } = self;
        add_place(alloc, context, kind, offset)
    }
}

/// Adds the items of a data section.
///
/// Fails with `TooMany` at the start of the section if there are more than 100,000.
pub fn add_data_section<'a>(
    alloc: Global,
    context: Context,
    items: UnreadItems<'a>,
) -> Result<Context, PayloadError>
    ensures added { IfOk result (λ new. AddsDataSection items.entry context new) }
    ensures refused { IfErr result (λ e. FailsDataSection items.entry context e) }
{
    if let Some(e) = data_fault(items.count()) {
        return Err(PayloadError::Context(e, items.range().start));
    }
    add_items::<Data<'a>>(alloc, context, items.read_as())
}
