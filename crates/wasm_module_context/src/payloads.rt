ghost use Rattle.wasm_module_context.specs.Payloads.{ReadsPayload};

use crate::data::add_data_section;
use crate::error::PayloadError;
use crate::items::add_items;
use std::alloc::Global as Allocator;
use wasm_constants::{Element, Global, Table};
use wasm_context::Context;
use wasm_payloads::Payload;

/// Adds a payload of a module to its context. Specification: Validation, Modules.
///
/// Bodies and custom sections add nothing. Fails with the error of the first item that cannot be read
/// or added, of the start function, or of a section with an unknown id.
pub fn add_payload<'a>(
    alloc: Allocator,
    context: Context,
    payload: Payload<'a>,
) -> Result<Context, PayloadError>
    ensures { ReadsPayload payload.entry context result }
{
    match payload {
        Payload::TypeSection(section) => add_items(alloc, context, section),
        Payload::ImportSection(section) => add_items(alloc, context, section),
        Payload::FunctionSection(section) => add_items(alloc, context, section),
        Payload::TableSection(items) => { add_items::<Table<'a>>(alloc, context, items.read_as()) }
        Payload::MemorySection(section) => add_items(alloc, context, section),
        Payload::TagSection(section) => add_items(alloc, context, section),
        Payload::GlobalSection(items) => {
            add_items::<Global<'a>>(alloc, context, items.read_as())
        }
        Payload::ExportSection(section) => add_items(alloc, context, section),
        Payload::ElementSection(items) => {
            add_items::<Element<'a>>(alloc, context, items.read_as())
        }
        Payload::DataCountSection { count, range } => {
            let mut context = context;
            match context.set_data_segments(count) {
                Ok(()) => Ok(context),
                Err(e) => Err(PayloadError::Context(e, range.start)),
            }
        }
        Payload::StartSection { func, range } => match context.start_fault(func) {
            Some(e) => Err(PayloadError::Context(e, range.start)),
            None => Ok(context),
        },
        Payload::UnknownSection { id, contents } => Err(PayloadError::UnknownSection(
            id,
            contents.original_position(),
        )),
        Payload::DataSection(items) => add_data_section(alloc, context, items),
        Payload::Version { .. }
        | Payload::CodeSectionStart { .. }
        | Payload::CodeSectionEntry(_)
        | Payload::CustomSection(_)
        | Payload::End(_) => Ok(context),
    }
}
