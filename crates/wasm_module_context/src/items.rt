ghost use Rattle.std.specs.Prelude.{◌≡◌, ℕ, IfOk, IfErr};
ghost use Rattle.wasm_context.specs.Components.{Components};
ghost use Rattle.wasm_module_context.specs.declared.error.PayloadError.{PayloadError};
ghost use Rattle.wasm_module_context.specs.Items.{AddsItems, FailsItems};

use crate::error::PayloadError;
use std::alloc::Global;
use wasm_context::Context;
use wasm_grammars::Read;
use wasm_sections::SectionReader;

/// An item of a section that adds something to the context of a module.
pub trait AddToContext<'a>: Read<'a> {
    // What the item adds.
    ghost adds: { Self → Components → Components → Type 0 };

    // The errors of an item at an offset.
    ghost refuses: { Self → Components → ℕ → PayloadError → Type 0 };

    /// Adds the item, of which `offset` is the offset.
    fn add_to(self, alloc: Global, context: Context, offset: u64) -> Result<Context, PayloadError>
        ensures added { IfOk result (λ new. adds self context new) }
        ensures refused { IfErr result (λ e. refuses self context offset e) };
}

/// Adds the items of a section.
///
/// Fails with the error of the first item that cannot be read or added.
pub fn add_items<'a, T: AddToContext<'a>>(
    alloc: Global,
    context: Context,
    section: SectionReader<'a, T>,
) -> Result<Context, PayloadError>
    ensures added { IfOk result (λ new. AddsItems T.adds T.grammar section.entry.count section.entry.reader context new) }
    ensures refused { IfErr result (λ e. FailsItems T.adds T.refuses T.grammar section.entry.count section.entry.reader context e) }
{
    let mut items = section.into_iter_with_offsets();
    let mut context = context;
    'items: while let Some(item) = items.next() {
        match item {
            Ok((offset, part)) => match part.add_to(alloc, context, offset) {
                Ok(more) => context = more,
                Err(e) => return Err(e),
            },
            Err(e) => return Err(PayloadError::Decode(e)),
        }
    }
    Ok(context)
}
