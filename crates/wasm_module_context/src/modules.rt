ghost use Rattle.std.specs.Prelude.{IfOk, IfErr};
ghost use Rattle.wasm_module_context.specs.Modules.{AddsAll, FailsAll};

use crate::error::PayloadError;
use crate::payloads::add_payload;
use std::alloc::Global;
use wasm_context::Context;
use wasm_payloads::Parser;

/// Adds all payloads of a module to a context. Bodies are not read. Specification: Validation,
/// Modules.
///
/// Fails with the error of the first payload that cannot be parsed or added.
pub fn add_payloads<'a>(
    alloc: Global,
    context: Context,
    parser: Parser<'a>,
) -> Result<Context, PayloadError>
    ensures added { IfOk result (λ new. AddsAll parser.entry context new) }
    ensures refused { IfErr result (λ e. FailsAll parser.entry context e) }
{
    let mut payloads = parser;
    let mut context = context;
    'payloads: while let Some(item) = payloads.next() {
        match item {
            Ok(payload) => match add_payload(alloc, context, payload) {
                Ok(more) => context = more,
                Err(e) => return Err(e),
            },
            Err(e) => return Err(PayloadError::Decode(e)),
        }
    }
    Ok(context)
}
