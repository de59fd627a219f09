ghost use Rattle.std.specs.Prelude.{◌≡◌, List, IfErr};
ghost use Rattle.wasm_operators.specs.Expression.{Placed};
ghost use Rattle.wasm_operators.specs.Body.{ReadsBody};
ghost use Rattle.wasm_operators.specs.Locals.{Declaration};
ghost use Rattle.wasm_listing.specs.Census.{Counted, Counts, BodyMayAllocate};
ghost use Rattle.wasm_listing.specs.Dump.{input_of, IsBody, IsNotRefused};

use crate::body::open_body;
use crate::counting::Census;
use crate::fault::DumpFault;
use std::alloc::Global;
use wasm_operators::{Error, Message, WasmFeatures, body_laws, decoding_laws, expression_laws};

fn count_body(
    alloc: Global,
    features: WasmFeatures,
    bytes: &[u8],
    census: &mut Census,
) -> Result<(), Error>
    ensures counts { ReadsBody (Counted census.old census.new) result (input_of features bytes.now) }
    ensures whole { (declarations : List Declaration) → (placed : Placed)
        → IsBody (input_of features bytes.now) declarations placed
        → IfErr result (λ e. e.message ≡ Message.OutOfMemory) }
    ensures memory { IfErr result
        (λ e. e.message ≡ Message.OutOfMemory → BodyMayAllocate (input_of features bytes.now)) }
{
    body_laws::opened_bodies();
    body_laws::refused_locals();
    decoding_laws::memory_asked();
    let mut operators = open_body(alloc, features, bytes)?;
    operators.visit_all_simd(census)
}

/// Counts the operators of a body by proposal, in the order of `proposal_at`.
///
/// Fails with `Refused` if the bytes are no body, and with `Memory` only if an operator may
/// allocate.
pub fn census(alloc: Global, features: WasmFeatures, body: &[u8]) -> Result<[u64; 19], DumpFault>
    ensures counts { Counts (input_of features body.now) result }
    // If the bytes encode a body, the result is not `Refused`.
    ensures whole { (declarations : List Declaration) → (placed : Placed)
        → IsBody (input_of features body.now) declarations placed → IsNotRefused result }
    ensures memory { IfErr result (λ fault. fault ≡ DumpFault.Memory → BodyMayAllocate (input_of features body.now)) }
{
    expression_laws::layouts(features);
    let mut census = Census::new();
    match count_body(alloc, features, body, &mut census) {
        Ok(()) => Ok(census.counts()),
        Err(error) => match error.message() {
            Message::OutOfMemory => Err(DumpFault::Memory),
            _ => Err(DumpFault::Refused(error)),
        },
    }
}
