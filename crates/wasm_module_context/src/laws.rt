//! What payloads determine of a context.
ghost use Rattle.std.specs.Prelude.{◌≡◌};
ghost use Rattle.wasm_payloads.specs.declared.payload.Payload.{Payload};
ghost use Rattle.wasm_context.specs.Components.{Components};
ghost use Rattle.wasm_module_context.specs.declared.error.PayloadError.{PayloadError};
ghost use Rattle.wasm_module_context.specs.Exhaustion.{IsExhausted};
ghost use Rattle.wasm_module_context.specs.Payloads.{AddsPayload, FailsPayload};

/// States that a payload gives one context, or is in error, unless allocation fails or a limit is
/// exceeded.
pub fn context_laws()
    ensures one { (p : Payload) (c d e : Components) → AddsPayload p c d → AddsPayload p c e → d ≡ e }
    ensures errors { (p : Payload) (c d : Components) (e : PayloadError) → (IsExhausted e → ⊥) → AddsPayload p c d → FailsPayload p c e → ⊥ }
{}
