//! What bytes determine of the payloads of a module.
ghost use Rattle.std.specs.Prelude.{◌≡◌, ◌≢◌, List};
ghost use Rattle.wasm_below.specs.declared.error.Error.{Error};
ghost use Rattle.wasm_below.specs.declared.message.Message.TheVariants as message;
ghost use Rattle.wasm_below.specs.Source.{Reader};
ghost use Rattle.wasm_payloads.specs.declared.payload.Payload.{Payload};
ghost use Rattle.wasm_payloads.specs.Parsing.{Parsing, Gives, FailsAt};
ghost use Rattle.wasm_payloads.specs.Payloads.{IsModuleOf};

/// States that bytes are at most one list of payloads, and that a parser has one next payload or an
/// error, unless allocation fails.
pub fn payload_laws()
    ensures one { (r : Reader) (ps qs : List Payload) → IsModuleOf ps r → IsModuleOf qs r → ps ≡ qs }
    ensures next { (s u v : Parsing) (p q : Payload) → Gives s.state p s u → Gives s.state q s v → (p ≡ q) × (u ≡ v) }
    ensures errors { (s u : Parsing) (p : Payload) (e : Error) → e.message ≢ message.OutOfMemory → Gives s.state p s u → FailsAt s.state e s → ⊥ }
{}
