ghost use Rattle.std.specs.Prelude.{◌≡◌, ◌↔◌, ◌++◌, ℕ, List, length, IsTrue, IfOk, IfErr};
ghost use Rattle.wasm_operators.specs.below.declared.message.Message.{Message};
ghost use Rattle.wasm_operators.specs.below.Source.{rest};
ghost use Rattle.wasm_operators.specs.Body.{EncodesBody};
ghost use Rattle.wasm_operators.specs.Expression.{Placed};
ghost use Rattle.wasm_operators.specs.Locals.{Declaration, EncodesLocals, LocalsFault};
ghost use Rattle.uses.specs.Bodies.{IsBody, BeginsWithDeclaration};
ghost use Rattle.uses.specs.Input.{input};

use std::alloc::Global;
use wasm_operators::{
    BinaryReader, FunctionBody, Message, Result, ValType, WasmFeatures, body_laws,
};

/// Returns whether the bytes are a body, by reading them to the end (laws `opened_bodies`,
/// `refused_locals` and `stopped_bodies`).
pub fn is_body(alloc: Global, features: WasmFeatures, bytes: &[u8]) -> Result<bool>
    ensures { IfOk result (λ outcome. IsTrue outcome ↔ IsBody (input features bytes.now)) }
{
    body_laws::opened_bodies();
    body_laws::refused_locals();
    body_laws::stopped_bodies();
    let body = FunctionBody::new(BinaryReader::new_features(bytes, 0, features));
    let mut reader = match body.get_operators_reader(alloc) {
        Ok(reader) => reader,
        Err(_) => return Ok(false),
    };
    let mut found = Vec::new(alloc);
    match reader.read_all(&mut found) {
        Ok(()) => Ok(true),
        Err(error) => match error.message() {
            Message::OutOfMemory => Err(error),
            _ => Ok(false),
        },
    }
}

/// Returns the number of operators in the one body that the bytes encode (law `one_body`).
pub fn body_len(alloc: Global, features: WasmFeatures, bytes: &[u8]) -> Result<usize>
    ensures { (declarations : List Declaration) (placed : Placed)
        → EncodesBody (input features bytes.now) declarations placed → IfOk result (λ count. count ≡ length placed) }
{
    body_laws::opened_bodies();
    body_laws::one_body();
    let body = FunctionBody::new(BinaryReader::new_features(bytes, 0, features));
    let mut found = Vec::new(alloc);
    body.get_operators_reader(alloc)?.read_all(&mut found)?;
    Ok(found.len())
}

pub fn first_declaration(body: &FunctionBody<'_>) -> Result<(u32, ValType)>
    ensures { IfOk result (λ declaration. BeginsWithDeclaration body.now declaration) }
{
    body.get_locals_reader()?.read()
}

/// Returns the length in bytes of a body's locals. No other prefix encodes locals (law
/// `declarations`), and the bytes determine the error (`refusals`).
pub fn locals_size(body: &FunctionBody<'_>) -> Result<usize>
    ensures size { (declarations : List Declaration) (text more : List ℕ) → rest body.now ≡ text ++ more
        → EncodesLocals text declarations → IfOk result (λ size. size ≡ length text) }
    ensures refused { (m : Message) (offset : ℕ) → LocalsFault m body.now offset
        → IfErr result (λ e. (e.message ≡ m) × (e.offset ≡ offset)) }
{
    body_laws::declarations();
    body_laws::refusals();
    let start = body.get_binary_reader().current_position();
    let after = body.get_binary_reader_for_operators()?;
    Ok(after.current_position() - start)
}
