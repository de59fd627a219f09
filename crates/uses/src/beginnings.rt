ghost use Rattle.std.specs.Prelude.{◌≡◌, ◌≢◌, ℕ, length, IfOk, IfErr, IfSome, IfNone};
ghost use Rattle.wasm_operators.specs.Expression.{Placed, EncodesExpression, IsLongestBeginning};
ghost use Rattle.wasm_operators.specs.Flat.{IsFlatBeginning};
ghost use Rattle.uses.specs.Input.{input};
ghost use Rattle.uses.specs.Begun.{IsMissing, BeginsExpression};

use std::alloc::Global;
use wasm_operators::{
    BinaryReader, Error, Message, Operator, OperatorsReader, Result, WasmFeatures, decoding_laws,
    expression_laws, grammar_laws, reading_laws,
};

/// What an expression that arrives in pieces still misses.
#[derive(Clone, Copy, Debug, PartialEq, Eq)]
pub enum Missing {
    Nothing,
    /// Only `end`s, each the byte `0b`.
    Ends,
    /// The rest of an operator.
    Bytes,
    /// No further bytes make it an expression.
    Never,
}

/// Returns what the bytes miss to be an expression.
///
/// If more bytes would complete it, `read_all` fails only at the end of the data (clause `cut`),
/// and after `FramesRemain` some `end`s complete it (clause `completed`).
pub fn missing_after(alloc: Global, features: WasmFeatures, bytes: &[u8]) -> Result<Missing>
    ensures { IfOk result (λ what. IsMissing (input features bytes.now) what) }
{
    let mut found = Vec::new(alloc);
    let mut reader = OperatorsReader::new(alloc, BinaryReader::new_features(bytes, 0, features));
    match reader.read_all(&mut found) {
        Ok(()) => Ok(Missing::Nothing),
        Err(error) => match error.message() {
            Message::OutOfMemory => Err(error),
            Message::FramesRemain => Ok(Missing::Ends),
            Message::EndOfData => Ok(Missing::Bytes),
            _ => Ok(Missing::Never),
        },
    }
}

/// Returns the longest prefix of an expression: as many operators as the open frames allow (clause
/// `flat` of `read_all`, law `flat_beginnings`).
pub fn allowed_operators<'a>(
    alloc: Global,
    features: WasmFeatures,
    bytes: &'a [u8],
) -> Result<Vec<(Operator<'a>, u64)>>
    ensures flat { (flat : Placed) → IsFlatBeginning (input features bytes.now) flat
        → IfOk result (λ found. found.items ≡ flat) }
    ensures longest { (longest : Placed) → IsLongestBeginning (input features bytes.now) longest
        → IfOk result (λ found. found.items ≡ longest) }
    ensures memory { IfErr result (λ e. e.message ≡ Message.OutOfMemory) }
{
    expression_laws::flat_beginnings();
    let mut found = Vec::new(alloc);
    let mut reader = OperatorsReader::new(alloc, BinaryReader::new_features(bytes, 0, features));
    match reader.read_all(&mut found) {
        Ok(()) => Ok(found),
        Err(error) => match error.message() {
            Message::OutOfMemory => Err(error),
            _ => Ok(found),
        },
    }
}

/// Returns the number of operators in the longest prefix of an expression. That prefix is unique
/// (laws `one_longest_beginning` and `one_expression`).
pub fn beginning_len(alloc: Global, features: WasmFeatures, bytes: &[u8]) -> Result<usize>
    ensures longest { (longest : Placed) → IsLongestBeginning (input features bytes.now) longest
        → IfOk result (λ count. count ≡ length longest) }
    ensures whole { (whole : Placed) → EncodesExpression (input features bytes.now) whole
        → IfOk result (λ count. count ≡ length whole) }
{
    expression_laws::one_expression(features);
    expression_laws::one_longest_beginning();
    expression_laws::whole_is_longest();
    let mut found = Vec::new(alloc);
    let mut reader = OperatorsReader::new(alloc, BinaryReader::new_features(bytes, 0, features));
    match reader.read_all(&mut found) {
        Ok(()) => Ok(found.len()),
        Err(error) => match error.message() {
            Message::OutOfMemory => Err(error),
            _ => Ok(found.len()),
        },
    }
}

/// Returns how many bytes at the start are an expression, or `None` if none begins there.
///
/// By the law `run_messages`, the error is `OperatorsRemaining` if and only if no frame is open:
/// the operators read are then an expression. After any other error but `OutOfMemory`, none begins
/// there (laws `one_layout` and `rules_accept_walks`).
pub fn expression_size(alloc: Global, features: WasmFeatures, bytes: &[u8]) -> Result<Option<usize>>
    ensures some { IfOk result (λ size. IfSome size (λ n. BeginsExpression (input features bytes.now) n)) }
    ensures none { IfOk result (λ size. IfNone size ((n : ℕ) → BeginsExpression (input features bytes.now) n → ⊥)) }
{
    decoding_laws::run_messages();
    expression_laws::layouts(features);
    expression_laws::one_layout(features);
    grammar_laws::path_is_run::<Operator<'_>>();
    grammar_laws::rules_accept_walks::<Operator<'_>>();
    let mut found = Vec::new(alloc);
    let mut reader = OperatorsReader::new(alloc, BinaryReader::new_features(bytes, 0, features));
    match reader.read_all(&mut found) {
        Ok(()) => Ok(Some(bytes.len())),
        Err(error) => match error.message() {
            Message::OutOfMemory => Err(error),
            Message::OperatorsRemaining => Ok(Some(reader.get_binary_reader().current_position())),
            _ => Ok(None),
        },
    }
}

/// Reads the bytes twice, and returns both errors, which are equal unless allocation failed (law
/// `one_result`). If it returns `None`, the bytes are an expression.
pub fn refused_twice(alloc: Global, features: WasmFeatures, bytes: &[u8]) -> Option<(Error, Error)>
    ensures again { IfSome result (λ both. both.0.message ≢ Message.OutOfMemory → both.1.message ≢ Message.OutOfMemory
        → (both.0.message ≡ both.1.message) × (both.0.offset ≡ both.1.offset)) }
    ensures whole { IfNone result ((placed : Placed) × EncodesExpression (input features bytes.now) placed) }
{
    reading_laws::one_result();
    let mut found = Vec::new(alloc);
    let mut reader = OperatorsReader::new(alloc, BinaryReader::new_features(bytes, 0, features));
    let first = match reader.read_all(&mut found) {
        Ok(()) => return None,
        Err(error) => error,
    };
    let mut again = Vec::new(alloc);
    let mut other = OperatorsReader::new(alloc, BinaryReader::new_features(bytes, 0, features));
    match other.read_all(&mut again) {
        Ok(()) => None,
        Err(second) => Some((first, second)),
    }
}
