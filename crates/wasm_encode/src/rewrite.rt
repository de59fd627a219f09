//! Reading and writing together.
ghost use Rattle.std.specs.Prelude.{◌≡◌, List, OnOk, IfOk, IfErr};
ghost use Rattle.wasm_below.specs.declared.message.Message.{Message};
ghost use Rattle.wasm_instr.specs.declared.operator.Operator.{Operator};
ghost use Rattle.wasm_operators.specs.Expression.{operators, AreWalk};
ghost use Rattle.wasm_encode.specs.Writing.{EncodesOperators, Rewrote, IsNotRewritten};

use crate::operators::write_operators;
use std::alloc::Global;
use wasm_encode_immediates::Unwritable;
use wasm_operators::{
    BinaryReader, Error, Operator, OperatorsReader, WasmFeatures, expression_laws,
};

/// Why an expression was not rewritten.
#[derive(Clone, Copy)]
pub enum RewriteError {
    /// Reading failed.
    Read(Error),
    /// Writing failed.
    Write(Unwritable),
}

/// Reads an expression, and appends its operators in their shortest encodings. On `Err`, the
/// elements of `out` are unchanged.
///
/// Fails with `Read` like `OperatorsReader::read_all`, or with `Write(OutOfMemory)`: what was read
/// has an encoding.
pub fn rewrite_expression(
    alloc: Global,
    features: WasmFeatures,
    bytes: &[u8],
    out: &mut Vec<u8>,
) -> Result<(), RewriteError>
    ensures rewrote { OnOk result (Rewrote features bytes.now out.old.items out.new.items) }
    ensures unchanged { IfErr result (λ e. out.new.items ≡ out.old.items) }
    ensures reason { IfErr result (IsNotRewritten features bytes.now) }
{
    let mut found = Vec::new(alloc);
    let mut reader = OperatorsReader::new(alloc, BinaryReader::new_features(bytes, 0, features));
    match reader.read_all(&mut found) {
        Ok(()) => match write_operators(out, features, found.as_slice()) {
            Ok(()) => Ok(()),
            Err(e) => Err(RewriteError::Write(e)),
        },
        Err(e) => Err(RewriteError::Read(e)),
    }
}

/// Reads the operators of an expression back from the bytes that `write_operators` appended to an
/// empty vector: the same operators.
///
/// Fails with `OutOfMemory` only. For other bytes, fails like `OperatorsReader::read_all`.
pub fn read_back<'b>(
    alloc: Global,
    features: WasmFeatures,
    bytes: &'b [u8],
) -> Result<Vec<(Operator<'b>, u64)>, Error>
    ensures same { (ops : List Operator) → AreWalk ops → EncodesOperators features 0 bytes.now ops
        → IfOk result (λ found. operators found.items ≡ ops) }
    ensures memory { (ops : List Operator) → AreWalk ops → EncodesOperators features 0 bytes.now ops
        → IfErr result (λ e. e.message ≡ Message.OutOfMemory) }
{
    expression_laws::one_expression(features);
    let mut found = Vec::new(alloc);
    let mut reader = OperatorsReader::new(alloc, BinaryReader::new_features(bytes, 0, features));
    match reader.read_all(&mut found) {
        Ok(()) => Ok(found),
        Err(e) => Err(e),
    }
}
