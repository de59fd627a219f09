ghost use Rattle.std.specs.Prelude.{◌≡◌, ◌+◌, ◌<◌, ◌≤◌, ℕ, List, length, Some, None, IfOk, IfSome, IfNone};
ghost use Rattle.wasm_operators.specs.below.declared.error.Error.{Error};
ghost use Rattle.wasm_operators.specs.below.Source.{rest, offset_of};
ghost use Rattle.wasm_operators.specs.Expression.{Placed, LaidOut, EndsAt, EncodesExpression, IsBeginningOf};
ghost use Rattle.uses.specs.Complaints.{IsRefusal};
ghost use Rattle.uses.specs.Input.{input};
ghost use Rattle.uses.specs.Places.{IsRangeOf};

use crate::single_steps::next_refusal;
use std::alloc::Global;
use std::ops::Range;
use wasm_operators::{
    BinaryReader, Error, Operator, OperatorsReader, Result, WasmFeatures, expression_laws,
    position_laws,
};

/// Returns the bytes before the error of an expression, with the error; or all bytes, if they are
/// an expression.
///
/// The error's offset is at most their length (laws `refusals_ahead` and `taken_within`).
pub fn bytes_before_refusal<'a>(
    alloc: Global,
    features: WasmFeatures,
    bytes: &'a [u8],
) -> (&'a [u8], Option<Error>)
    ensures part { IsBeginningOf result.0.now bytes.now }
    ensures place { IfSome result.1 (λ e. length result.0.now ≡ e.offset) }
    ensures whole { IfNone result.1
        ((result.0.now ≡ bytes.now) × ((placed : Placed) × EncodesExpression (input features bytes.now) placed)) }
{
    position_laws::refusals_ahead();
    position_laws::taken_within();
    let mut found = Vec::new(alloc);
    let mut reader = OperatorsReader::new(alloc, BinaryReader::new_features(bytes, 0, features));
    match reader.read_all(&mut found) {
        Ok(()) => (bytes, None),
        Err(error) => (&bytes[..error.offset() as usize], Some(error)),
    }
}

/// Returns the distance in bytes from the reader to the error of the next operator, or `None` if it
/// is read.
///
/// Both offsets are within the data (laws `within` and `refusals_ahead`).
pub fn refusal_distance(operators: &mut OperatorsReader<'_>) -> Option<u64>
    ensures ahead { IfSome result (λ distance. distance ≤ length (rest operators.new.reader)) }
    ensures refused { IfSome result (λ distance. (e : Error) × IsRefusal (Some e) operators.old operators.new
        × (e.offset ≡ offset_of operators.new.reader + distance)) }
    ensures read { IfNone result (IsRefusal None operators.old operators.new) }
{
    position_laws::refusals_ahead();
    let Some(error) = next_refusal(operators) else {
        return None;
    };
    position_laws::within(&operators.get_binary_reader());
    Some(error.offset() - operators.original_position())
}

/// Returns the byte range of the operator at `index` in a list that was read up to the offset
/// `end`. The range ends where the next operator starts, or at `end` after the last (law `ranges`).
pub fn range_of(
    features: WasmFeatures,
    list: &[(Operator<'_>, u64)],
    index: usize,
    end: u64,
) -> Range<u64>
    requires { index < length list.now }
    ensures { (offset : ℕ) (bytes : List ℕ) → LaidOut features offset bytes list.now → end ≡ offset + length bytes
        → IsRangeOf features list.now index result.start result.end }
{
    expression_laws::ranges(features);
    let start = list[index].1;
    if index + 1 < list.len() {
        return start..list[index + 1].1;
    }
    start..end
}

pub fn read_ranged<'a>(operators: &mut OperatorsReader<'a>) -> Result<(Operator<'a>, Range<u64>)>
    ensures start { IfOk result (λ found. found.1.start ≡ offset_of operators.old.reader) }
    ensures end { IfOk result (λ found. EndsAt operators.old.reader.features (found.0, found.1.start) found.1.end) }
{
    let start = operators.original_position();
    let operator = operators.read()?;
    Ok((operator, start..operators.original_position()))
}
