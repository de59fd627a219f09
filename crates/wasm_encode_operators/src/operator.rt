ghost use Rattle.std.specs.Prelude.{◌≡◌, ◌+◌, ◌<◌, ◌≤◌, ◌⊎◌, OnOk, IfErr, vec_len, vec_capacity};
ghost use Rattle.wasm_below.specs.Features.{legacy_exceptions};
ghost use Rattle.wasm_instr.specs.Encoding.{IsEnabled};
ghost use Rattle.wasm_instr.specs.Row.{immediates_of};
ghost use Rattle.wasm_encode_immediates.specs.Reasons.{HoldList};
ghost use Rattle.wasm_encode_operators.specs.Encoding.{WritesOperator};

use crate::common::write_common;
use crate::immediates::own::write_immediates;
use crate::opcode::write_opcode;
use wasm_below::WasmFeatures;
use wasm_encode_immediates::Unwritable;
use wasm_instr::Operator;

/// The greatest number of bytes of an operator without a list: 11 of the opcode and 33 of a cast.
const MOST: usize = 44;

/// Appends the shortest encoding of an operator under these features. On `Err`, the elements of
/// `out` are unchanged.
///
/// Fails with `NeedsFeature` for `try`, `catch` and `catch_all` without LEGACY_EXCEPTIONS; else
/// with the first reason why an immediate has no encoding. Fails with `OutOfMemory` only if `out`
/// has less than 44 bytes of capacity left, or the operator has a list. All reasons except
/// `OutOfMemory` mean that no encoding exists.
#[inline(always)]
pub fn write_operator(
    out: &mut Vec<u8>,
    features: WasmFeatures,
    op: &Operator<'_>,
) -> Result<(), Unwritable>
    ensures written { WritesOperator features op.now result out.old.items out.new.items }
    ensures memory { IfErr result (λ e. e ≡ Unwritable.OutOfMemory
        → (vec_capacity out.old < vec_len out.old + 44) ⊎ HoldList (immediates_of op.now)) }
    ensures kept { vec_capacity out.old ≤ vec_capacity out.new }
{
    match out.reserve(MOST) {
        Ok(()) => {
            if write_common(out, op) {
                return Ok(());
            }
            write_other(out, features, op)
        }
        Err(_) => Err(Unwritable::OutOfMemory),
    }
}

/// Appends an operator, like `write_operator`, which calls this if `write_common` returns false.
#[inline(always)]
fn write_other(
    out: &mut Vec<u8>,
    features: WasmFeatures,
    op: &Operator<'_>,
) -> Result<(), Unwritable>
    requires { vec_len out.old + 44 ≤ vec_capacity out.old }
    ensures written { WritesOperator features op.now result out.old.items out.new.items }
    ensures memory { IfErr result (λ e. e ≡ Unwritable.OutOfMemory → HoldList (immediates_of op.now)) }
    ensures kept { vec_capacity out.old ≤ vec_capacity out.new }
{
    match check_enabled(features, op) {
        Ok(()) => write_enabled(out, features, op),
        Err(e) => Err(e),
    }
}

/// Checks the feature of `try`, `catch` and `catch_all`.
#[inline(always)]
fn check_enabled(features: WasmFeatures, op: &Operator<'_>) -> Result<(), Unwritable>
    ensures enabled { OnOk result (IsEnabled features op.now) }
    ensures not { IfErr result (λ e. (e ≡ Unwritable.NeedsFeature legacy_exceptions) × ¬ IsEnabled features op.now) }
{
    match op {
        Operator::Try { .. } | Operator::Catch { .. } | Operator::CatchAll => {
            if features.contains(WasmFeatures::LEGACY_EXCEPTIONS) {
                Ok(())
            } else {
                Err(Unwritable::NeedsFeature(WasmFeatures::LEGACY_EXCEPTIONS))
            }
        }
        _ => Ok(()),
    }
}

/// Appends an enabled operator, like `write_other`.
#[inline(always)]
fn write_enabled(
    out: &mut Vec<u8>,
    features: WasmFeatures,
    op: &Operator<'_>,
) -> Result<(), Unwritable>
    requires enabled { IsEnabled features op.now }
    requires space { vec_len out.old + 44 ≤ vec_capacity out.old }
    ensures written { WritesOperator features op.now result out.old.items out.new.items }
    ensures memory { IfErr result (λ e. e ≡ Unwritable.OutOfMemory → HoldList (immediates_of op.now)) }
    ensures kept { vec_capacity out.old ≤ vec_capacity out.new }
{
    let start = out.len();
    write_opcode(out, op);
    match write_immediates(out, features, op) {
        Ok(()) => Ok(()),
        Err(e) => {
            out.truncate(start);
            Err(e)
        }
    }
}
