//! Writing with the targets of branch tables in their shortest encodings.
ghost use Rattle.std.specs.Prelude.{◌+◌, ◌≤◌, vec_len, vec_capacity, length};
ghost use Rattle.wasm_below.specs.declared.features.WasmFeatures.{WasmFeatures};
ghost use Rattle.wasm_below.specs.Number.{EncodesUnsigned};
ghost use Rattle.wasm_imm.specs.BranchTables.{numbers_of};
ghost use Rattle.wasm_imm.specs.Lists.{EncodesEach};
ghost use Rattle.wasm_operators.specs.Expression.{operators};
ghost use Rattle.wasm_encode_numbers.specs.Appended.{Appends};
ghost use Rattle.wasm_encode.specs.Shortened.{WritesByTargets, WritesBodyByTargets, WritesSame};

use crate::body::write_locals;
use wasm_encode_immediates::Unwritable;
use wasm_encode_numbers::write_u32;
use wasm_encode_operators::write_operator;
use wasm_operators::{BrTable, Operator, ValType, WasmFeatures, control_laws};

const BR_TABLE: u8 = 0x0e;

/// Appends like `write_operators`, with the targets of branch tables in their shortest encodings.
/// So what is read from the bytes equals `ops`, except that the bytes of targets may differ, which
/// `==` of branch tables compares.
///
/// Fails like `write_operators`.
pub fn write_shortened(
    out: &mut Vec<u8>,
    features: WasmFeatures,
    ops: &[(Operator<'_>, u64)],
) -> Result<(), Unwritable>
    ensures written { WritesByTargets features (operators ops.now) result out.old.items out.new.items }
    ensures kept { vec_capacity out.old ≤ vec_capacity out.new }
{
    let start = out.len();
    for (op, _offset) in ops {
        match write_one(out, features, op) {
            Ok(()) => {}
            Err(e) => {
                out.truncate(start);
                return Err(e);
            }
        }
    }
    Ok(())
}

/// Appends like `write_body`, with the targets of branch tables in their shortest encodings. Fails
/// like `write_body`.
pub fn write_shortened_body(
    out: &mut Vec<u8>,
    features: WasmFeatures,
    declarations: &[(u32, ValType)],
    ops: &[(Operator<'_>, u64)],
) -> Result<(), Unwritable>
    ensures written { WritesBodyByTargets features declarations.now (operators ops.now) result out.old.items out.new.items }
    ensures kept { vec_capacity out.old ≤ vec_capacity out.new }
{
    let start = out.len();
    match write_locals(out, declarations) {
        Ok(()) => match write_shortened(out, features, ops) {
            Ok(()) => Ok(()),
            Err(e) => {
                out.truncate(start);
                Err(e)
            }
        },
        Err(e) => Err(e),
    }
}

/// Appends an operator like `write_operator`, or a branch table like `write_table`.
fn write_one(out: &mut Vec<u8>, features: WasmFeatures, op: &Operator<'_>) -> Result<(), Unwritable>
    ensures written { WritesSame features op.now result out.old.items out.new.items }
    ensures kept { vec_capacity out.old ≤ vec_capacity out.new }
{
    match op {
        Operator::BrTable { targets } => write_table(out, targets),
        _ => write_operator(out, features, op),
    }
}

/// Appends the opcode and the immediates of a `br_table`, each number in its shortest encoding.
/// Fails with `OutOfMemory` only.
fn write_table(out: &mut Vec<u8>, table: &BrTable<'_>) -> Result<(), Unwritable>
    ensures written { (features : WasmFeatures) → WritesSame features (Operator.BrTable table.now) result out.old.items out.new.items }
    ensures kept { vec_capacity out.old ≤ vec_capacity out.new }
{
    match out.reserve(31 + table.target_bytes().len()) {
        Ok(()) => {
            out.push_reserved(BR_TABLE);
            write_u32(out, table.len());
            write_targets(out, table);
            write_u32(out, table.default());
            Ok(())
        }
        Err(_) => Err(Unwritable::OutOfMemory),
    }
}

/// Appends the targets of a branch table, without the default target: at most as many bytes as the
/// table has.
fn write_targets(out: &mut Vec<u8>, table: &BrTable<'_>)
    requires { vec_len out.old + length table.now.targets + 20 ≤ vec_capacity out.old }
    ensures written { Appends (EncodesEach (EncodesUnsigned 32)) (numbers_of table.now.targets) out.old.items out.new.items }
    ensures len { vec_len out.new ≤ vec_len out.old + length table.now.targets }
    ensures capacity { vec_capacity out.old ≤ vec_capacity out.new }
{
    control_laws::target_numbers();
    control_laws::returned_targets();
    for target in table.targets() {
        if let Ok(label) = target {
            write_u32(out, label);
        }
    }
}
