ghost use Rattle.std.specs.Prelude.{◌≡◌, ◌++◌, List, ℕ};
ghost use Rattle.wasm_operators.specs.below.declared.features.WasmFeatures.{WasmFeatures};
ghost use Rattle.wasm_operators.specs.instr.Encoding.{EncodesOperator, EncodesOpcode};
ghost use Rattle.wasm_operators.specs.instr.Kinds.{HoldsList};

use std::alloc::Global;
use wasm_operators::Operator;

/// Returns the prefix byte, if there is one, and the opcode or subopcode, with which each encoding
/// starts.
pub fn opcode(op: &Operator<'_>) -> (Option<u8>, u32)
    ensures { (features : WasmFeatures) (text : List ℕ) → EncodesOperator features text op.now
        → (head after : List ℕ) × (text ≡ head ++ after) × EncodesOpcode result.0 head result.1 }
{
    let row = op.info();
    (row.prefix, row.code)
}

/// Returns a copy of an operator that owns no list. Always succeeds.
pub fn copy_without_list<'a>(alloc: Global, op: &Operator<'a>) -> Operator<'a>
    requires { ¬ HoldsList op.now }
    ensures { result ≡ op.now }
{
    match op.clone(alloc) {
        Ok(copy) => copy,
        Err(_) => unreachable!(),
    }
}
