ghost use Rattle.std.specs.Prelude.{◌≡◌, ◌≢◌, ◌++◌, ℕ, List, length, IfOk, IfErr};
ghost use Rattle.wasm_operators.specs.below.declared.message.Message.{Message};
ghost use Rattle.wasm_operators.specs.below.Source.{Reader, rest};
ghost use Rattle.wasm_operators.specs.Constant.{EncodesConstantReader};
ghost use Rattle.wasm_operators.specs.ConstantFaults.{ConstantFault, ConstantMayAllocate};

use std::alloc::Global;
use wasm_operators::{BinaryReader, ConstExpr, Message, Result, constant_laws};

/// Returns the length in bytes of the constant expression at the reader's position.
///
/// No other prefix is one (law `constant_expressions`), and the bytes determine the error
/// (`constant_refusals`).
pub fn constant_size(alloc: Global, reader: &BinaryReader<'_>) -> Result<usize>
    ensures size { (text more : List ℕ) (constant : Reader) → rest reader.now ≡ text ++ more
        → EncodesConstantReader reader.now.features text constant → IfOk result (λ size. size ≡ length text) }
    ensures refused { (m : Message) (offset : ℕ) → ConstantFault m reader.now offset
        → IfErr result (λ e. e.message ≢ Message.OutOfMemory → (e.message ≡ m) × (e.offset ≡ offset)) }
    ensures memory { IfErr result (λ e. e.message ≡ Message.OutOfMemory → ConstantMayAllocate reader.now) }
{
    constant_laws::constant_expressions(reader.features());
    constant_laws::constant_refusals();
    let mut ahead = reader.clone();
    let _constant = ConstExpr::read(alloc, &mut ahead)?;
    Ok(ahead.current_position() - reader.current_position())
}
