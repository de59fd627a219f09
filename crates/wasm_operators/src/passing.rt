ghost use Rattle.std.specs.Prelude.{◌≡◌, ◌≢◌, [], true, IfOk, IfErr};
ghost use Rattle.wasm_below.specs.Fault.{HasFault};
ghost use Rattle.wasm_below.specs.FromReader.{IsRefused};
ghost use Rattle.wasm_below.specs.Source.{offset_of};
ghost use Rattle.wasm_operators.specs.Reading.{IsFresh};
ghost use Rattle.wasm_operators.specs.Constant.{EncodesConstantReader};
ghost use Rattle.wasm_operators.specs.ConstantFaults.{ConstantFault, ConstantMayAllocate};
ghost use Rattle.wasm_operators.specs.Passing.{PassesOne, PassesEnd};

use crate::OperatorsReader;
use wasm_below::{Error, Message, Result};
use wasm_instr::FrameStack;
use wasm_visit::IsEndOperatorVisitor;

/// Skips the operators up to the first `end`. Fails as `ConstExpr::read` does.
pub fn pass_constant(operators: &mut OperatorsReader<'_>) -> Result<()>
    requires { IsFresh operators.old }
    ensures passed { IfOk result (λ _. PassesEnd operators.old operators.new × (operators.new.frames ≡ [])) }
    ensures refused { IfErr result
        (λ e. IsRefused (EncodesConstantReader operators.old.reader.features) ConstantFault ConstantMayAllocate
        e operators.old.reader) }
{
    let start = operators.original_position();
    loop {
        match pass_one(operators) {
            Ok(is_end) => {
                if is_end {
                    return check_closed(operators);
                }
            }
            Err(e) => return Err(from_start(e, start)),
        }
    }
}

/// Skips one operator, and returns whether it was `end`.
fn pass_one(operators: &mut OperatorsReader<'_>) -> Result<bool>
    ensures { PassesOne result operators.old operators.new }
{
    operators.visit_operator_simd(&mut IsEndOperatorVisitor)
}

fn check_closed(operators: &OperatorsReader<'_>) -> Result<()>
    ensures closed { IfOk result (λ _. operators.now.frames ≡ []) }
    ensures open { IfErr result
        (λ e. (operators.now.frames ≢ []) × (e.message ≡ Message.FramesRemainConst)
        × (e.offset ≡ offset_of operators.now.reader)) }
{
    if operators.current_frame().is_some() {
        let position = operators.original_position();
        return Err(Error::new(Message::FramesRemainConst, position));
    }
    Ok(())
}

/// Returns the error `e`, with the offset `start` if allocation failed.
fn from_start(e: Error, start: u64) -> Error
    ensures message { result.message ≡ e.message }
    ensures memory { e.message ≡ Message.OutOfMemory → result.offset ≡ start }
    ensures other { e.message ≢ Message.OutOfMemory → result.offset ≡ e.offset }
{
    match e.message() {
        Message::OutOfMemory => Error::new(Message::OutOfMemory, start),
        _ => e,
    }
}
