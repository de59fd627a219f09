ghost use Rattle.std.specs.Prelude.{◌≡◌, ◌-◌, ◌<◌, length, IfOk, IfErr};
ghost use Rattle.wasm_operators.specs.Expression.{Placed};
ghost use Rattle.wasm_operators.specs.MainTheorem.{IsWithinDepth};
ghost use Rattle.wasm_operators.specs.Reading.{GrowsLittle, TakesOperators, StopsRead};
ghost use Rattle.wasm_operators.specs.Next.{all_operators};

use wasm_operators::{OperatorsReader, Result, run_laws};

/// Skips `count` operators. The contract bounds the open frames and their memory.
///
/// By the law `single_reads`, the operators are one list; `one_depth` bounds the frames after a
/// read, and `memory_adds_up` the memory.
pub fn skip_operators(operators: &mut OperatorsReader<'_>, count: u32) -> Result<()>
    ensures skipped { IfOk result (λ done. (placed : Placed) × (length placed ≡ count)
        × TakesOperators operators.old operators.new placed) }
    ensures refused { IfErr result (λ e. (placed : Placed) × (length placed < count)
        × TakesOperators operators.old operators.new placed
        × StopsRead all_operators e operators.new) }
    ensures depth { IsWithinDepth operators.old operators.new }
    ensures memory { GrowsLittle (operators.new.reader.position - operators.old.reader.position) operators.old operators.new }
{
    run_laws::single_reads();
    run_laws::one_depth();
    run_laws::memory_adds_up();
    for _operator in 0..count {
        operators.read()?;
    }
    Ok(())
}
