//! What the laws of frames say of the operators that were read.
ghost use Rattle.std.specs.Prelude.{◌≡◌, List, [], ◌∷◌, ◌++◌, IfOk};
ghost use Rattle.wasm_operators.specs.instr.declared.operator.Operator.{Operator};
ghost use Rattle.wasm_operators.specs.Reading.{SameReaderAndFrames};
ghost use Rattle.uses.specs.Paths.{LeadTo, HaveReadSame};

use crate::single_steps::read_in_step;
use wasm_operators::{Operator, OperatorsReader, Result, grammar_laws};

/// Reads the next operator. If operators led to the open frames, they and this one lead to the new
/// frames (law `step_keeps_path`).
pub fn read_along<'a>(operators: &mut OperatorsReader<'a>) -> Result<Operator<'a>>
    ensures { IfOk result (λ op. (before : List Operator) → LeadTo before operators.old.frames
        → LeadTo (before ++ op ∷ []) operators.new.frames) }
{
    grammar_laws::step_keeps_path::<Operator<'_>>();
    operators.read()
}

/// Reads the next operator from two readers at one place, which have read the same operators. So the
/// same frames are open (law `path_determines_frames`), and results and effects agree.
pub fn read_both<'a>(
    first: &mut OperatorsReader<'a>,
    second: &mut OperatorsReader<'a>,
) -> Result<(Operator<'a>, Operator<'a>)>
    requires { HaveReadSame first.old second.old }
    ensures same { IfOk result (λ both. both.0 ≡ both.1) }
    ensures agree { IfOk result (λ both. SameReaderAndFrames first.new second.new) }
{
    grammar_laws::path_determines_frames::<Operator<'_>>();
    read_in_step(first, second)
}
