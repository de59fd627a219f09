ghost use Rattle.std.specs.Prelude.{◌≡◌, [], ◌∷◌, ◌++◌, ◌+◌, List, Err};
ghost use Rattle.wasm_below.specs.declared.error.Error.{Error};
ghost use Rattle.wasm_below.specs.Source.{rest, source_of};
ghost use Rattle.wasm_instr.specs.declared.operator.Operator.{Operator};
ghost use Rattle.wasm_decode_opcodes.specs.Allowed.{EncodesAllowed, EncodesScalar};
ghost use Rattle.wasm_operators.specs.Expression.{Placed, EncodesRest};
ghost use Rattle.wasm_operators.specs.Next.{all_operators, collecting};
ghost use Rattle.wasm_operators.specs.Reading.{State, IsFresh, IsUnchanged, TakesOperator, TakesOperators, Finishes, FramesLeft, StopsRead, StopsRun};
ghost use Rattle.wasm_operators.specs.Laws.{TakesNone, TakesOneMore, TakesNoMore, TakesBoth, TakesBytes, AddsFewFrames, MemoryAddsUp};
ghost use Rattle.wasm_operators.specs.MainTheorem.{ReadSoFar, ReadsTree, ReadsBeginning, IsWithinDepth};

use wasm_below::Message;

/// States that no operator was read before a new reader.
pub fn fresh_readers()
    ensures { (s : State) → IsFresh s → ReadSoFar [] s }
{}

/// States that a read or visit adds its operator to `ReadSoFar`. So the clauses of drivers apply
/// after single reads and visits.
pub fn one_operator()
    ensures any { (before : List Operator) (op : Operator) (old new : State)
        → TakesOperator EncodesAllowed op old new → ReadSoFar before old → ReadSoFar (before ++ op ∷ []) new }
    ensures scalar { (before : List Operator) (op : Operator) (old new : State)
        → TakesOperator EncodesScalar op old new → ReadSoFar before old → ReadSoFar (before ++ op ∷ []) new }
    ensures refused { (before : List Operator) (old new : State)
        → IsUnchanged old new → ReadSoFar before old → ReadSoFar before new }
{}

/// States that a read consumes at least two bytes for each frame that it adds.
pub fn one_depth()
    ensures any { AddsFewFrames }
    ensures scalar { (op : Operator) (old new : State) → TakesOperator EncodesScalar op old new
        → IsWithinDepth old new }
{}

/// States that the bound on the frames' memory holds over two runs, one after the other.
pub fn memory_adds_up()
    ensures { MemoryAddsUp }
{}

/// States that single reads, one after another, read a list. Each appends its operator and consumes
/// at least one byte; an error appends none.
pub fn single_reads()
    ensures first { TakesNone }
    ensures next { TakesOneMore }
    ensures refused { TakesNoMore }
    ensures joined { TakesBoth }
    ensures progress { TakesBytes }
{}

/// States that single reads to the end or to an error read what `read_all` reads. At the end of the
/// data, `finish` fails only for open frames.
pub fn read_to_the_end()
    ensures tree { (before : List Operator) (old new : State) (placed : Placed) → ReadSoFar before old
        → TakesOperators old new placed → new.frames ≡ [] → rest new.reader ≡ [] → ReadsTree before old new placed }
    ensures beginning { (before : List Operator) (e : Error) (old new : State) (placed : Placed) → ReadSoFar before old
        → TakesOperators old new placed → StopsRun collecting e new → ReadsBeginning collecting before e old new placed }
    ensures only { (before : List Operator) (e : Error) (old new : State) (placed whole : Placed)
        → ReadSoFar before old → TakesOperators old new placed → StopsRun collecting e new
        → EncodesRest before (source_of old.reader) whole → e.message ≡ Message.OutOfMemory }
    // A failed read stops as the clauses above assume.
    ensures refused { (e : Error) (s : State) → StopsRead all_operators e s → StopsRead collecting e s }
    ensures finished { (e : Error) (s : State) → rest s.reader ≡ [] → Finishes {X = Unit {0}} (Err e) s → FramesLeft e s }
{}
