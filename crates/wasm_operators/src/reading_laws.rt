ghost use Rattle.std.specs.Prelude.{◌≡◌, ◌≢◌, List};
ghost use Rattle.wasm_below.specs.declared.error.Error.{Error};
ghost use Rattle.wasm_instr.specs.declared.operator.Operator.{Operator};
ghost use Rattle.wasm_decode_opcodes.specs.Allowed.{EncodesAllowed, EncodesScalar};
ghost use Rattle.wasm_operators.specs.Next.{StopsNext, all_operators, collecting, scalar_operators};
ghost use Rattle.wasm_operators.specs.Expression.{Placed};
ghost use Rattle.wasm_operators.specs.Reading.{State, SameReaderAndFrames, TakesOperator};
ghost use Rattle.wasm_operators.specs.MainTheorem.{ReadsBeginning};

use wasm_below::Message;

/// States that a failed read or visit fails again with the same error, unless allocation fails.
pub fn refused_again()
    ensures any { (d e : Error) (old mid new : State)
        → StopsNext all_operators d old mid → d.message ≢ Message.OutOfMemory
        → StopsNext all_operators e mid new → e.message ≢ Message.OutOfMemory
        → (d.message ≡ e.message) × (d.offset ≡ e.offset) }
    ensures scalar { (d e : Error) (old mid new : State)
        → StopsNext scalar_operators d old mid → d.message ≢ Message.OutOfMemory
        → StopsNext scalar_operators e mid new → e.message ≢ Message.OutOfMemory
        → (d.message ≡ e.message) × (d.offset ≡ e.offset) }
{}

/// States that repeating a failed read reads no operator, unless allocation had failed.
pub fn not_taken()
    ensures any { (e : Error) (old mid new : State) (op : Operator)
        → StopsNext all_operators e old mid → e.message ≢ Message.OutOfMemory
        → ¬ TakesOperator EncodesAllowed op mid new }
    ensures scalar { (e : Error) (old mid new : State) (op : Operator)
        → StopsNext scalar_operators e old mid → e.message ≢ Message.OutOfMemory
        → ¬ TakesOperator EncodesScalar op mid new }
{}

/// States that two reads or visits from one place with the same frames have the same result and end
/// at one place, unless allocation fails.
pub fn same_result()
    ensures taken { (op other : Operator) (old new start end : State) → SameReaderAndFrames old start
        → TakesOperator EncodesAllowed op old new → TakesOperator EncodesAllowed other start end
        → (op ≡ other) × SameReaderAndFrames new end }
    ensures refused { (d e : Error) (old new start end : State) → SameReaderAndFrames old start
        → StopsNext all_operators d old new → d.message ≢ Message.OutOfMemory
        → StopsNext all_operators e start end → e.message ≢ Message.OutOfMemory
        → (d.message ≡ e.message) × (d.offset ≡ e.offset) × SameReaderAndFrames new end }
    ensures never_both { (e : Error) (op : Operator) (old new start end : State) → SameReaderAndFrames old start
        → TakesOperator EncodesAllowed op old new → StopsNext all_operators e start end
        → e.message ≡ Message.OutOfMemory }
    ensures scalar_taken { (op other : Operator) (old new start end : State) → SameReaderAndFrames old start
        → TakesOperator EncodesScalar op old new → TakesOperator EncodesScalar other start end
        → (op ≡ other) × SameReaderAndFrames new end }
    ensures scalar_refused { (d e : Error) (old new start end : State) → SameReaderAndFrames old start
        → StopsNext scalar_operators d old new → d.message ≢ Message.OutOfMemory
        → StopsNext scalar_operators e start end → e.message ≢ Message.OutOfMemory
        → (d.message ≡ e.message) × (d.offset ≡ e.offset) × SameReaderAndFrames new end }
    ensures scalar_never_both { (e : Error) (op : Operator) (old new start end : State) → SameReaderAndFrames old start
        → TakesOperator EncodesScalar op old new → StopsNext scalar_operators e start end
        → e.message ≡ Message.OutOfMemory }
{}

/// States that if reading or visiting to the end fails, bytes and frames determine the operators,
/// the place, the open frames and the error, unless allocation fails.
pub fn one_result()
    ensures reads { (before : List Operator) (d e : Error) (old new end : State) (placed others : Placed)
        → ReadsBeginning collecting before d old new placed
        → d.message ≢ Message.OutOfMemory
        → ReadsBeginning collecting before e old end others
        → e.message ≢ Message.OutOfMemory
        → (placed ≡ others) × (end.reader ≡ new.reader) × (end.frames ≡ new.frames) × (d.message ≡ e.message)
        × (d.offset ≡ e.offset) }
    ensures visits { (before : List Operator) (d e : Error) (old new end : State) (placed others : Placed)
        → ReadsBeginning all_operators before d old new placed
        → d.message ≢ Message.OutOfMemory
        → ReadsBeginning all_operators before e old end others
        → e.message ≢ Message.OutOfMemory
        → (placed ≡ others) × (end.reader ≡ new.reader) × (end.frames ≡ new.frames) × (d.message ≡ e.message)
        × (d.offset ≡ e.offset) }
    ensures scalar { (before : List Operator) (d e : Error) (old new end : State) (placed others : Placed)
        → ReadsBeginning scalar_operators before d old new placed
        → d.message ≢ Message.OutOfMemory
        → ReadsBeginning scalar_operators before e old end others
        → e.message ≢ Message.OutOfMemory
        → (placed ≡ others) × (end.reader ≡ new.reader) × (end.frames ≡ new.frames) × (d.message ≡ e.message)
        × (d.offset ≡ e.offset) }
{}
