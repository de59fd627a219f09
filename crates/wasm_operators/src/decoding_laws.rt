ghost use Rattle.std.specs.Prelude.{◌≡◌, ◌≢◌, ◌↔◌, ◌+◌, ℕ, []};
ghost use Rattle.wasm_below.specs.declared.error.Error.{Error};
ghost use Rattle.wasm_below.specs.Refusal.{IsReadFault};
ghost use Rattle.wasm_below.specs.Source.{Reader, rest, offset_of, BeginsWith};
ghost use Rattle.wasm_grammar.specs.Frames.{Allows};
ghost use Rattle.wasm_instr.specs.declared.operator.Operator.{Operator};
ghost use Rattle.wasm_decode_opcodes.specs.Allowed.{EncodesAllowed, EncodesScalar};
ghost use Rattle.wasm_decode_opcodes.specs.declared.guard.Guard.{Guard};
ghost use Rattle.wasm_decode_opcodes.specs.Entry.{guarded_role, guarded_instruction, needed_frame};
ghost use Rattle.wasm_decode_opcodes.specs.OperatorFaults.{LacksFeature, OperatorFault, ScalarOperatorFault};
ghost use Rattle.wasm_operators.specs.Guarded.{BeginsGuarded, NextLacksFeature, NextIsMisplaced};
ghost use Rattle.wasm_operators.specs.Next.{NextMayAllocate, StopsNext, all_operators, collecting, scalar_operators};
ghost use Rattle.wasm_operators.specs.Reading.{State, StopsRead, StopsRun, TakesOperator};

use wasm_below::{FrameName, InstructionName, Message, WasmFeatures};
use wasm_grammar::FrameKind;

/// States that `OperatorFault` and `ScalarOperatorFault` exclude E3, E8 to E11, E23 and E25.
pub fn refusal_messages(features: WasmFeatures, frame: FrameKind)
    ensures any { (m : Message) (r : Reader) (offset : ℕ) → OperatorFault features frame m r offset → IsReadFault m }
    ensures scalar { (m : Message) (r : Reader) (offset : ℕ) → ScalarOperatorFault features frame m r offset
        → IsReadFault m }
{}

/// States that only at the byte 0xfd a visitor without SIMD operators has another error.
pub fn simd_refusals(features: WasmFeatures, frame: FrameKind)
    ensures there { (m : Message) (r : Reader) (offset : ℕ) → ScalarOperatorFault features frame m r offset
        → BeginsWith 0xfd (rest r) → m ≡ Message.UnexpectedSimd }
    ensures elsewhere { (m : Message) (r : Reader) (offset : ℕ) → ScalarOperatorFault features frame m r offset
        → ¬ BeginsWith 0xfd (rest r) → OperatorFault features frame m r offset }
{}

/// States that `FeatureRequired`, at the opcode, is the error in this frame if and only if the next
/// operator is `try`, `catch` or `catch_all` without its feature.
pub fn features_required(features: WasmFeatures, frame: FrameKind)
    ensures only { (name : InstructionName) (r : Reader) (offset : ℕ)
        → OperatorFault features frame (Message.FeatureRequired name) r offset
        → (g : Guard) × BeginsGuarded g r × LacksFeature features g × (name ≡ guarded_instruction g) × (offset ≡ offset_of r) }
    ensures comes { (g : Guard) (r : Reader) → BeginsGuarded g r → LacksFeature features g
        → OperatorFault features frame (Message.FeatureRequired (guarded_instruction g)) r (offset_of r) }
{}

/// States that `WrongFrame`, after the opcode, is the error in this frame if and only if the next
/// operator is `else`, `catch`, `catch_all` or `delegate` with its feature, and this frame does not
/// allow it.
pub fn wrong_frames(features: WasmFeatures, frame: FrameKind)
    ensures only { (name : InstructionName) (needed : FrameName) (r : Reader) (offset : ℕ)
        → OperatorFault features frame (Message.WrongFrame name needed) r offset
        → (g : Guard) × BeginsGuarded g r × (¬ LacksFeature features g) × (¬ Allows frame (guarded_role g))
        × (name ≡ guarded_instruction g) × (needed ≡ needed_frame g) × (offset ≡ offset_of r + 1) }
    ensures comes { (g : Guard) (r : Reader) → BeginsGuarded g r → ¬ LacksFeature features g → ¬ Allows frame (guarded_role g)
        → OperatorFault features frame (Message.WrongFrame (guarded_instruction g) (needed_frame g)) r (offset_of r + 1) }
{}

/// States when a read or visit fails with `FeatureRequired`, at the opcode: if and only if, in an
/// open frame, `try`, `catch` or `catch_all` is next without its feature. Such an operator is never
/// read.
pub fn reads_lacking_feature()
    ensures only { (e : Error) (old new : State) (name : InstructionName) → StopsNext all_operators e old new
        → e.message ≡ Message.FeatureRequired name
        → (g : Guard) × NextLacksFeature g old × (name ≡ guarded_instruction g) × (e.offset ≡ offset_of old.reader) }
    ensures comes { (e : Error) (old new : State) (g : Guard) → StopsNext all_operators e old new
        → e.message ≢ Message.OutOfMemory → NextLacksFeature g old
        → (e.message ≡ Message.FeatureRequired (guarded_instruction g)) × (e.offset ≡ offset_of old.reader) }
    ensures never_read { (op : Operator) (old new : State) (g : Guard) → TakesOperator EncodesAllowed op old new
        → ¬ NextLacksFeature g old }
    ensures scalar_only { (e : Error) (old new : State) (name : InstructionName) → StopsNext scalar_operators e old new
        → e.message ≡ Message.FeatureRequired name
        → (g : Guard) × NextLacksFeature g old × (name ≡ guarded_instruction g) × (e.offset ≡ offset_of old.reader) }
    ensures scalar_comes { (e : Error) (old new : State) (g : Guard) → StopsNext scalar_operators e old new
        → e.message ≢ Message.OutOfMemory → NextLacksFeature g old
        → (e.message ≡ Message.FeatureRequired (guarded_instruction g)) × (e.offset ≡ offset_of old.reader) }
    ensures scalar_never_read { (op : Operator) (old new : State) (g : Guard) → TakesOperator EncodesScalar op old new
        → ¬ NextLacksFeature g old }
{}

/// States when a read or visit fails with `WrongFrame`, after the opcode: if and only if `else`,
/// `catch`, `catch_all` or `delegate` is next, with its feature, and the innermost frame does not
/// allow it. Such an operator is never read.
pub fn reads_in_wrong_frame()
    ensures only { (e : Error) (old new : State) (name : InstructionName) (needed : FrameName)
        → StopsNext all_operators e old new → e.message ≡ Message.WrongFrame name needed
        → (g : Guard) × NextIsMisplaced g old × (name ≡ guarded_instruction g) × (needed ≡ needed_frame g)
        × (e.offset ≡ offset_of old.reader + 1) }
    ensures comes { (e : Error) (old new : State) (g : Guard) → StopsNext all_operators e old new
        → e.message ≢ Message.OutOfMemory → NextIsMisplaced g old
        → (e.message ≡ Message.WrongFrame (guarded_instruction g) (needed_frame g))
        × (e.offset ≡ offset_of old.reader + 1) }
    ensures never_read { (op : Operator) (old new : State) (g : Guard) → TakesOperator EncodesAllowed op old new
        → ¬ NextIsMisplaced g old }
    ensures scalar_only { (e : Error) (old new : State) (name : InstructionName) (needed : FrameName)
        → StopsNext scalar_operators e old new → e.message ≡ Message.WrongFrame name needed
        → (g : Guard) × NextIsMisplaced g old × (name ≡ guarded_instruction g) × (needed ≡ needed_frame g)
        × (e.offset ≡ offset_of old.reader + 1) }
    ensures scalar_comes { (e : Error) (old new : State) (g : Guard) → StopsNext scalar_operators e old new
        → e.message ≢ Message.OutOfMemory → NextIsMisplaced g old
        → (e.message ≡ Message.WrongFrame (guarded_instruction g) (needed_frame g))
        × (e.offset ≡ offset_of old.reader + 1) }
    ensures scalar_never_read { (op : Operator) (old new : State) (g : Guard) → TakesOperator EncodesScalar op old new
        → ¬ NextIsMisplaced g old }
{}

/// States that an error of reading to the end, except `OutOfMemory`, is `OperatorsRemaining` if no
/// frame is open. It is `FramesRemain` if one is and all data was read, otherwise neither.
pub fn run_messages()
    ensures closed { (e : Error) (s : State) → StopsRun collecting e s
        → (e.message ≡ Message.OutOfMemory → ⊥) → (e.message ≡ Message.OperatorsRemaining) ↔ (s.frames ≡ []) }
    ensures left { (e : Error) (s : State) → StopsRun collecting e s
        → (e.message ≡ Message.FramesRemain) ↔ ((rest s.reader ≡ []) × (s.frames ≡ [] → ⊥)) }
    ensures visits_closed { (e : Error) (s : State) → StopsRun all_operators e s
        → (e.message ≡ Message.OutOfMemory → ⊥) → (e.message ≡ Message.OperatorsRemaining) ↔ (s.frames ≡ []) }
    ensures visits_left { (e : Error) (s : State) → StopsRun all_operators e s
        → (e.message ≡ Message.FramesRemain) ↔ ((rest s.reader ≡ []) × (s.frames ≡ [] → ⊥)) }
    ensures scalar_closed { (e : Error) (s : State) → StopsRun scalar_operators e s
        → (e.message ≡ Message.OutOfMemory → ⊥) → (e.message ≡ Message.OperatorsRemaining) ↔ (s.frames ≡ []) }
    ensures scalar_left { (e : Error) (s : State) → StopsRun scalar_operators e s
        → (e.message ≡ Message.FramesRemain) ↔ ((rest s.reader ≡ []) × (s.frames ≡ [] → ⊥)) }
{}

/// States that allocation fails only if the next operator may own a list, or opens a frame without
/// capacity.
pub fn memory_asked()
    ensures read { (e : Error) (s : State) → StopsRead all_operators e s
        → e.message ≡ Message.OutOfMemory → NextMayAllocate EncodesAllowed s }
    ensures scalar_read { (e : Error) (s : State) → StopsRead scalar_operators e s
        → e.message ≡ Message.OutOfMemory → NextMayAllocate EncodesScalar s }
    ensures visits { (e : Error) (s : State) → StopsRun all_operators e s
        → e.message ≡ Message.OutOfMemory → NextMayAllocate EncodesAllowed s }
    ensures scalar_visits { (e : Error) (s : State) → StopsRun scalar_operators e s
        → e.message ≡ Message.OutOfMemory → NextMayAllocate EncodesScalar s }
{}
