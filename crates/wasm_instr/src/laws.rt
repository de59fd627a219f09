ghost use Rattle.std.specs.Prelude.{◌≡◌, ◌≤◌, ◌⊎◌, ℕ, List, [], ◌∷◌, ◌++◌, Some};
ghost use Rattle.wasm_grammar.specs.declared.frame_change.FrameChange.{FrameChange};
ghost use Rattle.wasm_grammar.specs.declared.frame_kind.FrameKind.{FrameKind};
ghost use Rattle.wasm_grammar.specs.Frames.{Allows, change_of, frames_after, frames_changed, innermost};
ghost use Rattle.wasm_below.specs.declared.features.WasmFeatures.{WasmFeatures};
ghost use Rattle.wasm_below.specs.Equality.{IsExact};
ghost use Rattle.wasm_below.specs.Source.{BeginsWith};
ghost use Rattle.wasm_instr.specs.declared.operator.Operator.{Operator};
ghost use Rattle.wasm_instr.specs.Kinds.{IsTypedSelect};
ghost use Rattle.wasm_instr.specs.Row.{prefix_of, opcode_of, name_of};
ghost use Rattle.wasm_instr.specs.Encoding.{EncodesOperator};
ghost use Rattle.wasm_instr.specs.Roles.{change_at, role_of, roles_of};

use crate::Operator;
use wasm_below::WasmFeatures;

/// States that the encodings of operators are a prefix code, under one set of features.
pub fn operators(features: WasmFeatures)
    ensures { (op other : Operator) (a b x y : List ℕ)
        → EncodesOperator features a op
        → EncodesOperator features b other
        → a ++ x ≡ b ++ y
        → (op ≡ other) × (a ≡ b) }
{}

/// States that the bytes 0x0b, 0x05 and 0x00 encode `end`, `else` and `unreachable`, under every set
/// of features.
pub fn single_bytes()
    ensures ends { (f : WasmFeatures) → EncodesOperator f (0x0b ∷ []) Operator.End }
    ensures turns { (f : WasmFeatures) → EncodesOperator f (0x05 ∷ []) Operator.Else }
    ensures traps { (f : WasmFeatures) → EncodesOperator f (0x00 ∷ []) Operator.Unreachable }
{}

pub fn joined_roles()
    ensures { (first second : List Operator) → roles_of (first ++ second) ≡ roles_of first ++ roles_of second }
{}

/// States that two variants share an opcode only if they are `TypedSelect` and `TypedSelectMulti`.
pub fn shared_opcodes()
    ensures { (op other : Operator)
        → prefix_of op ≡ prefix_of other
        → opcode_of op ≡ opcode_of other
        → (name_of op ≡ name_of other) ⊎ (IsTypedSelect op × IsTypedSelect other) }
{}

/// States that the first byte of an operator determines what it does to the frames, which follow if
/// the innermost allows the operator. Operators with first bytes from 0x20 on keep the frames.
pub fn frame_changes()
    ensures bytes { (f : WasmFeatures) (op : Operator) (text : List ℕ) (byte : ℕ) → EncodesOperator f text op
        → BeginsWith byte text → change_at byte ≡ change_of (role_of op) }
    ensures frames { (op : Operator) (frames : List FrameKind) (kind : FrameKind)
        → innermost frames ≡ Some kind → Allows kind (role_of op)
        → frames_after frames (role_of op) ≡ Some (frames_changed frames (change_of (role_of op))) }
    ensures high { (byte : ℕ) → 0x20 ≤ byte → change_at byte ≡ FrameChange.Stays }
{}

pub fn equality()
    ensures { IsExact ⟦<Operator<'static> as PartialEq>⟧.eq }
{}
