ghost use Rattle.std.specs.Prelude.{◌≡◌, ◌↔◌, ◌*◌, ◌<◌, ◌≤◌, ℕ, List, [], ◌∷◌, ◌++◌, ◌+◌, length};
ghost use Rattle.wasm_below.specs.Source.{Source, Reader, source_of, offset_of, Takes, BeginsWith};
ghost use Rattle.wasm_grammar.specs.declared.frame_kind.FrameKind.{FrameKind};
ghost use Rattle.wasm_grammar.specs.Frames.{OpensFrame};
ghost use Rattle.wasm_instr.specs.declared.operator.Operator.{Operator};
ghost use Rattle.wasm_instr.specs.Encoding.{EncodesOperator};
ghost use Rattle.wasm_instr.specs.Kinds.{IsSimd};
ghost use Rattle.wasm_instr.specs.Roles.{change_at};
ghost use Rattle.wasm_operators.specs.Expression.{Placed, LaidOut, EndsAt, AreEncoded, EncodesRest, EncodesExpression, IsBeginningOf, IsPrefixAfter, Longest, IsLongestAfter, IsLongestBeginning};
ghost use Rattle.wasm_operators.specs.Flat.{IsAllowedFrom, IsFlatFrom, IsFlatBeginning};
ghost use Rattle.wasm_operators.specs.Laws.{IsNoLonger, HasEncodings, LaysOutBoth, BeginsLonger};
ghost use Rattle.wasm_operators.specs.MainTheorem.{ReadSoFar, ClosesFrom};
ghost use Rattle.wasm_operators.specs.Openings.{opened_by};
ghost use Rattle.wasm_operators.specs.Reading.{State};
ghost use Rattle.wasm_operators.specs.Visiting.{scalar_beginning, IsScalar};

use wasm_below::WasmFeatures;

/// States that if bytes start with two lists, the shorter list is a prefix of the longer.
pub fn one_layout(features: WasmFeatures)
    ensures beginning { BeginsLonger features }
    ensures same { (offset : ℕ) (first second : Placed) (a b x y : List ℕ)
        → LaidOut features offset a first → LaidOut features offset b second
        → a ++ x ≡ b ++ y → length first ≡ length second
        → (first ≡ second) × (a ≡ b) × (x ≡ y) }
{}

/// States that a list is at most as long as its encoding, and that its operators have encodings.
/// The encodings of joined lists are their joined encodings.
pub fn layouts(features: WasmFeatures)
    ensures length { IsNoLonger features }
    ensures encoded { HasEncodings features }
    ensures parts { (offset : ℕ) (first second : Placed) (bytes : List ℕ) → LaidOut features offset bytes (first ++ second)
        → (a b : List ℕ) × (bytes ≡ a ++ b) × LaidOut features offset a first × LaidOut features (offset + length a) b second }
    ensures joined { LaysOutBoth features }
{}

/// States that each operator of a list ends where the next starts, and the last where the bytes end
/// and the reader is.
pub fn ranges(features: WasmFeatures)
    ensures next { (offset : ℕ) (before after : Placed) (p q : Operator × ℕ) (bytes : List ℕ)
        → LaidOut features offset bytes (before ++ p ∷ q ∷ after) → EndsAt features p q.1 }
    ensures last { (offset : ℕ) (before : Placed) (p : Operator × ℕ) (bytes : List ℕ)
        → LaidOut features offset bytes (before ++ p ∷ []) → EndsAt features p (offset + length bytes) }
    ensures read { (old new : Reader) (before : Placed) (p : Operator × ℕ) (text : List ℕ) → Takes old new text
        → LaidOut old.features (offset_of old) text (before ++ p ∷ []) → EndsAt old.features p (offset_of new) }
{}

/// States that no encoding of an expression is a proper prefix of another, and each encodes one
/// list.
pub fn one_expression(features: WasmFeatures)
    ensures { (offset : ℕ) (first second : Placed) (a b x y : List ℕ)
        → EncodesExpression (record { features = features; offset = offset; bytes = a }) first
        → EncodesExpression (record { features = features; offset = offset; bytes = b }) second
        → a ++ x ≡ b ++ y → (first ≡ second) × (a ≡ b) }
{}

/// States that bytes have at most one longest list that begins an expression.
pub fn one_longest_beginning()
    ensures { (s : Source) (first second : Placed)
        → IsLongestBeginning s first → IsLongestBeginning s second → first ≡ second }
{}

/// States that it is impossible that no longest list exists, with or without SIMD operators, by
/// trees or by frames. Drivers find it.
pub fn longest_exists()
    ensures any { (before : List Operator) (s : State) → ReadSoFar before s
        → ¬ ((placed : Placed) → ¬ IsLongestAfter before (source_of s.reader) placed) }
    ensures scalar { (before : List Operator) (s : State) → ReadSoFar before s
        → ¬ ((placed : Placed) → ¬ Longest (IsPrefixAfter before (source_of s.reader)) IsScalar placed) }
    ensures flat { (frames : List FrameKind) (s : Source) → ¬ ((placed : Placed) → ¬ IsFlatFrom frames s placed) }
    ensures scalar_flat { (frames : List FrameKind) (s : Source)
        → ¬ ((placed : Placed) → ¬ Longest (IsAllowedFrom frames s) IsScalar placed) }
{}

/// States that if all bytes encode the rest of an expression, their operators are the longest list.
pub fn whole_is_longest()
    ensures { (before : List Operator) (s : Source) (whole : Placed)
        → AreEncoded s.features before → EncodesRest before s whole → IsLongestAfter before s whole }
{}

/// States that the longest list by trees is the longest by frames.
pub fn flat_beginnings()
    ensures { (s : Source) (placed : Placed) → IsFlatBeginning s placed ↔ IsLongestBeginning s placed }
{}

/// States that `scalar_beginning` is the longest prefix without SIMD operators.
pub fn scalar_beginnings()
    ensures beginning { (placed : Placed) → IsBeginningOf (scalar_beginning placed) placed }
    ensures none { (placed before after : Placed) (op : Operator) (at : ℕ)
        → scalar_beginning placed ≡ before ++ (op, at) ∷ after → ¬ IsSimd op }
    ensures longest { (placed others : Placed)
        → IsBeginningOf others placed → IsScalar others → IsBeginningOf others (scalar_beginning placed) }
{}

/// States that the longest list without SIMD operators is the scalar prefix of the longest list, by
/// trees and by frames. It is a whole expression if and only if the longest list is one and scalar.
pub fn scalar_longest()
    ensures exactly { (before : List Operator) (s : Source) (longest placed : Placed) → IsLongestAfter before s longest
        → Longest (IsPrefixAfter before s) IsScalar placed ↔ (placed ≡ scalar_beginning longest) }
    ensures part { (before : List Operator) (s : Source) (longest placed : Placed) → IsLongestAfter before s longest
        → IsPrefixAfter before s placed → IsScalar placed → IsBeginningOf placed (scalar_beginning longest) }
    ensures flat { (frames : List FrameKind) (s : Source) (flat : Placed) → IsFlatFrom frames s flat
        → Longest (IsAllowedFrom frames s) IsScalar (scalar_beginning flat) }
    ensures closes { (frames : List FrameKind) (s : Source) (flat : Placed) → IsFlatFrom frames s flat
        → ClosesFrom frames s (scalar_beginning flat) ↔ (ClosesFrom frames s flat × IsScalar flat) }
{}

/// States that an operator that opens a frame has at least two bytes, and the opcode of `block`,
/// `loop`, `if`, `try` or `try_table`.
pub fn frames_opened(features: WasmFeatures)
    ensures half { (op : Operator) (text : List ℕ) → EncodesOperator features text op → 2 * opened_by op ≤ length text }
    ensures leads { (op : Operator) (text : List ℕ) → EncodesOperator features text op
        → 0 < opened_by op → (byte : ℕ) × BeginsWith byte text × OpensFrame (change_at byte) }
    ensures opens { (op : Operator) (text : List ℕ) (byte : ℕ) → EncodesOperator features text op
        → BeginsWith byte text → OpensFrame (change_at byte) → opened_by op ≡ 1 }
{}
