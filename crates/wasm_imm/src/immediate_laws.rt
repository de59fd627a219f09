ghost use Rattle.std.specs.Prelude.{◌≡◌, ℕ, ◌+◌, List, ◌++◌, length, map};
ghost use Rattle.wasm_below.specs.Equality.{IsExact};
ghost use Rattle.wasm_below.specs.Source.{Reader, Takes, offset_of};
ghost use Rattle.wasm_imm.specs.Immediate.{Immediate, kind_of, EncodesImmediates};

use crate::{MemArg, Ordering, V128};
use wasm_below::WasmFeatures;

/// States that for each list of kinds, the encodings of immediates of these kinds are a prefix
/// code.
pub fn immediates(features: WasmFeatures)
    ensures { (is js : List Immediate) (a b x y : List ℕ)
        → map kind_of is ≡ map kind_of js
        → EncodesImmediates features a is
        → EncodesImmediates features b js
        → a ++ x ≡ b ++ y
        → (is ≡ js) × (a ≡ b) }
{}

/// States that after a read the reader is after the bytes that were read, with the same features.
pub fn place_after()
    ensures { (old new : Reader) (text : List ℕ) → Takes old new text
        → (offset_of new ≡ offset_of old + length text) × (new.features ≡ old.features) }
{}

pub fn equality()
    ensures argument { IsExact ⟦<MemArg as PartialEq>⟧.eq }
    ensures order { IsExact ⟦<Ordering as PartialEq>⟧.eq }
    ensures vector { IsExact ⟦<V128 as PartialEq>⟧.eq }
{}
