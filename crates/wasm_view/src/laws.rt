ghost use Rattle.std.specs.Prelude.{◌≡◌, ◌<◌, ◌≤◌, ℕ, List, [], ◌∷◌, ◌++◌, length, set};
ghost use Rattle.wasm_instr.specs.declared.operator.Operator.{Operator};
ghost use Rattle.wasm_instr.specs.Row.{name_of};
ghost use Rattle.wasm_view.specs.Determined.{IsWhole};
ghost use Rattle.wasm_view.specs.Lists.{written};
ghost use Rattle.wasm_view.specs.Names.{name_at};
ghost use Rattle.wasm_view.specs.View.{view_of};

/// States that equal C structs have operators of the same name and offset, and equal operators if
/// these carry no list.
pub fn one_operator()
    ensures named { (op other : Operator) (offset at : ℕ) → view_of (op, offset) ≡ view_of (other, at)
        → (name_of op ≡ name_of other) × (offset ≡ at) }
    ensures whole { (op other : Operator) (offset at : ℕ) → IsWhole op → IsWhole other
        → view_of (op, offset) ≡ view_of (other, at) → (op ≡ other) × (offset ≡ at) }
{}

/// States that opcode and shape determine the operator's name.
pub fn names()
    ensures { (op : Operator) (offset : ℕ) → name_at (view_of (op, offset)).opcode (view_of (op, offset)).shape ≡ name_of op }
{}

/// States what `written` gives for no members, and for one more, which fits or does not.
pub fn written_members<T>()
    ensures none { (old : List T) → written [] old ≡ old }
    ensures long { (members old : List T) → length (written members old) ≡ length old }
    ensures fits { (members old : List T) (member : T) → length members < length old
        → set (written members old) (length members) member ≡ written (members ++ member ∷ []) old }
    ensures full { (members old : List T) (member : T) → length old ≤ length members
        → written members old ≡ written (members ++ member ∷ []) old }
{}
