//! Laws of typing. `T` is what operators carry. `IsOrder` holds of the types of every valid module.
ghost use Rattle.std.specs.Prelude.{◌↔◌, ◌≡◌, true, false, List, [], ◌∷◌, ◌++◌, Some, None, ℕ};
ghost use Rattle.std.specs.Option.{option_and_then};
ghost use Rattle.wasm_grammar.specs.Role.{Role};
ghost use Rattle.wasm_grammar.specs.declared.frame_kind.FrameKind.{FrameKind};
ghost use Rattle.wasm_grammar.specs.Frames.{frames_along};
ghost use Rattle.wasm_grammar.specs.Tree.{Expression, Instructions, walk};
ghost use Rattle.wasm_typing.specs.declared.value_type.Heap.{Heap};
ghost use Rattle.wasm_typing.specs.declared.value_type.ValueType.{ValueType};
ghost use Rattle.wasm_typing.specs.Types.{Stack};
ghost use Rattle.wasm_typing.specs.Matching.{TypeOrder, IsOrder, HeapMatches, heap_matches, Matches, matches};
ghost use Rattle.wasm_typing.specs.Rules.{Context, order_of};
ghost use Rattle.wasm_typing.specs.Typing.{AllTyped, ExpressionTyped};
ghost use Rattle.wasm_typing.specs.Checking.{State, state, Holds, run_all};
ghost use Rattle.wasm_typing.specs.Steps.{Frame, kinds, steps, started, IsJump, Accepts, Continues, BeginsNone};

/// States that the tests of matching decide it.
pub fn matching_is_decided()
    ensures heap { (O : TypeOrder) → IsOrder O → (h g : Heap) → (heap_matches O h g ≡ true ↔ HeapMatches O h g) }
    ensures value { (O : TypeOrder) → IsOrder O → (v w : ValueType) → (matches O v w ≡ true ↔ Matches O v w) }
{}

/// States that the algorithm accepts operators if and only if they are an expression that is typed.
pub fn accepts_what_is_typed<T>()
    ensures { (C : Context T) (results : Stack) (roles : List (Role T)) → IsOrder (order_of C) →
        (Accepts C results roles ↔ ((tree : Expression T) × (roles ≡ walk tree) × ExpressionTyped C tree results)) }
{}

/// States that an operator after which the algorithm fails is the first after which no typed
/// expression continues.
pub fn refuses_at_once<T>()
    ensures refuses { (C : Context T) (results : Stack) (roles : List (Role T)) → IsOrder (order_of C) →
        steps C (started results) roles ≡ None → BeginsNone C results roles }
    ensures goes_on { (C : Context T) (op : T) → IsJump C op →
        (results : Stack) (roles : List (Role T)) (frames : List Frame) →
        steps C (started results) roles ≡ Some frames → Continues C op results roles }
{}

/// States that the algorithm has the frames open that the grammar has.
pub fn same_frames<T>()
    ensures { (C : Context T) (results : Stack) (roles : List (Role T)) (frames : List Frame) →
        steps C (started results) roles ≡ Some frames → frames_along (FrameKind.Block ∷ []) roles ≡ Some (kinds frames) }
{}

/// States that operators are checked one after another.
pub fn steps_on<T>()
    ensures { (C : Context T) (frames : List Frame) (first second : List (Role T)) →
        steps C frames (first ++ second) ≡ option_and_then (λ next. steps C next second) (steps C frames first) }
{}

/// States which operands instructions leave: those that the state of the algorithm holds. No
/// others, whatever typing is chosen.
pub fn principal_results<T>()
    ensures runs { (C : Context T) (set : List ℕ) (tree : Instructions T) (takes leaves : Stack) (xs : List ℕ) → IsOrder (order_of C) →
        AllTyped C set tree takes xs leaves →
        ((next : State) × (run_all C tree (state takes false set) ≡ Some next)) }
    ensures results { (C : Context T) (set : List ℕ) (tree : Instructions T) (takes leaves : Stack) (next : State) → IsOrder (order_of C) →
        run_all C tree (state takes false set) ≡ Some next →
        (((xs : List ℕ) × AllTyped C set tree takes xs leaves) ↔ Holds (order_of C) next.operands next.unreachable leaves) }
{}

/// States that instructions that end in unreachable code also leave any operands below.
pub fn unreachable_code<T>()
    ensures { (C : Context T) (set : List ℕ) (tree : Instructions T) (takes leaves below : Stack) (next : State) (xs : List ℕ) → IsOrder (order_of C) →
        run_all C tree (state takes false set) ≡ Some next → next.unreachable ≡ true →
        AllTyped C set tree takes xs leaves →
        ((ys : List ℕ) × AllTyped C set tree takes ys (leaves ++ below)) }
{}
