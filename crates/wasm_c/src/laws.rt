//! Laws of `WasmReader`: what its calls, one after another, say about the bytes.
ghost use Rattle.std.specs.Prelude.{◌≡◌, ℕ, ◌+◌, ◌/◌, ◌≤◌, List, [], ◌∷◌, ◌++◌, length};
ghost use Rattle.wasm_operators.specs.below.Features.{features_of};
ghost use Rattle.wasm_operators.specs.below.Source.{reader_of, source_of};
ghost use Rattle.wasm_operators.specs.instr.declared.operator.Operator.{Operator};
ghost use Rattle.wasm_operators.specs.Body.{EncodesBody};
ghost use Rattle.wasm_operators.specs.Expression.{Placed, EncodesExpression};
ghost use Rattle.wasm_operators.specs.Locals.{Declaration};
ghost use Rattle.wasm_operators.specs.Reading.{State, IsFresh};
ghost use Rattle.wasm_view.specs.View.{view_of};
ghost use Rattle.wasm_view.specs.declared.view.WasmOperator.{WasmOperator};
ghost use Rattle.wasm_c.specs.declared.reader.WasmReader.{WasmReader};
ghost use Rattle.wasm_c.specs.declared.refusal.WasmRefusal.{WasmRefusal};
ghost use Rattle.wasm_c.specs.Steps.{IsReader, state_at, FindsNoRoom, TakesPlain, ReadsEach, OpensExpression, OpensPlain, FinishesPlain};

use wasm_operators::{WasmFeatures, body_laws, expression_laws, run_laws};

/// States that successive calls of `wasm_next` and `wasm_read` are a list of reads.
pub fn reads_follow()
    ensures next { (bytes : List ℕ) (old new : WasmReader) (frames_old frames_new : List ℕ) (view : WasmOperator)
        → TakesPlain bytes old new frames_old frames_new view
        → (p : Operator × ℕ) × (view ≡ view_of p)
        × ReadsEach (state_at bytes old frames_old) (p ∷ []) (state_at bytes new frames_new) }
    ensures joined { (old mid new : State) (first second : Placed) → ReadsEach old first mid → ReadsEach mid second new
        → ReadsEach old (first ++ second) new }
{}

/// States that if `wasm_open` and `wasm_finish` return 0, the operators read between them are those
/// of the expression that the bytes encode. By the law `one_expression` there is no other.
pub fn whole_expression()
    ensures { (opening end : WasmRefusal) (bytes : List ℕ) (offset features : ℕ) (before opened last : WasmReader)
        (frames_before frames_opened frames_last : List ℕ) (placed : Placed)
        → OpensExpression opening bytes offset features before opened frames_before frames_opened → opening.number ≡ 0
        → ReadsEach (state_at bytes opened frames_opened) placed (state_at bytes last frames_last)
        → FinishesPlain end bytes last frames_last → end.number ≡ 0
        → EncodesExpression (source_of (reader_of (features_of features) offset bytes)) placed }
{
    run_laws::fresh_readers();
    run_laws::single_reads();
    run_laws::read_to_the_end();
}

/// States that if `wasm_open_body` and `wasm_finish` return 0, the bytes encode a body with the
/// operators that were read between the two calls.
pub fn whole_body()
    ensures { (opening end : WasmRefusal) (bytes : List ℕ) (offset features : ℕ) (before opened last : WasmReader)
        (frames_before frames_opened frames_last : List ℕ) (placed : Placed)
        → OpensPlain opening bytes offset features before opened frames_before frames_opened → opening.number ≡ 0
        → ReadsEach (state_at bytes opened frames_opened) placed (state_at bytes last frames_last)
        → FinishesPlain end bytes last frames_last → end.number ≡ 0
        → (declarations : List Declaration)
        × EncodesBody (source_of (reader_of (features_of features) offset bytes)) declarations placed }
{
    body_laws::past_locals();
    run_laws::fresh_readers();
    run_laws::single_reads();
    run_laws::read_to_the_end();
}

/// States that no read returns 102 if the array holds as many frames as `wasm_frames_needed`
/// returns.
pub fn always_room(features: WasmFeatures)
    ensures { (bytes : List ℕ) (opened now : WasmReader) (frames_opened frames_now : List ℕ) (placed : Placed)
        → IsFresh (state_at bytes opened frames_opened)
        → ReadsEach (state_at bytes opened frames_opened) placed (state_at bytes now frames_now)
        → IsReader bytes (length frames_now) now → features_of now.features ≡ features
        → length bytes / 2 + 1 ≤ length frames_now → ¬ FindsNoRoom (state_at bytes now frames_now) }
{
    run_laws::one_depth();
    expression_laws::frames_opened(features);
}
