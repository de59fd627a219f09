//! A compacted function is typed if and only if its input is.
ghost use Rattle.std.specs.Prelude.{◌≡◌, ◌↔◌, ℕ, List};
ghost use Rattle.wasm_below.specs.declared.features.WasmFeatures.{WasmFeatures};
ghost use Rattle.wasm_below.specs.declared.types.ValType.{ValType};
ghost use Rattle.wasm_below.specs.Source.{Reader, rest};
ghost use Rattle.wasm_check.specs.Bodies.{IsTypedBody};
ghost use Rattle.wasm_compaction.specs.Compaction.{CompactsCode, CompactsFunction};
ghost use Rattle.wasm_validation.specs.Valid.{IsTypedFunction};
ghost use Rattle.wasm_compaction_laws.specs.Sections.{IsTypedCode};
ghost use Rattle.wasm_compaction_laws.specs.Sources.{source_from};

use wasm_check::ModuleContext;

/// States that in each context, a compacted body is typed if and only if its input is, and that all
/// bodies of a compacted code section are typed if and only if all bodies of its input are. The offsets
/// of the two bodies may differ.
pub fn compaction_laws<M: ModuleContext>(context: &M)
    ensures bodies { (params results : List ValType) (f : WasmFeatures) (old new : List ℕ) (a b : ℕ) → CompactsFunction f old new
        → (IsTypedBody (M.environment context.now) params results (source_from f a old) ↔ IsTypedBody (M.environment context.now) params results (source_from f b new)) }
    ensures functions { (x : ℕ) (body again : Reader) → again.features ≡ body.features → CompactsFunction body.features (rest body) (rest again)
        → (IsTypedFunction (M.environment context.now) x body ↔ IsTypedFunction (M.environment context.now) x again) }
    ensures code { (f : WasmFeatures) (x : ℕ) (old new : List ℕ) → CompactsCode f old new
        → (IsTypedCode (M.environment context.now) f x old ↔ IsTypedCode (M.environment context.now) f x new) }
{
    context.is_well_formed();
}
