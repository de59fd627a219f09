//! Laws of the places between bodies. Each is the contract of a function that does nothing.
ghost use Rattle.std.specs.Prelude.{◌<◌, ◌++◌, ◌∷◌, [], ℕ, List, length};
ghost use Rattle.wasm_below.specs.Source.{Reader};
ghost use Rattle.wasm_module.specs.ModuleFunctions.{ModuleFunctions};
ghost use Rattle.wasm_module.specs.declared.bodies.Bodies.{Bodies};
ghost use Rattle.wasm_module.specs.declared.next.Body.{Body};
ghost use Rattle.wasm_module.specs.Bodies.{OpensBodies, TakesBody, IsAfter, IsBodyOf};

use crate::function_laws::sections;

/// States that `open_bodies` returns the place after no body. From the place after some bodies,
/// `next_body` reads the next body, of the next function.
pub fn bodies_follow()
    ensures first { (bytes : List ℕ) (c : Bodies) (opens : OpensBodies bytes c) → 0 < c.left
        → IsAfter bytes opens.functions [] [] c }
    ensures next { (bytes : List ℕ) (functions : ModuleFunctions) (bodies : List Reader) (types : List ℕ) (old new : Bodies) (body : Body)
        → IsAfter bytes functions bodies types old → TakesBody bytes old new body
        → (part : Reader) × IsAfter bytes functions (bodies ++ part ∷ []) (types ++ body.type_index ∷ []) new
        × IsBodyOf functions (length bodies) part body }
{
    sections();
}
