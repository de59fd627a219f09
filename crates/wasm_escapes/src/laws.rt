//! Laws, each the contract of a function that does nothing.
ghost use Rattle.std.specs.Prelude.{ℕ, List};
ghost use Rattle.std.specs.List.{All};
ghost use Rattle.wasm_escapes.specs.Escapes.{AreBytes, IsShown, escaped};

/// States that names are shown without ASCII control characters.
pub fn shown()
    ensures { (name : List ℕ) → AreBytes name → All IsShown (escaped name) }
{}
