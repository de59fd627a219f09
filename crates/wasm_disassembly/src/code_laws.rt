//! Laws about code sections. Each is the contract of a function that does nothing.
ghost use Rattle.std.specs.Prelude.{◌≡◌, List};
ghost use Rattle.wasm_operators.specs.below.declared.error.Error.{Error};
ghost use Rattle.wasm_operators.specs.below.Source.{Reader};
ghost use Rattle.wasm_disassembly.specs.Listing.{IsCode, RefusesCode};

use wasm_operators::byte_laws::unsigned_numbers;

/// States that a code section has at most one list of bodies.
pub fn one_list()
    ensures { (contents : Reader) → (first second : List Reader) → IsCode contents first → IsCode contents second
        → first ≡ second }
{
    unsigned_numbers();
}

/// States that a code section that has a list of bodies is not in error.
pub fn no_refusal()
    ensures { (contents : Reader) → (all before : List Reader) → (e : Error) → IsCode contents all
        → RefusesCode e contents before → ⊥ }
{
    unsigned_numbers();
}
