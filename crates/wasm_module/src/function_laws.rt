ghost use Rattle.std.specs.Prelude.{◌≡◌, ◌≢◌, ◌<◌, ℕ, List, [], ◌∷◌, ◌++◌, length, Option};
ghost use Rattle.wasm_below.specs.Source.{Reader, rest, offset_of, end_of, HasRead};
ghost use Rattle.wasm_module.specs.Module.{SectionParts, EncodesSection};
ghost use Rattle.wasm_module.specs.Refusals.{SectionsFault, ModuleFunctionsFault};
ghost use Rattle.wasm_module.specs.Sections.{SectionsOccur, IsModule, IsSection};
ghost use Rattle.wasm_module.specs.declared.fault.ModuleFault.{ModuleFault};
ghost use Rattle.wasm_module.specs.ModuleFunctions.{ModuleFunctions, DescribesFunctions};

use crate::module_laws;
use wasm_below::byte_laws::{fixed_numbers, number_refusals, unsigned_numbers};

/// States that bytes determine each number's first section.
pub fn sections()
    ensures { (whole : Reader) → (id : ℕ) → (a b : Option Reader) → IsSection whole id a → IsSection whole id b → a ≡ b }
{
    unsigned_numbers();
    fixed_numbers();
}

/// States that sections and the next one are sections, and that a section is not empty.
pub fn next_section()
    ensures more { (first : Reader) (sections : List SectionParts) (mid new : Reader) (next : SectionParts)
        → SectionsOccur first sections mid → HasRead (EncodesSection mid.features) next mid new
        → end_of next.contents ≡ offset_of new → SectionsOccur first (sections ++ next ∷ []) new }
    ensures shorter { (old new : Reader) (next : SectionParts) → HasRead (EncodesSection old.features) next old new
        → length (rest new) < length (rest old) }
{}

/// States that bytes that are no module have at most one fault, and a module has none.
pub fn refusals()
    ensures one { (whole : Reader) → (a b : ModuleFault) → SectionsFault a whole → SectionsFault b whole → a ≡ b }
    ensures none { (whole : Reader) → (fault : ModuleFault) → (sections : List SectionParts) → SectionsFault fault whole → IsModule whole sections → ⊥ }
{
    unsigned_numbers();
    fixed_numbers();
    module_laws::refusals();
}

/// States that bytes determine the number of imported functions, and the type indices of the
/// functions that the module defines.
pub fn defined_functions()
    ensures { (whole : Reader) → (t u : ModuleFunctions) → DescribesFunctions whole t → DescribesFunctions whole u → (t.imported ≡ u.imported) × (t.types ≡ u.types) }
{
    unsigned_numbers();
    fixed_numbers();
    module_laws::imports();
}

/// States that besides `Memory`, bytes have at most one fault, and a module with known functions
/// none.
pub fn faults()
    ensures one { (whole : Reader) → (a b : ModuleFault) → ModuleFunctionsFault a whole → ModuleFunctionsFault b whole
        → a ≢ ModuleFault.Memory → b ≢ ModuleFault.Memory → a ≡ b }
    ensures memory { (whole : Reader) → (fault : ModuleFault) → (t : ModuleFunctions) → ModuleFunctionsFault fault whole
        → DescribesFunctions whole t → fault ≡ ModuleFault.Memory }
{
    unsigned_numbers();
    fixed_numbers();
    number_refusals();
    module_laws::refusals();
    module_laws::imports();
    module_laws::exports();
    module_laws::types();
}
