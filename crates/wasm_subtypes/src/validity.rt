//! Valid types of a module.
ghost use Rattle.std.specs.Prelude.{◌↔◌, IsTrue};
ghost use Rattle.std.specs.List.{slice_get};
ghost use Rattle.wasm_subtypes.specs.Types.{order_of};
ghost use Rattle.wasm_subtypes.specs.Composites.{MatchesSuper, IsValid, AreValid};

use crate::composites::composite_matches;
use crate::ranges::inner_within;
use crate::type_list::TypeList;
use wasm_types::CompositeType;

fn matches_super(types: &TypeList, ty: &CompositeType, supertype: Option<u32>) -> bool
    ensures { IsTrue result ↔ MatchesSuper types.now ty.now supertype }
{
    let Some(index) = supertype else {
        return true;
    };
    match types.get(index) {
        Some(above) => composite_matches(types, ty, &above.ty.composite_type),
        None => false,
    }
}

fn is_valid(types: &TypeList, index: usize) -> bool
    ensures { IsTrue result ↔ IsValid types.now (slice_get types.now index) }
{
    match types.at(index) {
        Some(defined) => {
            inner_within(types.len(), &defined.ty.composite_type.inner)
                && matches_super(types, &defined.ty.composite_type, defined.ty.supertype_idx)
        }
        None => true,
    }
}

/// Returns whether the types from an index on are valid.
pub fn are_valid(types: &TypeList, first: usize) -> bool
    ensures { IsTrue result ↔ AreValid types.now first }
{
    for index in first..types.len() {
        if !is_valid(types, index) {
            return false;
        }
    }
    true
}
