//! Matching of value types and composite types of a module.
ghost use Rattle.std.specs.Prelude.{◌↔◌, IsTrue};
ghost use Rattle.wasm_subtypes.specs.Types.{order_of};
ghost use Rattle.wasm_subtypes.specs.Composites.{ValueMatches, CompositeMatches};

use crate::composites;
use crate::types::Types;
use wasm_below::ValType;
use wasm_types::CompositeType;

/// Returns whether a value type matches another. Specification: Matching, Value Types.
pub fn value_matches(types: &Types, ty: ValType, wanted: ValType) -> bool
    ensures { IsTrue result ↔ ValueMatches (order_of types.now) ty wanted }
{
    composites::value_matches(types.list(), ty, wanted)
}

/// Returns whether a composite type matches another. Specification: Matching, Composite Types.
pub fn composite_matches(types: &Types, ty: &CompositeType, wanted: &CompositeType) -> bool
    ensures { IsTrue result ↔ CompositeMatches (order_of types.now) ty.now wanted.now }
{
    composites::composite_matches(types.list(), ty, wanted)
}
