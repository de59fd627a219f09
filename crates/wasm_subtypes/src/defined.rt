ghost use Rattle.std.specs.Prelude.{◌≡◌};
ghost use Rattle.std.specs.Option.{option_map};
ghost use Rattle.std.specs.List.{slice_get};
ghost use Rattle.wasm_subtypes.specs.Types.{identity, supertype};

use wasm_types::SubType;

/// A type of a module, in its place.
#[derive(Debug, Drop)]
pub struct Defined {
    pub ty: SubType,
    /// The index of the first type of its group.
    pub first: u32,
    /// The index of the first equal type. Equal types have the same.
    pub identity: u32,
}

/// Returns the identity of the type at an index; without a type, the index.
pub fn identity(types: &[Defined], index: u32) -> u32
    ensures { result ≡ identity types.now index }
{
    match types.get(index as usize) {
        Some(defined) => defined.identity,
        None => index,
    }
}

/// Returns the index of the declared supertype of the type at an index.
pub fn supertype(types: &[Defined], index: u32) -> Option<u32>
    ensures { result ≡ supertype types.now index }
{
    match types.get(index as usize) {
        Some(defined) => defined.ty.supertype_idx,
        None => None,
    }
}
