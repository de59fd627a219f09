ghost use Rattle.std.specs.Prelude.{◌≡◌};
ghost use Rattle.wasm_details.specs.Places.{after_index, after_one};
ghost use Rattle.wasm_details.specs.Module.{none_imported};

/// The numbers of things that a module imports.
#[derive(Clone, Copy)]
pub struct Imported {
    pub functions: u32,
    pub tables: u32,
    pub memories: u32,
    pub globals: u32,
    pub tags: u32,
}

impl Imported {
    /// Returns that nothing is imported.
    pub fn none() -> Imported
        ensures { result ≡ none_imported }
    {
        Imported {
            functions: 0,
            tables: 0,
            memories: 0,
            globals: 0,
            tags: 0,
        }
    }
}

/// Where an item is: its index, the address of the segment before it, and what is imported before
/// it.
#[derive(Clone, Copy)]
pub struct Place {
    pub next: u32,
    /// The address of the last segment with a constant one; 0 without such a segment.
    pub address: u64,
    pub imported: Imported,
}

/// Returns the index after this one, or 4294967295.
pub fn after_index(index: u32) -> u32
    ensures { result ≡ after_index index }
{
    index.saturating_add(1)
}

/// Returns the place after one item.
pub fn after_one(place: Place) -> Place
    ensures { result ≡ after_one place }
{
    Place {
        next: after_index(place.next),
        address: place.address,
        imported: place.imported,
    }
}
