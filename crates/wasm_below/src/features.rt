ghost use Rattle.std.specs.Prelude.{◌≡◌, ◌<◌, ⊤, [], ◌∷◌, codes, IsTrue, SomeIff, ◌↔◌};
ghost use Rattle.wasm_below.specs.Features.{HasFeature, all_features, features_of};

use bitflags::{Flag, Flags, bitflag_items};

/// A set of proposals that change what is read (`docs/ERRORS-AND-FEATURES.md`).
#[derive(Clone, Copy, Debug, PartialEq, Eq)]
pub struct WasmFeatures(u32);

bitflag_items! {
    impl WasmFeatures: u32 {
        const MULTI_MEMORY = 1;
        const MEMORY64 = 2;
        const CALL_INDIRECT_OVERLONG = 4;
        const LEGACY_EXCEPTIONS = 8;
        const ACQUIRE_RELEASE_ATOMICS = 16;
        const MULTIBYTE_ARRAY_ACCESS = 32;
    }
}

impl Flags for WasmFeatures {
    type Bits = u32;

    ghost exact = { ⊤ };

    ghost table = { (codes "MULTI_MEMORY", 1)
        ∷ (codes "MEMORY64", 2)
        ∷ (codes "CALL_INDIRECT_OVERLONG", 4)
        ∷ (codes "LEGACY_EXCEPTIONS", 8)
        ∷ (codes "ACQUIRE_RELEASE_ATOMICS", 16)
        ∷ (codes "MULTIBYTE_ARRAY_ACCESS", 32)
        ∷ [] };

    ghost set_of = { λ features. features.0 };

    fn flags<'a>() -> &'a [Flag<WasmFeatures>] {
        WasmFeatures::FLAGS
    }

    fn bits(&self) -> u32 {
        self.0
    }

    fn from_bits_retain(bits: u32) -> WasmFeatures {
        WasmFeatures(bits)
    }
}

impl WasmFeatures {
    pub fn all() -> WasmFeatures
        ensures { result ≡ all_features }
    {
        WasmFeatures(63)
    }

    pub fn empty() -> WasmFeatures
        ensures { result ≡ features_of 0 }
    {
        WasmFeatures(0)
    }

    /// Returns the features with these bits, or `None` if a bit is of no feature.
    pub fn from_bits(bits: u32) -> Option<WasmFeatures>
        ensures { SomeIff result (bits < 64) (features_of bits) }
    {
        if bits < 64 {
            Some(WasmFeatures(bits))
        } else {
            None
        }
    }

    #[inline(always)]
    pub fn contains(&self, other: WasmFeatures) -> bool
        ensures { IsTrue result ↔ HasFeature other self.now }
    {
        Flags::contains(self, other)
    }
}
