//! Custom sections, by their names.
ghost use Rattle.std.specs.Prelude.{◌≡◌};
ghost use Rattle.wasm_compaction.specs.Custom.{custom_kind, is_independent, holds_offsets, holds_relocations, is_listed};

/// What a rewritten code section does to a custom section.
#[derive(Clone, Copy, Debug, PartialEq, Eq)]
pub enum CustomKind {
    /// Nothing: `name`, `producers`, `target_features`, `dylink.0` or `go.buildid`.
    Independent,
    /// It holds offsets into the code section, or identifies or describes the module with these:
    /// `.debug_*`, `sourceMappingURL`, `external_debug_info`, `build_id` or `metadata.code.*`.
    Offsets,
    /// It makes the module an object file, which a linker patches: `reloc.*` or `linking`.
    Relocations,
    /// Unknown.
    Other,
}

/// Which custom sections are dropped or kept, besides those that are `Independent`.
#[derive(Clone, Copy)]
pub struct Choices<'a> {
    /// Whether custom sections of the kind `Offsets` are dropped. Otherwise they are errors.
    pub drop_offsets: bool,
    /// The names of the custom sections of the kind `Other` that are kept.
    pub keep: &'a [String],
}

/// Returns the kind of the custom sections with this name.
pub fn custom_kind(name: &[u8]) -> CustomKind
    ensures { result ≡ custom_kind name.now }
{
    if is_independent(name) {
        return CustomKind::Independent;
    }
    if holds_offsets(name) {
        return CustomKind::Offsets;
    }
    if holds_relocations(name) {
        return CustomKind::Relocations;
    }
    CustomKind::Other
}

fn is_independent(name: &[u8]) -> bool
    ensures { result ≡ is_independent name.now }
{
    name == b"name".as_slice()
        || name == b"producers".as_slice()
        || name == b"target_features".as_slice()
        || name == b"dylink.0".as_slice()
        || name == b"go.buildid".as_slice()
}

fn holds_offsets(name: &[u8]) -> bool
    ensures { result ≡ holds_offsets name.now }
{
    name.starts_with(b".debug_".as_slice())
        || name == b"sourceMappingURL".as_slice()
        || name == b"external_debug_info".as_slice()
        || name == b"build_id".as_slice()
        || name.starts_with(b"metadata.code.".as_slice())
}

fn holds_relocations(name: &[u8]) -> bool
    ensures { result ≡ holds_relocations name.now }
{
    name.starts_with(b"reloc.".as_slice()) || name == b"linking".as_slice()
}

/// Returns whether the name is among the listed ones.
pub fn is_listed(listed: &[String], name: &[u8]) -> bool
    ensures { result ≡ is_listed listed.now name.now }
{
    listed.iter().any(|one| name == one.as_str().as_bytes())
}
