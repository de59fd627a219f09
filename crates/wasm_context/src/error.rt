use crate::unsupported::Unsupported;
use wasm_externals::ExternalKind;
use wasm_subtypes::TypeError;

/// What a module may have many of.
#[derive(Clone, Copy, Debug, PartialEq, Eq)]
pub enum Counted {
    Functions,
    Tables,
    Memories,
    Globals,
    Tags,
    ElementSegments,
    DataSegments,
    Exports,
}

/// Why something cannot be added to a context.
#[derive(Clone, Copy, Debug, PartialEq, Eq)]
pub enum ContextError {
    OutOfMemory,
    /// A group of types is not valid, or too large.
    Type(TypeError),
    /// The module has the greatest number of these.
    TooMany(Counted),
    /// There is no type with this index.
    UnknownType(u32),
    /// The type with this index is not a function type.
    NotFunction(u32),
    /// The function type of a tag has results.
    TagResults,
    /// The minimum of the limits of a memory or table is greater than the maximum.
    MinimumAboveMaximum,
    /// The page size is neither 1 nor 65536 bytes.
    PageSize,
    /// A memory may have this many pages, each of this many bytes.
    MemorySize(u64, u64),
    /// A shared memory has no maximum.
    SharedWithoutMaximum,
    /// A table may have this many elements.
    TableSize(u64),
    /// The start function has parameters or results.
    StartType,
    /// An export before has the same name.
    DuplicateExport,
    /// A type has a part that is not supported.
    Unsupported(Unsupported),
    /// There is nothing of this kind with this index.
    Unknown(ExternalKind, u32),
}
