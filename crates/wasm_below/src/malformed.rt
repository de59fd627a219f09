ghost use Rattle.std.specs.Prelude.{◌≡◌};
ghost use Rattle.wasm_below.specs.MessageText.{malformed_text};

/// A part of a module that is malformed, with wasmparser's text.
#[derive(Clone, Copy, Debug, PartialEq, Eq)]
pub enum Malformed {
    /// A name is not UTF-8.
    Utf8,
    /// A name has more than 100000 bytes.
    StringSize,
    FieldMutability,
    /// The index of a continuation's function type is negative.
    ContinuationType,
    /// A type index is above 1048575.
    TypeIndex,
    /// The byte after 0x40, which announces a table's initial value, is not 0.
    TableEncoding,
    TableFlags,
    MemoryFlags,
    /// The logarithm of a memory's page size is above 63.
    PageSize,
    GlobalFlags,
    TagAttributes,
    ElementFlags,
    ElementKind,
    DataFlags,
    /// The id of a section is above 127.
    SectionId,
    /// A module's preamble where a section should begin.
    SecondModule,
    SectionSize,
    SectionOrder,
    StartContent,
    DataCountContent,
    /// Data is left after the bodies of the code section.
    CodeContent,
    NameContent,
    FunctionCounts,
    NoCode,
    NoFunctions,
    DataCounts,
    NoData,
}

impl Malformed {
    pub fn text(self) -> &'static str
        ensures { result.now ≡ malformed_text self }
    {
        match self {
            Malformed::Utf8 => "malformed UTF-8 encoding",
            Malformed::StringSize => "string size out of bounds",
            Malformed::FieldMutability => "malformed mutability byte for field type",
            Malformed::ContinuationType => "invalid continuation type",
            Malformed::TypeIndex => "type index greater than implementation limits",
            Malformed::TableEncoding => "invalid table encoding",
            Malformed::TableFlags => "invalid table resizable limits flags",
            Malformed::MemoryFlags => "invalid memory limits flags",
            Malformed::PageSize => "invalid custom page size",
            Malformed::GlobalFlags => "malformed global flags",
            Malformed::TagAttributes => "invalid tag attributes",
            Malformed::ElementFlags => "invalid flags byte in element segment",
            Malformed::ElementKind =>
                "only the function external type is supported in elem segment",
            Malformed::DataFlags => "invalid flags byte in data segment",
            Malformed::SectionId => "malformed section id",
            Malformed::SecondModule => "expected section, got wasm magic number",
            Malformed::SectionSize => "section too large",
            Malformed::SectionOrder => "section out of order",
            Malformed::StartContent => "unexpected content in the start section",
            Malformed::DataCountContent => "unexpected content in the data count section",
            Malformed::CodeContent => "trailing bytes at end of section",
            Malformed::NameContent => "trailing data at the end of a name",
            Malformed::FunctionCounts => "function and code section have inconsistent lengths",
            Malformed::NoCode => "function section has non-zero count but code section is absent",
            Malformed::NoFunctions =>
                "function section is absent but code section has non-zero count",
            Malformed::DataCounts => "data count and data section have inconsistent lengths",
            Malformed::NoData => "data count is non-zero but data section is absent",
        }
    }
}
