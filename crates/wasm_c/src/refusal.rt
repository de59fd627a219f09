//! Errors as C structs.
ghost use Rattle.std.specs.Prelude.{◌≡◌};
ghost use Rattle.wasm_c.specs.Texts.{instruction_numbered, frame_numbered, number_name_numbered, size_numbered, leading_numbered, type_numbered, malformed_numbered};
ghost use Rattle.wasm_c.specs.Refused.{reported, reported_name, reported_value, refusal_of, no_refusal, misuse, refusal_at, instruction_number, number_name_number, size_number, frame_number, leading_number, type_number, malformed_number};

use wasm_operators::{
    Error, FrameName, InstructionName, LeadingByteName, Malformed, Message, NumberName, Result,
    SizeName, TypeName,
};

pub const UNKNOWN_FEATURES: u32 = 100;

pub const PAST_OFFSETS: u32 = 101;

pub const NO_ROOM: u32 = 102;

pub const NOT_A_READER: u32 = 103;

pub const NO_LIST: u32 = 104;

pub const NO_VALUE_KIND: u32 = 105;

pub const NOT_WRITABLE: u32 = 112;

/// An error as a C struct of 24 bytes.
#[repr(C)]
#[derive(Clone, Copy, Debug, PartialEq, Eq)]
pub struct WasmRefusal {
    /// The offset of the error, else of where the call ended.
    pub offset: u64,
    /// 0 for no error, 1 to 28 for an error in the bytes or of allocation, 100 to 114 for an error
    /// in the arguments or the module.
    pub number: u32,
    /// The number of the name in the error's text, plus 16 times the number of a second name.
    pub name: u32,
    /// The byte, code or flags in the error's text.
    pub value: u32,
    pub reserved: u32,
}

impl WasmRefusal {
    fn new(offset: u64, number: u32, name: u32, value: u32) -> WasmRefusal
        ensures { result ≡ reported offset number name value }
    {
        WasmRefusal {
            offset,
            number,
            name,
            value,
            reserved: 0,
        }
    }

    pub fn none(offset: u64) -> WasmRefusal
        ensures { result ≡ no_refusal offset }
    {
        WasmRefusal::new(offset, 0, 0, 0)
    }

    /// Creates an error in the arguments.
    pub fn misuse(number: u32, offset: u64) -> WasmRefusal
        ensures { result ≡ misuse number offset }
    {
        WasmRefusal::new(offset, number, 0, 0)
    }

    pub fn with_value(number: u32, offset: u64, value: u32) -> WasmRefusal
        ensures { result ≡ reported offset number 0 value }
    {
        WasmRefusal::new(offset, number, 0, value)
    }

    /// Creates the value for how reading ended. `offset` is used if there is no error.
    pub fn of_end(end: &Result<()>, offset: u64) -> WasmRefusal
        ensures { result ≡ refusal_at end.now offset }
    {
        match end {
            Ok(()) => WasmRefusal::none(offset),
            Err(error) => WasmRefusal::of(error),
        }
    }

    pub fn of(error: &Error) -> WasmRefusal
        ensures { result ≡ refusal_of error.now }
    {
        let message = &error.message;
        let number = u32::from(message.number());
        WasmRefusal::new(
            error.offset,
            number,
            reported_name(message),
            reported_value(message),
        )
    }
}

/// Returns the number of the name in a message's text; for a subopcode, the prefix byte.
fn reported_name(message: &Message) -> u32
    ensures { result ≡ reported_name message.now }
{
    match *message {
        Message::FeatureRequired(name) => instruction_number(name),
        Message::IntegerTooLong(name) => number_name_number(name),
        Message::IntegerTooLarge(name) => number_name_number(name) + 16,
        Message::SizeOutOfBounds(name) => size_number(name),
        Message::WrongFrame(name, frame) => instruction_number(name) + 16 * frame_number(frame),
        Message::UnknownSubopcode(prefix, _) => u32::from(prefix),
        Message::InvalidOrdering { hex, .. } => { if hex { 1 } else { 0 } }
        Message::InvalidLeadingByte(_, name) => leading_number(name),
        Message::InvalidType(name) => type_number(name),
        Message::Malformed(what) => malformed_number(what),
        _ => 0,
    }
}

/// Returns the byte, code or flags in a message's text.
fn reported_value(message: &Message) -> u32
    ensures { result ≡ reported_value message.now }
{
    match *message {
        Message::IllegalOpcode(code) => u32::from(code),
        Message::UnknownSubopcode(_, code) => code,
        Message::InvalidOrdering { byte, .. } => u32::from(byte),
        Message::InvalidCastFlags(flags) => u32::from(flags),
        Message::InvalidLeadingByte(byte, _) => u32::from(byte),
        Message::BadMagic(word) => word,
        Message::UnknownVersion(version) => version,
        _ => 0,
    }
}

fn instruction_number(name: InstructionName) -> u32
    ensures { result ≡ instruction_number name }
{
    match name {
        InstructionName::Else => 0,
        InstructionName::Try => 1,
        InstructionName::Catch => 2,
        InstructionName::CatchAll => 3,
        InstructionName::Delegate => 4,
    }
}

pub fn instruction_name(number: u32) -> Option<InstructionName>
    ensures { result ≡ instruction_numbered number }
{
    match number {
        0 => Some(InstructionName::Else),
        1 => Some(InstructionName::Try),
        2 => Some(InstructionName::Catch),
        3 => Some(InstructionName::CatchAll),
        4 => Some(InstructionName::Delegate),
        _ => None,
    }
}

fn frame_number(name: FrameName) -> u32
    ensures { result ≡ frame_number name }
{
    match name {
        FrameName::If => 0,
        FrameName::LegacyTry => 1,
    }
}

pub fn frame_name(number: u32) -> Option<FrameName>
    ensures { result ≡ frame_numbered number }
{
    match number {
        0 => Some(FrameName::If),
        1 => Some(FrameName::LegacyTry),
        _ => None,
    }
}

fn number_name_number(name: NumberName) -> u32
    ensures { result ≡ number_name_number name }
{
    match name {
        NumberName::VarU32 => 0,
        NumberName::VarU64 => 1,
        NumberName::VarI32 => 2,
        NumberName::VarS33 => 3,
        NumberName::VarI64 => 4,
    }
}

pub fn number_name(number: u32) -> Option<NumberName>
    ensures { result ≡ number_name_numbered number }
{
    match number {
        0 => Some(NumberName::VarU32),
        1 => Some(NumberName::VarU64),
        2 => Some(NumberName::VarI32),
        3 => Some(NumberName::VarS33),
        4 => Some(NumberName::VarI64),
        _ => None,
    }
}

fn size_number(name: SizeName) -> u32
    ensures { result ≡ size_number name }
{
    match name {
        SizeName::BrTable => 0,
        SizeName::SelectTypes => 1,
        SizeName::Catches => 2,
        SizeName::ResumeTable => 3,
        SizeName::FunctionParams => 4,
        SizeName::FunctionReturns => 5,
        SizeName::StructFields => 6,
        SizeName::SupertypeIndices => 7,
        SizeName::RecGroupTypes => 8,
    }
}

pub fn size_name(number: u32) -> Option<SizeName>
    ensures { result ≡ size_numbered number }
{
    match number {
        0 => Some(SizeName::BrTable),
        1 => Some(SizeName::SelectTypes),
        2 => Some(SizeName::Catches),
        3 => Some(SizeName::ResumeTable),
        4 => Some(SizeName::FunctionParams),
        5 => Some(SizeName::FunctionReturns),
        6 => Some(SizeName::StructFields),
        7 => Some(SizeName::SupertypeIndices),
        8 => Some(SizeName::RecGroupTypes),
        _ => None,
    }
}

fn leading_number(name: LeadingByteName) -> u32
    ensures { result ≡ leading_number name }
{
    match name {
        LeadingByteName::Catch => 0,
        LeadingByteName::OnClause => 1,
        LeadingByteName::Type => 2,
        LeadingByteName::ExternalKind => 3,
    }
}

pub fn leading_name(number: u32) -> Option<LeadingByteName>
    ensures { result ≡ leading_numbered number }
{
    match number {
        0 => Some(LeadingByteName::Catch),
        1 => Some(LeadingByteName::OnClause),
        2 => Some(LeadingByteName::Type),
        3 => Some(LeadingByteName::ExternalKind),
        _ => None,
    }
}

fn type_number(name: TypeName) -> u32
    ensures { result ≡ type_number name }
{
    match name {
        TypeName::ValueType => 0,
        TypeName::ReferenceType => 1,
        TypeName::HeapType => 2,
    }
}

pub fn type_name(number: u32) -> Option<TypeName>
    ensures { result ≡ type_numbered number }
{
    match number {
        0 => Some(TypeName::ValueType),
        1 => Some(TypeName::ReferenceType),
        2 => Some(TypeName::HeapType),
        _ => None,
    }
}

fn malformed_number(what: Malformed) -> u32
    ensures { result ≡ malformed_number what }
{
    match what {
        Malformed::Utf8 => 0,
        Malformed::StringSize => 1,
        Malformed::FieldMutability => 2,
        Malformed::ContinuationType => 3,
        Malformed::TypeIndex => 4,
        Malformed::TableEncoding => 5,
        Malformed::TableFlags => 6,
        Malformed::MemoryFlags => 7,
        Malformed::PageSize => 8,
        Malformed::GlobalFlags => 9,
        Malformed::TagAttributes => 10,
        Malformed::ElementFlags => 11,
        Malformed::ElementKind => 12,
        Malformed::DataFlags => 13,
        Malformed::SectionId => 14,
        Malformed::SecondModule => 15,
        Malformed::SectionSize => 16,
        Malformed::SectionOrder => 17,
        Malformed::StartContent => 18,
        Malformed::DataCountContent => 19,
        Malformed::CodeContent => 20,
        Malformed::NameContent => 21,
        Malformed::FunctionCounts => 22,
        Malformed::NoCode => 23,
        Malformed::NoFunctions => 24,
        Malformed::DataCounts => 25,
        Malformed::NoData => 26,
    }
}

pub fn malformed(number: u32) -> Option<Malformed>
    ensures { result ≡ malformed_numbered number }
{
    match number {
        0 => Some(Malformed::Utf8),
        1 => Some(Malformed::StringSize),
        2 => Some(Malformed::FieldMutability),
        3 => Some(Malformed::ContinuationType),
        4 => Some(Malformed::TypeIndex),
        5 => Some(Malformed::TableEncoding),
        6 => Some(Malformed::TableFlags),
        7 => Some(Malformed::MemoryFlags),
        8 => Some(Malformed::PageSize),
        9 => Some(Malformed::GlobalFlags),
        10 => Some(Malformed::TagAttributes),
        11 => Some(Malformed::ElementFlags),
        12 => Some(Malformed::ElementKind),
        13 => Some(Malformed::DataFlags),
        14 => Some(Malformed::SectionId),
        15 => Some(Malformed::SecondModule),
        16 => Some(Malformed::SectionSize),
        17 => Some(Malformed::SectionOrder),
        18 => Some(Malformed::StartContent),
        19 => Some(Malformed::DataCountContent),
        20 => Some(Malformed::CodeContent),
        21 => Some(Malformed::NameContent),
        22 => Some(Malformed::FunctionCounts),
        23 => Some(Malformed::NoCode),
        24 => Some(Malformed::NoFunctions),
        25 => Some(Malformed::DataCounts),
        26 => Some(Malformed::NoData),
        _ => None,
    }
}
