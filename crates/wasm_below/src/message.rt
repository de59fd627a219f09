ghost use Rattle.std.specs.Prelude.{◌≡◌, Some};
ghost use Rattle.wasm_below.specs.MessageText.{frame_name_text, number_name_text, size_name_text, instruction_name_text, leading_byte_name_text, type_name_text, hexadecimal_indent, message_text};
ghost use Rattle.wasm_below.specs.Refusal.{number_of};

use crate::malformed::Malformed;
use std::fmt;

#[derive(Clone, Copy, Debug, PartialEq, Eq)]
pub enum FrameName {
    If,
    LegacyTry,
}

impl fmt::Display for FrameName {
    ghost output = { λ name. Some (frame_name_text name) };

    fn fmt<W: fmt::Write>(&self, f: &mut fmt::Formatter<W>) -> fmt::Result {
        match self {
            FrameName::If => f.write_str("If"),
            FrameName::LegacyTry => f.write_str("LegacyTry"),
        }
    }
}

#[derive(Clone, Copy, Debug, PartialEq, Eq)]
pub enum NumberName {
    VarU32,
    VarU64,
    VarI32,
    VarS33,
    VarI64,
}

impl NumberName {
    pub fn text(self) -> &'static str
        ensures { result.now ≡ number_name_text self }
    {
        match self {
            NumberName::VarU32 => "var_u32",
            NumberName::VarU64 => "var_u64",
            NumberName::VarI32 => "var_i32",
            NumberName::VarS33 => "var_s33",
            NumberName::VarI64 => "var_i64",
        }
    }
}

impl fmt::Display for NumberName {
    ghost output = { λ name. Some (number_name_text name) };

    fn fmt<W: fmt::Write>(&self, f: &mut fmt::Formatter<W>) -> fmt::Result {
        f.write_str(self.text())
    }
}

/// A list whose count is above its limit.
#[derive(Clone, Copy, Debug, PartialEq, Eq)]
pub enum SizeName {
    BrTable,
    SelectTypes,
    Catches,
    ResumeTable,
    FunctionParams,
    FunctionReturns,
    StructFields,
    SupertypeIndices,
    RecGroupTypes,
}

impl SizeName {
    pub fn text(self) -> &'static str
        ensures { result.now ≡ size_name_text self }
    {
        match self {
            SizeName::BrTable => "br_table",
            SizeName::SelectTypes => "select types",
            SizeName::Catches => "catches",
            SizeName::ResumeTable => "resume table",
            SizeName::FunctionParams => "function params",
            SizeName::FunctionReturns => "function returns",
            SizeName::StructFields => "struct fields",
            SizeName::SupertypeIndices => "supertype idxs",
            SizeName::RecGroupTypes => "rec group types",
        }
    }
}

impl fmt::Display for SizeName {
    ghost output = { λ name. Some (size_name_text name) };

    fn fmt<W: fmt::Write>(&self, f: &mut fmt::Formatter<W>) -> fmt::Result {
        f.write_str(self.text())
    }
}

/// An instruction of the legacy exceptions, or `else`.
#[derive(Clone, Copy, Debug, PartialEq, Eq)]
pub enum InstructionName {
    Else,
    Try,
    Catch,
    CatchAll,
    Delegate,
}

impl InstructionName {
    pub fn text(self) -> &'static str
        ensures { result.now ≡ instruction_name_text self }
    {
        match self {
            InstructionName::Else => "else",
            InstructionName::Try => "try",
            InstructionName::Catch => "catch",
            InstructionName::CatchAll => "catch_all",
            InstructionName::Delegate => "delegate",
        }
    }
}

impl fmt::Display for InstructionName {
    ghost output = { λ name. Some (instruction_name_text name) };

    fn fmt<W: fmt::Write>(&self, f: &mut fmt::Formatter<W>) -> fmt::Result {
        f.write_str(self.text())
    }
}

/// A construct whose leading byte is invalid.
#[derive(Clone, Copy, Debug, PartialEq, Eq)]
pub enum LeadingByteName {
    Catch,
    OnClause,
    Type,
    ExternalKind,
}

impl LeadingByteName {
    pub fn text(self) -> &'static str
        ensures { result.now ≡ leading_byte_name_text self }
    {
        match self {
            LeadingByteName::Catch => "catch",
            LeadingByteName::OnClause => "on clause",
            LeadingByteName::Type => "type",
            LeadingByteName::ExternalKind => "external kind",
        }
    }
}

impl fmt::Display for LeadingByteName {
    ghost output = { λ name. Some (leading_byte_name_text name) };

    fn fmt<W: fmt::Write>(&self, f: &mut fmt::Formatter<W>) -> fmt::Result {
        f.write_str(self.text())
    }
}

#[derive(Clone, Copy, Debug, PartialEq, Eq)]
pub enum TypeName {
    ValueType,
    ReferenceType,
    HeapType,
}

impl TypeName {
    pub fn text(self) -> &'static str
        ensures { result.now ≡ type_name_text self }
    {
        match self {
            TypeName::ValueType => "value type",
            TypeName::ReferenceType => "reference type",
            TypeName::HeapType => "heap type",
        }
    }
}

impl fmt::Display for TypeName {
    ghost output = { λ name. Some (type_name_text name) };

    fn fmt<W: fmt::Write>(&self, f: &mut fmt::Formatter<W>) -> fmt::Result {
        f.write_str(self.text())
    }
}

/// What is wrong. `docs/ERRORS-AND-FEATURES.md` lists each message with its number, text and
/// offset.
#[derive(Clone, Copy, Debug, PartialEq, Eq)]
pub enum Message {
    EndOfData,
    FeatureRequired(InstructionName),
    OutOfMemory,
    /// The number has more bytes than its width allows.
    IntegerTooLong(NumberName),
    /// The number has a bit beyond its width.
    IntegerTooLarge(NumberName),
    SizeOutOfBounds(SizeName),
    /// The index of a block type is negative.
    InvalidFunctionType,
    WrongFrame(InstructionName, FrameName),
    OperatorsRemaining,
    /// Frames are open at the end of a body or an expression.
    FramesRemain,
    /// Frames are open after the first `end` of a constant expression.
    FramesRemainConst,
    /// Data is left after the last operator.
    UnexpectedData,
    IllegalOpcode(u8),
    /// A prefix byte, and a subopcode that no operator has after it.
    UnknownSubopcode(u8, u32),
    /// A SIMD operator, in a call that reads none.
    UnexpectedSimd,
    ZeroByteExpected,
    NonzeroAfterFence,
    /// A memory argument has both a memory index and an array index.
    MemoryAndArray,
    /// An operator that is not atomic has an ordering.
    OrderingOnPlain,
    /// If `hex` is set, the text has the byte in hexadecimal.
    InvalidOrdering { byte: u8, hex: bool },
    ReservedFlags,
    /// The flags of a cast are above 3.
    InvalidCastFlags(u8),
    InvalidLeadingByte(u8, LeadingByteName),
    /// More than 4294967295 locals.
    TooManyLocals,
    InvalidType(TypeName),
    /// Data is left after the items of a section.
    DataAfterSection,
    /// A part of a module is malformed.
    Malformed(Malformed),
    /// The first four bytes of a module, as a little-endian number, are not `\0asm`.
    BadMagic(u32),
    /// The version of a module is not 1.
    UnknownVersion(u32),
}

impl Message {
    /// Returns the number of the refusal, from 1 to 28.
    pub fn number(&self) -> u8
        ensures { result ≡ number_of self.now }
    {
        match self {
            Message::EndOfData => 1,
            Message::FeatureRequired(_) => 2,
            Message::OutOfMemory => 3,
            Message::IntegerTooLong(_) | Message::IntegerTooLarge(_) => 4,
            Message::SizeOutOfBounds(_) => 5,
            Message::InvalidFunctionType => 6,
            Message::WrongFrame(..) => 7,
            Message::OperatorsRemaining => 8,
            Message::FramesRemain => 9,
            Message::FramesRemainConst => 10,
            Message::UnexpectedData => 11,
            Message::IllegalOpcode(_) => 12,
            Message::UnknownSubopcode(..) => 13,
            Message::UnexpectedSimd => 14,
            Message::ZeroByteExpected => 15,
            Message::NonzeroAfterFence => 16,
            Message::MemoryAndArray => 17,
            Message::OrderingOnPlain => 18,
            Message::InvalidOrdering { .. } => 19,
            Message::ReservedFlags => 20,
            Message::InvalidCastFlags(_) => 21,
            Message::InvalidLeadingByte(..) => 22,
            Message::TooManyLocals => 23,
            Message::InvalidType(_) => 24,
            Message::DataAfterSection => 25,
            Message::Malformed(_) => 26,
            Message::BadMagic(_) => 27,
            Message::UnknownVersion(_) => 28,
        }
    }
}

impl fmt::Display for Message {
    ghost output = { λ message. Some (message_text message) };

    fn fmt<W: fmt::Write>(&self, f: &mut fmt::Formatter<W>) -> fmt::Result {
        match *self {
            Message::EndOfData => f.write_str("unexpected end-of-file"),
            Message::FeatureRequired(instruction) => write!(
                f,
                "legacy_exceptions feature required for {instruction} instruction"
            ),
            Message::OutOfMemory => f.write_str("out of memory"),
            Message::IntegerTooLong(kind) => {
                write!(f, "invalid {kind}: integer representation too long")
            }
            Message::IntegerTooLarge(kind) => write!(f, "invalid {kind}: integer too large"),
            Message::SizeOutOfBounds(list) => write!(f, "{list} size is out of bounds"),
            Message::InvalidFunctionType => f.write_str("invalid function type"),
            Message::WrongFrame(instruction, frame) => {
                write!(f, "`{instruction}` found outside `{frame}` block")
            }
            Message::OperatorsRemaining => {
                f.write_str("operators remaining after end of function body or expression")
            }
            Message::FramesRemain => {
                f.write_str("control frames remain at end of function body or expression")
            }
            Message::FramesRemainConst => {
                f.write_str("control frames remain at end of expression")
            }
            Message::UnexpectedData => f.write_str("unexpected data at the end of operators"),
            Message::IllegalOpcode(code) => write!(f, "illegal opcode: 0x{code:x}"),
            Message::UnknownSubopcode(prefix, code) => {
                write!(f, "unknown 0x{prefix:x} subopcode: 0x{code:x}")
            }
            Message::UnexpectedSimd => f.write_str("unexpected SIMD opcode: 0xfd"),
            Message::ZeroByteExpected => f.write_str("zero byte expected"),
            Message::NonzeroAfterFence => f.write_str("nonzero byte after `atomic.fence`"),
            Message::MemoryAndArray => f.write_str("cannot specify both memory and array index"),
            Message::OrderingOnPlain => {
                f.write_str("cannot specify atomic ordering on non-atomic instruction")
            }
            Message::InvalidOrdering { byte, hex: true } => {
                write!(f, "invalid atomic consistency ordering 0x{byte:x}")
            }
            Message::InvalidOrdering { byte, hex: false } => {
                write!(f, "invalid atomic consistency ordering {byte}")
            }
            Message::ReservedFlags => f.write_str("malformed memop: reserved flags bits set"),
            Message::InvalidCastFlags(flags) => write!(f, "invalid cast flags: {flags:08b}"),
            Message::InvalidLeadingByte(byte, what) => {
                write!(f, "invalid leading byte (0x{byte:x}) for {what}")
            }
            Message::TooManyLocals => f.write_str("too many locals"),
            Message::InvalidType(what) => write!(f, "invalid {what}"),
            Message::DataAfterSection => {
                f.write_str("unexpected data at the end of the section")
            }
            Message::Malformed(what) => f.write_str(what.text()),
            Message::BadMagic(word) => write!(
                f,
                "magic header not detected: bad magic number - expected=[\n    0x0,\n    0x61,\n    0x73,\n    0x6d,\n] actual=[\n    0x{:x},\n    0x{:x},\n    0x{:x},\n    0x{:x},\n]",
                word % 256,
                word / 256 % 256,
                word / 65536 % 256,
                word / 16777216
            ),
            Message::UnknownVersion(version) => {
                write!(
                    f,
                    "unknown binary version: {}0x{version:x}",
                    hexadecimal_indent(version)
                )
            }
        }
    }
}

/// Returns a space for each digit that the number has fewer than eight in hexadecimal.
pub fn hexadecimal_indent(number: u32) -> &'static str
    ensures { result.now ≡ hexadecimal_indent number }
{
    if number < 0x10 {
        "       "
    } else if number < 0x100 {
        "      "
    } else if number < 0x1000 {
        "     "
    } else if number < 0x10000 {
        "    "
    } else if number < 0x100000 {
        "   "
    } else if number < 0x1000000 {
        "  "
    } else if number < 0x10000000 {
        " "
    } else {
        ""
    }
}
