use crate::failure::{Failure, Written};
use wasm_below::{
    Error, FrameName, InstructionName, LeadingByteName, Malformed, Message, NumberName, SizeName,
    TypeName,
};

const MESSAGES: [Message; 75] = [
    Message::EndOfData,
    Message::FeatureRequired(InstructionName::Try),
    Message::FeatureRequired(InstructionName::CatchAll),
    Message::OutOfMemory,
    Message::IntegerTooLong(NumberName::VarU32),
    Message::IntegerTooLong(NumberName::VarS33),
    Message::IntegerTooLarge(NumberName::VarU64),
    Message::IntegerTooLarge(NumberName::VarI32),
    Message::IntegerTooLarge(NumberName::VarI64),
    Message::SizeOutOfBounds(SizeName::BrTable),
    Message::SizeOutOfBounds(SizeName::SelectTypes),
    Message::SizeOutOfBounds(SizeName::Catches),
    Message::SizeOutOfBounds(SizeName::ResumeTable),
    Message::InvalidFunctionType,
    Message::WrongFrame(InstructionName::Else, FrameName::If),
    Message::WrongFrame(InstructionName::Delegate, FrameName::LegacyTry),
    Message::OperatorsRemaining,
    Message::FramesRemain,
    Message::FramesRemainConst,
    Message::UnexpectedData,
    Message::IllegalOpcode(0x0e),
    Message::UnknownSubopcode(0xfb, 31),
    Message::UnexpectedSimd,
    Message::ZeroByteExpected,
    Message::NonzeroAfterFence,
    Message::MemoryAndArray,
    Message::OrderingOnPlain,
    Message::InvalidOrdering {
        byte: 18,
        hex: true,
    },
    Message::InvalidOrdering {
        byte: 18,
        hex: false,
    },
    Message::ReservedFlags,
    Message::InvalidCastFlags(5),
    Message::InvalidLeadingByte(255, LeadingByteName::Catch),
    Message::InvalidLeadingByte(4, LeadingByteName::OnClause),
    Message::TooManyLocals,
    Message::InvalidType(TypeName::ValueType),
    Message::InvalidType(TypeName::ReferenceType),
    Message::InvalidType(TypeName::HeapType),
    Message::DataAfterSection,
    Message::SizeOutOfBounds(SizeName::FunctionParams),
    Message::SizeOutOfBounds(SizeName::FunctionReturns),
    Message::SizeOutOfBounds(SizeName::StructFields),
    Message::SizeOutOfBounds(SizeName::SupertypeIndices),
    Message::SizeOutOfBounds(SizeName::RecGroupTypes),
    Message::InvalidLeadingByte(0x61, LeadingByteName::Type),
    Message::InvalidLeadingByte(0x61, LeadingByteName::ExternalKind),
    Message::Malformed(Malformed::Utf8),
    Message::Malformed(Malformed::StringSize),
    Message::Malformed(Malformed::FieldMutability),
    Message::Malformed(Malformed::ContinuationType),
    Message::Malformed(Malformed::TypeIndex),
    Message::Malformed(Malformed::TableEncoding),
    Message::Malformed(Malformed::TableFlags),
    Message::Malformed(Malformed::MemoryFlags),
    Message::Malformed(Malformed::PageSize),
    Message::Malformed(Malformed::GlobalFlags),
    Message::Malformed(Malformed::TagAttributes),
    Message::Malformed(Malformed::ElementFlags),
    Message::Malformed(Malformed::ElementKind),
    Message::Malformed(Malformed::DataFlags),
    Message::Malformed(Malformed::SectionId),
    Message::Malformed(Malformed::SecondModule),
    Message::Malformed(Malformed::SectionSize),
    Message::Malformed(Malformed::SectionOrder),
    Message::Malformed(Malformed::StartContent),
    Message::Malformed(Malformed::DataCountContent),
    Message::Malformed(Malformed::CodeContent),
    Message::Malformed(Malformed::NameContent),
    Message::Malformed(Malformed::FunctionCounts),
    Message::Malformed(Malformed::NoCode),
    Message::Malformed(Malformed::NoFunctions),
    Message::Malformed(Malformed::DataCounts),
    Message::Malformed(Malformed::NoData),
    Message::BadMagic(0x0d736101),
    Message::UnknownVersion(2),
    Message::UnknownVersion(0x1000d),
];

/// Writes the number, offset, kind and text of an error at offset 26 with message `name`.
pub fn write_message(text: &mut String, name: &str) -> Written {
    for message in MESSAGES {
        write!(text, "{message:?}")?;
        let is_named = text.as_str() == name;
        text.clear();
        if is_named {
            let error = Error::new(message, 26);
            let number = error.message().number();
            let offset = error.offset();
            write!(text, "{number} at {offset}, {:?}: {error}", error.kind())?;
            return Ok(());
        }
    }
    Err(Failure::Malformed)
}
