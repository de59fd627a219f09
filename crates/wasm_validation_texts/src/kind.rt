ghost use Rattle.std.specs.Prelude.{◌≡◌};
ghost use Rattle.wasm_validation_texts.specs.Kinds.{kind_of_read, kind_of_checked, kind_of_added, kind_of, function_of};

use wasm_below::{Error, Message};
use wasm_check::CheckError;
use wasm_context::ContextError;
use wasm_module_context::PayloadError;
use wasm_subtypes::TypeError;
use wasm_validation::Fault;

/// What is wrong with a module.
#[derive(Clone, Copy, Debug)]
pub enum FaultKind {
    /// Allocation failed.
    Memory,
    /// The bytes cannot be read: the error of the reader.
    Malformed(Error),
    /// What starts at this offset is not valid.
    Invalid(u64),
}

fn kind_of_read(error: &Error) -> FaultKind
    ensures { result ≡ kind_of_read error.now }
{
    match error.message() {
        Message::OutOfMemory => FaultKind::Memory,
        _ => FaultKind::Malformed(*error),
    }
}

fn kind_of_checked(error: &CheckError) -> FaultKind
    ensures { result ≡ kind_of_checked error.now }
{
    match error {
        CheckError::Memory => FaultKind::Memory,
        CheckError::Decode(error) => kind_of_read(error),
        CheckError::Untyped { offset, .. } => FaultKind::Invalid(*offset),
        CheckError::InvalidLocal { offset, .. } => FaultKind::Invalid(*offset),
        CheckError::TooManyLocals { offset } => FaultKind::Invalid(*offset),
        CheckError::NotConstant { offset } => FaultKind::Invalid(*offset),
    }
}

fn kind_of_added(error: &PayloadError) -> FaultKind
    ensures { result ≡ kind_of_added error.now }
{
    match error {
        PayloadError::Decode(error) => kind_of_read(error),
        PayloadError::Constant(error) => kind_of_checked(error),
        PayloadError::NoInitialValue(offset) => FaultKind::Invalid(*offset),
        PayloadError::ElementType { offset, .. } => FaultKind::Invalid(*offset),
        PayloadError::UnknownSection(_, offset) => FaultKind::Invalid(*offset),
        PayloadError::Context(ContextError::OutOfMemory, _) => FaultKind::Memory,
        PayloadError::Context(ContextError::Type(TypeError::OutOfMemory), _) => FaultKind::Memory,
        PayloadError::Context(_, offset) => FaultKind::Invalid(*offset),
    }
}

/// Returns what is wrong with the module of a fault. Offsets count from the one of the module's
/// first byte.
pub fn kind_of(fault: &Fault<'_>) -> FaultKind
    ensures { result ≡ kind_of fault.now }
{
    match fault {
        Fault::Parse(error) => kind_of_read(error),
        Fault::Section(error) => kind_of_added(error),
        Fault::UnknownSection(_, offset) => FaultKind::Invalid(*offset),
        Fault::NoFunction(offset) => FaultKind::Invalid(*offset),
        Fault::Body(faulty) => kind_of_checked(&faulty.error),
    }
}

/// Returns the index of the function whose body is at fault, if one is.
pub fn function_of(fault: &Fault<'_>) -> Option<u32>
    ensures { result ≡ function_of fault.now }
{
    match fault {
        Fault::Body(faulty) => Some(faulty.function),
        _ => None,
    }
}
