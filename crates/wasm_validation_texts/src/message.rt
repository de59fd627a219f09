use crate::operator::reason_in;
use crate::reason::{Reason, invalid_type};
use crate::section::Refusal;
use std::alloc::Global;
use std::fmt;
use wasm_below::{Error, Message, ValType};
use wasm_check::CheckError;
use wasm_context::ContextError;
use wasm_module_context::PayloadError;
use wasm_typing::ValueType;
use wasm_validation::{Fault, FaultyBody};

/// The message of a fault. Most have wasmparser's words.
#[derive(Clone, Copy)]
pub enum FaultMessage {
    /// The bytes cannot be read.
    Read(Message),
    /// An operator has no type, or a type is not valid.
    Reason(Reason),
    /// A section gives no part of a context.
    Section(ContextError),
    Text(&'static str),
}

impl fmt::Display for FaultMessage {
    fn fmt<W: fmt::Write>(&self, f: &mut fmt::Formatter<W>) -> fmt::Result {
        match *self {
            FaultMessage::Read(message) => write!(f, "{message}"),
            FaultMessage::Reason(reason) => write!(f, "{reason}"),
            FaultMessage::Section(error) => {
                let refusal = Refusal(error);
                write!(f, "{refusal}")
            }
            FaultMessage::Text(text) => f.write_str(text),
        }
    }
}

fn of_read(error: &Error) -> FaultMessage {
    FaultMessage::Read(error.message())
}

/// Returns the message of a function body.
fn of_body(alloc: Global, faulty: &FaultyBody<'_>) -> Option<FaultMessage> {
    match faulty.error {
        CheckError::Memory => Some(FaultMessage::Read(Message::OutOfMemory)),
        CheckError::Decode(error) => Some(of_read(&error)),
        CheckError::InvalidLocal { ty, .. } => Some(FaultMessage::Reason(invalid_type(ty))),
        CheckError::TooManyLocals { .. } => Some(FaultMessage::Text(
            "too many locals: locals exceed maximum",
        )),
        CheckError::NotConstant { .. } => Some(FaultMessage::Text("constant expression required")),
        CheckError::Untyped { offset, mismatch } => match reason_in(
            alloc, faulty, offset, mismatch,
        ) {
            Some(reason) => Some(FaultMessage::Reason(reason)),
            None => None,
        },
    }
}

/// Returns the message of a constant expression.
fn of_constant(error: CheckError) -> FaultMessage {
    match error {
        CheckError::Memory => FaultMessage::Read(Message::OutOfMemory),
        CheckError::Decode(error) => of_read(&error),
        CheckError::NotConstant { .. } => {
            FaultMessage::Text("constant expression required: non-constant operator")
        }
        CheckError::Untyped {
            mismatch: Some(mismatch),
            ..
        } => FaultMessage::Reason(Reason::Operand(mismatch)),
        CheckError::Untyped { .. }
        | CheckError::InvalidLocal { .. }
        | CheckError::TooManyLocals { .. } => FaultMessage::Text("type mismatch"),
    }
}

/// Returns the message of a section with this id, which no section has.
fn of_unknown(id: u8) -> FaultMessage {
    FaultMessage::Reason(Reason::Index("malformed section id: ", id as u32, ""))
}

/// Returns the message of a section.
fn of_section(error: &PayloadError) -> FaultMessage {
    match *error {
        PayloadError::Decode(error) => of_read(&error),
        PayloadError::Constant(error) => of_constant(error),
        PayloadError::NoInitialValue(_) => FaultMessage::Text(
            "type mismatch: non-defaultable element type must have initialization expression",
        ),
        PayloadError::ElementType {
            found,
            expected,
            ..
        } => FaultMessage::Reason(Reason::Elements(
            ValueType::new(ValType::Ref(found)),
            ValueType::new(ValType::Ref(expected)),
        )),
        PayloadError::UnknownSection(id, _) => of_unknown(id),
        PayloadError::Context(error, _) => FaultMessage::Section(error),
    }
}

/// Returns the message of a fault. `None` if allocation fails: the body of the function is read
/// again.
pub fn message_of(alloc: Global, fault: &Fault<'_>) -> Option<FaultMessage> {
    match fault {
        Fault::Parse(error) => Some(of_read(error)),
        Fault::Section(error) => Some(of_section(error)),
        Fault::UnknownSection(id, _) => Some(of_unknown(*id)),
        Fault::NoFunction(_) => Some(FaultMessage::Text("the body is of no function")),
        Fault::Body(faulty) => of_body(alloc, faulty),
    }
}
