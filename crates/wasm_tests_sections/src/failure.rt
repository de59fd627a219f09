use std::alloc::{AllocError, AllocFailed};
use std::num::ParseIntError;
use wasm_below::{Error, ErrorKind, Message};

#[derive(Clone, Copy, Debug)]
pub enum Failure {
    Malformed,
    NotRead(Error),
    NotWritten(Message),
    /// What was written does not read to the same values.
    Different,
    OutOfMemory,
}

pub type Written = Result<(), Failure>;

impl From<AllocError> for Failure {
    fn from(_: AllocError) -> Failure {
        Failure::OutOfMemory
    }
}

impl<T: Drop> From<AllocFailed<T>> for Failure {
    fn from(_: AllocFailed<T>) -> Failure {
        Failure::OutOfMemory
    }
}

impl From<ParseIntError> for Failure {
    fn from(_: ParseIntError) -> Failure {
        Failure::Malformed
    }
}

impl From<Error> for Failure {
    fn from(error: Error) -> Failure {
        if error.kind() == ErrorKind::OutOfMemory {
            return Failure::OutOfMemory;
        }
        Failure::NotRead(error)
    }
}

impl From<Message> for Failure {
    fn from(message: Message) -> Failure {
        match message {
            Message::OutOfMemory => Failure::OutOfMemory,
            _ => Failure::NotWritten(message),
        }
    }
}
