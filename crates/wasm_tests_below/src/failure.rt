use std::alloc::{AllocError, AllocFailed};
use std::num::ParseIntError;
use wasm_below::{Error, ErrorKind};

#[derive(Clone, Copy, Debug)]
pub enum Failure {
    Malformed,
    /// An allocation failed in a call that the row tests.
    OutOfMemoryInCall,
    /// An allocation failed while the row was parsed or its text written.
    OutOfMemory,
}

pub type Written = Result<(), Failure>;

impl From<AllocError> for Failure {
    fn from(_: AllocError) -> Failure {
        Failure::OutOfMemory
    }
}

impl<T: Drop> From<AllocFailed<T>> for Failure {
    fn from(_: AllocFailed<T>) -> Failure {
        Failure::OutOfMemory
    }
}

impl From<ParseIntError> for Failure {
    fn from(_: ParseIntError) -> Failure {
        Failure::Malformed
    }
}

/// The error of a call that the row expects to succeed.
impl From<Error> for Failure {
    fn from(error: Error) -> Failure {
        match error.kind() {
            ErrorKind::OutOfMemory => Failure::OutOfMemoryInCall,
            _ => Failure::Malformed,
        }
    }
}
