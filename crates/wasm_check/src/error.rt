ghost use Rattle.wasm_check.specs.Typed.{IsSaidOf};

use wasm_below::ValType;
use wasm_check_control::Mismatch;
use wasm_operators::{Error, Message};

/// Why an expression or a body is not accepted. Offsets count from the one given for the first byte.
#[derive(Clone, Copy, Debug)]
pub enum CheckError {
    /// The operator at this offset is the first after which no typed expression continues. The
    /// mismatch is the operand that it did not find, if that is why.
    Untyped {
        offset: u64,
        mismatch: Option<Mismatch>,
    },
    /// The declaration of locals at this offset has this type, which is not valid.
    InvalidLocal {
        offset: u64,
        ty: ValType,
    },
    /// With the declaration of locals at this offset, the function has more than `MAX_LOCALS`
    /// parameters and locals. At the start of the body: it has more parameters.
    TooManyLocals {
        offset: u64,
    },
    /// The operator at this offset is not constant, in a constant expression.
    NotConstant {
        offset: u64,
    },
    /// The error of the reader. What is before it begins a typed expression.
    Decode(Error),
    /// Allocation failed.
    Memory,
}

/// Returns the error of the checker for an error of the reader.
pub fn decoding(error: Error) -> CheckError
    ensures { IsSaidOf error result }
{
    match error.message() {
        Message::OutOfMemory => CheckError::Memory,
        _ => CheckError::Decode(error),
    }
}
