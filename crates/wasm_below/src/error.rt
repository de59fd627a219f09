ghost use Rattle.std.specs.Prelude.{◌≡◌, Some};
ghost use Rattle.wasm_below.specs.MessageText.{error_text};
ghost use Rattle.wasm_below.specs.Refusal.{kind_of};

use crate::message::Message;
use std::fmt;

#[derive(Clone, Copy, Debug, PartialEq, Eq)]
pub struct Error {
    pub message: Message,
    pub offset: u64,
}

/// The name of `Error` in wasmparser.
pub type BinaryReaderError = Error;

pub type Result<T> = std::result::Result<T, Error>;

#[derive(Clone, Copy, Debug, PartialEq, Eq)]
pub enum ErrorKind {
    /// With more bytes the call might succeed.
    EndOfData,
    MissingFeature,
    OutOfMemory,
    /// More bytes would not help.
    Other,
}

impl Error {
    pub fn new(message: Message, offset: u64) -> Error
        ensures message { result.message ≡ message }
        ensures offset { result.offset ≡ offset }
    {
        Error { message, offset }
    }

    pub fn kind(&self) -> ErrorKind
        ensures { result ≡ kind_of self.now.message }
    {
        match self.message {
            Message::EndOfData => ErrorKind::EndOfData,
            Message::FeatureRequired(_) => ErrorKind::MissingFeature,
            Message::OutOfMemory => ErrorKind::OutOfMemory,
            _ => ErrorKind::Other,
        }
    }

    /// Returns the offset of the error, which includes the reader's `original_offset`.
    pub fn offset(&self) -> u64
        ensures { result ≡ self.now.offset }
    {
        self.offset
    }

    pub fn message(&self) -> Message
        ensures { result ≡ self.now.message }
    {
        self.message
    }
}

impl fmt::Display for Error {
    ghost output = { λ e. Some (error_text e) };

    fn fmt<W: fmt::Write>(&self, f: &mut fmt::Formatter<W>) -> fmt::Result {
        let Error { message, offset } = *self;
        write!(f, "{message} (at offset 0x{offset:x})")
    }
}
