ghost use Rattle.std.specs.Prelude.{◌≡◌};
ghost use Rattle.wasm_listing.specs.Dump.{status_of};

use std::fmt;
use wasm_operators::Error;

/// Why a body was not listed completely.
#[derive(Clone, Copy, Debug, PartialEq, Eq)]
pub enum DumpFault {
    /// The bytes are no body. The lines of the operators that were read are written.
    Refused(Error),
    /// The input can't be read. Nothing is written.
    Reading,
    /// The output can't be written.
    Writing,
    /// Allocation failed. Nothing is written.
    Memory,
}

impl DumpFault {
    /// Returns the exit status of the program.
    pub fn status(&self) -> u8
        ensures { result ≡ status_of self.now }
    {
        match self {
            DumpFault::Refused(_) => 1,
            DumpFault::Reading | DumpFault::Writing | DumpFault::Memory => 3,
        }
    }
}

impl fmt::Display for DumpFault {
    fn fmt<W: fmt::Write>(&self, f: &mut fmt::Formatter<W>) -> fmt::Result {
        match self {
            DumpFault::Refused(error) => {
                let offset = error.offset();
                let message = error.message();
                write!(f, "error at {offset}: {message}")
            }
            DumpFault::Reading => f.write_str("cannot read input"),
            DumpFault::Writing => f.write_str("cannot write output"),
            DumpFault::Memory => f.write_str("out of memory"),
        }
    }
}
