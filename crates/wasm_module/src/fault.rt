//! Why the functions of a module are not known.
ghost use Rattle.std.specs.Prelude.{◌≡◌};
ghost use Rattle.wasm_module.specs.Faults.{fault_of};

use crate::PreambleKind;
use std::fmt;
use wasm_below::{Error, Message};

#[derive(Clone, Copy, Debug, PartialEq, Eq)]
pub enum ModuleFault {
    /// The bytes do not start with the preamble of a module.
    NotModule(PreambleKind),
    /// The preamble, a section or an item of one is in error.
    Refused(Error),
    /// An import is of no known kind: its byte, and the offset of the import.
    ImportKind(u8, u64),
    /// A type is no function, structure or array type: the byte of its kind, and its offset.
    TypeKind(u8, u64),
    Memory,
}

impl From<Error> for ModuleFault {
    ghost from_gives = { λ error fault. fault ≡ fault_of error };

    /// Converts an allocation failure to `Memory`, any other error to `Refused`.
    fn from(error: Error) -> ModuleFault {
        match error.message() {
            Message::OutOfMemory => ModuleFault::Memory,
            _ => ModuleFault::Refused(error),
        }
    }
}

impl fmt::Display for ModuleFault {
    fn fmt<W: fmt::Write>(&self, f: &mut fmt::Formatter<W>) -> fmt::Result {
        match self {
            ModuleFault::NotModule(kind) => write!(f, "error: {kind}"),
            ModuleFault::Refused(error) => {
                let offset = error.offset();
                let message = error.message();
                write!(f, "error at {offset:06x}: {message}")
            }
            ModuleFault::ImportKind(kind, offset) => {
                write!(
                    f,
                    "error at {offset:06x}: unknown kind of import: 0x{kind:x}"
                )
            }
            ModuleFault::TypeKind(kind, offset) => {
                write!(f, "error at {offset:06x}: unknown type: 0x{kind:x}")
            }
            ModuleFault::Memory => f.write_str("out of memory"),
        }
    }
}
