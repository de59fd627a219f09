use crate::CustomKind;
use std::fmt;
use wasm_module::PreambleKind;
use wasm_operators::Error;

/// Why a module was not compacted.
#[derive(Clone, Copy, Debug)]
pub enum CompactionFault {
    /// The bytes do not start with the preamble of a module.
    NotModule(PreambleKind),
    /// The preamble, a section, the name of a custom section, the number of bodies or the size of a
    /// body is in error, or data follows the bodies.
    Refused(Error),
    /// The body with this index in the code section, from 0 on, is in error.
    Body(u32, Error),
    /// A custom section of this kind can be neither kept nor dropped. The number is the offset of
    /// its name's length.
    Custom(CustomKind, u64),
    Memory,
}

impl fmt::Display for CompactionFault {
    fn fmt<W: fmt::Write>(&self, f: &mut fmt::Formatter<W>) -> fmt::Result {
        match self {
            CompactionFault::NotModule(kind) => write!(f, "error: {kind}"),
            CompactionFault::Refused(error) => {
                let offset = error.offset();
                let message = error.message();
                write!(f, "error at {offset:06x}: {message}")
            }
            CompactionFault::Body(index, error) => {
                let offset = error.offset();
                let message = error.message();
                write!(f, "error in body {index} at {offset:06x}: {message}")
            }
            CompactionFault::Custom(kind, offset) => {
                let reason = reason_of(*kind);
                write!(f, "error: the custom section at {offset:06x} {reason}")
            }
            CompactionFault::Memory => f.write_str("out of memory"),
        }
    }
}

/// Returns why a custom section of this kind is not copied.
pub fn reason_of(kind: CustomKind) -> &'static str {
    match kind {
        CustomKind::Independent => "is kept",
        CustomKind::Offsets => "may hold offsets of the code: --drop-offsets drops it",
        CustomKind::Relocations => "is part of an object file, which is not rewritten",
        CustomKind::Other => "is unknown: --keep NAME keeps it",
    }
}
