use crate::ModuleFault;
use wasm_below::Error;

/// Why the bodies of a module, or the name of a function, can't be read.
#[derive(Clone, Copy, Debug, PartialEq, Eq)]
pub enum BodiesFault {
    /// The sections that describe functions are in error, or allocation failed.
    Functions(ModuleFault),
    /// The number of bodies is in error.
    Code(Error),
    /// The numbers of bodies and functions differ.
    Counts,
    /// The module defines no function with the requested index.
    NoFunction,
}

/// Why no body is read.
#[derive(Clone, Copy, Debug, PartialEq, Eq)]
pub enum NoBody {
    /// All bodies were read, and no data is left.
    End,
    /// The body's length is in error, the data ends within the body, or data is left after the last
    /// one.
    Refused(Error),
    /// The place was not opened with these bytes, or was overwritten.
    NotBodies,
}
