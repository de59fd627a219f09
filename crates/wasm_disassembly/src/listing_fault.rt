ghost use Rattle.std.specs.Prelude.{◌≡◌};
ghost use Rattle.wasm_disassembly.specs.Listing.{status_of};

use std::fmt;
use wasm_module::ModuleFault;
use wasm_operators::Error;

/// A function that a module does not define.
#[derive(Clone, Copy, Debug, PartialEq, Eq)]
pub struct MissingFunction {
    /// The index of the function.
    pub index: u32,
    /// The number of imported functions, which come first.
    pub imported: u32,
    /// The number of functions that the module defines.
    pub defined: usize,
}

/// Why a module was not listed or counted completely.
#[derive(Clone, Copy, Debug, PartialEq, Eq)]
pub enum Fault {
    /// The functions of the module can't be read. Nothing is written.
    Module(ModuleFault),
    /// The module defines no function with the requested index. Nothing is written.
    NoFunction(MissingFunction),
    /// A section is in error, after the sections that were written.
    Section(Error),
    /// The code section is in error, after the functions that were written.
    Code(Error),
    /// The output or a report can't be written.
    Writing,
    /// Allocation failed.
    Memory,
}

impl Fault {
    /// Returns the exit status of the program.
    pub fn status(&self) -> u8
        ensures { result ≡ status_of self.now }
    {
        match self {
            Fault::Module(ModuleFault::Memory) => 3,
            Fault::Module(_) | Fault::NoFunction(_) | Fault::Section(_) | Fault::Code(_) => 1,
            Fault::Writing | Fault::Memory => 3,
        }
    }
}

impl fmt::Display for MissingFunction {
    fn fmt<W: fmt::Write>(&self, f: &mut fmt::Formatter<W>) -> fmt::Result {
        let index = self.index;
        let first = self.imported;
        let last = u64::from(first).saturating_add((self.defined as u64).saturating_sub(1));
        if index < first {
            write!(f, "function {index} is imported; ")?;
        } else {
            write!(f, "no function {index}; ")?;
        }
        match self.defined {
            0 => f.write_str("the module defines no functions"),
            1 => write!(f, "the module defines function {first} only"),
            _ => write!(f, "the module defines functions {first} to {last}"),
        }
    }
}

impl fmt::Display for Fault {
    fn fmt<W: fmt::Write>(&self, f: &mut fmt::Formatter<W>) -> fmt::Result {
        match self {
            Fault::Module(fault) => write!(f, "{fault}"),
            Fault::NoFunction(missing) => write!(f, "{missing}"),
            Fault::Section(error) | Fault::Code(error) => {
                let offset = error.offset();
                let message = error.message();
                write!(f, "error at {offset:06x}: {message}")
            }
            Fault::Writing => f.write_str("cannot write output"),
            Fault::Memory => f.write_str("out of memory"),
        }
    }
}
