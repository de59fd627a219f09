//! Messages on standard error, each with the names of the program and the file.
ghost use Rattle.std.specs.Prelude.{⊤};

use std::io;
use wasm_disassembly::{Complaints, Fault};
use wasm_operators::Error;
use wasm_programs::{complain_memory, shown_text};

/// The name of the program, in messages.
pub const PROGRAM: &str = "wasm_objdump";

/// Prints on standard error.
#[derive(Drop)]
pub struct Printed<'a> {
    rt: &'a HostRuntime,
    file: &'a str,
    last: Option<Fault>,
}

impl<'a> Printed<'a> {
    /// Creates a reporter for a file with this name.
    pub fn new(rt: &'a HostRuntime, file: &'a str) -> Printed<'a> {
        Printed {
            rt,
            file,
            last: None,
        }
    }

    /// Prints why the module is not listed completely, once, and returns the exit status. The
    /// failure of standard output is printed elsewhere.
    pub fn fault(&mut self, fault: Fault) -> u8 {
        let file = self.file;
        let is_printed = match self.last {
            Some(last) => last == fault,
            None => false,
        };
        self.last = Some(fault);
        if !is_printed && fault != Fault::Writing {
            let _ = eprintln!(self.rt; "{PROGRAM}: {file}: {fault}");
        }
        fault.status()
    }

    /// Prints that no thing of a kind has the requested name, and returns the exit status.
    fn no_thing(&self, kind: &str, name: &str) -> u8 {
        let file = self.file;
        let Ok(shown) = shown_text(self.rt.alloc(), name) else {
            return complain_memory(self.rt, PROGRAM);
        };
        let _ = eprintln!(self.rt; "{PROGRAM}: {file}: no {kind} is named {shown}");
        1
    }

    /// Prints that no function has the requested name, and returns the exit status.
    pub fn no_name(&self, name: &str) -> u8 {
        self.no_thing("function", name)
    }

    /// Prints that no section has the requested name, and returns the exit status.
    pub fn no_section(&self, name: &str) -> u8 {
        self.no_thing("section", name)
    }
}

impl<'a> Complaints for Printed<'a> {
    // Printing on standard error is not specified.
    ghost reports = { λ s index error t. ⊤ };

    fn complain(&mut self, index: u32, error: Error) -> io::Result<()> {
        let file = self.file;
        let offset = error.offset();
        let message = error.message();
        eprintln!(self.rt;
            "{PROGRAM}: {file}: error in function {index} at {offset:06x}: {message}"
        )
    }
}
