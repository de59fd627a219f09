use std::alloc::Global;
use std::fmt;
use wasm_context::ContextError;
use wasm_escapes::write_escaped;
use wasm_externals::Text;
use wasm_grammars::Read;
use wasm_module::function_name;
use wasm_module_context::PayloadError;
use wasm_operators::BinaryReader;
use wasm_programs::{OUTSIDE, REFUSED};
use wasm_validation::Fault;
use wasm_validation_texts::{FaultKind, function_of, kind_of, message_of};

/// The name of the program, in messages.
pub const PROGRAM: &str = "wasm_validate";

/// Where an error is: its offset, and for a function body, the index and the name of the function.
#[derive(Clone, Copy)]
struct Place<'a> {
    offset: u64,
    function: Option<(u32, &'a str)>,
}

impl<'a> fmt::Display for Place<'a> {
    fn fmt<W: fmt::Write>(&self, f: &mut fmt::Formatter<W>) -> fmt::Result {
        let offset = self.offset;
        write!(f, "error at 0x{offset:x}")?;
        match self.function {
            Some((index, "")) => write!(f, " (function {index})"),
            Some((index, name)) => write!(f, " (function {index} <{name}>)"),
            None => Ok(()),
        }
    }
}

/// Returns the name of a function without control characters; empty if the module gives none.
fn name_of(alloc: Global, bytes: &[u8], function: u32) -> String {
    let mut shown = String::new(alloc);
    if let Ok(name) = function_name(alloc, bytes, function) {
        let _ = write_escaped(alloc, &mut shown, name.as_bytes());
    }
    shown
}

/// Prints the error of a file, and returns the exit status.
fn print_error(rt: &HostRuntime, file: &str, bytes: &[u8], offset: u64, fault: &Fault<'_>) -> u8 {
    let Some(message) = message_of(rt.alloc(), fault) else {
        return print_memory(rt, file);
    };
    let function = function_of(fault);
    let name = match function {
        Some(index) => name_of(rt.alloc(), bytes, index),
        None => String::new(rt.alloc()),
    };
    let place = Place {
        offset,
        function: match function {
            Some(index) => Some((index, name.as_str())),
            None => None,
        },
    };
    let _ = eprintln!(rt; "{file}: {place}: {message}");
    REFUSED
}

/// Returns the name of the export at an offset, without control characters.
fn export_name(alloc: Global, bytes: &[u8], offset: u64) -> String {
    let mut shown = String::new(alloc);
    if let Some(rest) = bytes.get(offset as usize..) {
        let mut reader = BinaryReader::new(rest, 0);
        if let Ok(name) = Text::read_from(alloc, &mut reader) {
            let _ = write_escaped(alloc, &mut shown, name.as_str().as_bytes());
        }
    }
    shown
}

/// Prints that an export before has the same name, and returns the exit status.
fn report_duplicate(rt: &HostRuntime, file: &str, bytes: &[u8], offset: u64) -> u8 {
    let name = export_name(rt.alloc(), bytes, offset);
    let place = Place {
        offset,
        function: None,
    };
    let _ = eprintln!(rt; "{file}: {place}: duplicate export name `{name}` already defined");
    REFUSED
}

/// Prints that allocation failed, and returns the exit status.
fn print_memory(rt: &HostRuntime, file: &str) -> u8 {
    let _ = eprintln!(rt; "{PROGRAM}: {file}: out of memory");
    OUTSIDE
}

/// Prints why a module is rejected, and returns the exit status.
pub fn report(rt: &HostRuntime, file: &str, bytes: &[u8], fault: Fault<'_>) -> u8 {
    if let Fault::Section(PayloadError::Context(ContextError::DuplicateExport, offset)) = &fault {
        return report_duplicate(rt, file, bytes, *offset);
    }
    match kind_of(&fault) {
        FaultKind::Memory => print_memory(rt, file),
        FaultKind::Malformed(error) => print_error(rt, file, bytes, error.offset(), &fault),
        FaultKind::Invalid(offset) => print_error(rt, file, bytes, offset, &fault),
    }
}
