use crate::row::Given;
use crate::single::Under;
use crate::words::{write_error, write_lines};
use std::alloc::{AllocError, Global};
use wasm_disassembly::{DisassemblyFault, disassemble};
use wasm_index_names::only_functions;
use wasm_operators::{FunctionBody, ReadOperators};
use wasm_tests_texts::Written;

pub fn write_text(alloc: Global, given: Given<'_>, out: &mut String) -> Written {
    let reader = given.reader();
    match reader.peek_operator(alloc, &Under(given.frame())) {
        Ok(op) => wasm_text::write_operator(out, &op),
        Err(e) => write_error(out, e),
    }
}

fn four_names(alloc: Global) -> Result<Vec<String>, AllocError> {
    let mut names = Vec::new(alloc);
    for _unnamed in 0..3 {
        names.push(String::new(alloc))?;
    }
    names.push(String::from_str(alloc, "f")?)?;
    Ok(names)
}

/// Writes the result and the text of disassembling function 3, named `f`. The row's argument is the
/// number of parameters.
pub fn write_disassembly(alloc: Global, given: Given<'_>, out: &mut String) -> Written {
    let body = FunctionBody::new(given.reader());
    let mut written = Vec::new(alloc);
    let names = only_functions(alloc, four_names(alloc)?);
    let end = disassemble(alloc, &mut written, 3, &names, given.number(), &body);
    match end {
        Ok(()) => out.push_str("Ok")?,
        Err(DisassemblyFault::Refused(e)) => {
            let offset = e.offset();
            let message = e.message();
            write!(out, "{offset}: {message}")?;
        }
        // A `Vec` fails only if it cannot grow.
        Err(DisassemblyFault::Memory | DisassemblyFault::Writing) => return Err(AllocError),
    }
    write_lines(out, written.as_slice())
}
