//! Values that no bytes encode.

use crate::constants::write_equal_constants;
use crate::row::Given;
use std::alloc::Global;
use wasm_listing::{Census, DumpFault};
use wasm_operators::{Error, Message, OperatorsReaderAllocations};
use wasm_tests_texts::Written;

pub fn write_scenario(alloc: Global, given: Given<'_>, out: &mut String) -> Written {
    match given.argument {
        "equal_constants" => write_equal_constants(alloc, out),
        "faults" => write_faults(out),
        "debug_census" => write!(out, "{:?}", Census::new()),
        "debug_refused" => {
            let refused = DumpFault::Refused(Error::new(Message::EndOfData, 7));
            write!(out, "{refused:?}")
        }
        "debug_reading" => write!(out, "{:?}", DumpFault::Reading),
        "debug_allocations" => write!(out, "{:?}", OperatorsReaderAllocations::new(alloc)),
        _ => out.push_str("no scenario has this name"),
    }
}

fn write_faults(out: &mut String) -> Written {
    for fault in [DumpFault::Reading, DumpFault::Writing, DumpFault::Memory] {
        let status = fault.status();
        write!(out, "{fault}, status {status};")?;
    }
    Ok(())
}
