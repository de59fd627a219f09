use crate::row::Given;
use crate::words::{write_error, write_lines};
use bitflags::Flags;
use std::alloc::{AllocError, Global};
use wasm_listing::{DumpFault, census, features_of, proposal_at, run};
use wasm_operators::WasmFeatures;
use wasm_tests_texts::Written;

pub fn write_listing(
    alloc: Global,
    given: Given<'_>,
    written: &mut Vec<u8>,
    out: &mut String,
) -> Written {
    let mut reader = given.bytes;
    let mut end = run(alloc, given.features(), &mut reader, written);
    if matches!(end, Err(DumpFault::Memory)) && written.is_empty() {
        let mut again = given.bytes;
        end = run(alloc, given.features(), &mut again, written);
    }
    write_run(end, written.as_slice(), out)
}

pub fn write_run(end: Result<(), DumpFault>, written: &[u8], out: &mut String) -> Written {
    match end {
        Ok(()) => out.push_str("Ok")?,
        Err(fault) => write_fault(fault, out)?,
    }
    write_lines(out, written)
}

fn write_fault(fault: DumpFault, out: &mut String) -> Written {
    if matches!(fault, DumpFault::Memory) {
        return Err(AllocError);
    }
    let status = fault.status();
    write!(out, "{fault}, status {status}")
}

/// Lists a body of `given.number()` `nop` without `end`. Writes the error and the listing's length
/// in bytes. The time is linear.
pub fn write_nops(alloc: Global, given: Given<'_>, out: &mut String) -> Written {
    let nops = vec![in alloc; 0x01; given.number() as usize]?;
    let mut body = Vec::new(alloc);
    body.push(0x00)?;
    body.extend_from_slice(nops.as_slice())?;
    let mut reader = body.as_slice();
    let mut lines = Vec::new(alloc);
    match run(alloc, WasmFeatures::all(), &mut reader, &mut lines) {
        Ok(()) => out.push_str("Ok"),
        Err(DumpFault::Refused(e)) => {
            write_error(out, e)?;
            let length = lines.len();
            write!(out, ", {length} bytes")
        }
        Err(_) => Err(AllocError),
    }
}

pub fn write_census(alloc: Global, given: Given<'_>, out: &mut String) -> Written {
    let mut counted = census(alloc, given.features(), given.bytes);
    if matches!(counted, Err(DumpFault::Memory)) {
        counted = census(alloc, given.features(), given.bytes);
    }
    match counted {
        Ok(counts) => write_counts(&counts, out),
        Err(fault) => write_fault(fault, out),
    }
}

fn write_counts(counts: &[u64; 19], out: &mut String) -> Written {
    for (place, count) in counts.iter().enumerate() {
        if *count > 0 {
            let proposal = proposal_at(place);
            write!(out, "{count} {proposal};")?;
        }
    }
    Ok(())
}

/// Writes the bits of the features that the row's argument names; `-` means all.
pub fn write_features(given: Given<'_>, out: &mut String) -> Written {
    let features = if given.argument == "-" {
        features_of(None)
    } else {
        features_of(Some(given.argument))
    };
    match features {
        Some(features) => {
            let bits = features.bits();
            write!(out, "{bits}")
        }
        None => out.push_str("None"),
    }
}
