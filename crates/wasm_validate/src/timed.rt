use crate::reports::{PROGRAM, report};
use std::io;
use std::time::{Duration, Instant};
use wasm_operators::{BinaryReader, WasmFeatures};
use wasm_payloads::{Payload, parse_all};
use wasm_programs::{complain_input, complain_output};
use wasm_validation::{Fault, Validator};

/// Returns the name of the section that a payload is or belongs to, and for the code section, how many
/// bodies are left after it if `bodies` were left before. The name of the preamble and of the end is
/// empty.
fn section_of(payload: &Payload<'_>, bodies: u32) -> (&'static str, u32) {
    match payload {
        Payload::CustomSection(_) => ("custom", 0),
        Payload::TypeSection(_) => ("type", 0),
        Payload::ImportSection(_) => ("import", 0),
        Payload::FunctionSection(_) => ("function", 0),
        Payload::TableSection(_) => ("table", 0),
        Payload::MemorySection(_) => ("memory", 0),
        Payload::TagSection(_) => ("tag", 0),
        Payload::GlobalSection(_) => ("global", 0),
        Payload::ExportSection(_) => ("export", 0),
        Payload::StartSection { .. } => ("start", 0),
        Payload::ElementSection(_) => ("element", 0),
        Payload::DataCountSection { .. } => ("data count", 0),
        Payload::DataSection(_) => ("data", 0),
        Payload::CodeSectionStart { count, .. } => ("code", *count),
        Payload::CodeSectionEntry(_) => ("code", bodies.saturating_sub(1)),
        Payload::UnknownSection { .. } | Payload::Version { .. } | Payload::End(_) => ("", 0),
    }
}

/// Prints the time of a section in milliseconds.
fn print_time(rt: &HostRuntime, file: &str, section: &str, time: Duration) -> io::Result<()> {
    let micros = time.as_micros();
    let whole = micros / 1000;
    let part = micros % 1000;
    println!(rt; "{file}: {section}: {whole}.{part:03} ms")
}

/// Prints why the clock cannot be read, and returns the exit status.
fn complain_clock(rt: &HostRuntime, error: io::Error) -> u8 {
    complain_input(rt, PROGRAM, "cannot read the clock", error)
}

/// Validates a module, and prints the time of each section that is valid. Returns the exit status,
/// after a message unless it is 0.
pub fn validate_timed(rt: &HostRuntime, features: WasmFeatures, file: &str, bytes: &[u8]) -> u8 {
    let reader = BinaryReader::new_features(bytes, 0, features);
    let mut validator = Validator::new(rt.alloc());
    let mut bodies: u32 = 0;
    let mut start = match Instant::now(rt) {
        Ok(now) => now,
        Err(error) => return complain_clock(rt, error),
    };
    for item in parse_all(rt.alloc(), reader) {
        let payload = match item {
            Ok(payload) => payload,
            Err(e) => return report(rt, file, bytes, Fault::Parse(e)),
        };
        let (section, left) = section_of(&payload, bodies);
        bodies = left;
        match validator.payload(rt.alloc(), payload) {
            Ok(next) => validator = next,
            Err(fault) => return report(rt, file, bytes, fault),
        }
        if bodies > 0 || section.is_empty() {
            continue;
        }
        let now = match Instant::now(rt) {
            Ok(now) => now,
            Err(error) => return complain_clock(rt, error),
        };
        match print_time(rt, file, section, now.duration_since(start)) {
            Ok(()) => start = now,
            Err(error) => return complain_output(rt, PROGRAM, error),
        }
    }
    0
}
