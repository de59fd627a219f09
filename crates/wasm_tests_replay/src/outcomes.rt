use wasm_operators::{Error, Result};
use wasm_tests_texts::Written;

pub fn write_refusal(out: &mut String, e: Error) -> Written {
    let number = e.message().number();
    let offset = e.offset();
    write!(out, "E{number}@{offset}")
}

pub fn write_visits(out: &mut String, visits: u64, outcome: Result<()>) -> Written {
    write!(out, "{visits} ")?;
    match outcome {
        Ok(()) => out.push_str("Ok"),
        Err(e) => write_refusal(out, e),
    }
}

/// Returns the 64-bit FNV-1a hash of a text.
pub fn fingerprint(text: &[u8]) -> u64 {
    let mut print = 0xcbf2_9ce4_8422_2325;
    for byte in text {
        print = (print ^ u64::from(*byte)).wrapping_mul(0x100_0000_01b3);
    }
    print
}
