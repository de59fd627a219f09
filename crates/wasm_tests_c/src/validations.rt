//! The verdicts of modules, by the call of C programs.

use crate::outcomes;
use crate::reading::UNWRITTEN;
use std::alloc::Global;
use wasm_c::WasmRefusal;
use wasm_c_validation::wasm_validate_module;
use wasm_tests_texts::Written;

const ALL: u32 = 63;

const INVALID: u32 = 113;

const UNKNOWN_FEATURES: u32 = 100;

/// The longest message is shorter.
const LONGEST: usize = 256;

/// The verdict of a call.
#[derive(Clone, Copy)]
struct Verdict {
    function: u64,
    message: [u8; LONGEST],
    length: usize,
    refusal: WasmRefusal,
}

/// Validates a module with space for a message of so many bytes.
fn verdict_of(alloc: Global, bytes: &[u8], features: u32, space: usize) -> Verdict {
    let mut message = [0u8; LONGEST];
    let (mut function, mut length, mut refusal) = (7, 7, UNWRITTEN);
    if let Some(out) = message.get_mut(..space) {
        wasm_validate_module(
            alloc,
            bytes,
            features,
            &mut function,
            out,
            &mut length,
            &mut refusal,
        );
    }
    Verdict {
        function,
        message,
        length,
        refusal,
    }
}

/// Returns whether a part of a message begins the whole one, with nothing after it.
fn is_part(part: &Verdict, whole: &Verdict, space: usize) -> bool {
    let mut is_part = part.length == whole.length && part.refusal == whole.refusal;
    for index in 0..LONGEST {
        let expected = if index < space {
            whole.message[index]
        } else {
            0
        };
        is_part = is_part && part.message[index] == expected;
    }
    is_part
}

/// Writes a message. For an error of the bytes, it is the text of the refusal.
fn write_message(alloc: Global, out: &mut String, verdict: &Verdict) -> Written {
    let text = outcomes::start_of(&verdict.message, verdict.length);
    let mut expected = String::new(alloc);
    outcomes::write_text(&mut expected, &verdict.refusal)?;
    if verdict.refusal.number != INVALID && text != expected.as_str() {
        return out.push_str("another text");
    }
    out.push_str(text)
}

/// Writes `ok`, or the offset of the error, the function that it is in, and the message. Then whether
/// a shorter array has a part of the message, and whether unknown features are an error.
pub fn write_verdict(alloc: Global, out: &mut String, bytes: &[u8]) -> Written {
    let found = verdict_of(alloc, bytes, ALL, LONGEST);
    let offset = found.refusal.offset;
    if found.refusal.number == 0 {
        out.push_str("ok")?;
    } else {
        write!(out, "0x{offset:x} ")?;
        match u32::try_from(found.function) {
            Ok(index) => write!(out, "{index} ")?,
            Err(_) => out.push_str("- ")?,
        }
        write_message(alloc, out, &found)?;
    }
    let space = found.length / 2;
    let is_part = is_part(&verdict_of(alloc, bytes, ALL, space), &found, space);
    let unknown = verdict_of(alloc, bytes, ALL + 1, LONGEST);
    let is_unknown = unknown.refusal.number == UNKNOWN_FEATURES && unknown.length == 0;
    write!(out, " {is_part} {is_unknown}")
}
