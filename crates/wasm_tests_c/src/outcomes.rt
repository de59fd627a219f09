use crate::reading::Found;
use std::alloc::{AllocError, Global};
use wasm_c::{WasmOperator, WasmRefusal, wasm_operator_name, wasm_refusal_text};
use wasm_tests_texts::Written;

/// Writes how reading ended: the error's number or 0, the offset, and the number of operators.
pub fn write_end(out: &mut String, found: &Found) -> Written {
    let WasmRefusal { offset, number, .. } = found.end;
    let count = found.count;
    write!(out, "{number} {offset} {count}")
}

pub fn write_outcome(out: &mut String, found: &Found) -> Written {
    let WasmRefusal { offset, number, .. } = found.end;
    let count = found.count;
    if number == 0 {
        return write!(out, "{count} Ok");
    }
    write!(out, "{count} E{number}@{offset}")
}

/// Writes the fingerprint of the operators' lines, each an offset and a name.
pub fn write_lines(alloc: Global, out: &mut String, operators: &[WasmOperator]) -> Written {
    let mut lines = String::new(alloc);
    for operator in operators {
        write_line(&mut lines, operator)?;
    }
    let print = fingerprint(lines.as_bytes());
    write!(out, "{print:016x}")
}

fn write_line(out: &mut String, operator: &WasmOperator) -> Written {
    let mut name = [0u8; 32];
    let length = wasm_operator_name(operator, &mut name);
    let offset = operator.offset;
    let name = start_of(&name, length);
    write!(out, "{offset} {name}\n")
}

pub fn write_text(out: &mut String, refusal: &WasmRefusal) -> Written {
    let mut text = [0u8; 128];
    let length = wasm_refusal_text(refusal, &mut text);
    out.push_str(start_of(&text, length))
}

/// Returns the text of this length that an array starts with.
pub fn start_of<'t>(array: &'t [u8], length: usize) -> &'t str {
    match array.get(..length) {
        Some(bytes) => str::from_utf8(bytes).unwrap_or("no text"),
        None => "a text that is too long",
    }
}

/// Returns the fingerprint of a text: FNV-1a, 64 bits.
fn fingerprint(text: &[u8]) -> u64 {
    let mut print = 0xcbf2_9ce4_8422_2325;
    for byte in text {
        print = (print ^ u64::from(*byte)).wrapping_mul(0x100_0000_01b3);
    }
    print
}
