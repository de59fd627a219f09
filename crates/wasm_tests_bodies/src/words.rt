use std::alloc::AllocError;
use wasm_operators::{BinaryReader, Error, Message, Result};
use wasm_tests_texts::Written;

pub fn write_error(out: &mut String, e: Error) -> Written {
    if matches!(e.message(), Message::OutOfMemory) {
        return Err(AllocError);
    }
    let number = e.message().number();
    let offset = e.offset();
    write!(out, "E{number}@{offset}")
}

pub fn is_lacking<T>(called: &Result<T>, offset: u64) -> bool {
    match called {
        Ok(_) => false,
        Err(e) => matches!(e.message(), Message::OutOfMemory) && e.offset() == offset,
    }
}

pub fn write_position(out: &mut String, reader: &BinaryReader<'_>) -> Written {
    let position = reader.original_position();
    write!(out, " at {position}")
}

pub fn write_bytes(out: &mut String, bytes: &[u8]) -> Written {
    for byte in bytes {
        write!(out, "{byte:02x}")?;
    }
    Ok(())
}

pub fn write_name(out: &mut String, name: &[u8]) -> Written {
    out.push_str(str::from_utf8(name).unwrap_or("(not UTF-8)"))
}

/// Writes `text` in quotation marks, with `\n` for each line feed.
pub fn write_lines(out: &mut String, text: &[u8]) -> Written {
    let Ok(text) = str::from_utf8(text) else {
        return out.push_str(" (not UTF-8)");
    };
    out.push_str(" \"")?;
    for (place, line) in text.split('\n').enumerate() {
        if place > 0 {
            out.push_str("\\n")?;
        }
        out.push_str(line)?;
    }
    out.push_str("\"")
}
