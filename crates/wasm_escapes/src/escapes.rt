ghost use Rattle.std.specs.Prelude.{◌≡◌, ◌++◌, ◌<◌, false, IfOk, OnOk, flat_map, string_bytes};
ghost use Rattle.std.specs.Fmt.{digit_glyph};
ghost use Rattle.wasm_escapes.specs.Escapes.{escape, utf8_byte, ascii_byte, utf8_name, escaped};

use std::alloc::{AllocError, Global};
use std::str::from_utf8;

/// Returns the hexadecimal digit of a number.
fn digit(value: u8) -> u8
    requires { value < 16 }
    ensures value { result ≡ digit_glyph false value }
    ensures ascii { result < 128 }
{
    if value < 10 {
        b'0' + value
    } else {
        b'a' - 10 + value
    }
}

/// Appends a byte, escaped: a backslash and two hexadecimal digits.
fn push_escape(out: &mut Vec<u8>, byte: u8) -> Result<(), AllocError>
    ensures { OnOk result (out.new.items ≡ out.old.items ++ escape byte) }
{
    out.push(b'\\')?;
    out.push(digit(byte / 16))?;
    out.push(digit(byte % 16))?;
    Ok(())
}

/// Appends a byte as shown in UTF-8.
fn push_byte(out: &mut Vec<u8>, byte: u8) -> Result<(), AllocError>
    ensures { OnOk result (out.new.items ≡ out.old.items ++ utf8_byte byte) }
{
    if byte < 0x20 {
        return push_escape(out, byte);
    }
    if byte == 0x7f {
        return push_escape(out, byte);
    }
    out.push(byte)?;
    Ok(())
}

/// Returns a name as shown in UTF-8.
fn utf8_name(alloc: Global, name: &[u8]) -> Result<Vec<u8>, AllocError>
    ensures { IfOk result (λ shown. shown.items ≡ utf8_name name.now) }
{
    let mut shown = Vec::new(alloc);
    for byte in name {
        push_byte(&mut shown, *byte)?;
    }
    Ok(shown)
}

#[tactic(auto, using(std::proofs::lemmas::Str::encode_ascii))]
/// Writes an escaped byte.
fn write_escape(out: &mut String, byte: u8) -> Result<(), AllocError>
    ensures { OnOk result (string_bytes out.new ≡ string_bytes out.old ++ escape byte) }
{
    out.push_str("\\")?;
    out.push(char::from(digit(byte / 16)))?;
    out.push(char::from(digit(byte % 16)))
}

#[tactic(auto, using(std::proofs::lemmas::Str::encode_ascii))]
/// Writes a byte as shown in ASCII.
fn write_ascii_byte(out: &mut String, byte: u8) -> Result<(), AllocError>
    ensures { OnOk result (string_bytes out.new ≡ string_bytes out.old ++ ascii_byte byte) }
{
    if byte < 0x20 {
        return write_escape(out, byte);
    }
    if byte >= 0x7f {
        return write_escape(out, byte);
    }
    out.push(char::from(byte))
}

/// Writes a name as shown in ASCII.
fn write_ascii(out: &mut String, name: &[u8]) -> Result<(), AllocError>
    ensures { OnOk result (string_bytes out.new ≡ string_bytes out.old ++ flat_map ascii_byte name.now) }
{
    for byte in name {
        write_ascii_byte(out, *byte)?;
    }
    Ok(())
}

#[tactic(auto, using(crate::proofs::Escaped::in_utf8, crate::proofs::Escaped::in_ascii))]
/// Writes a name with escaped ASCII control characters. If it is not UTF-8, bytes from 0x80 on are
/// escaped too.
pub fn write_escaped(alloc: Global, out: &mut String, name: &[u8]) -> Result<(), AllocError>
    ensures { OnOk result (string_bytes out.new ≡ string_bytes out.old ++ escaped name.now) }
{
    let shown = utf8_name(alloc, name)?;
    match from_utf8(shown.as_slice()) {
        Ok(text) => out.push_str(text),
        Err(_) => write_ascii(out, name),
    }
}
