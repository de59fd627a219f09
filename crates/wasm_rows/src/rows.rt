//! Bytes in rows of sixteen, in hexadecimal and as characters.
ghost use Rattle.std.specs.Prelude.{◌≡◌, ◌++◌, ◌<◌, ◌≤◌, ◌*◌, ◌∷◌, [], length, map, OnOk, string_bytes};
ghost use Rattle.wasm_rows.specs.Rows.{address_text, cell_text, pair_text, half_text, columns_text, glyph, row_text, row_at, rows_text};
ghost use Rattle.wasm_rows.specs.Writing.{WritesText, WritesPieces};

use crate::fault::Fault;
use crate::writing::write_text;
use std::io::Write;
use wasm_text::{Written, write_byte};

/// The number of bytes in a row.
const BYTES: usize = 16;

/// The first address with more than six hexadecimal digits.
const SEVEN_DIGITS: u64 = 0x100_0000;

/// Appends an address, with at least seven digits.
fn push_address(out: &mut String, address: u64) -> Written
    ensures { OnOk result (string_bytes out.new ≡ string_bytes out.old ++ address_text address) }
{
    if address >= SEVEN_DIGITS {
        return write!(out, "{address:x}");
    }
    out.push_str("0")?;
    write_byte(out, (address / 0x1_0000) as u8)?;
    write_byte(out, (address / 0x100 % 0x100) as u8)?;
    write_byte(out, (address % 0x100) as u8)
}

/// Appends a byte of a row, or two spaces if it has none.
fn push_cell(out: &mut String, bytes: &[u8], at: usize) -> Written
    ensures { OnOk result (string_bytes out.new ≡ string_bytes out.old ++ cell_text bytes.now at) }
{
    if at < bytes.len() {
        write_byte(out, bytes[at])
    } else {
        out.push_str("  ")
    }
}

#[tactic(auto, unfolding(crate::specs::Rows::pair_text))]
fn push_pair(out: &mut String, bytes: &[u8], at: usize) -> Written
    requires { at < 16 }
    ensures { OnOk result (string_bytes out.new ≡ string_bytes out.old ++ pair_text bytes.now at) }
{
    push_cell(out, bytes, at)?;
    push_cell(out, bytes, at + 1)?;
    out.push_str(" ")
}

#[tactic(auto, unfolding(crate::specs::Rows::half_text))]
fn push_half(out: &mut String, bytes: &[u8], at: usize) -> Written
    requires { at < 9 }
    ensures { OnOk result (string_bytes out.new ≡ string_bytes out.old ++ half_text bytes.now at) }
{
    push_pair(out, bytes, at)?;
    push_pair(out, bytes, at + 2)?;
    push_pair(out, bytes, at + 4)?;
    push_pair(out, bytes, at + 6)
}

/// Returns the character of a printable ASCII byte, or a point.
fn glyph(byte: u8) -> u8
    ensures value { result ≡ glyph byte }
    ensures ascii { result < 128 }
{
    if byte < 0x20 {
        return b'.';
    }
    if byte < 0x7f { byte } else { b'.' }
}

#[tactic(auto, using(std::proofs::lemmas::Str::encode_ascii))]
fn push_glyph(out: &mut String, byte: u8) -> Written
    ensures { OnOk result (string_bytes out.new ≡ string_bytes out.old ++ glyph byte ∷ []) }
{
    out.push(char::from(glyph(byte)))
}

fn push_glyphs(out: &mut String, bytes: &[u8]) -> Written
    ensures { OnOk result (string_bytes out.new ≡ string_bytes out.old ++ map glyph bytes.now) }
{
    for byte in bytes {
        push_glyph(out, *byte)?;
    }
    Ok(())
}

#[tactic(auto, unfolding(crate::specs::Rows::columns_text))]
/// Appends at most sixteen bytes in hexadecimal.
fn push_columns(out: &mut String, bytes: &[u8]) -> Written
    ensures { OnOk result (string_bytes out.new ≡ string_bytes out.old ++ columns_text bytes.now) }
{
    push_half(out, bytes, 0)?;
    push_half(out, bytes, 8)?;
    out.push_str(" ")
}

#[tactic(auto, unfolding(crate::specs::Rows::row_text))]
/// Appends a row of at most sixteen bytes.
fn push_row(out: &mut String, before: &str, address: u64, bytes: &[u8]) -> Written
    ensures { OnOk result (string_bytes out.new ≡ string_bytes out.old ++ row_text before.now address bytes.now) }
{
    out.push_str(before)?;
    push_address(out, address)?;
    out.push_str(": ")?;
    push_columns(out, bytes)?;
    push_glyphs(out, bytes)?;
    out.push_str("\n")
}

/// Writes the row with this number of bytes, of which the first has this address.
fn write_row<W: Write>(
    writer: &mut W,
    line: &mut String,
    before: &str,
    address: u64,
    bytes: &[u8],
    number: usize,
) -> Result<(), Fault>
    requires { number * 16 ≤ length bytes.now }
    ensures { WritesText (row_at before.now address bytes.now number) result (W.contents writer.old) (W.contents writer.new) }
{
    let skipped = number * BYTES;
    let left = &bytes[skipped..];
    let shown = left.len().min(BYTES);
    line.clear();
    if push_row(
        line,
        before,
        address.wrapping_add(skipped as u64),
        &left[..shown],
    )
    .is_err()
    {
        return Err(Fault::Memory);
    }
    write_text(writer, line.as_str())
}

/// Writes bytes, of which the first has this address, in rows that begin with `before`.
///
/// Fails with `Writing` or `Memory`, after a part of the rows.
pub fn write_rows<W: Write>(
    writer: &mut W,
    line: &mut String,
    before: &str,
    address: u64,
    bytes: &[u8],
) -> Result<(), Fault>
    ensures { WritesPieces (rows_text before.now address bytes.now) result (W.contents writer.old) (W.contents writer.new) }
{
    let rows = (bytes.len() + 15) / BYTES;
    for number in 0..rows {
        if let Err(fault) = write_row(writer, line, before, address, bytes, number) {
            return Err(fault);
        }
    }
    Ok(())
}
