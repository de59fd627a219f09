ghost use Rattle.std.specs.Prelude.{◌≡◌, ◌++◌, ◌+◌, ◌-◌, ◌*◌, ◌/◌, ◌^◌, ◌<◌, ◌≤◌, OnOk, string_bytes, length, codes, flat_map};
ghost use Rattle.std.specs.List.{repeat};
ghost use Rattle.wasm_text.specs.Values.{spaced_byte};
ghost use Rattle.wasm_text.specs.Rows.{offset_text, column, row, line_begin, line_end};

use crate::{Written, write_byte, write_spaced_byte};

const BYTES: usize = 9;

/// The first offset with more than six hexadecimal digits.
const SEVEN_DIGITS: u64 = 0x100_0000;

pub fn write_offset(out: &mut String, offset: u64) -> Written
    ensures { OnOk result (string_bytes out.new ≡ string_bytes out.old ++ offset_text offset) }
{
    if offset >= SEVEN_DIGITS {
        return write!(out, "{offset:x}");
    }
    write_byte(out, (offset / 0x1_0000) as u8)?;
    write_byte(out, (offset / 0x100 % 0x100) as u8)?;
    write_byte(out, (offset % 0x100) as u8)
}

fn write_address(out: &mut String, offset: u64) -> Written
    ensures { OnOk result (string_bytes out.new ≡ string_bytes out.old ++ (codes " " ++ (offset_text offset ++ codes ":"))) }
{
    out.push_str(" ")?;
    write_offset(out, offset)?;
    out.push_str(":")
}

fn write_shown_bytes(out: &mut String, bytes: &[u8]) -> Written
    ensures { OnOk result (string_bytes out.new ≡ string_bytes out.old ++ flat_map spaced_byte bytes.now) }
{
    for byte in bytes {
        write_spaced_byte(out, *byte)?;
    }
    Ok(())
}

fn write_times(out: &mut String, times: usize, text: &str) -> Written
    ensures { OnOk result (string_bytes out.new ≡ string_bytes out.old ++ repeat times text.now) }
{
    for _time in 0..times {
        out.push_str(text)?;
    }
    Ok(())
}

/// Returns three spaces for each missing byte, and then the bar.
fn bar_after(missing: usize) -> &'static str
    requires { missing ≤ 9 }
    ensures { result.now ≡ repeat missing (codes "   ") ++ codes " | " }
{
    match missing {
        0 => " | ",
        1 => "    | ",
        2 => "       | ",
        3 => "          | ",
        4 => "             | ",
        5 => "                | ",
        6 => "                   | ",
        7 => "                      | ",
        8 => "                         | ",
        _ => "                            | ",
    }
}

/// Writes the bytes of a row, padded to nine, and the bar.
fn write_room(out: &mut String, bytes: &[u8]) -> Written
    requires { length bytes.now ≤ 9 }
    ensures { OnOk result
        (string_bytes out.new ≡ string_bytes out.old ++ (flat_map spaced_byte bytes.now
        ++ (repeat (9 - length bytes.now) (codes "   ") ++ codes " | "))) }
{
    write_shown_bytes(out, bytes)?;
    out.push_str(bar_after(BYTES - bytes.len()))
}

fn write_column(out: &mut String, offset: u64, bytes: &[u8]) -> Written
    requires { length bytes.now ≤ 9 }
    ensures { OnOk result (string_bytes out.new ≡ string_bytes out.old ++ column offset bytes.now) }
{
    write_address(out, offset)?;
    write_room(out, bytes)
}

/// Writes the address and the bytes of row `number`.
fn write_row(out: &mut String, offset: u64, bytes: &[u8], number: usize) -> Written
    requires within { number * 9 ≤ length bytes.now }
    requires fits { offset + length bytes.now < 2 ^ 64 }
    ensures { OnOk result (string_bytes out.new ≡ string_bytes out.old ++ row offset bytes.now number) }
{
    let before = number * BYTES;
    let left = &bytes[before..];
    let shown = left.len().min(BYTES);
    write_column(out, offset + before as u64, &left[..shown])
}

/// Starts a line: the first row, and two spaces for each open construct.
pub fn begin_line(out: &mut String, depth: usize, offset: u64, bytes: &[u8]) -> Written
    requires { offset + length bytes.now < 2 ^ 64 }
    ensures { OnOk result (string_bytes out.new ≡ string_bytes out.old ++ line_begin depth offset bytes.now) }
{
    write_row(out, offset, bytes, 0)?;
    write_times(out, depth, "  ")
}

/// Ends the line, and writes the further rows of the bytes.
pub fn end_line(out: &mut String, offset: u64, bytes: &[u8]) -> Written
    requires { offset + length bytes.now < 2 ^ 64 }
    ensures { OnOk result (string_bytes out.new ≡ string_bytes out.old ++ line_end offset bytes.now) }
{
    out.push_str("\n")?;
    let last = bytes.len().saturating_sub(1) / BYTES;
    for number in 0..last {
        write_row(out, offset, bytes, number + 1)?;
        out.push_str("\n")?;
    }
    Ok(())
}
