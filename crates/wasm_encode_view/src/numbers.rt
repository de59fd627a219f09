//! Numbers in the fewest bytes, as `wasm_encode_numbers` writes them, into a buffer.
ghost use Rattle.std.specs.Prelude.{◌≡◌, ◌+◌, ◌<◌, ◌≤◌, ◌^◌, ◌++◌, length, pos};
ghost use Rattle.wasm_encode_numbers.specs.Shortest.{unsigned_bytes, complemented, signed_septets, signed_bytes};

use crate::buffer::Buffer;

/// Appends an unsigned number: one to ten bytes.
pub fn write_unsigned(out: &mut Buffer, value: u64)
    requires { length out.old.items + 10 ≤ 64 }
    ensures bytes { out.new.items ≡ out.old.items ++ unsigned_bytes value }
    ensures len { length out.new.items ≤ length out.old.items + 10 }
{
    let mut rest = value;
    for _septet in 0..9u32 {
        if rest < 128 {
            out.push(rest as u8);
            return;
        }
        out.push((rest % 128) as u8 + 128);
        rest /= 128;
    }
    out.push(rest as u8);
}

/// Returns the seven bits `low`, complemented if the number is negative.
#[inline(always)]
fn complemented(negative: bool, low: u8) -> u8
    requires { low < 128 }
    ensures value { result ≡ complemented negative low }
    ensures small { result < 128 }
{
    if negative { 127 - low } else { low }
}

/// Appends a number with this sign. `distance` is the number or, if it is negative, -1 minus it.
fn write_with_sign(out: &mut Buffer, negative: bool, distance: u64)
    requires space { length out.old.items + 10 ≤ 64 }
    requires fits { distance < 2 ^ 63 }
    ensures bytes { out.new.items ≡ out.old.items ++ signed_septets negative 9 distance }
    ensures len { length out.new.items ≤ length out.old.items + 10 }
{
    let mut rest = distance;
    for _septet in 0..9u32 {
        if rest < 64 {
            out.push(complemented(negative, rest as u8));
            return;
        }
        out.push(complemented(negative, (rest % 128) as u8) + 128);
        rest /= 128;
    }
    out.push(complemented(negative, rest as u8));
}

/// Appends a signed number: one to ten bytes.
pub fn write_signed(out: &mut Buffer, value: i64)
    requires { length out.old.items + 10 ≤ 64 }
    ensures bytes { out.new.items ≡ out.old.items ++ signed_bytes value }
    ensures len { length out.new.items ≤ length out.old.items + 10 }
{
    if value < 0 {
        write_with_sign(out, true, (-1 - value) as u64);
        return;
    }
    write_with_sign(out, false, value as u64);
}

/// Appends a type index as a positive signed number: one to five bytes.
pub fn write_index(out: &mut Buffer, index: u32)
    requires { length out.old.items + 10 ≤ 64 }
    ensures bytes { out.new.items ≡ out.old.items ++ signed_bytes (pos index) }
    ensures len { length out.new.items ≤ length out.old.items + 10 }
{
    write_with_sign(out, false, index as u64);
}
