//! Writers of numbers. A number has at most ten bytes.
ghost use Rattle.std.specs.Prelude.{◌≡◌, ◌+◌, ◌<◌, ◌≤◌, ◌^◌, ◌++◌, length, pos, vec_len, vec_capacity};
ghost use Rattle.wasm_below.specs.Number.{EncodesUnsigned, EncodesSigned};
ghost use Rattle.wasm_encode_numbers.specs.Appended.{Appends};
ghost use Rattle.wasm_encode_numbers.specs.Shortest.{unsigned_bytes, complemented, signed_septets, signed_bytes};

/// Appends the shortest encoding of an unsigned number of 64 bits: one to ten bytes.
#[inline(always)]
pub fn write_u64(out: &mut Vec<u8>, value: u64)
    requires { vec_len out.old + 10 ≤ vec_capacity out.old }
    ensures bytes { out.new.items ≡ out.old.items ++ unsigned_bytes value }
    ensures len { vec_len out.new ≤ vec_len out.old + 10 }
    ensures capacity { vec_capacity out.old ≤ vec_capacity out.new }
{
    if value < 128 {
        out.push_reserved(value as u8);
        return;
    }
    write_unsigned(out, value);
}

/// Appends like `write_u64`, which calls this for a number of several bytes.
#[inline(never)]
fn write_unsigned(out: &mut Vec<u8>, value: u64)
    requires { vec_len out.old + 10 ≤ vec_capacity out.old }
    ensures bytes { out.new.items ≡ out.old.items ++ unsigned_bytes value }
    ensures len { vec_len out.new ≤ vec_len out.old + 10 }
    ensures capacity { vec_capacity out.old ≤ vec_capacity out.new }
{
    let mut rest = value;
    for _septet in 0..9u32 {
        if rest < 128 {
            out.push_reserved(rest as u8);
            return;
        }
        out.push_reserved((rest % 128) as u8 + 128);
        rest /= 128;
    }
    out.push_reserved(rest as u8);
}

/// Appends the shortest encoding of an unsigned number of 32 bits: one to five bytes.
#[inline(always)]
pub fn write_u32(out: &mut Vec<u8>, value: u32)
    requires { vec_len out.old + 10 ≤ vec_capacity out.old }
    ensures written { Appends (EncodesUnsigned 32) value out.old.items out.new.items }
    ensures len { vec_len out.new ≤ vec_len out.old + 10 }
    ensures capacity { vec_capacity out.old ≤ vec_capacity out.new }
{
    write_u64(out, value as u64);
}

/// Returns the seven bits `low`, complemented if the number is negative.
#[inline(always)]
fn complemented(negative: bool, low: u8) -> u8
    requires { low < 128 }
    ensures value { result ≡ complemented negative low }
    ensures small { result < 128 }
{
    if negative { 127 - low } else { low }
}

/// Appends a number with this sign. `distance` is the number or, if it is negative, -1 minus it.
#[inline(always)]
fn write_with_sign(out: &mut Vec<u8>, negative: bool, distance: u64)
    requires space { vec_len out.old + 10 ≤ vec_capacity out.old }
    requires fits { distance < 2 ^ 63 }
    ensures bytes { out.new.items ≡ out.old.items ++ signed_septets negative 9 distance }
    ensures len { vec_len out.new ≤ vec_len out.old + 10 }
    ensures capacity { vec_capacity out.old ≤ vec_capacity out.new }
{
    if distance < 64 {
        out.push_reserved(complemented(negative, distance as u8));
        return;
    }
    write_signed_septets(out, negative, distance);
}

/// Appends like `write_with_sign`, which calls this for a number of several bytes.
#[inline(never)]
fn write_signed_septets(out: &mut Vec<u8>, negative: bool, distance: u64)
    requires space { vec_len out.old + 10 ≤ vec_capacity out.old }
    requires fits { distance < 2 ^ 63 }
    ensures bytes { out.new.items ≡ out.old.items ++ signed_septets negative 9 distance }
    ensures len { vec_len out.new ≤ vec_len out.old + 10 }
    ensures capacity { vec_capacity out.old ≤ vec_capacity out.new }
{
    let mut rest = distance;
    for _septet in 0..9u32 {
        if rest < 64 {
            out.push_reserved(complemented(negative, rest as u8));
            return;
        }
        out.push_reserved(complemented(negative, (rest % 128) as u8) + 128);
        rest /= 128;
    }
    out.push_reserved(complemented(negative, rest as u8));
}

/// Appends the shortest encoding of a signed number.
#[inline(always)]
fn write_signed(out: &mut Vec<u8>, value: i64)
    requires { vec_len out.old + 10 ≤ vec_capacity out.old }
    ensures bytes { out.new.items ≡ out.old.items ++ signed_bytes value }
    ensures len { vec_len out.new ≤ vec_len out.old + 10 }
    ensures capacity { vec_capacity out.old ≤ vec_capacity out.new }
{
    if value < 0 {
        write_with_sign(out, true, (-1 - value) as u64);
        return;
    }
    write_with_sign(out, false, value as u64);
}

/// Appends the shortest encoding of a signed number of 64 bits: one to ten bytes.
#[inline(always)]
pub fn write_i64(out: &mut Vec<u8>, value: i64)
    requires { vec_len out.old + 10 ≤ vec_capacity out.old }
    ensures written { Appends (EncodesSigned 64) value out.old.items out.new.items }
    ensures len { vec_len out.new ≤ vec_len out.old + 10 }
    ensures capacity { vec_capacity out.old ≤ vec_capacity out.new }
{
    write_signed(out, value);
}

/// Appends the shortest encoding of a signed number of 32 bits: one to five bytes.
#[inline(always)]
pub fn write_i32(out: &mut Vec<u8>, value: i32)
    requires { vec_len out.old + 10 ≤ vec_capacity out.old }
    ensures written { Appends (EncodesSigned 32) value out.old.items out.new.items }
    ensures len { vec_len out.new ≤ vec_len out.old + 10 }
    ensures capacity { vec_capacity out.old ≤ vec_capacity out.new }
{
    write_signed(out, value as i64);
}

/// Appends the shortest encoding of a type index as a positive signed number of 33 bits (Binary
/// Format, Types): one to five bytes.
#[inline(always)]
pub fn write_s33(out: &mut Vec<u8>, index: u32)
    requires { vec_len out.old + 10 ≤ vec_capacity out.old }
    ensures bytes { out.new.items ≡ out.old.items ++ signed_bytes (pos index) }
    ensures len { vec_len out.new ≤ vec_len out.old + 10 }
    ensures capacity { vec_capacity out.old ≤ vec_capacity out.new }
{
    write_with_sign(out, false, index as u64);
}

/// Appends bytes as they are.
#[inline(always)]
pub fn write_bytes(out: &mut Vec<u8>, block: &[u8])
    requires { vec_len out.old + length block.now ≤ vec_capacity out.old }
    ensures bytes { out.new.items ≡ out.old.items ++ block.now }
    ensures len { vec_len out.new ≡ vec_len out.old + length block.now }
    ensures capacity { vec_capacity out.old ≤ vec_capacity out.new }
{
    out.extend_from_slice(block).unwrap();
}
