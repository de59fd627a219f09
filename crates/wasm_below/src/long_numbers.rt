//! LEB128 numbers of several bytes: septets (seven bits), the lowest first.
ghost use Rattle.std.specs.Prelude.{◌≡◌, ◌+◌, ◌-◌, ◌*◌, ◌≤◌, ◌<◌, ◌^◌, ◌↔◌, IsTrue, IfOk, IfErr, IfSome};
ghost use Rattle.wasm_below.specs.Number.{EncodesUnsigned, EncodesSigned, FitsWidth, last_value};
ghost use Rattle.wasm_below.specs.Leb128.{IsSeptets, RefusesSeptets, NumberAt, NoNumber, HasPlace, refusal_message, refusal_offset, signed_value};

use crate::error::Error;
use crate::message::{Message, NumberName};
use crate::packed_reads::{SignedRead, UnsignedRead};

#[derive(Clone, Copy)]
pub enum NumberRefusal {
    /// The data ends before the last byte.
    EndOfData,
    /// The last byte that the width allows is a continuation byte.
    TooLong,
    /// The last byte has a bit beyond the width.
    TooLarge,
}

/// The septets of a number: the last byte, and the bytes before it as one number of `shift` bits.
#[derive(Clone, Copy)]
pub struct Septets {
    pub low: u64,
    pub shift: u32,
    pub last: u8,
    /// The position after the last byte.
    pub after: usize,
}

#[derive(Clone, Copy)]
pub struct Unsigned {
    pub value: u64,
    pub after: usize,
}

#[derive(Clone, Copy)]
pub struct Signed {
    pub value: i64,
    pub after: usize,
}

/// Returns the error of a number at the offset `start`, in data that ends at `end`.
#[cold]
#[inline(never)]
pub fn number_error(
    refusal: NumberRefusal,
    start: u64,
    end: u64,
    bits: u32,
    name: NumberName,
) -> Error
    requires some { 0 < bits }
    requires place { HasPlace refusal bits start end }
    ensures message { result.message ≡ refusal_message refusal name }
    ensures offset { result.offset ≡ refusal_offset refusal bits start end }
{
    match refusal {
        NumberRefusal::EndOfData => Error::new(Message::EndOfData, end),
        NumberRefusal::TooLong => Error::new(
            Message::IntegerTooLong(name),
            start + u64::from((bits - 1) / 7),
        ),
        NumberRefusal::TooLarge => Error::new(
            Message::IntegerTooLarge(name),
            start + u64::from((bits - 1) / 7),
        ),
    }
}

/// Reads the unsigned number at this position if it has two bytes.
#[inline(always)]
pub fn two_bytes(buffer: &[u8], start: usize) -> Option<Unsigned>
    ensures of_32 { IfSome result (λ n. NumberAt (EncodesUnsigned 32) buffer.now start n.value n.after) }
    ensures of_64 { IfSome result (λ n. NumberAt (EncodesUnsigned 64) buffer.now start n.value n.after) }
    ensures within { IfSome result (λ n. n.value < 2 ^ 14) }
{
    if start >= buffer.len() || start + 1 >= buffer.len() {
        return None;
    }
    let first = buffer[start];
    let last = buffer[start + 1];
    if first < 128 || last >= 128 {
        return None;
    }
    Some(Unsigned {
        value: u64::from(first - 128) + 128 * u64::from(last),
        after: start + 2,
    })
}

#[inline(never)]
pub fn long_u32(buffer: &[u8], start: usize) -> UnsignedRead
    ensures number { IfOk result (λ n. NumberAt (EncodesUnsigned 32) buffer.now start n.value n.after) }
    ensures within { IfOk result (λ n. n.value < 2 ^ 32) }
    ensures refused { IfErr result (λ r. NoNumber (EncodesUnsigned 32) r 32 buffer.now start) }
{
    UnsignedRead::new(read_unsigned(buffer, start, 32))
}

#[inline(never)]
pub fn long_u64(buffer: &[u8], start: usize) -> UnsignedRead
    ensures number { IfOk result (λ n. NumberAt (EncodesUnsigned 64) buffer.now start n.value n.after) }
    ensures refused { IfErr result (λ r. NoNumber (EncodesUnsigned 64) r 64 buffer.now start) }
{
    UnsignedRead::new(read_unsigned(buffer, start, 64))
}

#[inline(never)]
pub fn long_i64(buffer: &[u8], start: usize) -> SignedRead
    ensures number { IfOk result (λ n. NumberAt (EncodesSigned 64) buffer.now start n.value n.after) }
    ensures refused { IfErr result (λ r. NoNumber (EncodesSigned 64) r 64 buffer.now start) }
{
    SignedRead::new(read_signed(buffer, start, 64))
}

pub fn long_i32(buffer: &[u8], start: usize) -> Result<Signed, NumberRefusal>
    ensures number { IfOk result (λ n. NumberAt (EncodesSigned 32) buffer.now start n.value n.after) }
    ensures within { IfOk result (λ n. FitsWidth 32 n.value) }
    ensures refused { IfErr result (λ r. NoNumber (EncodesSigned 32) r 32 buffer.now start) }
{
    read_signed(buffer, start, 32)
}

pub fn long_s33(buffer: &[u8], start: usize) -> Result<Signed, NumberRefusal>
    ensures number { IfOk result (λ n. NumberAt (EncodesSigned 33) buffer.now start n.value n.after) }
    ensures refused { IfErr result (λ r. NoNumber (EncodesSigned 33) r 33 buffer.now start) }
{
    read_signed(buffer, start, 33)
}

#[inline(always)]
pub fn read_unsigned(buffer: &[u8], start: usize, bits: u32) -> Result<Unsigned, NumberRefusal>
    requires low { 0 < bits }
    requires high { bits ≤ 64 }
    ensures number { IfOk result (λ n. NumberAt (EncodesUnsigned bits) buffer.now start n.value n.after) }
    ensures within { IfOk result (λ n. n.value < 2 ^ bits) }
    ensures refused { IfErr result (λ r. NoNumber (EncodesUnsigned bits) r bits buffer.now start) }
{
    let septets = match read_septets(buffer, start, bits) {
        Ok(septets) => septets,
        Err(refusal) => return Err(refusal),
    };
    if !fits_unsigned(septets.last, bits - septets.shift) {
        return Err(NumberRefusal::TooLarge);
    }
    Ok(Unsigned {
        value: join_unsigned(septets.low, septets.shift, septets.last),
        after: septets.after,
    })
}

#[inline(always)]
pub fn read_signed(buffer: &[u8], start: usize, bits: u32) -> Result<Signed, NumberRefusal>
    requires low { 0 < bits }
    requires high { bits ≤ 64 }
    ensures number { IfOk result (λ n. NumberAt (EncodesSigned bits) buffer.now start n.value n.after) }
    ensures within { IfOk result (λ n. FitsWidth bits n.value) }
    ensures refused { IfErr result (λ r. NoNumber (EncodesSigned bits) r bits buffer.now start) }
{
    let septets = match read_septets(buffer, start, bits) {
        Ok(septets) => septets,
        Err(refusal) => return Err(refusal),
    };
    if !fits_signed(last_value(septets.last), bits - septets.shift) {
        return Err(NumberRefusal::TooLarge);
    }
    Ok(Signed {
        value: join_signed(septets.low, septets.shift, septets.last),
        after: septets.after,
    })
}

#[inline(always)]
fn read_septets(buffer: &[u8], start: usize, bits: u32) -> Result<Septets, NumberRefusal>
    requires low { 0 < bits }
    requires high { bits ≤ 64 }
    ensures septets { IfOk result (IsSeptets buffer.now start bits) }
    ensures refused { IfErr result (λ r. RefusesSeptets r bits buffer.now start) }
{
    let mut low = 0;
    let mut shift = 0;
    let mut position = start;
    for _septet in 0..(bits - 1) / 7 {
        if position >= buffer.len() {
            return Err(NumberRefusal::EndOfData);
        }
        let byte = buffer[position];
        position += 1;
        if byte < 128 {
            return Ok(Septets {
                low,
                shift,
                last: byte,
                after: position,
            });
        }
        low += u64::from(byte - 128) << shift;
        shift += 7;
    }
    if position >= buffer.len() {
        return Err(NumberRefusal::EndOfData);
    }
    let last = buffer[position];
    if last >= 128 {
        return Err(NumberRefusal::TooLong);
    }
    Ok(Septets {
        low,
        shift,
        last,
        after: position + 1,
    })
}

#[inline(always)]
pub fn last_value(byte: u8) -> i64
    requires { byte < 128 }
    ensures value { result ≡ last_value byte }
    ensures small { FitsWidth 7 result }
{
    i64::from((byte + 64) % 128) - 64
}

#[inline(always)]
fn fits_signed(value: i64, bits: u32) -> bool
    requires low { 0 < bits }
    requires small { FitsWidth 7 value }
    ensures { IsTrue result ↔ FitsWidth bits value }
{
    if bits >= 7 {
        return true;
    }
    let half = i64::from(1u8 << (bits - 1));
    -half <= value && value < half
}

#[inline(always)]
fn fits_unsigned(last: u8, bits: u32) -> bool
    requires { last < 128 }
    ensures { IsTrue result ↔ (last < 2 ^ bits) }
{
    if bits >= 7 {
        return true;
    }
    last >> bits == 0
}

#[inline(always)]
fn join_unsigned(low: u64, shift: u32, last: u8) -> u64
    requires shift { shift < 64 }
    requires low { low < 2 ^ shift }
    requires fits { last < 2 ^ (64 - shift) }
    ensures { result ≡ low + last * 2 ^ shift }
{
    low + (u64::from(last) << shift)
}

#[inline(always)]
fn join_signed(low: u64, shift: u32, last: u8) -> i64
    requires shift { shift < 64 }
    requires low { low < 2 ^ shift }
    requires last { last < 128 }
    requires fits { FitsWidth (64 - shift) (last_value last) }
    ensures { result ≡ signed_value low (2 ^ shift) last }
{
    low as i64 + (last_value(last) << shift)
}
