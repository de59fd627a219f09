use crate::extent::Extent;
use wasm_below::{BinaryReader, Error, Message, NumberName};

#[derive(Clone, Copy)]
pub struct Tally {
    pub read: u32,
    pub differ: u32,
}

impl Tally {
    pub fn new() -> Tally {
        Tally { read: 0, differ: 0 }
    }

    pub fn count(&mut self, read: bool, same: bool) {
        if read {
            self.read = self.read.wrapping_add(1);
        }
        if !same {
            self.differ = self.differ.wrapping_add(1);
        }
    }
}

/// A kind of number: its width, whether it has a sign, and its name in errors.
#[derive(Clone, Copy)]
struct Kind {
    bits: u32,
    signed: bool,
    word: NumberName,
}

fn last_place(bits: u32) -> usize {
    if bits > 35 { 9 } else { 4 }
}

fn unsigned_first(bytes: &[u8]) -> Option<(u64, usize)> {
    let (first, others) = bytes.split_first()?;
    if *first < 128 {
        return Some((u64::from(*first), 1));
    }
    let (high, length) = unsigned_first(others)?;
    let value = high.checked_mul(128)?.checked_add(u64::from(*first & 127))?;
    Some((value, length.checked_add(1)?))
}

fn signed_first(bytes: &[u8]) -> Option<(i64, usize)> {
    let (first, others) = bytes.split_first()?;
    if *first < 128 {
        let value = i64::from(*first);
        return Some((if value < 64 { value } else { value - 128 }, 1));
    }
    let (high, length) = signed_first(others)?;
    let value = high.checked_mul(128)?.checked_add(i64::from(*first & 127))?;
    Some((value, length.checked_add(1)?))
}

pub fn slow_unsigned(bytes: &[u8], bits: u32) -> Option<(u64, usize)> {
    let (value, length) = unsigned_first(bytes)?;
    let fits = bits >= 64 || value < 1u64.wrapping_shl(bits);
    if fits && length.saturating_sub(1) <= last_place(bits) {
        Some((value, length))
    } else {
        None
    }
}

pub fn slow_signed(bytes: &[u8], bits: u32) -> Option<(i64, usize)> {
    let (value, length) = signed_first(bytes)?;
    let half = 1i64.wrapping_shl(bits.wrapping_sub(1));
    let fits = bits >= 64 || (value < half && value.wrapping_add(half) >= 0);
    if fits && length.saturating_sub(1) <= last_place(bits) {
        Some((value, length))
    } else {
        None
    }
}

pub fn slow_fault(bytes: &[u8], bits: u32, word: NumberName) -> Error {
    let last = last_place(bits);
    match bytes.get(last) {
        Some(byte) if *byte >= 128 || bits == 33 => {
            Error::new(Message::IntegerTooLong(word), last as u64)
        }
        Some(_) => Error::new(Message::IntegerTooLarge(word), last as u64),
        None => Error::new(Message::EndOfData, bytes.len() as u64),
    }
}

fn outcome(bytes: &[u8], kind: Kind) -> (Result<u64, Error>, usize) {
    let mut reader = BinaryReader::new(bytes, 0);
    let value = match (kind.bits, kind.signed) {
        (32, false) => reader.read_var_u32().map(u64::from),
        (64, false) => reader.read_var_u64(),
        (32, true) => reader.read_var_i32().map(|n| i64::from(n).cast_unsigned()),
        (33, true) => reader.read_var_s33().map(|n| n.cast_unsigned()),
        _ => reader.read_var_i64().map(|n| n.cast_unsigned()),
    };
    (value, reader.current_position())
}

fn expected(bytes: &[u8], kind: Kind) -> (Result<u64, Error>, usize) {
    let found = if kind.signed {
        slow_signed(bytes, kind.bits).map(|(n, length)| (n.cast_unsigned(), length))
    } else {
        slow_unsigned(bytes, kind.bits)
    };
    match found {
        Some((value, length)) => (Ok(value), length),
        None => (Err(slow_fault(bytes, kind.bits, kind.word)), 0),
    }
}

fn compare(tally: &mut Tally, bytes: &[u8], kind: Kind) {
    let got = outcome(bytes, kind);
    tally.count(got.0.is_ok(), got == expected(bytes, kind));
}

fn compare_all(tally: &mut Tally, bytes: &[u8]) {
    for (bits, signed, word) in [
        (32, false, NumberName::VarU32),
        (64, false, NumberName::VarU64),
        (32, true, NumberName::VarI32),
        (33, true, NumberName::VarS33),
        (64, true, NumberName::VarI64),
    ] {
        compare(tally, bytes, Kind { bits, signed, word });
    }
}

pub fn short_strings(extent: Extent) -> Tally {
    let mut tally = Tally::new();
    compare_all(&mut tally, &[]);
    for first in 0..=255u8 {
        compare_all(&mut tally, &[first]);
        if extent.is_full() {
            for second in 0..=255u8 {
                compare_all(&mut tally, &[first, second]);
            }
        }
    }
    tally
}

/// Returns a LEB128 encoding of `number` in the first `length` bytes, without bits that do not fit.
fn encodes(number: i64, length: usize) -> [u8; 11] {
    let mut bytes = [0u8; 11];
    let mut left = number;
    for i in 0..11 {
        let low = (left & 127) as u8;
        bytes[i] = if i + 1 < length { low | 128 } else { low };
        left >>= 7;
    }
    bytes
}

/// Compares the reading calls with slow functions, on boundary values of each width and their
/// neighbours, in 1 to 11 bytes.
pub fn boundaries() -> Tally {
    let mut tally = Tally::new();
    for power in [0u32, 6, 7, 13, 14, 20, 21, 27, 28, 31, 32, 33, 62, 63] {
        let boundary = 1i64.wrapping_shl(power);
        for delta in [-1i64, 0, 1] {
            let value = boundary.wrapping_add(delta);
            for length in 1..12usize {
                compare_all(&mut tally, &encodes(value, length)[..length]);
                compare_all(&mut tally, &encodes(value.wrapping_neg(), length)[..length]);
            }
        }
    }
    tally
}
