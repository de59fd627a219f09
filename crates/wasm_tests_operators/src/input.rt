//! The input and its rows. No call here allocates.

use std::io::{self, Read};

#[derive(Clone, Copy, Debug)]
pub enum Features {
    These(u32),
    /// All sets that contain this feature.
    With(u32),
    /// All sets that don't contain this feature.
    Without(u32),
}

impl Features {
    pub fn first(self) -> u32 {
        match self {
            Features::These(set) => set,
            Features::With(feature) => feature,
            Features::Without(_) => 0,
        }
    }

    pub fn take(self, bits: u32) -> bool {
        match self {
            Features::These(set) => bits == set,
            Features::With(feature) => bits & feature != 0,
            Features::Without(feature) => bits & feature == 0,
        }
    }
}

pub fn read_input<R: Read>(reader: &mut R, room: &mut [u8]) -> io::Result<usize> {
    let mut size = 0;
    for _ in 0..u64::MAX {
        let Some(rest) = room.get_mut(size..) else {
            break;
        };
        let count = reader.read(rest)?;
        if count == 0 {
            break;
        }
        size = size.saturating_add(count);
    }
    Ok(size)
}

/// Writes the bytes of a row into `room`. Returns the features and the number of bytes.
pub fn row_of(room: &mut [u8], line: &str) -> Option<(Features, usize)> {
    let mut words = line.split_whitespace();
    let features = features_of(words.next()?)?;
    let mut size = 0;
    for word in words {
        let (digits, times) = match word.split_once('x') {
            Some((digits, times)) => (digits, times.parse::<u32>().ok()?),
            None => (word, 1),
        };
        for _ in 0..times {
            size = write_bytes(room, size, digits);
        }
    }
    Some((features, size))
}

/// Parses `N` (one set), `+N` (sets with a feature) or `-N` (without).
fn features_of(word: &str) -> Option<Features> {
    if let Some(feature) = word.strip_prefix('+') {
        return Some(Features::With(feature.parse::<u32>().ok()?));
    }
    if let Some(feature) = word.strip_prefix('-') {
        return Some(Features::Without(feature.parse::<u32>().ok()?));
    }
    Some(Features::These(word.parse::<u32>().ok()?))
}

/// Decodes hexadecimal `digits` into `room` from `size` on. Returns the new size. Bytes except
/// `0`-`9` and `a`-`f` count as 0.
fn write_bytes(room: &mut [u8], size: usize, digits: &str) -> usize {
    let mut end = size;
    let mut high = None;
    for letter in digits.as_bytes() {
        let digit = digit_of(*letter);
        high = match high {
            None => Some(digit),
            Some(first) => {
                if let Some(place) = room.get_mut(end) {
                    *place = digit.wrapping_add(16u8.wrapping_mul(first));
                    end = end.saturating_add(1);
                }
                None
            }
        };
    }
    end
}

fn digit_of(letter: u8) -> u8 {
    match letter {
        b'0'..=b'9' => letter.wrapping_sub(b'0'),
        b'a'..=b'f' => letter.wrapping_sub(b'a').wrapping_add(10),
        _ => 0,
    }
}
