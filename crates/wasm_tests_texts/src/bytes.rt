use std::alloc::{AllocError, Global};
use std::io::{self, Read};

pub fn read_input<R: Read>(alloc: Global, reader: &mut R) -> io::Result<Vec<u8>> {
    let mut input = Vec::new(alloc);
    let mut chunk = [0u8; 4096];
    for _ in 0..u64::MAX {
        let count = reader.read(&mut chunk)?;
        if count == 0 {
            break;
        }
        input.extend_from_slice(&chunk[..count])?;
    }
    Ok(input)
}

/// Decodes hexadecimal `text` into `out`, replacing its contents. Bytes except `0`-`9` and `a`-`f`
/// count as 0.
pub fn read_hex(out: &mut Vec<u8>, text: &str) -> Result<(), AllocError> {
    out.clear();
    let mut high = None;
    for letter in text.as_bytes() {
        let digit = digit_of(*letter);
        high = match high {
            None => Some(digit),
            Some(first) => {
                out.push(digit.wrapping_add(16u8.wrapping_mul(first)))?;
                None
            }
        };
    }
    Ok(())
}

fn digit_of(letter: u8) -> u8 {
    match letter {
        b'0'..=b'9' => letter.wrapping_sub(b'0'),
        b'a'..=b'f' => letter.wrapping_sub(b'a').wrapping_add(10),
        _ => 0,
    }
}
