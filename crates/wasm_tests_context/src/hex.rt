use std::alloc::Global;

/// Parses bytes in hexadecimal. Returns `None` at anything else, or if allocation fails.
pub fn bytes_of(alloc: Global, word: &str) -> Option<Vec<u8>> {
    let mut bytes = Vec::new(alloc);
    let mut high = None;
    for letter in word.as_bytes() {
        let digit = digit_of(*letter)?;
        high = match high {
            None => Some(digit),
            Some(first) => {
                if bytes
                    .push(digit.wrapping_add(16u8.wrapping_mul(first)))
                    .is_err()
                {
                    return None;
                }
                None
            }
        };
    }
    match high {
        None => Some(bytes),
        Some(_) => None,
    }
}

fn digit_of(letter: u8) -> Option<u8> {
    match letter {
        b'0'..=b'9' => Some(letter.wrapping_sub(b'0')),
        b'a'..=b'f' => Some(letter.wrapping_sub(b'a').wrapping_add(10)),
        _ => None,
    }
}
