ghost use Rattle.std.specs.Prelude.{◌≡◌, ◌++◌, OnOk, string_bytes, false, ◌∷◌, [], ◌<◌};
ghost use Rattle.std.specs.Fmt.{digit_glyph};
ghost use Rattle.wasm_text.specs.Values.{words_text, word_text};

use crate::bytes::write_byte;
use crate::values::Written;

static DIGITS: [&str; 16] = [
    "0", "1", "2", "3", "4", "5", "6", "7", "8", "9", "a", "b", "c", "d", "e", "f",
];

fn digit_of(value: u8) -> &'static str
    requires { value < 16 }
    ensures { result.now ≡ digit_glyph false value ∷ [] }
{
    DIGITS[value as usize]
}

pub fn write_digit(out: &mut String, value: u8) -> Written
    requires { value < 16 }
    ensures { OnOk result (string_bytes out.new ≡ string_bytes out.old ++ digit_glyph false value ∷ []) }
{
    out.push_str(digit_of(value))
}

fn write_word(out: &mut String, bytes: &[u8; 16], at: usize) -> Written
    requires { at < 13 }
    ensures { OnOk result (string_bytes out.new ≡ string_bytes out.old ++ word_text bytes.now at) }
{
    out.push_str(" 0x")?;
    write_byte(out, bytes[at + 3])?;
    write_byte(out, bytes[at + 2])?;
    write_byte(out, bytes[at + 1])?;
    write_byte(out, bytes[at])
}

pub fn write_words(out: &mut String, bytes: &[u8; 16]) -> Written
    ensures { OnOk result (string_bytes out.new ≡ string_bytes out.old ++ words_text bytes.now) }
{
    write_word(out, bytes, 0)?;
    write_word(out, bytes, 4)?;
    write_word(out, bytes, 8)?;
    write_word(out, bytes, 12)
}
