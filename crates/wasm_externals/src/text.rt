ghost use Rattle.std.specs.Prelude.{◌≡◌, ◌↔◌, true, ℕ, List, nat_eq};
ghost use Rattle.std.specs.Cmp.Lexicographic.{pointwise, nat_list_eq_equiv};
ghost use Rattle.std.specs.Cmp.{partial_equiv_from_equiv};
ghost use Rattle.std.specs.Fmt.{debug_str};
ghost use Rattle.std.specs.Str.{is_utf8, IsUtf8};
ghost use Rattle.wasm_externals.specs.Texts.{text};

use std::alloc::Global;
use std::marker::Model;
use std::{fmt, str};
use wasm_below::{BinaryReader, Error, Malformed, Message, Result};
use wasm_grammars::{Read, read_u32_up_to};

const MAX_TEXT_SIZE: u32 = 100_000;

/// A text in UTF-8 of at most 100,000 bytes, which are borrowed; in contracts, the list of its bytes.
/// Specification: Binary Format, Names.
#[derive(Drop)]
pub struct Text<'a> {
    text: &'a str,
}

impl<'a> Model for Text<'a> {
    ghost use Rattle.std.specs.Prelude.{ℕ, List};

    ghost Value = { List ℕ };

    ghost view = { λ t. t.text.now };
}

impl<'a> Text<'a> {
    pub fn as_str(&self) -> &'a str
        ensures { result.now ≡ self.now }
    {
        self.text
    }
}

impl<'a> fmt::Debug for Text<'a> {
    ghost debug_output = { debug_str };

    fn fmt<W: fmt::Write>(&self, f: &mut fmt::Formatter<W>) -> fmt::Result {
        fmt::Debug::fmt(&self.text, f)
    }
}

impl<'a> PartialEq for Text<'a> {
    ghost eq = { pointwise nat_eq };

    ghost laws = { partial_equiv_from_equiv nat_list_eq_equiv };

    fn eq(&self, other: &Text<'a>) -> bool {
        self.text == other.text
    }
}

impl<'a> Eq for Text<'a> {
    ghost laws = { nat_list_eq_equiv };
}

impl<'a> Read<'a> for Text<'a> {
    ghost grammar = { λ features. text };

    /// Fails like `read_var_u32`; with `StringSize` at the last byte of a number above 100,000; with
    /// `EndOfData` at the first byte of the text; with `Utf8` at the last byte of the text.
    fn read_from(_alloc: Global, reader: &mut BinaryReader<'a>) -> Result<Text<'a>> {
        let mut ahead = reader.clone();
        let too_long = Message::Malformed(Malformed::StringSize);
        let size = read_u32_up_to(&mut ahead, MAX_TEXT_SIZE, too_long)?;
        ahead.is_within();
        let bytes = ahead.read_bytes(size as usize)?;
        match str::from_utf8(bytes) {
            Ok(text) => {
                *reader = ahead;
                Ok(Text { text })
            }
            Err(_) => {
                let last = ahead.original_position() - 1;
                Err(Error::new(Message::Malformed(Malformed::Utf8), last))
            }
        }
    }
}

/// States that bytes are UTF-8 if and only if they are the encodings of characters, one after the
/// other.
pub fn utf8_law()
    ensures { (bytes : List ℕ) → (is_utf8 bytes ≡ true) ↔ IsUtf8 bytes }
{}
