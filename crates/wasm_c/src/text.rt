//! Texts of errors, written to an array.
ghost use Rattle.std.specs.Prelude.{◌≡◌, ◌+◌, ◌*◌, ◌^◌, ◌<◌, ◌≤◌, [], ◌∷◌, ◌++◌, ◌%◌, length, Some, false, codes};
ghost use Rattle.std.specs.Option.{option_map};
ghost use Rattle.wasm_operators.specs.below.declared.message.Message.TheVariants as message;
ghost use Rattle.std.specs.Fmt.{decimal, digit_glyph};
ghost use Rattle.wasm_operators.specs.below.MessageText.{hexadecimal, eight_digits, message_text, frame_name_text};
ghost use Rattle.wasm_c.specs.Texts.{instruction_numbered, integer_numbered, size_numbered, frames_numbered, ordering_numbered, leading_numbered, type_numbered, malformed_numbered, bare_numbered, message_numbered, ReturnsText, PutsPiece};

use crate::refusal::{
    frame_name, instruction_name, leading_name, malformed, number_name, size_name, type_name,
};
use wasm_below::hexadecimal_indent;
use wasm_operators::FrameName;
use wasm_view::laws::written_members;

/// Writes a byte at index `at`, if it fits. Returns the index after it.
fn put_byte(byte: u8, at: usize, text: &mut [u8]) -> usize
    requires { at < 2 ^ 62 }
    ensures { PutsPiece (byte ∷ []) at text.old result text.new }
{
    written_members::<u8>();
    if at < text.len() {
        text[at] = byte;
    }
    at + 1
}

/// Writes as much of a piece as fits at index `at`. Returns the index after the whole piece.
fn put(piece: &str, at: usize, text: &mut [u8]) -> usize
    requires { at + length piece.now < 2 ^ 62 }
    ensures { PutsPiece piece.now at text.old result text.new }
{
    let bytes = piece.as_bytes();
    let mut next = at;
    'bytes: for byte in bytes {
        next = put_byte(*byte, next, text);
    }
    next
}

fn digit(value: u32) -> u8
    requires { value < 16 }
    ensures { result ≡ digit_glyph false value }
{
    let value = value as u8;
    if value < 10 {
        b'0' + value
    } else {
        b'a' + (value - 10)
    }
}

/// Writes a number in lower-case hexadecimal.
fn put_hexadecimal(value: u32, at: usize, text: &mut [u8]) -> usize
    requires { at < 2 ^ 60 }
    ensures puts { PutsPiece (hexadecimal value) at text.old result text.new }
    ensures few { result ≤ at + value + 1 }
{
    if value < 16 {
        return put_byte(digit(value), at, text);
    }
    let next = put_hexadecimal(value / 16, at, text);
    put_byte(digit(value % 16), next, text)
}

fn put_decimal(value: u32, at: usize, text: &mut [u8]) -> usize
    requires { at < 2 ^ 60 }
    ensures puts { PutsPiece (decimal value) at text.old result text.new }
    ensures few { result ≤ at + value + 1 }
{
    if value < 10 {
        return put_byte(b'0' + value as u8, at, text);
    }
    let next = put_decimal(value / 10, at, text);
    put_byte(b'0' + (value % 10) as u8, next, text)
}

fn put_bit(value: u32, at: usize, text: &mut [u8]) -> usize
    requires { at < 2 ^ 62 }
    ensures { PutsPiece ((48 + value % 2) ∷ []) at text.old result text.new }
{
    put_byte(b'0' + (value % 2) as u8, at, text)
}

/// Writes the lowest eight binary digits.
fn put_binary(value: u32, at: usize, text: &mut [u8]) -> usize
    requires { at < 2 ^ 60 }
    ensures { PutsPiece (eight_digits value) at text.old result text.new }
{
    let seventh = put_bit(value / 128, at, text);
    let sixth = put_bit(value / 64, seventh, text);
    let fifth = put_bit(value / 32, sixth, text);
    let fourth = put_bit(value / 16, fifth, text);
    let third = put_bit(value / 8, fourth, text);
    let second = put_bit(value / 4, third, text);
    let first = put_bit(value / 2, second, text);
    put_bit(value, first, text)
}

/// Writes as many bytes as fit. Returns the number of all.
pub fn write_bytes(bytes: &[u8], text: &mut [u8]) -> usize
    ensures { ReturnsText (Some bytes.now) text.old result text.new }
{
    let room = bytes.len().min(text.len());
    'bytes: for index in 0..room {
        text[index] = bytes[index];
    }
    bytes.len()
}

/// Writes a text of one piece. Returns its whole length.
pub fn write_one(first: &str, text: &mut [u8]) -> usize
    ensures { ReturnsText (Some first.now) text.old result text.new }
{
    write_bytes(first.as_bytes(), text)
}

fn write_two(first: &str, second: &str, text: &mut [u8]) -> usize
    requires first { length first.now < 2 ^ 16 }
    requires second { length second.now < 2 ^ 16 }
    ensures { ReturnsText (Some (first.now ++ second.now)) text.old result text.new }
{
    let at = put(first, 0, text);
    put(second, at, text)
}

fn write_three(first: &str, second: &str, third: &str, text: &mut [u8]) -> usize
    requires first { length first.now < 2 ^ 16 }
    requires second { length second.now < 2 ^ 16 }
    requires third { length third.now < 2 ^ 16 }
    ensures { ReturnsText (Some (first.now ++ (second.now ++ third.now))) text.old result text.new }
{
    let at = put(first, 0, text);
    let after = put(second, at, text);
    put(third, after, text)
}

/// Writes a text that ends with a hexadecimal number.
fn write_code(first: &str, code: u32, text: &mut [u8]) -> usize
    requires { length first.now < 2 ^ 16 }
    ensures { ReturnsText (Some (first.now ++ hexadecimal code)) text.old result text.new }
{
    let at = put(first, 0, text);
    put_hexadecimal(code, at, text)
}

fn write_feature(name: u32, text: &mut [u8]) -> usize
    ensures { ReturnsText (option_map message_text (option_map message.FeatureRequired (instruction_numbered name))) text.old result text.new }
{
    match instruction_name(name) {
        Some(name) => write_three(
            "legacy_exceptions feature required for ",
            name.text(),
            " instruction",
            text,
        ),
        None => 0,
    }
}

fn write_integer(name: u32, text: &mut [u8]) -> usize
    ensures { ReturnsText (option_map message_text (integer_numbered name)) text.old result text.new }
{
    if name < 16 {
        return match number_name(name) {
            Some(kind) => write_three(
                "invalid ",
                kind.text(),
                ": integer representation too long",
                text,
            ),
            None => 0,
        };
    }
    match number_name(name - 16) {
        Some(kind) => write_three("invalid ", kind.text(), ": integer too large", text),
        None => 0,
    }
}

fn write_size(name: u32, text: &mut [u8]) -> usize
    ensures { ReturnsText (option_map message_text (option_map message.SizeOutOfBounds (size_numbered name))) text.old result text.new }
{
    match size_name(name) {
        Some(list) => write_two(list.text(), " size is out of bounds", text),
        None => 0,
    }
}

fn frame_text(frame: FrameName) -> &'static str
    ensures { result.now ≡ frame_name_text frame }
{
    match frame {
        FrameName::If => "If",
        FrameName::LegacyTry => "LegacyTry",
    }
}

fn write_frame(instruction: &str, frame: &str, text: &mut [u8]) -> usize
    requires instruction { length instruction.now < 2 ^ 16 }
    requires frame { length frame.now < 2 ^ 16 }
    ensures { ReturnsText (Some (codes "`" ++ (instruction.now ++ (codes "` found outside `" ++ (frame.now ++ codes "` block"))))) text.old result text.new }
{
    let first = put("`", 0, text);
    let second = put(instruction, first, text);
    let third = put("` found outside `", second, text);
    let fourth = put(frame, third, text);
    put("` block", fourth, text)
}

/// Writes the text of the error for an instruction outside the frame that it needs. `name` is the
/// instruction's number plus 16 times the frame's.
fn write_wrong_frame(name: u32, text: &mut [u8]) -> usize
    ensures { ReturnsText (option_map message_text (frames_numbered name)) text.old result text.new }
{
    match instruction_name(name % 16) {
        Some(instruction) => match frame_name(name / 16) {
            Some(frame) => write_frame(instruction.text(), frame_text(frame), text),
            None => 0,
        },
        None => 0,
    }
}

fn write_subopcode(prefix: u32, code: u32, text: &mut [u8]) -> usize
    ensures { ReturnsText (Some (message_text (message.UnknownSubopcode prefix code))) text.old result text.new }
{
    let first = put("unknown 0x", 0, text);
    let second = put_hexadecimal(prefix, first, text);
    let third = put(" subopcode: 0x", second, text);
    put_hexadecimal(code, third, text)
}

fn write_decimal_ordering(value: u32, text: &mut [u8]) -> usize
    ensures { ReturnsText (Some (message_text (message.InvalidOrdering value false))) text.old result text.new }
{
    let at = put("invalid atomic consistency ordering ", 0, text);
    put_decimal(value, at, text)
}

fn write_ordering(name: u32, value: u32, text: &mut [u8]) -> usize
    ensures { ReturnsText (option_map message_text (ordering_numbered name value)) text.old result text.new }
{
    match name {
        0 => write_decimal_ordering(value, text),
        1 => write_code("invalid atomic consistency ordering 0x", value, text),
        _ => 0,
    }
}

fn write_flags(value: u32, text: &mut [u8]) -> usize
    ensures { ReturnsText (Some (message_text (message.InvalidCastFlags value))) text.old result text.new }
{
    let at = put("invalid cast flags: ", 0, text);
    put_binary(value, at, text)
}

fn write_leading(name: &str, value: u32, text: &mut [u8]) -> usize
    requires { length name.now < 2 ^ 16 }
    ensures { ReturnsText (Some (codes "invalid leading byte (0x" ++ (hexadecimal value ++ (codes ") for " ++ name.now)))) text.old result text.new }
{
    let first = put("invalid leading byte (0x", 0, text);
    let second = put_hexadecimal(value, first, text);
    let third = put(") for ", second, text);
    put(name, third, text)
}

/// Writes the text of the error for the invalid leading byte `value`; `name` is the number of a
/// name.
fn write_leading_byte(name: u32, value: u32, text: &mut [u8]) -> usize
    ensures { ReturnsText (option_map message_text (option_map (λ n. message.InvalidLeadingByte value n) (leading_numbered name))) text.old result text.new }
{
    match leading_name(name) {
        Some(name) => write_leading(name.text(), value, text),
        None => 0,
    }
}

fn write_type(name: u32, text: &mut [u8]) -> usize
    ensures { ReturnsText (option_map message_text (option_map message.InvalidType (type_numbered name))) text.old result text.new }
{
    match type_name(name) {
        Some(name) => write_two("invalid ", name.text(), text),
        None => 0,
    }
}

/// Writes the text for the malformed part with this number.
fn write_malformed(name: u32, text: &mut [u8]) -> usize
    ensures { ReturnsText (option_map message_text (option_map message.Malformed (malformed_numbered name))) text.old result text.new }
{
    match malformed(name) {
        Some(what) => write_one(what.text(), text),
        None => 0,
    }
}

/// Writes the text for a module whose first four bytes are `word`, as a little-endian number.
fn write_magic(word: u32, text: &mut [u8]) -> usize
    ensures { ReturnsText (Some (message_text (message.BadMagic word))) text.old result text.new }
{
    let first = put(
        "magic header not detected: bad magic number - expected=[\n    0x0,\n    0x61,\n    0x73,\n    0x6d,\n] actual=[\n    0x",
        0,
        text,
    );
    let second = put_hexadecimal(word % 256, first, text);
    let third = put(",\n    0x", second, text);
    let fourth = put_hexadecimal(word / 256 % 256, third, text);
    let fifth = put(",\n    0x", fourth, text);
    let sixth = put_hexadecimal(word / 65536 % 256, fifth, text);
    let seventh = put(",\n    0x", sixth, text);
    let eighth = put_hexadecimal(word / 16777216, seventh, text);
    put(",\n]", eighth, text)
}

fn write_version(version: u32, text: &mut [u8]) -> usize
    ensures { ReturnsText (Some (message_text (message.UnknownVersion version))) text.old result text.new }
{
    let first = put("unknown binary version: ", 0, text);
    let second = put(hexadecimal_indent(version), first, text);
    let third = put("0x", second, text);
    put_hexadecimal(version, third, text)
}

/// Writes a text without a name or value.
fn write_bare(number: u32, text: &mut [u8]) -> usize
    ensures { ReturnsText (option_map message_text (bare_numbered number)) text.old result text.new }
{
    match number {
        1 => write_one("unexpected end-of-file", text),
        3 => write_one("out of memory", text),
        6 => write_one("invalid function type", text),
        8 => write_one(
            "operators remaining after end of function body or expression",
            text,
        ),
        9 => write_one(
            "control frames remain at end of function body or expression",
            text,
        ),
        10 => write_one("control frames remain at end of expression", text),
        11 => write_one("unexpected data at the end of operators", text),
        14 => write_one("unexpected SIMD opcode: 0xfd", text),
        15 => write_one("zero byte expected", text),
        16 => write_one("nonzero byte after `atomic.fence`", text),
        17 => write_one("cannot specify both memory and array index", text),
        18 => write_one(
            "cannot specify atomic ordering on non-atomic instruction",
            text,
        ),
        20 => write_one("malformed memop: reserved flags bits set", text),
        23 => write_one("too many locals", text),
        25 => write_one("unexpected data at the end of the section", text),
        _ => 0,
    }
}

/// Writes the text of an error, as much of it as fits. Returns the whole length, or 0 if no text
/// has these numbers.
pub fn write_text(number: u32, name: u32, value: u32, text: &mut [u8]) -> usize
    ensures { ReturnsText (option_map message_text (message_numbered number name value)) text.old result text.new }
{
    match number {
        2 => write_feature(name, text),
        4 => write_integer(name, text),
        5 => write_size(name, text),
        7 => write_wrong_frame(name, text),
        12 => write_code("illegal opcode: 0x", value, text),
        13 => write_subopcode(name, value, text),
        19 => write_ordering(name, value, text),
        21 => write_flags(value, text),
        22 => write_leading_byte(name, value, text),
        24 => write_type(name, text),
        26 => write_malformed(name, text),
        27 => write_magic(value, text),
        28 => write_version(value, text),
        _ => write_bare(number, text),
    }
}
