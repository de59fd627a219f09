ghost use Rattle.std.specs.Prelude.{◌≡◌, ◌≤◌};
ghost use Rattle.wasm_encode_sections.specs.Flags.{bit, flag_byte};

fn bit(set: bool, weight: u8) -> u8
    ensures value { result ≡ bit set weight }
    ensures small { result ≤ weight }
{
    if set { weight } else { 0 }
}

/// Returns the byte with these flags, of the weights 1, 2, 4 and 8.
pub(crate) fn flag_byte(first: bool, second: bool, third: bool, fourth: bool) -> u8
    ensures value { result ≡ flag_byte first second third fourth }
    ensures small { result ≤ 15 }
{
    bit(first, 1) + bit(second, 2) + bit(third, 4) + bit(fourth, 8)
}
