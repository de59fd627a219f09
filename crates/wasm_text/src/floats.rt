ghost use Rattle.std.specs.Prelude.{◌≡◌, ◌++◌, ◌^◌, ◌<◌, OnOk, string_bytes};
ghost use Rattle.wasm_text.specs.Floats.{fraction_digits, fraction_text, exponent_text, finite_text, special_text, space_and_sign, float_32_text, float_64_text};

use crate::digits::write_digit;
use crate::values::Written;
use wasm_imm::{Ieee32, Ieee64};

/// The weight of the first hexadecimal digit of a fraction of 52 bits.
const FIRST_DIGIT: u64 = 0x1_0000_0000_0000;

fn write_digits(out: &mut String, fraction: u64) -> Written
    requires { fraction < 2 ^ 52 }
    ensures { OnOk result (string_bytes out.new ≡ string_bytes out.old ++ fraction_digits 13 fraction) }
{
    let mut left = fraction;
    for _place in 0..13u32 {
        if left == 0 {
            return Ok(());
        }
        write_digit(out, (left / FIRST_DIGIT) as u8)?;
        left = left % FIRST_DIGIT * 16;
    }
    Ok(())
}

fn write_fraction(out: &mut String, fraction: u64) -> Written
    requires { fraction < 2 ^ 52 }
    ensures { OnOk result (string_bytes out.new ≡ string_bytes out.old ++ fraction_text fraction) }
{
    if fraction == 0 {
        return Ok(());
    }
    out.push_str(".")?;
    write_digits(out, fraction)
}

fn write_exponent(out: &mut String, biased: u64, bias: u64) -> Written
    ensures { OnOk result (string_bytes out.new ≡ string_bytes out.old ++ exponent_text biased bias) }
{
    if biased < bias {
        let below = bias - biased;
        write!(out, "p-{below}")
    } else {
        let above = biased - bias;
        write!(out, "p+{above}")
    }
}

fn write_finite(out: &mut String, bias: u64, biased: u64, fraction: u64) -> Written
    requires { fraction < 2 ^ 52 }
    ensures { OnOk result (string_bytes out.new ≡ string_bytes out.old ++ finite_text bias biased fraction) }
{
    if biased != 0 {
        out.push_str("0x1")?;
        write_fraction(out, fraction)?;
        return write_exponent(out, biased, bias);
    }
    if fraction == 0 {
        return out.push_str("0x0p+0");
    }
    out.push_str("0x0")?;
    write_fraction(out, fraction)?;
    write_exponent(out, 1, bias)
}

/// Writes infinity or a NaN. `canonical` is the payload of the canonical NaN.
fn write_special(out: &mut String, canonical: u64, payload: u64) -> Written
    ensures { OnOk result (string_bytes out.new ≡ string_bytes out.old ++ special_text canonical payload) }
{
    if payload == 0 {
        return out.push_str("inf");
    }
    if payload == canonical {
        return out.push_str("nan");
    }
    write!(out, "nan:0x{payload:x}")
}

/// Writes the space before a float, and its sign if that is negative.
fn write_space_and_sign(out: &mut String, sign: u64) -> Written
    ensures { OnOk result (string_bytes out.new ≡ string_bytes out.old ++ space_and_sign sign) }
{
    if sign == 0 {
        out.push_str(" ")
    } else {
        out.push_str(" -")
    }
}

pub fn write_float_32(out: &mut String, value: Ieee32) -> Written
    ensures { OnOk result (string_bytes out.new ≡ string_bytes out.old ++ float_32_text value) }
{
    let bits = u64::from(value.bits());
    write_space_and_sign(out, bits / 0x8000_0000)?;
    let biased = bits / 0x80_0000 % 0x100;
    let fraction = bits % 0x80_0000;
    if biased == 255 {
        return write_special(out, 0x40_0000, fraction);
    }
    write_finite(out, 127, biased, fraction * 0x2000_0000)
}

pub fn write_float_64(out: &mut String, value: Ieee64) -> Written
    ensures { OnOk result (string_bytes out.new ≡ string_bytes out.old ++ float_64_text value) }
{
    let bits = value.bits();
    write_space_and_sign(out, bits / 0x8000_0000_0000_0000)?;
    let biased = bits / 0x10_0000_0000_0000 % 0x800;
    let fraction = bits % 0x10_0000_0000_0000;
    if biased == 2047 {
        return write_special(out, 0x8_0000_0000_0000, fraction);
    }
    write_finite(out, 1023, biased, fraction)
}
