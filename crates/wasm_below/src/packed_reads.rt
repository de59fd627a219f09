//! Results of reading a number, in two words. These are returned in registers, unlike a `Result`.
ghost use Rattle.std.specs.Prelude.{◌≡◌, ◌<◌, IfOk};
ghost use Rattle.wasm_below.specs.Leb128.{refusal_of_code};

use crate::long_numbers::{NumberRefusal, Signed, Unsigned};
use std::marker::Model;

/// The result of reading an unsigned number.
#[derive(Drop)]
pub struct UnsignedRead {
    /// The number, or the code of the refusal.
    value: u64,
    /// The position after the number, or 0 if there is none.
    after: usize,
}

impl Model for UnsignedRead {
    ghost use Rattle.std.specs.Prelude.{Result, Ok, Err, if◌then◌else◌, ◌==◌};
    ghost use Rattle.wasm_below.specs.declared.long_numbers.NumberRefusal.{NumberRefusal};
    ghost use Rattle.wasm_below.specs.declared.long_numbers.Unsigned.{Unsigned};
    ghost use Rattle.wasm_below.specs.Leb128.{refusal_of_code};

    ghost Value = { Result Unsigned NumberRefusal };

    ghost view = { λ r. if r.after == 0 then Err (refusal_of_code r.value)
        else Ok (record { value = r.value; after = r.after }) };
}

impl UnsignedRead {
    #[inline(always)]
    pub fn new(read: Result<Unsigned, NumberRefusal>) -> UnsignedRead
        requires { IfOk read (λ n. 0 < n.after) }
        ensures { result ≡ read }
    {
        match read {
            Ok(number) => UnsignedRead {
                value: number.value,
                after: number.after,
            },
            Err(refusal) => UnsignedRead {
                value: u64::from(refusal_code(refusal)),
                after: 0,
            },
        }
    }

    #[inline(always)]
    pub fn into_result(self) -> Result<Unsigned, NumberRefusal>
        ensures { result ≡ self }
    {
        if self.after == 0 {
            return Err(refusal_of_code(self.value));
        }
        Ok(Unsigned {
            value: self.value,
            after: self.after,
        })
    }
}

/// The result of reading a signed number.
#[derive(Drop)]
pub struct SignedRead {
    value: i64,
    after: usize,
}

impl Model for SignedRead {
    ghost use Rattle.std.specs.Prelude.{Result, Ok, Err, if◌then◌else◌, ◌==◌, unsigned_abs};
    ghost use Rattle.wasm_below.specs.declared.long_numbers.NumberRefusal.{NumberRefusal};
    ghost use Rattle.wasm_below.specs.declared.long_numbers.Signed.{Signed};
    ghost use Rattle.wasm_below.specs.Leb128.{refusal_of_code};

    ghost Value = { Result Signed NumberRefusal };

    ghost view = { λ r. if r.after == 0 then Err (refusal_of_code (unsigned_abs r.value))
        else Ok (record { value = r.value; after = r.after }) };
}

impl SignedRead {
    #[inline(always)]
    pub fn new(read: Result<Signed, NumberRefusal>) -> SignedRead
        requires { IfOk read (λ n. 0 < n.after) }
        ensures { result ≡ read }
    {
        match read {
            Ok(number) => SignedRead {
                value: number.value,
                after: number.after,
            },
            Err(refusal) => SignedRead {
                value: i64::from(refusal_code(refusal)),
                after: 0,
            },
        }
    }

    #[inline(always)]
    pub fn into_result(self) -> Result<Signed, NumberRefusal>
        ensures { result ≡ self }
    {
        if self.after == 0 {
            return Err(refusal_of_code(self.value.unsigned_abs()));
        }
        Ok(Signed {
            value: self.value,
            after: self.after,
        })
    }
}

#[inline(always)]
fn refusal_code(refusal: NumberRefusal) -> u8
    ensures { refusal_of_code result ≡ refusal }
{
    match refusal {
        NumberRefusal::EndOfData => 0,
        NumberRefusal::TooLong => 1,
        NumberRefusal::TooLarge => 2,
    }
}

#[cold]
#[inline(never)]
fn refusal_of_code(code: u64) -> NumberRefusal
    ensures { result ≡ refusal_of_code code }
{
    match code {
        0 => NumberRefusal::EndOfData,
        1 => NumberRefusal::TooLong,
        _ => NumberRefusal::TooLarge,
    }
}
