//! Vectors as numbers, and back.
ghost use Rattle.std.specs.Prelude.{◌≡◌, length};
ghost use Rattle.std.specs.Int.{w128, to_le_bytes, from_le_bytes, cast_signed, cast_unsigned};

use wasm_operators::{V128, number_laws};

/// Returns the vector whose number is `value` (law `number_restored`).
pub fn vector_of(value: u128) -> V128
    ensures { from_le_bytes w128 result.0 ≡ value }
{
    number_laws::number_restored(value);
    V128::from(value)
}

/// Returns the vector whose signed number is `value` (law `signed_number_restored`).
pub fn vector_of_signed(value: i128) -> V128
    ensures { cast_signed w128 (from_le_bytes w128 result.0) ≡ value }
{
    number_laws::signed_number_restored(value);
    V128::from(value)
}

fn vector_from(bytes: &[u8]) -> V128
    requires { length bytes.now ≡ 16 }
    ensures { result.0 ≡ bytes.now }
{
    let mut vector = [0; 16];
    vector.copy_from_slice(bytes);
    V128(vector)
}

/// Returns the number with these bytes, the lowest first (law `vector_restored`).
pub fn number_of(bytes: &[u8]) -> u128
    requires { length bytes.now ≡ 16 }
    ensures { to_le_bytes w128 result ≡ bytes.now }
{
    number_laws::vector_restored();
    u128::from_le_bytes(vector_from(bytes).0)
}

/// Returns the signed number with these bytes, the lowest first (law `vector_restored_signed`).
pub fn signed_number_of(bytes: &[u8]) -> i128
    requires { length bytes.now ≡ 16 }
    ensures { to_le_bytes w128 (cast_unsigned w128 result) ≡ bytes.now }
{
    number_laws::vector_restored_signed();
    vector_from(bytes).i128()
}
