//! Bytes and declarations of locals, put into an array as far as they fit.
ghost use Rattle.std.specs.Prelude.{◌≡◌, ◌+◌, ◌*◌, ◌<◌, ◌≤◌, ◌^◌, length, IfSome, Some};
ghost use Rattle.wasm_imm.specs.Lists.{EncodesEach};
ghost use Rattle.wasm_encode_view.specs.Sections.{EncodesLocals, EncodesDeclarations, Puts, PutsShortest};
ghost use Rattle.wasm_view.specs.Lists.{written};

use crate::local::{write_number, write_type};
use crate::section::WasmLocals;

/// Puts as many bytes as fit at the start of the array.
fn put_first(bytes: &[u8], out: &mut [u8])
    ensures { out.new ≡ written bytes.now out.old }
{
    let len = bytes.len().min(out.len());
    out[..len].copy_from_slice(&bytes[..len]);
}

/// Puts as many bytes as fit at the index `at`. Returns the index after all of them.
pub fn put_bytes(bytes: &[u8], at: usize, out: &mut [u8]) -> usize
    requires { at + length bytes.now < 2 ^ 62 }
    ensures { Puts bytes.now at result out.old out.new }
{
    if at < out.len() {
        put_first(bytes, &mut out[at..]);
    }
    at + bytes.len()
}

/// Puts a declaration of locals at the index `at`: at most 22 bytes. Returns the index after it, or
/// `None` if no bytes encode a declaration with this C struct.
fn put_one(local: &WasmLocals, at: usize, out: &mut [u8]) -> Option<usize>
    requires { at < 2 ^ 60 }
    ensures puts { PutsShortest EncodesLocals local.now at result out.old out.new }
    ensures few { IfSome result (λ end. end ≤ at + 22) }
{
    match write_type(&local.ty) {
        Some(ty) => {
            let number = write_number(local.count);
            let next = put_bytes(number.as_slice(), at, out);
            Some(put_bytes(ty.as_slice(), next, out))
        }
        None => None,
    }
}

/// Puts declarations of locals like `put_one`, one after another.
fn put_each(locals: &[WasmLocals], at: usize, out: &mut [u8]) -> Option<usize>
    requires at { at ≤ 20 }
    requires count { length locals.now < 2 ^ 32 }
    ensures puts { PutsShortest (EncodesEach EncodesLocals) locals.now at result out.old out.new }
    ensures few { IfSome result (λ end. end ≤ at + 22 * length locals.now) }
{
    let mut next = at;
    'locals: for local in locals {
        match put_one(local, next, out) {
            Some(end) => next = end,
            None => return None,
        }
    }
    Some(next)
}

/// Puts the number of declarations of locals, and each of them, at the index `at`.
pub fn put_locals(locals: &[WasmLocals], at: usize, out: &mut [u8]) -> Option<usize>
    requires { at ≤ 10 }
    ensures puts { PutsShortest EncodesDeclarations locals.now at result out.old out.new }
    ensures few { IfSome result (λ end. end < 2 ^ 40) }
{
    if locals.len() > 0xffff_ffff {
        return None;
    }
    let count = write_number(locals.len() as u32);
    let next = put_bytes(count.as_slice(), at, out);
    put_each(locals, next, out)
}
