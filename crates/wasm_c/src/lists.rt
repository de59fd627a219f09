//! The list of the operator at an offset.
ghost use Rattle.std.specs.Prelude.{◌≡◌, ◌<◌, ◌≤◌, ◌+◌, ◌^◌, length, IfSome, IfNone, Ok, Err};
ghost use Rattle.wasm_c.specs.Members.{reader_from, ReadsAt, ReturnsList};
ghost use Rattle.wasm_c.specs.Reads.{IsWithin};
ghost use Rattle.wasm_c.specs.Refused.{no_refusal, misuse};

use crate::features::known_features;
use crate::in_frame::InFrame;
use crate::refusal::{NO_LIST, WasmRefusal};
use std::alloc::Global;
use wasm_operators::{BinaryReader, FrameKind, Operator, ReadOperators};
use wasm_view::MemberList;

/// Returns a reader of the bytes from the offset `at` on.
pub fn reader_from<'a>(
    bytes: &'a [u8],
    offset: u64,
    features: u32,
    at: u64,
) -> std::result::Result<BinaryReader<'a>, WasmRefusal>
    ensures unknown { 64 ≤ features → result ≡ Err (misuse 100 offset) }
    ensures past { features < 64 → 2 ^ 64 ≤ offset + length bytes.now → result ≡ Err (misuse 101 offset) }
    ensures before { features < 64 → IsWithin offset bytes.now → at < offset → result ≡ Err (misuse 104 at) }
    ensures after { features < 64 → IsWithin offset bytes.now → offset + length bytes.now < at → result ≡ Err (misuse 104 at) }
    ensures there { features < 64 → IsWithin offset bytes.now → offset ≤ at → at ≤ offset + length bytes.now
        → result ≡ Ok (reader_from bytes.now offset features at) }
{
    match known_features(bytes, offset, features) {
        Ok(known) => {
            if at < offset || at - offset > bytes.len() as u64 {
                return Err(WasmRefusal::misuse(NO_LIST, at));
            }
            let mut ahead = BinaryReader::new_features(bytes, offset, known);
            match ahead.read_bytes((at - offset) as usize) {
                Ok(_) => Ok(ahead),
                Err(_) => Err(WasmRefusal::misuse(NO_LIST, at)),
            }
        }
        Err(refused) => Err(refused),
    }
}

/// Returns the operator at the offset `at`, which is read as if inside a block.
pub fn operator_at<'a>(
    alloc: Global,
    bytes: &'a [u8],
    offset: u64,
    features: u32,
    at: u64,
) -> std::result::Result<Operator<'a>, WasmRefusal>
    ensures { ReadsAt result bytes.now offset features at }
{
    match reader_from(bytes, offset, features, at) {
        Ok(ahead) => {
            let stack = InFrame {
                kind: FrameKind::Block,
            };
            match ahead.peek_operator(alloc, &stack) {
                Ok(op) => Ok(op),
                Err(error) => Err(WasmRefusal::of(&error)),
            }
        }
        Err(refused) => Err(refused),
    }
}

/// Sets `count`. Fails with 104 if there is no list.
fn store_count(found: Option<usize>, at: u64, count: &mut usize) -> WasmRefusal
    ensures some { IfSome found (λ members. (result ≡ no_refusal at) × (count.new ≡ members)) }
    ensures none { IfNone found ((result ≡ misuse 104 at) × (count.new ≡ count.old)) }
{
    match found {
        Some(members) => {
            *count = members;
            WasmRefusal::none(at)
        }
        None => WasmRefusal::misuse(NO_LIST, at),
    }
}

/// Writes the members of the list that the operator at the offset `at` has, from an index on. Sets
/// `count` to the number of all. Fails with 104 if that operator has no such list.
pub fn list_at<L: MemberList>(
    alloc: Global,
    bytes: &[u8],
    offset: u64,
    features: u32,
    at: u64,
    index: usize,
    out: &mut [L::Member],
    count: &mut usize,
) -> WasmRefusal
    ensures { ReturnsList L.members_of result bytes.now offset features at index count.old count.new out.old out.new }
{
    match operator_at(alloc, bytes, offset, features, at) {
        Ok(op) => store_count(L::place_members(&op, index, out), at, count),
        Err(refused) => refused,
    }
}
