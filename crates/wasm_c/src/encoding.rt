//! The operator of a C struct, written in its shortest encoding.
ghost use Rattle.std.specs.Prelude.{◌≡◌, ◌≤◌, ℕ, List, length};
ghost use Rattle.wasm_operators.specs.below.Features.{features_of};
ghost use Rattle.wasm_operators.specs.instr.Encoding.{EncodesOperator};
ghost use Rattle.wasm_c.specs.Encodings.{WritesBytes, ReadsBack, IsWithoutList, WritesPlain, WritesFound, WritesListed, WritesView};
ghost use Rattle.wasm_c.specs.OperatorTexts.{PlacesText};

use crate::features::known_features;
use crate::in_frame::InFrame;
use crate::lists::operator_at;
use crate::operator_text::{frame_for, out_of_memory};
use crate::refusal::{NO_LIST, NO_ROOM, NOT_WRITABLE, WasmRefusal};
use crate::text::write_bytes;
use std::alloc::Global;
use wasm_encode_operators::write_operator;
use wasm_encode_view::{has_list, is_view_of, write_view};
use wasm_operators::{BinaryReader, Operator, ReadOperators, WasmFeatures};
use wasm_view::WasmOperator;

/// Writes bytes, if they fit. Sets `length` to their number.
fn place_bytes(bytes: &[u8], at: u64, out: &mut [u8], length: &mut usize) -> WasmRefusal
    ensures { PlacesText bytes.now at result length.new out.old out.new }
{
    *length = bytes.len();
    if bytes.len() > out.len() {
        return WasmRefusal::misuse(NO_ROOM, at);
    }
    write_bytes(bytes, out);
    WasmRefusal::none(at)
}

/// Returns whether the bytes of a C struct encode an operator that has it.
fn reads_back(alloc: Global, view: &WasmOperator, bytes: &[u8], features: WasmFeatures) -> bool
    requires bytes { WritesBytes view.now bytes.now }
    requires short { length bytes.now ≤ 64 }
    requires plain { IsWithoutList view.now }
    ensures { ReadsBack result view.now bytes.now features }
{
    let ahead = BinaryReader::new_features(bytes, 0, features);
    let stack = InFrame {
        kind: frame_for(&ahead),
    };
    match ahead.peek_operator(alloc, &stack) {
        Ok(op) => is_view_of(&op, view),
        Err(_) => false,
    }
}

/// Writes an operator without a list. Fails with 112 if no operator with this C struct has an
/// encoding.
fn write_plain(
    alloc: Global,
    view: &WasmOperator,
    features: WasmFeatures,
    out: &mut [u8],
    length: &mut usize,
) -> WasmRefusal
    requires { IsWithoutList view.now }
    ensures { WritesPlain result view.now features length.old length.new out.old out.new }
{
    let bytes = write_view(view);
    if reads_back(alloc, view, bytes.as_slice(), features) {
        return place_bytes(bytes.as_slice(), view.offset, out, length);
    }
    WasmRefusal::misuse(NOT_WRITABLE, view.offset)
}

/// Writes the operator that was found at the offset of the C struct, if the C struct is its.
fn write_found(
    alloc: Global,
    view: &WasmOperator,
    op: &Operator<'_>,
    features: WasmFeatures,
    out: &mut [u8],
    length: &mut usize,
) -> WasmRefusal
    ensures { (text : List ℕ) → EncodesOperator features text op.now → WritesFound result view.now op.now features length.old length.new out.old out.new }
{
    if !is_view_of(op, view) {
        return WasmRefusal::misuse(NO_LIST, view.offset);
    }
    let mut bytes = Vec::<u8>::new(alloc);
    match write_operator(&mut bytes, features, op) {
        Ok(()) => place_bytes(bytes.as_slice(), view.offset, out, length),
        Err(_) => out_of_memory(view.offset),
    }
}

/// Writes an operator with a list, which it has at its offset in the bytes.
fn write_listed(
    alloc: Global,
    view: &WasmOperator,
    bytes: &[u8],
    offset: u64,
    features: u32,
    known: WasmFeatures,
    out: &mut [u8],
    length: &mut usize,
) -> WasmRefusal
    requires { known ≡ features_of features }
    ensures { WritesListed result view.now bytes.now offset features length.old length.new out.old out.new }
{
    match operator_at(alloc, bytes, offset, features, view.offset) {
        Ok(op) => write_found(alloc, view, &op, known, out, length),
        Err(refused) => refused,
    }
}

/// Writes the operator of a C struct.
pub fn write_view_of(
    alloc: Global,
    view: &WasmOperator,
    bytes: &[u8],
    offset: u64,
    features: u32,
    out: &mut [u8],
    length: &mut usize,
) -> WasmRefusal
    ensures { WritesView result view.now bytes.now offset features length.old length.new out.old out.new }
{
    match known_features(bytes, offset, features) {
        Ok(known) => {
            if has_list(view.shape) {
                return write_listed(alloc, view, bytes, offset, features, known, out, length);
            }
            write_plain(alloc, view, known, out, length)
        }
        Err(refused) => refused,
    }
}
