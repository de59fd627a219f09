//! The text and the name of the operator at an offset.
ghost use Rattle.std.specs.Prelude.{◌≡◌};
ghost use Rattle.wasm_operators.specs.below.Source.{rest};
ghost use Rattle.wasm_text.specs.Names.{text_name};
ghost use Rattle.wasm_text.specs.Operands.{text_of};
ghost use Rattle.wasm_c.specs.OperatorTexts.{frame_for, out_of_memory, PlacesText, RefusesText, RefusesTextName, FindsText, ReturnsTextAt};

use crate::in_frame::InFrame;
use crate::lists::reader_from;
use crate::refusal::{NO_ROOM, WasmRefusal};
use crate::text::write_one;
use std::alloc::Global;
use wasm_operators::{BinaryReader, Error, FrameKind, Message, ReadOperators};
use wasm_text::{text_name, write_operator};

/// Returns a frame that allows the next operator, if one does.
pub fn frame_for(ahead: &BinaryReader<'_>) -> FrameKind
    ensures { result ≡ frame_for (rest ahead.now) }
{
    match ahead.peek() {
        Ok(0x05) => FrameKind::If,
        Ok(0x07 | 0x18 | 0x19) => FrameKind::LegacyTry,
        _ => FrameKind::Block,
    }
}

pub fn out_of_memory(at: u64) -> WasmRefusal
    ensures { result ≡ out_of_memory at }
{
    WasmRefusal::of(&Error::new(Message::OutOfMemory, at))
}

/// Writes a text, if it fits. Sets `length` to its length.
pub fn place_text(text: &str, at: u64, out: &mut [u8], length: &mut usize) -> WasmRefusal
    ensures { PlacesText text.now at result length.new out.old out.new }
{
    *length = text.len();
    if text.len() > out.len() {
        return WasmRefusal::misuse(NO_ROOM, at);
    }
    write_one(text, out);
    WasmRefusal::none(at)
}

/// Writes the name and the operands of the next operator.
fn write_text_ahead(
    alloc: Global,
    ahead: &BinaryReader<'_>,
    at: u64,
    out: &mut [u8],
    length: &mut usize,
) -> WasmRefusal
    ensures { FindsText text_of (RefusesText at) result ahead.now at length.old length.new out.old out.new }
{
    let stack = InFrame {
        kind: frame_for(ahead),
    };
    match ahead.peek_operator(alloc, &stack) {
        Ok(op) => {
            let mut text = String::new(alloc);
            match write_operator(&mut text, &op) {
                Ok(()) => place_text(text.as_str(), at, out, length),
                Err(_) => out_of_memory(at),
            }
        }
        Err(error) => WasmRefusal::of(&error),
    }
}

fn write_name_ahead(
    alloc: Global,
    ahead: &BinaryReader<'_>,
    at: u64,
    out: &mut [u8],
    length: &mut usize,
) -> WasmRefusal
    ensures { FindsText text_name RefusesTextName result ahead.now at length.old length.new out.old out.new }
{
    let stack = InFrame {
        kind: frame_for(ahead),
    };
    match ahead.peek_operator(alloc, &stack) {
        Ok(op) => place_text(text_name(&op), at, out, length),
        Err(error) => WasmRefusal::of(&error),
    }
}

pub fn write_text_at(
    alloc: Global,
    bytes: &[u8],
    offset: u64,
    features: u32,
    at: u64,
    out: &mut [u8],
    length: &mut usize,
) -> WasmRefusal
    ensures { ReturnsTextAt text_of (RefusesText at) result bytes.now offset features at length.old length.new out.old out.new }
{
    match reader_from(bytes, offset, features, at) {
        Ok(ahead) => write_text_ahead(alloc, &ahead, at, out, length),
        Err(refused) => refused,
    }
}

pub fn write_name_at(
    alloc: Global,
    bytes: &[u8],
    offset: u64,
    features: u32,
    at: u64,
    out: &mut [u8],
    length: &mut usize,
) -> WasmRefusal
    ensures { ReturnsTextAt text_name RefusesTextName result bytes.now offset features at length.old length.new out.old out.new }
{
    match reader_from(bytes, offset, features, at) {
        Ok(ahead) => write_name_ahead(alloc, &ahead, at, out, length),
        Err(refused) => refused,
    }
}
