//! The operators of function bodies for C, and for languages that call C. No call has a `requires`.
//!
//! `c/include/wasm_operators.h` describes the calls. Each returns 0, or the number of its error, and
//! sets `refusal`. On failure, nothing else changes, unless the call says so. If allocation fails,
//! the number is 3.
#![tactic(auto)]

ghost use Rattle.std.specs.Prelude.{◌≡◌, ◌<◌, ◌≤◌, ◌+◌, ◌^◌, ◌/◌, length, Some, List, ℕ};
ghost use Rattle.wasm_operators.specs.below.Features.{features_of};
ghost use Rattle.wasm_operators.specs.below.Source.{reader_of, Takes};
ghost use Rattle.wasm_operators.specs.below.declared.error.Error.{Error};
ghost use Rattle.wasm_operators.specs.instr.Row.{name_of};
ghost use Rattle.wasm_operators.specs.instr.declared.operator.Operator.{Operator};
ghost use Rattle.wasm_operators.specs.Expression.{Placed};
ghost use Rattle.wasm_operators.specs.MainTheorem.{IsWithinDepth};
ghost use Rattle.wasm_operators.specs.Reading.{State, IsFresh};
ghost use Rattle.wasm_text.specs.Names.{text_name};
ghost use Rattle.wasm_text.specs.Operands.{text_of};
ghost use Rattle.wasm_view.specs.Lists.{targets_of, types_of, catches_of, handles_of};
ghost use Rattle.wasm_view.specs.Names.{name_at};
ghost use Rattle.wasm_view.specs.View.{view_of};
ghost use Rattle.wasm_encode_view.specs.Sections.{EncodesDeclarations, EncodesEntry, EncodesSection, PlacesShortest};
ghost use Rattle.wasm_c.specs.Encodings.{WritesView};
ghost use Rattle.wasm_c.specs.Members.{ReturnsList};
ghost use Rattle.wasm_c.specs.Modules.{ReturnsBodies, ReturnsBody, ReturnsName};
ghost use Rattle.wasm_c.specs.OperatorTexts.{RefusesText, RefusesTextName, ReturnsTextAt};
ghost use Rattle.wasm_c.specs.Reads.{IsWithin, FindsPlain};
ghost use Rattle.wasm_c.specs.Refused.{misuse, refusal_of};
ghost use Rattle.wasm_c.specs.Steps.{ReturnsNext, ReturnsNextPlain, ReadsBatch, FinishesPlain, OpensExpression, OpensPlain};
ghost use Rattle.wasm_operators.specs.below.MessageText.{message_text};
ghost use Rattle.wasm_c.specs.Texts.{text_of_refusal, ReturnsText};
ghost use Rattle.wasm_c.specs.Values.{ReturnsValue};

mod body;
mod counter;
mod encoding;
mod features;
mod frames;
mod in_frame;
pub mod laws;
mod lists;
mod module;
mod operator_text;
mod reader;
mod refusal;
mod text;
mod value;
mod value_kind;
mod values;
mod viewer;

use crate::body::read_body;
use crate::encoding::write_view_of;
use crate::features::known_features;
use crate::lists::list_at;
use crate::operator_text::{write_name_at, write_text_at};
pub use crate::reader::WasmReader;
pub use crate::refusal::WasmRefusal;
pub use crate::value::WasmValue;
use std::alloc::Global;
pub use wasm_encode_view::WasmLocals;
use wasm_encode_view::{encode_body, encode_locals, encode_section};
pub use wasm_module::{Bodies as WasmBodies, Body as WasmBody};
use wasm_view::laws::names;
use wasm_view::{Catches, Handles, Targets, Types, name_at};
pub use wasm_view::{WasmHandler, WasmOperator, WasmType};

/// The version of the structs and calls, also in `wasm_operators.h`.
const VERSION: u32 = 5;

/// Returns the version of the structs and calls.
pub fn wasm_operators_version() -> u32
    ensures { result ≡ 5 }
{
    VERSION
}

/// Reads all operators of a function body, after its locals. Sets `count` to their number, and
/// writes as many as fit to `out`.
///
/// On failure, the operators are the longest prefix of a body; after allocation failure, a prefix.
pub fn wasm_read_body(
    alloc: Global,
    bytes: &[u8],
    offset: u64,
    features: u32,
    out: &mut [WasmOperator],
    count: &mut usize,
    refusal: &mut WasmRefusal,
) -> u32
    ensures outcome { result ≡ refusal.new.number }
    ensures body { features < 64 → IsWithin offset bytes.now
        → (placed : Placed)
        × FindsPlain refusal.new (reader_of (features_of features) offset bytes.now) count.new out.old out.new placed }
    ensures unknown { 64 ≤ features → (refusal.new ≡ misuse 100 offset) × (count.new ≡ 0) × (out.new ≡ out.old) }
    ensures past { features < 64 → 2 ^ 64 ≤ offset + length bytes.now
        → (refusal.new ≡ misuse 101 offset) × (count.new ≡ 0) × (out.new ≡ out.old) }
{
    *count = 0;
    match known_features(bytes, offset, features) {
        Ok(known) => {
            let found = read_body(alloc, known, offset, bytes, out);
            *count = found.count;
            *refusal = WasmRefusal::of_end(&found.end, offset + bytes.len() as u64);
            refusal.number
        }
        Err(refused) => {
            *refusal = refused;
            refusal.number
        }
    }
}

/// Writes the text of an error, as much of it as fits. Returns its whole length, or 0 if no text
/// has these numbers.
pub fn wasm_refusal_text(refusal: &WasmRefusal, text: &mut [u8]) -> usize
    ensures reported { (e : Error) → refusal.now ≡ refusal_of e
        → ReturnsText (Some (message_text e.message)) text.old result text.new }
    ensures numbers { ReturnsText (text_of_refusal refusal.now) text.old result text.new }
{
    text::write_text(refusal.number, refusal.name, refusal.value, text)
}

/// Writes the name of an operator, as much of it as fits. Returns its whole length, or 0 if no
/// operator has its `opcode`.
pub fn wasm_operator_name(operator: &WasmOperator, name: &mut [u8]) -> usize
    ensures named { (op : Operator) (at : ℕ) → operator.now ≡ view_of (op, at)
        → ReturnsText (Some (name_of op)) name.old result name.new }
    ensures numbers { ReturnsText (Some (name_at operator.now.opcode operator.now.shape)) name.old result name.new }
{
    names();
    text::write_one(name_at(operator.opcode, operator.shape), name)
}

/// Opens an expression: no byte is read, and its frame is the first of `frames`.
pub fn wasm_open(
    bytes: &[u8],
    offset: u64,
    features: u32,
    frames: &mut [u8],
    reader: &mut WasmReader,
    refusal: &mut WasmRefusal,
) -> u32
    ensures outcome { result ≡ refusal.new.number }
    ensures opens { OpensExpression refusal.new bytes.now offset features reader.old reader.new frames.old frames.new }
{
    *refusal = reader.open(bytes, offset, features, frames);
    refusal.number
}

/// Reads the locals of a function body, and opens the expression after them.
pub fn wasm_open_body(
    bytes: &[u8],
    offset: u64,
    features: u32,
    frames: &mut [u8],
    reader: &mut WasmReader,
    refusal: &mut WasmRefusal,
) -> u32
    ensures outcome { result ≡ refusal.new.number }
    ensures opens { OpensPlain refusal.new bytes.now offset features reader.old reader.new frames.old frames.new }
{
    *refusal = reader.open_body(bytes, offset, features, frames);
    refusal.number
}

/// Reads the next operator, with the bytes and the frames that the reader was opened with.
pub fn wasm_next(
    alloc: Global,
    bytes: &[u8],
    frames: &mut [u8],
    reader: &mut WasmReader,
    operator: &mut WasmOperator,
    refusal: &mut WasmRefusal,
) -> u32
    ensures outcome { result ≡ refusal.new.number }
    ensures next { ReturnsNext refusal.new bytes.now reader.old reader.new frames.old frames.new operator.old operator.new }
{
    *refusal = match reader.read_next(alloc, bytes, frames) {
        Ok(view) => {
            *operator = view;
            WasmRefusal::none(reader.offset + reader.position)
        }
        Err(refused) => refused,
    };
    refusal.number
}

/// Reads the next operator as [`wasm_next`] does, but fails with 14 (`UnexpectedSimd`) before the
/// byte 0xfd.
pub fn wasm_next_plain(
    alloc: Global,
    bytes: &[u8],
    frames: &mut [u8],
    reader: &mut WasmReader,
    operator: &mut WasmOperator,
    refusal: &mut WasmRefusal,
) -> u32
    ensures outcome { result ≡ refusal.new.number }
    ensures next { ReturnsNextPlain refusal.new bytes.now reader.old reader.new frames.old frames.new operator.old operator.new }
{
    *refusal = match reader.read_plain(alloc, bytes, frames) {
        Ok(view) => {
            *operator = view;
            WasmRefusal::none(reader.offset + reader.position)
        }
        Err(refused) => refused,
    };
    refusal.number
}

/// Reads a value of this kind at the position of a reader without open frames.
///
/// `argument` is the limit of a count, a number of bytes, or the number of locals that were
/// declared before.
pub fn wasm_read_value(
    alloc: Global,
    bytes: &[u8],
    reader: &mut WasmReader,
    kind: u32,
    argument: u64,
    value: &mut WasmValue,
    refusal: &mut WasmRefusal,
) -> u32
    ensures outcome { result ≡ refusal.new.number }
    ensures value { ReturnsValue refusal.new bytes.now reader.old reader.new kind argument value.old value.new }
{
    *refusal = reader.read_value(alloc, bytes, kind, argument, value);
    refusal.number
}

/// Reads operators as [`wasm_next`] does, until `out` is full, the data ends, or a read fails. Sets
/// `count` to the number of operators written.
pub fn wasm_read(
    alloc: Global,
    bytes: &[u8],
    frames: &mut [u8],
    reader: &mut WasmReader,
    out: &mut [WasmOperator],
    count: &mut usize,
    refusal: &mut WasmRefusal,
) -> u32
    ensures outcome { result ≡ refusal.new.number }
    ensures batch { ReadsBatch refusal.new count.new bytes.now reader.old reader.new frames.old frames.new out.old out.new }
{
    *refusal = reader.read_many(alloc, bytes, frames, out, count);
    refusal.number
}

/// Checks that an expression ends at the reader's position.
pub fn wasm_finish(
    bytes: &[u8],
    frames: &[u8],
    reader: &WasmReader,
    refusal: &mut WasmRefusal,
) -> u32
    ensures outcome { result ≡ refusal.new.number }
    ensures finishes { FinishesPlain refusal.new bytes.now reader.now frames.now }
{
    *refusal = reader.finish(bytes, frames);
    refusal.number
}

/// Returns an upper bound of the frames that are open at once in `bytes_length` bytes.
pub fn wasm_frames_needed(bytes_length: usize) -> usize
    ensures is { result ≡ bytes_length / 2 + 1 }
    ensures enough { (opened now : State) (text : List ℕ) → IsFresh opened → Takes opened.reader now.reader text
        → IsWithinDepth opened now → length text ≤ bytes_length → length now.frames ≤ result }
{
    bytes_length / 2 + 1
}

/// Writes the targets of the `br_table` at the offset `at`, without the default target: those from
/// index `index` on that fit. Sets `count` to the number of all.
///
/// The operator is read as if inside a block.
pub fn wasm_br_table_targets(
    alloc: Global,
    bytes: &[u8],
    offset: u64,
    features: u32,
    at: u64,
    index: usize,
    out: &mut [u32],
    count: &mut usize,
    refusal: &mut WasmRefusal,
) -> u32
    ensures outcome { result ≡ refusal.new.number }
    ensures list { ReturnsList targets_of refusal.new bytes.now offset features at index count.old count.new out.old out.new }
{
    *refusal = list_at::<Targets>(alloc, bytes, offset, features, at, index, out, count);
    refusal.number
}

/// Writes the types of a typed `select`, like `wasm_br_table_targets`.
pub fn wasm_select_types(
    alloc: Global,
    bytes: &[u8],
    offset: u64,
    features: u32,
    at: u64,
    index: usize,
    out: &mut [WasmType],
    count: &mut usize,
    refusal: &mut WasmRefusal,
) -> u32
    ensures outcome { result ≡ refusal.new.number }
    ensures list { ReturnsList types_of refusal.new bytes.now offset features at index count.old count.new out.old out.new }
{
    *refusal = list_at::<Types>(alloc, bytes, offset, features, at, index, out, count);
    refusal.number
}

/// Writes the clauses of a `try_table`, like `wasm_br_table_targets`.
pub fn wasm_try_table_catches(
    alloc: Global,
    bytes: &[u8],
    offset: u64,
    features: u32,
    at: u64,
    index: usize,
    out: &mut [WasmHandler],
    count: &mut usize,
    refusal: &mut WasmRefusal,
) -> u32
    ensures outcome { result ≡ refusal.new.number }
    ensures list { ReturnsList catches_of refusal.new bytes.now offset features at index count.old count.new out.old out.new }
{
    *refusal = list_at::<Catches>(alloc, bytes, offset, features, at, index, out, count);
    refusal.number
}

/// Writes the clauses of a `resume`, `resume_throw` or `resume_throw_ref`, like
/// `wasm_br_table_targets`.
pub fn wasm_resume_handlers(
    alloc: Global,
    bytes: &[u8],
    offset: u64,
    features: u32,
    at: u64,
    index: usize,
    out: &mut [WasmHandler],
    count: &mut usize,
    refusal: &mut WasmRefusal,
) -> u32
    ensures outcome { result ≡ refusal.new.number }
    ensures list { ReturnsList handles_of refusal.new bytes.now offset features at index count.old count.new out.old out.new }
{
    *refusal = list_at::<Handles>(alloc, bytes, offset, features, at, index, out, count);
    refusal.number
}

/// Writes the text of the operator at the offset `at`: its name in the text format, and its
/// operands as in a disassembly. Sets `length` to the text's length, also if it does not fit.
///
/// The operator is read inside a frame that allows it, if any.
pub fn wasm_operator_text(
    alloc: Global,
    bytes: &[u8],
    offset: u64,
    features: u32,
    at: u64,
    text: &mut [u8],
    length: &mut usize,
    refusal: &mut WasmRefusal,
) -> u32
    ensures outcome { result ≡ refusal.new.number }
    ensures text { ReturnsTextAt text_of (RefusesText at) refusal.new bytes.now offset features at length.old length.new text.old text.new }
{
    *refusal = write_text_at(alloc, bytes, offset, features, at, text, length);
    refusal.number
}

/// Writes the name in the text format of the operator at the offset `at`. Sets `length` to its
/// length, also if it does not fit.
pub fn wasm_operator_text_name(
    alloc: Global,
    bytes: &[u8],
    offset: u64,
    features: u32,
    at: u64,
    name: &mut [u8],
    length: &mut usize,
    refusal: &mut WasmRefusal,
) -> u32
    ensures outcome { result ≡ refusal.new.number }
    ensures name { ReturnsTextAt text_name RefusesTextName refusal.new bytes.now offset features at length.old length.new name.old name.new }
{
    *refusal = write_name_at(alloc, bytes, offset, features, at, name, length);
    refusal.number
}

/// Writes the shortest encoding of an operator. Sets `length` to its number of bytes, also if they
/// do not fit.
///
/// The fields of `operator` are written. An operator with a list is written as it is in `bytes`, at
/// `operator.offset`.
pub fn wasm_encode_operator(
    alloc: Global,
    operator: &WasmOperator,
    bytes: &[u8],
    offset: u64,
    features: u32,
    out: &mut [u8],
    length: &mut usize,
    refusal: &mut WasmRefusal,
) -> u32
    ensures outcome { result ≡ refusal.new.number }
    ensures writes { WritesView refusal.new operator.now bytes.now offset features length.old length.new out.old out.new }
{
    *refusal = write_view_of(alloc, operator, bytes, offset, features, out, length);
    refusal.number
}

/// Writes the number of declarations of locals, and each of them, in the shortest encoding. Sets
/// `length` to its number of bytes, also if they do not fit.
pub fn wasm_encode_locals(
    locals: &[WasmLocals],
    out: &mut [u8],
    length: &mut usize,
    refusal: &mut WasmRefusal,
) -> u32
    ensures outcome { refusal.new ≡ misuse result 0 }
    ensures writes { PlacesShortest EncodesDeclarations locals.now result length.old length.new out.old out.new }
{
    *refusal = WasmRefusal::misuse(encode_locals(locals, out, length), 0);
    refusal.number
}

/// Writes an entry of a code section in the shortest encoding: the size of the body, the
/// declarations of locals, and the bytes of its operators. Sets `length` like
/// [`wasm_encode_locals`].
pub fn wasm_encode_body(
    locals: &[WasmLocals],
    operators: &[u8],
    out: &mut [u8],
    length: &mut usize,
    refusal: &mut WasmRefusal,
) -> u32
    ensures outcome { refusal.new ≡ misuse result 0 }
    ensures writes { PlacesShortest (EncodesEntry locals.now) operators.now result length.old length.new out.old out.new }
{
    *refusal = WasmRefusal::misuse(encode_body(locals, operators, out, length), 0);
    refusal.number
}

/// Writes a section in the shortest encoding: its number, its size, the number of its entries, and
/// their bytes. Sets `length` like [`wasm_encode_locals`].
pub fn wasm_encode_section(
    id: u8,
    count: u32,
    entries: &[u8],
    out: &mut [u8],
    length: &mut usize,
    refusal: &mut WasmRefusal,
) -> u32
    ensures outcome { refusal.new ≡ misuse result 0 }
    ensures writes { PlacesShortest (EncodesSection id count) entries.now result length.old length.new out.old out.new }
{
    *refusal = WasmRefusal::misuse(encode_section(id, count, entries, out, length), 0);
    refusal.number
}

/// Opens the bodies of a module.
pub fn wasm_open_bodies(
    alloc: Global,
    bytes: &[u8],
    bodies: &mut WasmBodies,
    refusal: &mut WasmRefusal,
) -> u32
    ensures outcome { result ≡ refusal.new.number }
    ensures opens { ReturnsBodies refusal.new bytes.now bodies.old bodies.new }
{
    *refusal = module::open(alloc, bytes, bodies);
    refusal.number
}

/// Reads the place of the next body, with the bytes that `bodies` was opened with.
pub fn wasm_next_body(
    bytes: &[u8],
    bodies: &mut WasmBodies,
    body: &mut WasmBody,
    refusal: &mut WasmRefusal,
) -> u32
    ensures outcome { result ≡ refusal.new.number }
    ensures next { ReturnsBody refusal.new bytes.now bodies.old bodies.new body.old body.new }
{
    *refusal = module::next(bytes, bodies, body);
    refusal.number
}

/// Writes the name of a function that the module defines. Sets `length` to its length, also if it
/// does not fit.
pub fn wasm_function_name(
    alloc: Global,
    bytes: &[u8],
    index: u32,
    name: &mut [u8],
    length: &mut usize,
    refusal: &mut WasmRefusal,
) -> u32
    ensures outcome { result ≡ refusal.new.number }
    ensures name { ReturnsName refusal.new bytes.now index length.old length.new name.old name.new }
{
    *refusal = module::write_name(alloc, bytes, index, name, length);
    refusal.number
}
