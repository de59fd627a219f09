//! Readers of operators as C structs, with the open frames in an array.
ghost use Rattle.std.specs.Prelude.{◌≡◌, ◌≤◌, length, IfSome, IfNone, IfOk, IfErr, Err, List, ℕ};
ghost use Rattle.wasm_operators.specs.below.Source.{reader_of, offset_of, Takes};
ghost use Rattle.wasm_operators.specs.grammar.Frames.{change_of};
ghost use Rattle.wasm_operators.specs.instr.declared.operator.Operator.{Operator};
ghost use Rattle.wasm_operators.specs.instr.Roles.{role_of};
ghost use Rattle.wasm_operators.specs.opcodes.Allowed.{EncodesAllowed};
ghost use Rattle.wasm_operators.specs.opcodes.Decoding.{DecodesOperator};
ghost use Rattle.wasm_operators.specs.opcodes.OperatorFaults.{OperatorFault};
ghost use Rattle.wasm_view.specs.View.{view_of};
ghost use Rattle.wasm_operators.specs.Locals.{ReadsPastLocals};
ghost use Rattle.wasm_c.specs.Reads.{IsWithin};
ghost use Rattle.wasm_c.specs.Refused.{refusal_of};
ghost use Rattle.wasm_c.specs.Steps.{IsReader, reader_at, StepsPlain, ReadsPlain, ReadsBatch, FinishesPlain, OpensExpression, OpensPlain, fresh_reader, IsBeforeSimd, unexpected_simd, RefusesSimd};
ghost use Rattle.wasm_c.specs.Values.{ReturnsValue};

use crate::features::known_features;
use crate::frames::{BLOCK, change_frames, innermost};
use crate::refusal::{
    NO_ROOM, NO_VALUE_KIND, NOT_A_READER, PAST_OFFSETS, UNKNOWN_FEATURES, WasmRefusal,
};
use crate::value::WasmValue;
use crate::value_kind::ValueKind;
use crate::values::read_kind;
use crate::viewer::Viewer;
use std::alloc::Global;
use wasm_operators::{
    BinaryReader, Error, FrameKind, FunctionBody, Message, ReadSimdVisits, Result, WasmFeatures,
    operator_laws,
};
use wasm_view::WasmOperator;

/// The prefix byte of SIMD operators.
const SIMD: u8 = 0xfd;

/// A reader of operators as a C struct of 32 bytes.
#[repr(C)]
#[derive(Clone, Copy, Debug, PartialEq, Eq)]
pub struct WasmReader {
    /// The offset of the first byte.
    pub offset: u64,
    /// The number of bytes that were read.
    pub position: u64,
    /// The number of open frames.
    pub depth: u64,
    pub features: u32,
    pub reserved: u32,
}

/// Reads an operator inside this frame. The visitor then has its C struct and its effect.
#[inline(always)]
fn view_operator(
    alloc: Global,
    reader: &mut BinaryReader<'_>,
    frame: FrameKind,
    viewer: &mut Viewer,
) -> Result<()>
    ensures taken { IfOk result (λ _. (op : Operator) × (text : List ℕ)
        × EncodesAllowed reader.old.features frame text op × Takes reader.old reader.new text
        × (viewer.new.view ≡ view_of (op, offset_of reader.old)) × (viewer.new.change ≡ change_of (role_of op))) }
    ensures refused { IfErr result (λ e. DecodesOperator (EncodesAllowed reader.old.features frame)
        (OperatorFault reader.old.features frame) (Err e) reader.old reader.new) }
{
    viewer.frame = frame;
    viewer.offset = reader.original_position();
    reader.visit_operator_simd(alloc, viewer)
}

/// Returns a reader of the bytes after the locals of a body.
fn past_locals<'a>(bytes: &'a [u8], offset: u64, features: WasmFeatures) -> Result<BinaryReader<'a>>
    requires { IsWithin offset bytes.now }
    ensures { ReadsPastLocals result (reader_of features offset bytes.now) }
{
    let body = FunctionBody::new(BinaryReader::new_features(bytes, offset, features));
    body.get_binary_reader_for_operators()
}

impl WasmReader {
    /// Returns a reader of the bytes at this position, or `None` if `self` is not a reader of them
    /// and of `room` frames.
    fn bytes_ahead<'a>(&self, bytes: &'a [u8], room: usize) -> Option<BinaryReader<'a>>
        ensures ahead { IfSome result (λ ahead. IsReader bytes.now room self.now × (ahead ≡ reader_at bytes.now self.now)) }
        ensures none { IfNone result (IsReader bytes.now room self.now → ⊥) }
    {
        let Some(features) = WasmFeatures::from_bits(self.features) else {
            return None;
        };
        let length = bytes.len() as u64;
        if length > u64::MAX - self.offset || self.position > length || self.depth > room as u64 {
            return None;
        }
        let mut ahead = BinaryReader::new_features(bytes, self.offset, features);
        match ahead.read_bytes(self.position as usize) {
            Ok(_) => Some(ahead),
            Err(_) => None,
        }
    }

    /// Reads one operator from the bytes ahead, which are at this position.
    #[inline(always)]
    fn step(
        &mut self,
        alloc: Global,
        ahead: &mut BinaryReader<'_>,
        frames: &mut [u8],
        viewer: &mut Viewer,
    ) -> std::result::Result<(), WasmRefusal>
        requires { self.old.depth ≤ length frames.old }
        ensures { (bytes : List ℕ) → IsReader bytes (length frames.old) self.old → ahead.old ≡ reader_at bytes self.old
            → StepsPlain result bytes self.old self.new frames.old frames.new viewer.new.view ahead.new }
    {
        let depth = self.depth as usize;
        let offset = ahead.original_position();
        if depth == 0 {
            return Err(WasmRefusal::of(&Error::new(Message::OperatorsRemaining, offset)));
        }
        match view_operator(alloc, ahead, innermost(depth, frames), viewer) {
            Ok(()) => {
                operator_laws::frame_changes();
                if viewer.change.opens() && depth == frames.len() {
                    return Err(WasmRefusal::misuse(NO_ROOM, offset));
                }
                self.depth = change_frames(viewer.change, depth, frames) as u64;
                self.position = ahead.current_position() as u64;
                Ok(())
            }
            Err(error) => Err(WasmRefusal::of(&error)),
        }
    }

    pub fn read_next(
        &mut self,
        alloc: Global,
        bytes: &[u8],
        frames: &mut [u8],
    ) -> std::result::Result<WasmOperator, WasmRefusal>
        ensures { ReadsPlain result bytes.now self.old self.new frames.old frames.new }
    {
        let Some(mut ahead) = self.bytes_ahead(bytes, frames.len()) else {
            return Err(WasmRefusal::misuse(NOT_A_READER, self.offset));
        };
        let mut viewer = Viewer::new();
        match self.step(alloc, &mut ahead, frames, &mut viewer) {
            Ok(()) => Ok(viewer.view),
            Err(refused) => Err(refused),
        }
    }

    pub fn read_many(
        &mut self,
        alloc: Global,
        bytes: &[u8],
        frames: &mut [u8],
        out: &mut [WasmOperator],
        count: &mut usize,
    ) -> WasmRefusal
        ensures { ReadsBatch result count.new bytes.now self.old self.new frames.old frames.new out.old out.new }
    {
        let mut found: usize = 0;
        *count = found;
        let Some(mut ahead) = self.bytes_ahead(bytes, frames.len()) else {
            return WasmRefusal::misuse(NOT_A_READER, self.offset);
        };
        let mut viewer = Viewer::new();
        'places: while found < out.len() && !ahead.eof() {
            match self.step(alloc, &mut ahead, frames, &mut viewer) {
                Ok(()) => {
                    out[found] = viewer.view;
                    found += 1;
                }
                Err(refused) => {
                    *count = found;
                    return refused;
                }
            }
        }
        *count = found;
        WasmRefusal::none(ahead.original_position())
    }

    pub fn read_value(
        &mut self,
        alloc: Global,
        bytes: &[u8],
        number: u32,
        argument: u64,
        value: &mut WasmValue,
    ) -> WasmRefusal
        ensures { ReturnsValue result bytes.now self.old self.new number argument value.old value.new }
    {
        let Some(kind) = ValueKind::numbered(number) else {
            return WasmRefusal::misuse(NO_VALUE_KIND, self.offset);
        };
        let Some(mut ahead) = self.bytes_ahead(bytes, 0) else {
            return WasmRefusal::misuse(NOT_A_READER, self.offset);
        };
        match read_kind(alloc, kind, argument, &mut ahead) {
            Ok(found) => {
                *value = found;
                let position = ahead.current_position();
                self.position = position as u64;
                let offset = ahead.original_position();
                WasmRefusal::none(offset)
            }
            Err(error) => WasmRefusal::of(&error),
        }
    }

    /// Returns the error before a SIMD operator, if one is next and a frame is open.
    fn refuse_simd(&self, bytes: &[u8], frames: &[u8]) -> Option<WasmRefusal>
        ensures some { IfSome result (λ r. IsBeforeSimd bytes.now self.now frames.now
            × (r ≡ refusal_of (unexpected_simd (offset_of (reader_at bytes.now self.now))))) }
        ensures none { IfNone result (IsBeforeSimd bytes.now self.now frames.now → ⊥) }
    {
        let Some(ahead) = self.bytes_ahead(bytes, frames.len()) else {
            return None;
        };
        if self.depth == 0 {
            return None;
        }
        match ahead.peek() {
            Ok(byte) => {
                if byte != SIMD {
                    return None;
                }
                let offset = ahead.original_position();
                Some(WasmRefusal::of(&Error::new(Message::UnexpectedSimd, offset)))
            }
            Err(_) => None,
        }
    }

    /// Reads one operator, unless it is a SIMD operator.
    pub fn read_plain(
        &mut self,
        alloc: Global,
        bytes: &[u8],
        frames: &mut [u8],
    ) -> std::result::Result<WasmOperator, WasmRefusal>
        ensures simd { IsBeforeSimd bytes.now self.old frames.old
            → RefusesSimd result bytes.now self.old self.new frames.old frames.new }
        ensures other { (IsBeforeSimd bytes.now self.old frames.old → ⊥)
            → ReadsPlain result bytes.now self.old self.new frames.old frames.new }
    {
        match self.refuse_simd(bytes, frames) {
            Some(refused) => Err(refused),
            None => self.read_next(alloc, bytes, frames),
        }
    }

    pub fn finish(&self, bytes: &[u8], frames: &[u8]) -> WasmRefusal
        ensures { FinishesPlain result bytes.now self.now frames.now }
    {
        let Some(ahead) = self.bytes_ahead(bytes, frames.len()) else {
            return WasmRefusal::misuse(NOT_A_READER, self.offset);
        };
        let offset = ahead.original_position();
        if self.depth > 0 {
            return WasmRefusal::of(&Error::new(Message::FramesRemain, offset));
        }
        if !ahead.eof() {
            return WasmRefusal::of(&Error::new(Message::UnexpectedData, offset));
        }
        WasmRefusal::none(offset)
    }

    /// Creates a reader in which only the frame of the expression is open.
    fn fresh(offset: u64, features: u32, position: u64) -> WasmReader
        ensures { result ≡ fresh_reader offset features position }
    {
        WasmReader {
            offset,
            position,
            depth: 1,
            features,
            reserved: 0,
        }
    }

    pub fn open(
        &mut self,
        bytes: &[u8],
        offset: u64,
        features: u32,
        frames: &mut [u8],
    ) -> WasmRefusal
        ensures { OpensExpression result bytes.now offset features self.old self.new frames.old frames.new }
    {
        match known_features(bytes, offset, features) {
            Ok(_) => {
                if frames.is_empty() {
                    return WasmRefusal::misuse(NO_ROOM, offset);
                }
                frames[0] = BLOCK;
                *self = WasmReader::fresh(offset, features, 0);
                WasmRefusal::none(offset)
            }
            Err(refused) => refused,
        }
    }

    pub fn open_body(
        &mut self,
        bytes: &[u8],
        offset: u64,
        features: u32,
        frames: &mut [u8],
    ) -> WasmRefusal
        ensures { OpensPlain result bytes.now offset features self.old self.new frames.old frames.new }
    {
        let Some(known) = WasmFeatures::from_bits(features) else {
            return WasmRefusal::misuse(UNKNOWN_FEATURES, offset);
        };
        if bytes.len() as u64 > u64::MAX - offset {
            return WasmRefusal::misuse(PAST_OFFSETS, offset);
        }
        if frames.is_empty() {
            return WasmRefusal::misuse(NO_ROOM, offset);
        }
        match past_locals(bytes, offset, known) {
            Ok(after) => {
                frames[0] = BLOCK;
                *self = WasmReader::fresh(offset, features, after.current_position() as u64);
                WasmRefusal::none(after.original_position())
            }
            Err(error) => WasmRefusal::of(&error),
        }
    }
}
