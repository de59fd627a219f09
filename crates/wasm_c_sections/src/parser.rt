//! A parser of a module as a C struct.
ghost use Rattle.std.specs.Prelude.{◌≡◌, ◌<◌, ◌≤◌, ◌⊎◌, IfSome, IfNone};
ghost use Rattle.wasm_c_sections.specs.Payloads.{counted, flag_if, state_numbered, IsParser, parsing_at, parser_of, ReturnsPayload};
ghost use Rattle.wasm_sections.specs.Order.{or_zero};
ghost use Rattle.wasm_externals.specs.Flags.{has_flag};

use crate::items::{NO_ITEM, NOT_A_READER};
use crate::payload::WasmPayload;
use std::alloc::Global;
use wasm_below::{BinaryReader, WasmFeatures};
use wasm_c::WasmRefusal;
use wasm_payloads::{Parser, ParserState};
use wasm_sections::{SectionCounts, SectionOrder};

/// A place between the parts of a module, as a C struct of 40 bytes. All fields but `features` are 0
/// before the first part.
#[repr(C)]
#[derive(Clone, Copy, Debug, PartialEq, Eq)]
pub struct WasmParser {
    /// The number of bytes that were read.
    pub position: u64,
    pub features: u32,
    /// The number of bodies that are left, and the size of the section's rest in bytes.
    pub bodies: u32,
    pub size: u32,
    /// The counts that were read, at the start of the sections.
    pub function_count: u32,
    pub body_count: u32,
    pub segment_count: u32,
    pub data_count: u32,
    /// What is read next: 0 the preamble, 1 a section, 2 a body, 3 nothing.
    pub state: u8,
    /// The place in the order of sections of the last that has one.
    pub last: u8,
    /// Which counts were read: 1, 2, 4 and 8, in the order of the fields.
    pub counted: u8,
    pub reserved: u8,
}

fn state_numbered(number: u8, remaining: u32, size: u32) -> ParserState
    ensures { result ≡ state_numbered number remaining size }
{
    match number {
        0 => ParserState::Header,
        1 => ParserState::Section,
        2 => ParserState::Bodies { remaining, size },
        _ => ParserState::Ended,
    }
}

fn counted(flags: u8, weight: u8, count: u32) -> Option<u32>
    requires { 0 < weight }
    ensures { result ≡ counted (has_flag flags weight) count }
{
    if flags / weight % 2 == 1 {
        Some(count)
    } else {
        None
    }
}

fn or_zero(count: Option<u32>) -> u32
    ensures { result ≡ or_zero count }
{
    match count {
        Some(count) => count,
        None => 0,
    }
}

fn flag_if(count: Option<u32>, weight: u8) -> u8
    ensures is { result ≡ flag_if count weight }
    ensures small { result ≤ weight }
{
    match count {
        Some(_) => weight,
        None => 0,
    }
}

impl WasmParser {
    /// Returns the parser with these fields, or `None` if they can't be of a parser of these bytes.
    fn open<'a>(&self, alloc: Global, bytes: &'a [u8]) -> Option<Parser<'a>>
        ensures some { IfSome result (λ p. IsParser bytes.now self.now × (p ≡ parsing_at bytes.now self.now)) }
        ensures none { IfNone result (IsParser bytes.now self.now → ⊥) }
    {
        let Some(features) = WasmFeatures::from_bits(self.features) else {
            return None;
        };
        if self.position > bytes.len() as u64 {
            return None;
        }
        let mut reader = BinaryReader::new_features(bytes, 0, features);
        reader.set_position(self.position as usize);
        let counts = SectionCounts {
            functions: counted(self.counted, 1, self.function_count),
            bodies: counted(self.counted, 2, self.body_count),
            data: counted(self.counted, 4, self.segment_count),
            data_count: counted(self.counted, 8, self.data_count),
        };
        let state = state_numbered(self.state, self.bodies, self.size);
        let order = SectionOrder { last: self.last };
        Some(Parser::from_parts(alloc, reader, state, order, counts))
    }

    /// Returns the C struct of a parser.
    fn of(features: u32, parser: Parser<'_>) -> WasmParser
        ensures { result ≡ parser_of features parser.entry }
    {
        let (reader, state, order, counts) = parser.into_parts();
        let (number, bodies, size) = match state {
            ParserState::Header => (0, 0, 0),
            ParserState::Section => (1, 0, 0),
            ParserState::Bodies { remaining, size } => (2, remaining, size),
            ParserState::Ended => (3, 0, 0),
        };
        WasmParser {
            position: reader.current_position() as u64,
            features,
            bodies,
            size,
            function_count: or_zero(counts.functions),
            body_count: or_zero(counts.bodies),
            segment_count: or_zero(counts.data),
            data_count: or_zero(counts.data_count),
            state: number,
            last: order.last,
            counted: flag_if(counts.functions, 1)
                + flag_if(counts.bodies, 2)
                + flag_if(counts.data, 4)
                + flag_if(counts.data_count, 8),
            reserved: 0,
        }
    }
}

/// Reads the next payload of a module.
pub fn next_payload(
    alloc: Global,
    bytes: &[u8],
    parser: &mut WasmParser,
    payload: &mut WasmPayload,
) -> WasmRefusal
    ensures { ReturnsPayload result bytes.now parser.old parser.new payload.old payload.new }
{
    let features = parser.features;
    let Some(mut steps) = parser.open(alloc, bytes) else {
        return WasmRefusal::misuse(NOT_A_READER, parser.position);
    };
    match steps.next() {
        Some(Ok(found)) => {
            *payload = WasmPayload::of(features, found);
            *parser = WasmParser::of(features, steps);
            WasmRefusal::none(parser.position)
        }
        Some(Err(e)) => WasmRefusal::of(&e),
        None => WasmRefusal::misuse(NO_ITEM, parser.position),
    }
}
