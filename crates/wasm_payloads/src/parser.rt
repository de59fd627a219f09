ghost use Rattle.std.specs.Prelude.{◌≡◌, ◌≢◌, ◌⊎◌, [], IfOk, IfErr};
ghost use Rattle.wasm_below.specs.Source.{rest, offset_of};
ghost use Rattle.wasm_grammars.specs.Reading.{Fails};
ghost use Rattle.wasm_payloads.specs.declared.parser.ParserState.TheVariants as phase;
ghost use Rattle.wasm_payloads.specs.Parsing.{StepsParser, payloads_to_come, starts, IsMalformed, EndsModule, GivesVersion, GivesSection, GivesBody, GivesCode, GivesContents, Opens, FailsAtSection, FailsAtBody, FailsToOpen, FailsCode, FailsContents};
ghost use Rattle.wasm_sections.specs.Preamble.{preamble};

use crate::contents::read_payload;
use crate::payload::{Encoding, Payload};
use std::alloc::Global;
use std::marker::Model;
use wasm_below::{BinaryReader, Error, Malformed, Message, Result};
use wasm_grammars::read_contents;
use wasm_sections::{
    SectionCounts, SectionHeader, SectionOrder, begins_module, read_delimited, read_header,
    read_preamble,
};

/// The id of the code section.
const CODE: u8 = 10;

/// The id of the data section.
const DATA: u8 = 11;

/// What a parser reads next.
#[derive(Clone, Copy, Debug, PartialEq, Eq)]
pub enum ParserState {
    Header,
    Section,
    /// The bodies that are left, and their size in bytes.
    Bodies { remaining: u32, size: u32 },
    Ended,
}

/// An iterator over the payloads of a module, which ends after an error.
#[derive(Drop)]
pub struct Parser<'a> {
    alloc: Global,
    reader: BinaryReader<'a>,
    state: ParserState,
    order: SectionOrder,
    counts: SectionCounts,
}

impl<'a> Model for Parser<'a> {
    ghost use Rattle.wasm_payloads.specs.Parsing.{Parsing};

    ghost Value = { Parsing };

    ghost view = { λ p. record { reader = p.reader; state = p.state; order = p.order; counts = p.counts } };
}

/// Returns an iterator over the payloads of the module that the reader's bytes are.
pub fn parse_all<'a>(alloc: Global, reader: BinaryReader<'a>) -> Parser<'a>
    ensures { result ≡ starts reader.entry }
{
    Parser {
        alloc,
        reader,
        state: ParserState::Header,
        order: SectionOrder { last: 0 },
        counts: SectionCounts {
            functions: None,
            bodies: None,
            data: None,
            data_count: None,
        },
    }
}

impl<'a> Parser<'a> {
    /// Returns the parser of which [`Parser::into_parts`] returned these parts.
    pub fn from_parts(
        alloc: Global,
        reader: BinaryReader<'a>,
        state: ParserState,
        order: SectionOrder,
        counts: SectionCounts,
    ) -> Parser<'a>
        ensures { result ≡ record { reader = reader.entry; state = state; order = order; counts = counts } }
    {
        Parser {
            alloc,
            reader,
            state,
            order,
            counts,
        }
    }

    /// Returns the reader before the next payload, what is read next, and the order and the counts of
    /// the sections so far.
    pub fn into_parts(self) -> (BinaryReader<'a>, ParserState, SectionOrder, SectionCounts)
        ensures reader { result.0 ≡ self.entry.reader }
        ensures state { result.1 ≡ self.entry.state }
        ensures order { result.2 ≡ self.entry.order }
        ensures counts { result.3 ≡ self.entry.counts }
    {
        let Parser {
            alloc: _,
            reader,
            state,
            order,
            counts,
        } = self;
        (reader, state, order, counts)
    }
}

fn malformed(what: Malformed, offset: u64) -> Error
    ensures { IsMalformed what result offset }
{
    Error::new(Message::Malformed(what), offset)
}

impl<'a> Iterator for Parser<'a> {
    type Item = Result<Payload<'a>>;

    ghost next_gives = { StepsParser };

    ghost remaining = { payloads_to_come };

    /// Reads the next payload. Returns `None` after the end and after an error.
    ///
    /// Fails like the parts that it reads, or with `SecondModule`, `SectionOrder`, `CodeContent`, and
    /// with the errors of `SectionCounts`.
    fn next(&mut self) -> Option<Result<Payload<'a>>> {
        match self.state {
            ParserState::Header => Some(self.next_version()),
            ParserState::Section => Some(self.next_section()),
            ParserState::Bodies { remaining, size } => Some(self.next_body(remaining, size)),
            ParserState::Ended => None,
        }
    }
}

impl<'a> Parser<'a> {
    fn next_version(&mut self) -> Result<Payload<'a>>
        ensures ok { IfOk result (λ p. GivesVersion p self.old self.new) }
        ensures err { IfErr result (λ e. Fails preamble (offset_of self.old.reader) e self.old.reader) }
        ensures ended { IfErr result (λ e. self.new.state ≡ phase.Ended) }
    {
        let start = self.reader.original_position();
        match read_preamble(&mut self.reader) {
            Ok(_version) => {
                self.state = ParserState::Section;
                let end = self.reader.original_position();
                Ok(Payload::Version {
                    num: 1,
                    encoding: Encoding::Module,
                    range: start..end,
                })
            }
            Err(e) => {
                self.state = ParserState::Ended;
                Err(e)
            }
        }
    }

    fn next_section(&mut self) -> Result<Payload<'a>>
        ensures ok { IfOk result (λ p. GivesSection p self.old self.new) }
        ensures err { IfErr result (λ e. FailsAtSection e self.old) }
        ensures ended { IfErr result (λ e. self.new.state ≡ phase.Ended) }
    {
        match self.read_section() {
            Ok(payload) => Ok(payload),
            Err(e) => {
                self.state = ParserState::Ended;
                Err(e)
            }
        }
    }

    fn read_section(&mut self) -> Result<Payload<'a>>
        ensures ok { IfOk result (λ p. GivesSection p self.old self.new) }
        ensures err { IfErr result (λ e. FailsAtSection e self.old) }
    {
        if self.reader.eof() {
            return match self.end() {
                Ok(payload) => {
                    self.state = ParserState::Ended;
                    Ok(payload)
                }
                Err(e) => Err(e),
            };
        }
        match self.open() {
            Ok(header) => match self.read_opened(header) {
                Ok(payload) => Ok(payload),
                Err(e) => Err(e),
            },
            Err(e) => Err(e),
        }
    }

    fn end(&self) -> Result<Payload<'a>>
        ensures { EndsModule result self.now }
    {
        let offset = self.reader.original_position();
        if let Some(what) = self.counts.functions_fault() {
            return Err(malformed(what, offset));
        }
        if let Some(what) = self.counts.data_fault() {
            return Err(malformed(what, offset));
        }
        Ok(Payload::End(offset))
    }

    fn open(&mut self) -> Result<SectionHeader>
        requires { rest self.old.reader ≢ [] }
        ensures ok { IfOk result (λ h. Opens self.old h self.new) }
        ensures err { IfErr result (λ e. FailsToOpen e self.old) }
    {
        if begins_module(&self.reader) {
            let offset = self.reader.original_position();
            return Err(malformed(Malformed::SecondModule, offset));
        }
        match read_header(&mut self.reader) {
            Ok(header) => {
                if !self.order.advance(header.id) {
                    return Err(malformed(Malformed::SectionOrder, header.start));
                }
                Ok(header)
            }
            Err(e) => Err(e),
        }
    }

    fn read_opened(&mut self, header: SectionHeader) -> Result<Payload<'a>>
        ensures ok { IfOk result (λ p. GivesCode header p self.old self.new ⊎ GivesContents header p self.old self.new) }
        ensures err { IfErr result (λ e. FailsCode header e self.old ⊎ FailsContents header e self.old) }
    {
        if header.id == CODE {
            return match self.start_code(header) {
                Ok(payload) => Ok(payload),
                Err(e) => Err(e),
            };
        }
        match self.read_other(header) {
            Ok(payload) => Ok(payload),
            Err(e) => Err(e),
        }
    }

    fn start_code(&mut self, header: SectionHeader) -> Result<Payload<'a>>
        requires { header.id ≡ 10 }
        ensures ok { IfOk result (λ p. GivesCode header p self.old self.new) }
        ensures err { IfErr result (λ e. FailsCode header e self.old) }
    {
        match read_delimited::<u32>(self.alloc, &mut self.reader, header.size) {
            Ok((count, size)) => {
                self.counts.bodies = Some(count);
                match self.counts.functions_fault() {
                    Some(what) => Err(malformed(what, header.start)),
                    None => {
                        self.state = ParserState::Bodies {
                            remaining: count,
                            size,
                        };
                        Ok(Payload::CodeSectionStart {
                            count,
                            start: header.start,
                            contents_size: header.size,
                            size,
                        })
                    }
                }
            }
            Err(e) => Err(e),
        }
    }

    fn read_other(&mut self, header: SectionHeader) -> Result<Payload<'a>>
        requires { header.id ≢ 10 }
        ensures ok { IfOk result (λ p. GivesContents header p self.old self.new) }
        ensures err { IfErr result (λ e. FailsContents header e self.old) }
    {
        let contents = match read_contents(&mut self.reader, header.size as usize) {
            Ok(contents) => contents,
            Err(e) => return Err(e),
        };
        let payload = match read_payload(self.alloc, header.id, contents, &mut self.counts) {
            Ok(payload) => payload,
            Err(e) => return Err(e),
        };
        if header.id == DATA {
            if let Some(what) = self.counts.data_fault() {
                let offset = self.reader.original_position();
                return Err(malformed(what, offset));
            }
            self.state = ParserState::Section;
            return Ok(payload);
        }
        self.state = ParserState::Section;
        Ok(payload)
    }

    fn next_body(&mut self, remaining: u32, size: u32) -> Result<Payload<'a>>
        ensures ok { IfOk result (λ p. GivesBody remaining size p self.old self.new) }
        ensures err { IfErr result (λ e. FailsAtBody remaining size e self.old) }
        ensures ended { IfErr result (λ e. self.new.state ≡ phase.Ended) }
    {
        if remaining == 0 {
            if size > 0 {
                let offset = self.reader.original_position();
                self.state = ParserState::Ended;
                return Err(malformed(Malformed::CodeContent, offset));
            }
            return match self.next_section() {
                Ok(payload) => Ok(payload),
                Err(e) => Err(e),
            };
        }
        match read_delimited::<BinaryReader<'a>>(self.alloc, &mut self.reader, size) {
            Ok((body, left)) => {
                self.state = ParserState::Bodies {
                    remaining: remaining - 1,
                    size: left,
                };
                Ok(Payload::CodeSectionEntry(body))
            }
            Err(e) => {
                self.state = ParserState::Ended;
                Err(e)
            }
        }
    }
}
