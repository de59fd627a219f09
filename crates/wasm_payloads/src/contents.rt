ghost use Rattle.std.specs.Prelude.{◌≡◌, ◌<◌, IfOk};
ghost use Rattle.wasm_payloads.specs.Contents.{ReadsPayload};
ghost use Rattle.wasm_payloads.specs.Parsing.{counts_after};

use crate::custom::CustomSectionReader;
use crate::payload::{FunctionSectionReader, Payload};
use crate::unread::UnreadItems;
use std::alloc::Global;
use wasm_below::{BinaryReader, Malformed, Message, Result};
use wasm_sections::{SectionCounts, SectionReader, read_all};

/// Reads what is at the start of a section's contents: a name, the number of items, or for `start`
/// and the data count all of it. Takes note of the counts.
pub fn read_payload<'a>(
    alloc: Global,
    id: u8,
    contents: BinaryReader<'a>,
    counts: &mut SectionCounts,
) -> Result<Payload<'a>>
    ensures reads { ReadsPayload id result contents.entry }
    ensures counts { IfOk result (λ p. counts.new ≡ counts_after counts.old p) }
{
    match id {
        0 => match CustomSectionReader::new(alloc, contents) {
            Ok(section) => Ok(Payload::CustomSection(section)),
            Err(e) => Err(e),
        },
        1 => match SectionReader::new(alloc, contents) {
            Ok(section) => Ok(Payload::TypeSection(section)),
            Err(e) => Err(e),
        },
        2 => match SectionReader::new(alloc, contents) {
            Ok(section) => Ok(Payload::ImportSection(section)),
            Err(e) => Err(e),
        },
        3 => match FunctionSectionReader::new(alloc, contents) {
            Ok(section) => {
                counts.functions = Some(section.count());
                Ok(Payload::FunctionSection(section))
            }
            Err(e) => Err(e),
        },
        4 => match UnreadItems::new(alloc, contents) {
            Ok(section) => Ok(Payload::TableSection(section)),
            Err(e) => Err(e),
        },
        5 => match SectionReader::new(alloc, contents) {
            Ok(section) => Ok(Payload::MemorySection(section)),
            Err(e) => Err(e),
        },
        _ => read_late_payload(alloc, id, contents, counts),
    }
}

fn read_late_payload<'a>(
    alloc: Global,
    id: u8,
    contents: BinaryReader<'a>,
    counts: &mut SectionCounts,
) -> Result<Payload<'a>>
    requires { 5 < id }
    ensures reads { ReadsPayload id result contents.entry }
    ensures counts { IfOk result (λ p. counts.new ≡ counts_after counts.old p) }
{
    match id {
        6 => match UnreadItems::new(alloc, contents) {
            Ok(section) => Ok(Payload::GlobalSection(section)),
            Err(e) => Err(e),
        },
        7 => match SectionReader::new(alloc, contents) {
            Ok(section) => Ok(Payload::ExportSection(section)),
            Err(e) => Err(e),
        },
        8 => read_start(alloc, contents),
        9 => match UnreadItems::new(alloc, contents) {
            Ok(section) => Ok(Payload::ElementSection(section)),
            Err(e) => Err(e),
        },
        11 => match UnreadItems::new(alloc, contents) {
            Ok(section) => {
                counts.data = Some(section.count());
                Ok(Payload::DataSection(section))
            }
            Err(e) => Err(e),
        },
        12 => read_data_count(alloc, contents, counts),
        13 => match SectionReader::new(alloc, contents) {
            Ok(section) => Ok(Payload::TagSection(section)),
            Err(e) => Err(e),
        },
        _ => Ok(Payload::UnknownSection { id, contents }),
    }
}

fn read_start<'a>(alloc: Global, contents: BinaryReader<'a>) -> Result<Payload<'a>>
    ensures { ReadsPayload 8 result contents.entry }
{
    let range = contents.range();
    match read_all(alloc, contents, Message::Malformed(Malformed::StartContent)) {
        Ok(func) => Ok(Payload::StartSection { func, range }),
        Err(e) => Err(e),
    }
}

fn read_data_count<'a>(
    alloc: Global,
    contents: BinaryReader<'a>,
    counts: &mut SectionCounts,
) -> Result<Payload<'a>>
    ensures reads { ReadsPayload 12 result contents.entry }
    ensures counts { IfOk result (λ p. counts.new ≡ counts_after counts.old p) }
{
    let range = contents.range();
    match read_all(
        alloc,
        contents,
        Message::Malformed(Malformed::DataCountContent),
    ) {
        Ok(count) => {
            counts.data_count = Some(count);
            Ok(Payload::DataCountSection { count, range })
        }
        Err(e) => Err(e),
    }
}
