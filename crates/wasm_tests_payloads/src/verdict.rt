use crate::items::print_items;
use std::alloc::Global;
use std::io::{self, Print};
use wasm_below::{BinaryReader, Error, Message};
use wasm_payloads::{Payload, parse_all};

/// How many payloads are before the error, if any.
#[derive(Clone, Copy, Debug, PartialEq, Eq)]
struct Verdict {
    payloads: u32,
    error: Option<Error>,
}

fn verdict_of(alloc: Global, bytes: &[u8]) -> Verdict {
    let mut payloads: u32 = 0;
    for item in parse_all(alloc, BinaryReader::new(bytes, 0)) {
        match item {
            Ok(_) => payloads = payloads.saturating_add(1),
            Err(e) => {
                return Verdict {
                    payloads,
                    error: Some(e),
                };
            }
        }
    }
    Verdict {
        payloads,
        error: None,
    }
}

fn print_verdict<R: Print>(rt: &R, verdict: Verdict) -> io::Result<()> {
    let Verdict { payloads, error } = verdict;
    match error {
        None => println!(rt; "{payloads} ok"),
        Some(Error { message, offset }) => match message {
            Message::BadMagic(_) => println!(rt;
                "{payloads} 0x{offset:x} magic header not detected"
            ),
            Message::UnknownVersion(_) => println!(rt;
                "{payloads} 0x{offset:x} unknown binary version"
            ),
            _ => println!(rt; "{payloads} 0x{offset:x} {message}"),
        },
    }
}

/// Returns whether two verdicts are printed identically.
fn prints_the_same(a: Verdict, b: Verdict) -> bool {
    if a.payloads != b.payloads {
        return false;
    }
    match (a.error, b.error) {
        (None, None) => true,
        (Some(e), Some(f)) => {
            e.offset == f.offset
                && match (e.message, f.message) {
                    (Message::BadMagic(_), Message::BadMagic(_)) => true,
                    (Message::UnknownVersion(_), Message::UnknownVersion(_)) => true,
                    (m, n) => m == n,
                }
        }
        _ => false,
    }
}

/// Prints the payloads of a module, and their items that hold constant expressions.
pub fn print_payloads<R: Print>(rt: &R, alloc: Global, bytes: &[u8]) -> io::Result<()> {
    for item in parse_all(alloc, BinaryReader::new(bytes, 0)) {
        match item {
            Ok(payload) => {
                print_payload(rt, &payload)?;
                print_items(rt, alloc, payload)?
            }
            Err(e) => println!(rt; "  {e}")?,
        }
    }
    Ok(())
}

fn print_payload<R: Print>(rt: &R, payload: &Payload<'_>) -> io::Result<()> {
    match payload {
        Payload::Version { num, range, .. } => {
            println!(rt; "  Version {num} {:x}..{:x}", range.start, range.end)
        }
        Payload::TypeSection(s) => print_section(rt, "TypeSection", s.count(), s.range()),
        Payload::ImportSection(s) => print_section(rt, "ImportSection", s.count(), s.range()),
        Payload::FunctionSection(s) => print_section(rt, "FunctionSection", s.count(), s.range()),
        Payload::TableSection(s) => print_section(rt, "TableSection", s.count(), s.range()),
        Payload::MemorySection(s) => print_section(rt, "MemorySection", s.count(), s.range()),
        Payload::TagSection(s) => print_section(rt, "TagSection", s.count(), s.range()),
        Payload::GlobalSection(s) => print_section(rt, "GlobalSection", s.count(), s.range()),
        Payload::ExportSection(s) => print_section(rt, "ExportSection", s.count(), s.range()),
        Payload::StartSection { func, range } => {
            println!(rt; "  StartSection {func} {:x}..{:x}", range.start, range.end)
        }
        Payload::ElementSection(s) => print_section(rt, "ElementSection", s.count(), s.range()),
        Payload::DataCountSection { count, range } => {
            println!(rt;
                "  DataCountSection {count} {:x}..{:x}",
                range.start, range.end
            )
        }
        Payload::DataSection(s) => print_section(rt, "DataSection", s.count(), s.range()),
        Payload::CodeSectionStart {
            count,
            start,
            contents_size,
            size,
        } => {
            let end = start.saturating_add(u64::from(*contents_size));
            println!(rt; "  CodeSectionStart {count} {start:x}..{end:x} {size}")
        }
        Payload::CodeSectionEntry(body) => {
            let range = body.range();
            println!(rt; "  CodeSectionEntry {:x}..{:x}", range.start, range.end)
        }
        Payload::CustomSection(custom) => {
            let range = custom.range();
            let name = custom.name();
            let data = custom.data_offset();
            println!(rt;
                "  CustomSection {name} {:x}..{:x} {data:x}",
                range.start, range.end
            )
        }
        Payload::UnknownSection { id, contents } => {
            let range = contents.range();
            println!(rt; "  UnknownSection {id} {:x}..{:x}", range.start, range.end)
        }
        Payload::End(offset) => println!(rt; "  End {offset:x}"),
    }
}

fn print_section<R: Print>(
    rt: &R,
    name: &str,
    count: u32,
    range: std::ops::Range<u64>,
) -> io::Result<()> {
    println!(rt; "  {name} {count} {:x}..{:x}", range.start, range.end)
}

/// Prints the verdict on each proper prefix of the bytes.
pub fn print_cuts<R: Print>(rt: &R, alloc: Global, bytes: &[u8]) -> io::Result<()> {
    for end in 0..bytes.len() {
        print!(rt; "cut {end:x}: ")?;
        print_verdict(rt, verdict_of(alloc, &bytes[..end]))?;
    }
    Ok(())
}

/// Values of a byte, and the verdict if the byte is any of these.
#[derive(Clone, Copy, Debug)]
struct Run {
    first: u8,
    last: u8,
    verdict: Verdict,
}

/// Prints the verdicts if one byte is another: for each place the runs of values with one verdict.
pub fn print_changes<R: Print>(rt: &R, alloc: Global, bytes: &[u8]) -> io::Result<()> {
    let mut changed = copy_of(alloc, bytes)?;
    for (place, byte) in bytes.iter().enumerate() {
        let mut run = None;
        for value in 0..=255u8 {
            set_byte(&mut changed, place, value);
            let verdict = verdict_of(alloc, changed.as_slice());
            run = Some(longer_run(rt, place, run, value, verdict)?);
        }
        if let Some(last) = run {
            print_run(rt, place, last)?;
        }
        set_byte(&mut changed, place, *byte);
    }
    Ok(())
}

/// Returns the run that the value belongs to. Prints one that ends before it.
fn longer_run<R: Print>(
    rt: &R,
    place: usize,
    run: Option<Run>,
    value: u8,
    verdict: Verdict,
) -> io::Result<Run> {
    let new = Run {
        first: value,
        last: value,
        verdict,
    };
    match run {
        None => Ok(new),
        Some(old) => {
            if prints_the_same(old.verdict, verdict) {
                return Ok(Run { last: value, ..old });
            }
            print_run(rt, place, old)?;
            Ok(new)
        }
    }
}

fn print_run<R: Print>(rt: &R, place: usize, run: Run) -> io::Result<()> {
    let Run {
        first,
        last,
        verdict,
    } = run;
    print!(rt; "at {place:x}: {first:x}..{last:x}: ")?;
    print_verdict(rt, verdict)
}

fn copy_of(alloc: Global, bytes: &[u8]) -> io::Result<Vec<u8>> {
    let mut copy = Vec::new(alloc);
    for byte in bytes {
        copy.push(*byte)?;
    }
    Ok(copy)
}

fn set_byte(bytes: &mut Vec<u8>, place: usize, value: u8) {
    if place < bytes.len() {
        bytes[place] = value;
    }
}
