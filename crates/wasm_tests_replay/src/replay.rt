use crate::listing::Listing;
use crate::outcomes::{fingerprint, write_visits};
use crate::parts::{write_constant, write_locals, write_section};
use crate::reading::write_fields;
use crate::row::{Row, Sample, is_heading, row_of, sample_of};
use crate::visits::{write_all, write_plain};
use bitflags::Flags;
use std::alloc::Global;
use std::io::{self, Print};
use wasm_operators::WasmFeatures;
use wasm_tests_texts::read_hex;

#[derive(Drop)]
pub struct Replay {
    alloc: Global,
    pub cases: u64,
    pub differ: u64,
    differs: bool,
    outcome: String,
}

impl Replay {
    pub fn new(alloc: Global) -> Replay {
        Replay {
            alloc,
            cases: 0,
            differ: 0,
            differs: false,
            outcome: String::new(alloc),
        }
    }

    /// Runs one line. If it differs, prints it after its differences.
    pub fn line<R: Print>(&mut self, rt: &R, line: &str) -> io::Result<()> {
        if is_heading(line) {
            return Ok(());
        }
        self.differs = false;
        if let Some(row) = row_of(line) {
            self.row(rt, &row)?;
        } else if let Some(sample) = sample_of(line) {
            self.sample(rt, &sample)?;
        } else {
            self.differs = true;
        }
        if self.differs {
            self.differ = self.differ.saturating_add(1);
            println!(rt; "differs: {line}")?;
        }
        self.cases = self.cases.saturating_add(1);
        Ok(())
    }

    fn row<R: Print>(&mut self, rt: &R, row: &Row<'_>) -> io::Result<()> {
        let mut bytes = Vec::new(self.alloc);
        read_hex(&mut bytes, row.body)?;
        let body = bytes.as_slice();
        self.listing(rt, row, body)?;
        self.reading(rt, row, body)?;
        self.visits(rt, row, body)?;
        self.parts(rt, row, body)
    }

    fn listing<R: Print>(&mut self, rt: &R, row: &Row<'_>, body: &[u8]) -> io::Result<()> {
        let listing = Listing::of(self.alloc, row.features, body);
        listing.write_status(&mut self.outcome)?;
        self.compare(rt, "status", row.status)?;
        listing.write_number(&mut self.outcome)?;
        self.compare(rt, "number", row.number)?;
        listing.write_offset(&mut self.outcome)?;
        self.compare(rt, "offset", row.offset)?;
        listing.write_text(&mut self.outcome)?;
        self.compare(rt, "text", row.text)?;
        listing.write_count(&mut self.outcome)?;
        self.compare(rt, "operators", row.operators)?;
        listing.write_print(&mut self.outcome)?;
        self.compare(rt, "listing", row.listing)?;
        listing.write_lines(&mut self.outcome)?;
        self.compare(rt, "lines", row.lines)
    }

    fn reading<R: Print>(&mut self, rt: &R, row: &Row<'_>, body: &[u8]) -> io::Result<()> {
        let mut text = String::new(self.alloc);
        let end = write_fields(self.alloc, row.features, body, &mut text)?;
        let print = fingerprint(text.as_bytes());
        write!(self.outcome, "{print:016x}")?;
        if self.outcome.as_str() != row.fields {
            print!(rt; "{text}")?;
        }
        self.compare(rt, "fields", row.fields)?;
        write_visits(&mut self.outcome, text.lines().count() as u64, end)?;
        self.compare_end(rt, "read_all", row)
    }

    fn visits<R: Print>(&mut self, rt: &R, row: &Row<'_>, body: &[u8]) -> io::Result<()> {
        write_all(self.alloc, row.features, body, &mut self.outcome)?;
        self.compare_end(rt, "visit_all_simd", row)?;
        write_plain(self.alloc, row.features, body, &mut self.outcome)?;
        self.compare(rt, "visit_all", row.plain)
    }

    fn parts<R: Print>(&mut self, rt: &R, row: &Row<'_>, body: &[u8]) -> io::Result<()> {
        write_constant(self.alloc, row.features, body, &mut self.outcome)?;
        self.compare(rt, "constant expression", row.constant)?;
        write_locals(row.features, body, &mut self.outcome)?;
        self.compare(rt, "locals", row.locals)?;
        write_section(self.alloc, row.features, body, &mut self.outcome)?;
        self.compare(rt, "code section", row.section)
    }

    fn compare_end<R: Print>(&mut self, rt: &R, what: &str, row: &Row<'_>) -> io::Result<()> {
        let mut expected = String::new(self.alloc);
        match row.status {
            "0" => write!(expected, "{} Ok", row.operators)?,
            _ => write!(expected, "{} E{}@{}", row.operators, row.number, row.offset)?,
        }
        self.compare(rt, what, expected.as_str())
    }

    fn compare<R: Print>(&mut self, rt: &R, what: &str, expected: &str) -> io::Result<()> {
        if self.outcome.as_str() != expected {
            self.differs = true;
            println!(rt; "{what}: {}, and not {expected}", self.outcome)?;
        }
        self.outcome.clear();
        Ok(())
    }

    fn sample<R: Print>(&mut self, rt: &R, sample: &Sample<'_>) -> io::Result<()> {
        let hexadecimal = format!(in self.alloc;
            "{}{}{}",
            sample.before, sample.operator, sample.after
        )?;
        let mut bytes = Vec::new(self.alloc);
        read_hex(&mut bytes, hexadecimal.as_str())?;
        let body = bytes.as_slice();
        let offset = sample.before.len() / 2;
        let listing = Listing::of(self.alloc, WasmFeatures::all(), body);
        listing.write_status(&mut self.outcome)?;
        self.compare(rt, "status", "0")?;
        let expected = format!(in self.alloc; "{offset} {}", sample.name)?;
        self.find(rt, listing.lines(), expected.as_str())?;
        let mut text = String::new(self.alloc);
        let _end = write_fields(self.alloc, WasmFeatures::all(), body, &mut text)?;
        let expected = format!(in self.alloc; "{offset} {}", sample.fields)?;
        self.find(rt, text.as_str(), expected.as_str())
    }

    fn find<R: Print>(&mut self, rt: &R, text: &str, expected: &str) -> io::Result<()> {
        if text.lines().any(|line| line == expected) {
            return Ok(());
        }
        self.differs = true;
        println!(rt; "no line {expected}, but\n{text}")
    }
}
