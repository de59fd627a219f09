use crate::kinds::write_found;
use crate::row::{Given, Row, row_of};
use std::alloc::{AllocError, Global};
use std::io::{self, Print};
use wasm_tests_texts::{Written, read_hex};

/// How many bytes a row and its result may have. They are allocated once: a `memory_` row then
/// allocates only in its calls.
const CAPACITY: usize = 4096;

#[derive(Drop)]
pub struct Table {
    alloc: Global,
    is_short: bool,
    rows: u64,
    differ: u64,
    lacking: u64,
    bytes: Vec<u8>,
    written: Vec<u8>,
    /// The result of a `memory_` row.
    reserved: String,
    /// The result of another row, whose growth may fail.
    grown: String,
}

impl Table {
    pub fn new(alloc: Global, is_short: bool) -> Result<Table, AllocError> {
        Ok(Table {
            alloc,
            is_short,
            rows: 0,
            differ: 0,
            lacking: 0,
            bytes: Vec::with_capacity(alloc, CAPACITY)?,
            written: Vec::with_capacity(alloc, CAPACITY)?,
            reserved: String::with_capacity(alloc, CAPACITY)?,
            grown: String::new(alloc),
        })
    }

    /// Evaluates the row of a line, and prints it if it differs. Skips empty lines, lines that
    /// start with `#` and, in a short run, rows that start with `long_`.
    pub fn line<R: Print>(&mut self, rt: &R, line: &str) -> io::Result<()> {
        if line.is_empty() || line.starts_with('#') {
            return Ok(());
        }
        if self.is_short && line.starts_with("long_") {
            return Ok(());
        }
        self.rows = self.rows.saturating_add(1);
        let Some(row) = row_of(line) else {
            self.differ = self.differ.saturating_add(1);
            return println!(rt; "not a row: {line}");
        };
        let is_memory = row.kind.starts_with("memory_");
        let end = self.evaluate(&row, is_memory);
        if end.is_ok() && self.found(is_memory) == row.expected {
            return Ok(());
        }
        if end.is_err() && !is_memory {
            self.lacking = self.lacking.saturating_add(1);
            return Ok(());
        }
        self.differ = self.differ.saturating_add(1);
        println!(rt; "differs: {line}\n  found: {}", self.found(is_memory))
    }

    fn found(&self, is_memory: bool) -> &str {
        if is_memory {
            self.reserved.as_str()
        } else {
            self.grown.as_str()
        }
    }

    fn evaluate(&mut self, row: &Row<'_>, is_memory: bool) -> Written {
        read_hex(&mut self.bytes, row.digits)?;
        let given = Given {
            argument: row.argument,
            offset: row.offset,
            bytes: self.bytes.as_slice(),
        };
        self.written.clear();
        self.reserved.clear();
        self.grown = String::new(self.alloc);
        if is_memory {
            write_found(
                self.alloc,
                row.kind,
                given,
                &mut self.written,
                &mut self.reserved,
            )
        } else {
            write_found(
                self.alloc,
                row.kind,
                given,
                &mut self.written,
                &mut self.grown,
            )
        }
    }

    pub fn print_counts<R: Print>(&self, rt: &R) -> io::Result<()> {
        print!(rt; "{} rows, {} differ", self.rows, self.differ)?;
        if self.lacking > 0 {
            print!(rt; ", {} out of memory", self.lacking)?;
        }
        println!(rt)
    }
}
