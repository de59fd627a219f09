use crate::externals::write_external;
use crate::failure::{Failure, Written};
use crate::modules::write_sections;
use crate::names::write_names;
use crate::row::{Input, Row};
use crate::segments::{write_data, write_element};
use crate::subtypes::write_matching;
use crate::tables::{write_global, write_table};
use crate::types::write_rec_group;
use crate::written::write_rewritten;
use std::alloc::Global;
use std::io::{self, Print};

#[derive(Clone, Copy)]
struct Rows {
    rows: u32,
    differ: u32,
    out_of_memory: u32,
}

pub fn print_rows<R: Print>(rt: &R, alloc: Global, table: &str) -> io::Result<()> {
    let mut counts = Rows {
        rows: 0,
        differ: 0,
        out_of_memory: 0,
    };
    let mut text = String::new(alloc);
    for line in table.lines() {
        if !line.is_empty() && !line.starts_with('#') {
            text.clear();
            counts.compare(rt, alloc, &mut text, line)?;
        }
    }
    print!(rt; "{} rows, {} differ", counts.rows, counts.differ)?;
    if counts.out_of_memory > 0 {
        print!(rt; ", {} out of memory", counts.out_of_memory)?;
    }
    println!(rt;)
}

impl Rows {
    /// Evaluates a row, with `text` for its text, and prints it if it differs.
    fn compare<R: Print>(
        &mut self,
        rt: &R,
        alloc: Global,
        text: &mut String,
        line: &str,
    ) -> io::Result<()> {
        self.rows = self.rows.saturating_add(1);
        let ended = match Row::of(line) {
            None => Err(Failure::Malformed),
            Some(row) => match evaluate(alloc, &row, text) {
                Ok(()) if text.as_str() == row.expected => return Ok(()),
                Err(Failure::OutOfMemory) => {
                    self.out_of_memory = self.out_of_memory.saturating_add(1);
                    return Ok(());
                }
                ended => ended,
            },
        };
        self.differ = self.differ.saturating_add(1);
        match ended {
            Ok(()) => println!(rt; "differs: {line}\n  gives: {text}"),
            Err(failure) => println!(rt; "differs: {line}\n  gives: {failure:?}"),
        }
    }
}

fn evaluate(alloc: Global, row: &Row<'_>, text: &mut String) -> Written {
    let input = Input::parse(alloc, row.input)?;
    let mut reader = input.reader()?;
    match row.call {
        "rec_group" => write_rec_group(alloc, text, &mut reader),
        "names" => write_names(alloc, text, reader),
        "sections" => write_sections(alloc, text, &reader),
        "written" => write_rewritten(alloc, text, &reader),
        "data" => write_data(alloc, text, &mut reader),
        "element" => write_element(alloc, text, &mut reader),
        "global" => write_global(alloc, text, &mut reader),
        "table" => write_table(alloc, text, &mut reader),
        "types" => write_matching(alloc, text, &mut reader, ""),
        call => match call.split_once(' ') {
            Some(("types", indices)) => write_matching(alloc, text, &mut reader, indices),
            _ => write_external(alloc, text, call, &mut reader),
        },
    }
}
