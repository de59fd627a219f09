ghost use Rattle.std.specs.Prelude.{◌≡◌, ◌++◌, List, IfOk, IfErr, OnOk, string_bytes};
ghost use Rattle.std.specs.Io.KnownBytes.{Appends};
ghost use Rattle.wasm_disassembly.specs.CountTable.{Row, IsTable, row_text, table_text};
ghost use Rattle.wasm_disassembly.specs.Listing.{IsHalt};

use crate::listing_fault::Fault;
use crate::writing::write_text;
use std::alloc::{AllocError, Global};
use std::cmp::Reverse;
use std::io::Write;
use wasm_listing::proposal_at;

/// Returns the counts above 0, each with its index, the largest first.
fn rows_of(alloc: Global, counts: &[u64; 19]) -> Result<Vec<(Reverse<u64>, usize)>, AllocError>
    ensures { IfOk result (λ rows. IsTable counts.now rows.items) }
{
    let mut rows = Vec::new(alloc);
    'places: for place in 0..19usize {
        if counts[place] != 0 {
            rows.push((Reverse(counts[place]), place))?;
        }
    }
    rows.sort()?;
    Ok(rows)
}

/// Appends the line of a row.
fn push_row(out: &mut String, row: (Reverse<u64>, usize)) -> Result<(), AllocError>
    ensures { OnOk result (string_bytes out.new ≡ string_bytes out.old ++ row_text row) }
{
    let count = row.0.0;
    let name = proposal_at(row.1);
    writeln!(out, "{count:>12} {name}")
}

/// Appends the lines of the rows.
fn push_rows(out: &mut String, rows: &[(Reverse<u64>, usize)]) -> Result<(), AllocError>
    ensures { OnOk result (string_bytes out.new ≡ string_bytes out.old ++ table_text rows.now) }
{
    for row in rows {
        push_row(out, *row)?;
    }
    Ok(())
}

/// Writes the count and the name of each proposal whose operators occur, the largest count first.
/// `counts` has the order of `census` of `wasm_listing`.
pub fn write_table<W: Write>(alloc: Global, counts: &[u64; 19], writer: &mut W) -> Result<(), Fault>
    ensures ok { OnOk result ((rows : List Row) × IsTable counts.now rows
        × Appends (W.contents writer.old) (W.contents writer.new) (table_text rows)) }
    ensures err { IfErr result (λ fault. IsHalt fault) }
{
    let Ok(rows) = rows_of(alloc, counts) else {
        return Err(Fault::Memory);
    };
    let mut text = String::new(alloc);
    if push_rows(&mut text, rows.as_slice()).is_err() {
        return Err(Fault::Memory);
    }
    write_text(writer, text.as_str(), Fault::Writing)
}
