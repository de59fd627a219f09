use crate::bodies::{
    write_body, write_body_after_byte, write_locals, write_locals_end, write_locals_items,
};
use crate::constants::{write_constant, write_only_constant};
use crate::disassembly::{write_disassembly, write_text};
use crate::failing::{write_failing_read, write_failing_write};
use crate::listing::{write_census, write_features, write_listing, write_nops};
use crate::module::{write_rec_types, write_section, write_sections};
use crate::row::Given;
use crate::scenarios::write_scenario;
use crate::sections::{write_code, write_code_operators, write_iter, write_numbers};
use crate::single::{Visits, write_clones, write_finish, write_next, write_peek, write_visits};
use std::alloc::Global;
use wasm_tests_texts::Written;

/// Makes the calls of this kind of row, and writes their results. Fails if allocation failed.
///
/// Kinds that start with `memory_` repeat a call whose allocation failed; it must change nothing,
/// and the second succeed.
pub fn write_found(
    alloc: Global,
    kind: &str,
    given: Given<'_>,
    written: &mut Vec<u8>,
    out: &mut String,
) -> Written {
    match kind {
        "text" => write_text(alloc, given, out),
        "disassembly" => write_disassembly(alloc, given, out),
        "sections" => write_sections(given, out),
        "section" => write_section(given, out),
        "rec_types" => write_rec_types(given, out),
        "memory_peek" => write_peek(alloc, given, out),
        "memory_visit" => write_visits(alloc, given, Visits::Scalar, out),
        "memory_visit_simd" => write_visits(alloc, given, Visits::All, out),
        "memory_clones" => write_clones(alloc, given, out),
        "memory_next" => write_next(alloc, given, out),
        "finish" => write_finish(given, out),
        "memory_constant" => write_constant(alloc, given, out),
        "memory_only_constant" => write_only_constant(alloc, given, out),
        "numbers" => write_numbers(alloc, given, out),
        "read_iter" => write_iter(alloc, given, out),
        "code" => write_code(alloc, given, out),
        "code_operators" => write_code_operators(alloc, given, out),
        "locals" => write_locals(given, out),
        "locals_end" => write_locals_end(given, out),
        "locals_items" => write_locals_items(alloc, given, out),
        "body" => write_body(alloc, given, out),
        "body_after_byte" => write_body_after_byte(given, out),
        "memory_listing" => write_listing(alloc, given, written, out),
        "failing_read" => write_failing_read(alloc, given, out),
        "failing_write" => write_failing_write(alloc, given, out),
        "nops" | "long_nops" => write_nops(alloc, given, out),
        "memory_census" => write_census(alloc, given, out),
        "features" => write_features(given, out),
        "scenario" => write_scenario(alloc, given, out),
        _ => out.push_str("no kind of row has this name"),
    }
}
