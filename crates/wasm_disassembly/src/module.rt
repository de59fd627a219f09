ghost use Rattle.std.specs.Prelude.{◌≡◌, ◌++◌, IfErr, OnOk, option_map, string_bytes};
ghost use Rattle.std.specs.Io.KnownBytes.{Appends};
ghost use Rattle.wasm_disassembly.specs.Listing.{heading_of, IsHalt, ListsModule, IsModuleOf, IsFunction, Succeeds, WritesNothing};
ghost use Rattle.wasm_disassembly.specs.Cut.{ListsUpToCut};
ghost use Rattle.wasm_disassembly.specs.Headers.{ListsHeaders};
ghost use Rattle.wasm_disassembly.specs.ModuleCensus.{CountsModule, IsCounted, CountsAll};

use crate::complaints::Complaints;
use crate::counts::{ModuleCounts, count_code};
use crate::cut::{after_cut, before_cut, find_cut};
use crate::headers::list_sections;
use crate::listing::list_code;
use crate::listing_fault::Fault;
use crate::opened::open_module;
use crate::writing::write_text;
use std::alloc::{AllocError, Global};
use std::io::Write;
use wasm_index_names::names_with;
use wasm_listing::FlushedWrite;
use wasm_module::{function_laws, module_name, open_sections};
use wasm_operators::WasmFeatures;
use wasm_rows::push_title;

const CODE_HEADING: &str = "\nCode Disassembly:\n\n";

const SECTIONS_HEADING: &str = "\nSections:\n\n";

/// Appends a title, unless `file` is `None`, and the heading `listed`.
fn push_heading(
    alloc: Global,
    out: &mut String,
    file: Option<&str>,
    name: &[u8],
    listed: &str,
) -> Result<(), AllocError>
    ensures { OnOk result (string_bytes out.new ≡ string_bytes out.old ++ heading_of (option_map (λ text. text.now) file.entry) name.now listed.now) }
{
    push_title(alloc, out, file, name)?;
    out.push_str(listed)
}

/// Writes the heading of a listing.
fn write_heading<W: Write>(
    alloc: Global,
    file: Option<&str>,
    name: &[u8],
    listed: &str,
    writer: &mut W,
) -> Result<(), Fault>
    ensures ok { OnOk result (Appends (W.contents writer.old) (W.contents writer.new)
        (heading_of (option_map (λ text. text.now) file.entry) name.now listed.now)) }
    ensures err { IfErr result (λ fault. IsHalt fault) }
{
    let mut heading = String::new(alloc);
    if push_heading(alloc, &mut heading, file, name, listed).is_err() {
        return Err(Fault::Memory);
    }
    write_text(writer, heading.as_str(), Fault::Writing)
}

/// Writes the disassembly of a module without a section in error.
fn list_part<W: FlushedWrite, C: Complaints>(
    alloc: Global,
    features: WasmFeatures,
    only: Option<u32>,
    file: Option<&str>,
    bytes: &[u8],
    writer: &mut W,
    complaints: &mut C,
) -> Result<bool, Fault>
    ensures lists { ListsModule C.reports features only (option_map (λ text. text.now) file.entry) bytes.now result complaints.old complaints.new
        (W.contents writer.old) (W.contents writer.new) }
    ensures whole { IsModuleOf IsFunction features only bytes.now → Succeeds result }
    ensures nothing { IfErr result (λ fault. WritesNothing fault → writer.new ≡ writer.old) }
{
    function_laws::sections();
    function_laws::defined_functions();
    let (functions, code) = open_module(alloc, features, only, bytes)?;
    write_heading(
        alloc,
        file,
        module_name(features, bytes),
        CODE_HEADING,
        writer,
    )?;
    let names = match names_with(alloc, features, bytes, &functions) {
        Ok(names) => names,
        Err(_) => return Err(Fault::Memory),
    };
    match code {
        Some(code) => list_code(alloc, &functions, &names, code, only, writer, complaints),
        None => Ok(true),
    }
}

/// Writes the disassembly of a module up to its first section in error: a title, unless `file` is
/// `None`, and the texts of all functions, or of one. Reports functions with errors, and returns
/// whether there is none.
///
/// Fails with `Code` if the code section is in error, after the functions before the error;
/// otherwise with `Section` if a section is.
pub fn list_module<W: FlushedWrite, C: Complaints>(
    alloc: Global,
    features: WasmFeatures,
    only: Option<u32>,
    file: Option<&str>,
    bytes: &[u8],
    writer: &mut W,
    complaints: &mut C,
) -> Result<bool, Fault>
    ensures lists { ListsUpToCut C.reports features only (option_map (λ text. text.now) file.entry) bytes.now result complaints.old complaints.new
        (W.contents writer.old) (W.contents writer.new) }
    // If each requested function has a body within the limit of locals, the result is `Ok(true)`,
    // unless writing or allocation fails.
    ensures whole { IsModuleOf IsFunction features only bytes.now → Succeeds result }
    ensures nothing { IfErr result (λ fault. WritesNothing fault → writer.new ≡ writer.old) }
{
    function_laws::refusals();
    let cut = find_cut(features, bytes);
    let part = before_cut(cut, bytes);
    let listed = list_part(alloc, features, only, file, part, writer, complaints);
    after_cut(cut, listed)
}

/// Writes a title, unless `file` is `None`, and a line for each section.
///
/// Fails with `Module` if the bytes do not start with a module's preamble, and with `Section` at
/// the first section that can't be read.
pub fn list_headers<W: Write>(
    alloc: Global,
    features: WasmFeatures,
    file: Option<&str>,
    bytes: &[u8],
    writer: &mut W,
) -> Result<(), Fault>
    ensures { ListsHeaders features (option_map (λ text. text.now) file.entry) bytes.now result
        (W.contents writer.old) (W.contents writer.new) }
{
    let sections = match open_sections(features, bytes) {
        Ok(sections) => sections,
        Err(fault) => return Err(Fault::Module(fault)),
    };
    write_heading(
        alloc,
        file,
        module_name(features, bytes),
        SECTIONS_HEADING,
        writer,
    )?;
    list_sections(alloc, sections, writer)
}

/// Counts the operators of all functions of a module, or of one. Reports functions with errors and
/// counts the others.
///
/// Fails with `Code` if the code section is in error.
pub fn count_module<C: Complaints>(
    alloc: Global,
    features: WasmFeatures,
    only: Option<u32>,
    bytes: &[u8],
    complaints: &mut C,
) -> Result<ModuleCounts, Fault>
    ensures counts { CountsModule C.reports features only bytes.now result complaints.old complaints.new }
    // If each requested function has a body, no function has an error, unless reporting or
    // allocation fails.
    ensures whole { IsModuleOf (IsCounted features) features only bytes.now → CountsAll result }
{
    function_laws::sections();
    function_laws::defined_functions();
    let (functions, code) = open_module(alloc, features, only, bytes)?;
    match code {
        Some(code) => count_code(alloc, features, &functions, code, only, complaints),
        None => Ok(ModuleCounts::none()),
    }
}
