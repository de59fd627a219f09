ghost use Rattle.std.specs.Prelude.{◌≡◌, true, false, List, ℕ, IsOk, IfOk, IfErr};
ghost use Rattle.std.specs.Io.KnownBytes.{Appends, Keeps};
ghost use Rattle.wasm_disassembly.specs.Disassembly.{IsText};
ghost use Rattle.wasm_operators.specs.below.Source.{Reader};
ghost use Rattle.wasm_module.specs.ModuleFunctions.{index_of};
ghost use Rattle.wasm_disassembly.specs.Listing.{is_asked, are_none, heading_at, outcome_of, Refusals, Reported, WhereAsked, IsWritten, IsCode, ListsCode, IsFunction, AreAsked, Succeeds, IsHalt, IsLater};

use crate::complaints::Complaints;
use crate::listing_fault::Fault;
use crate::{DisassemblyFault, code_laws, disassemble};
use std::alloc::Global;
use std::io::Write;
use wasm_index_names::Names;
use wasm_listing::FlushedWrite;
use wasm_module::Functions;
use wasm_operators::{BinaryReader, CodeSectionReader, Error, FunctionBody};

/// Returns the error of a function's body, or the failure of allocation or of the writer.
fn outcome_of(fault: DisassemblyFault) -> Result<Result<(), Error>, Fault>
    ensures { result ≡ outcome_of fault }
{
    match fault {
        DisassemblyFault::Refused(e) => Ok(Err(e)),
        DisassemblyFault::Memory => Err(Fault::Memory),
        DisassemblyFault::Writing => Err(Fault::Writing),
    }
}

/// Writes the text of a function and returns the result of reading it.
fn list_function<W: Write>(
    alloc: Global,
    functions: &Functions<'_>,
    names: &Names,
    place: u32,
    body: &FunctionBody<'_>,
    writer: &mut W,
) -> Result<Result<(), Error>, Fault>
    ensures lists { IfOk result (λ outcome. (text : List ℕ) × Appends (W.contents writer.old) (W.contents writer.new) text
        × IsText (heading_at names.now functions.now place) outcome body.now text) }
    ensures whole { IfOk result (λ outcome. IsFunction body.now → IsOk outcome) }
    ensures halts { IfErr result (λ fault. IsHalt fault) }
{
    let index = functions.index(place);
    let parameters = functions.parameters(place);
    match disassemble(alloc, writer, index, names, parameters, body) {
        Ok(()) => Ok(Ok(())),
        Err(fault) => outcome_of(fault),
    }
}

/// Flushes the lines before the error of a function, then reports the error. Fails with `Writing`.
fn complain<W: FlushedWrite, C: Complaints>(
    writer: &mut W,
    complaints: &mut C,
    index: u32,
    error: Error,
) -> Result<(), Fault>
    ensures keeps { IfOk result (λ done. Keeps (W.contents writer.old) (W.contents writer.new)) }
    ensures flushed { IfOk result (λ done. W.is_flushed writer.new) }
    ensures reports { IfOk result (λ done. C.reports complaints.old index error complaints.new) }
    ensures err { IfErr result (λ fault. fault ≡ Fault.Writing) }
{
    if writer.flush_all().is_err() {
        return Err(Fault::Writing);
    }
    if complaints.complain(index, error).is_err() {
        return Err(Fault::Writing);
    }
    Ok(())
}

/// Returns whether the function with this index is requested.
pub fn is_asked(only: Option<u32>, index: u32) -> bool
    ensures { result ≡ is_asked only index }
{
    match only {
        None => true,
        Some(only) => only == index,
    }
}

/// Writes the text of a function, if it is requested. Reports its error, and returns whether there
/// is none.
fn list_asked<W: FlushedWrite, C: Complaints>(
    alloc: Global,
    functions: &Functions<'_>,
    names: &Names,
    only: Option<u32>,
    place: u32,
    body: &FunctionBody<'_>,
    writer: &mut W,
    complaints: &mut C,
) -> Result<bool, Fault>
    ensures lists { IfOk result (λ whole. (reported : Refusals) × (text : List ℕ)
        × Appends (W.contents writer.old) (W.contents writer.new) text
        × IsWritten names.now functions.now only place body.now reported text
        × Reported C.reports reported complaints.old complaints.new × (whole ≡ are_none reported)) }
    ensures whole { IfOk result (λ whole. WhereAsked (is_asked only (index_of functions.now place)) (IsFunction body.now) (Unit {0})
        → whole ≡ true) }
    ensures flushed { IfOk result (λ whole. whole ≡ false → W.is_flushed writer.new) }
    ensures halts { IfErr result (λ fault. IsHalt fault) }
{
    let index = functions.index(place);
    if !is_asked(only, index) {
        return Ok(true);
    }
    let outcome = list_function(alloc, functions, names, place, body, writer)?;
    match outcome {
        Ok(()) => Ok(true),
        Err(e) => {
            complain(writer, complaints, index, e)?;
            Ok(false)
        }
    }
}

#[tactic(auto, using(crate::proofs::Asked::halts_later))]
/// Writes the texts of all functions, or of one. Reports functions with errors, and returns whether
/// there is none.
///
/// Fails with `Code` if the section is in error, after the functions before the error.
pub fn list_code<W: FlushedWrite, C: Complaints>(
    alloc: Global,
    functions: &Functions<'_>,
    names: &Names,
    code: BinaryReader<'_>,
    only: Option<u32>,
    writer: &mut W,
    complaints: &mut C,
) -> Result<bool, Fault>
    ensures lists { ListsCode C.reports names.now functions.now only code.entry result complaints.old complaints.new
        (W.contents writer.old) (W.contents writer.new) }
    ensures whole { (bodies : List Reader) → IsCode code.entry bodies → AreAsked IsFunction functions.now only 0 bodies
        → Succeeds result }
    ensures later { IfErr result (λ fault. IsLater fault) }
{
    code_laws::one_list();
    code_laws::no_refusal();
    let section = match CodeSectionReader::new(alloc, code) {
        Ok(section) => section,
        Err(e) => return Err(Fault::Code(e)),
    };
    let mut items = section.into_iter();
    let mut place: u32 = 0;
    let mut whole = true;
    'bodies: while let Some(item) = items.next() {
        let body = match item {
            Ok(body) => body,
            Err(e) => return Err(Fault::Code(e)),
        };
        whole &= list_asked(
            alloc, functions, names, only, place, &body, writer, complaints,
        )?;
        place = place.saturating_add(1);
    }
    Ok(whole)
}
