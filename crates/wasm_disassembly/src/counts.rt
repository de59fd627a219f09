ghost use Rattle.std.specs.Prelude.{◌≡◌, true, List, IfOk, IfErr};
ghost use Rattle.wasm_operators.specs.below.Source.{Reader, offset_of};
ghost use Rattle.wasm_module.specs.ModuleFunctions.{index_of};
ghost use Rattle.wasm_disassembly.specs.Listing.{is_asked, are_none, Refusals, Reported, WhereAsked, IsCode, AreAsked, IsHalt, IsLater};
ghost use Rattle.wasm_disassembly.specs.ModuleCensus.{add_counts, no_counts, IsAdded, CountsCode, IsCounted, CountsAll, moved};

use crate::code_laws;
use crate::complaints::Complaints;
use crate::listing::is_asked;
use crate::listing_fault::Fault;
use std::alloc::Global;
use wasm_listing::{DumpFault, census};
use wasm_module::Functions;
use wasm_operators::{BinaryReader, CodeSectionReader, Error, FunctionBody, WasmFeatures};

/// The operator counts of a module, in the order of `census` of `wasm_listing`. Operators of a
/// function with an error are not counted.
#[derive(Clone, Copy, Debug, PartialEq, Eq)]
pub struct ModuleCounts {
    pub counts: [u64; 19],
    /// Whether no function has an error.
    pub whole: bool,
}

impl ModuleCounts {
    /// Returns counts of 0, without an error.
    pub fn none() -> ModuleCounts
        ensures counts { result.counts ≡ no_counts }
        ensures whole { result.whole ≡ true }
    {
        ModuleCounts {
            counts: [0; 19],
            whole: true,
        }
    }
}

/// Adds the counts of a body.
fn add(counts: &mut [u64; 19], more: &[u64; 19])
    ensures { counts.new ≡ add_counts counts.old more.now }
{
    'places: for place in 0..19usize {
        counts[place] = counts[place].saturating_add(more[place]);
    }
}

/// Returns the error with its offset in the module instead of the body.
fn moved(body: &FunctionBody<'_>, error: Error) -> Error
    ensures { result ≡ moved (offset_of body.now) error }
{
    let start = body.get_binary_reader().original_position();
    Error::new(error.message(), start.saturating_add(error.offset()))
}

/// Adds the counts of a function, if it is requested. Reports its error, and returns whether there
/// is none.
fn count_asked<C: Complaints>(
    alloc: Global,
    features: WasmFeatures,
    functions: &Functions<'_>,
    only: Option<u32>,
    place: u32,
    body: &FunctionBody<'_>,
    counts: &mut [u64; 19],
    complaints: &mut C,
) -> Result<bool, Fault>
    ensures adds { IfOk result (λ whole. (reported : Refusals)
        × IsAdded features functions.now only place body.now reported counts.old counts.new
        × Reported C.reports reported complaints.old complaints.new × (whole ≡ are_none reported)) }
    ensures whole { IfOk result (λ whole. WhereAsked (is_asked only (index_of functions.now place)) (IsCounted features body.now) (Unit {0})
        → whole ≡ true) }
    ensures halts { IfErr result (λ fault. IsHalt fault) }
{
    let index = functions.index(place);
    if !is_asked(only, index) {
        return Ok(true);
    }
    match census(alloc, features, body.as_bytes()) {
        Ok(more) => {
            add(counts, &more);
            Ok(true)
        }
        Err(DumpFault::Refused(e)) => match complaints.complain(index, moved(body, e)) {
            Ok(()) => Ok(false),
            Err(_) => Err(Fault::Writing),
        },
        Err(_) => Err(Fault::Memory),
    }
}

#[tactic(auto, using(crate::proofs::Asked::halts_later))]
/// Counts the operators of all functions, or of one. Reports functions with errors and counts the
/// others.
///
/// Fails with `Code` if the section is in error.
pub fn count_code<C: Complaints>(
    alloc: Global,
    features: WasmFeatures,
    functions: &Functions<'_>,
    code: BinaryReader<'_>,
    only: Option<u32>,
    complaints: &mut C,
) -> Result<ModuleCounts, Fault>
    ensures counts { CountsCode C.reports features functions.now only code.entry result complaints.old complaints.new }
    ensures whole { (bodies : List Reader) → IsCode code.entry bodies
        → AreAsked (IsCounted features) functions.now only 0 bodies → CountsAll result }
    ensures later { IfErr result (λ fault. IsLater fault) }
{
    code_laws::one_list();
    code_laws::no_refusal();
    let section = match CodeSectionReader::new(alloc, code) {
        Ok(section) => section,
        Err(e) => return Err(Fault::Code(e)),
    };
    let mut items = section.into_iter();
    let mut counts = ModuleCounts::none().counts;
    let mut place: u32 = 0;
    let mut whole = true;
    'bodies: while let Some(item) = items.next() {
        let body = match item {
            Ok(body) => body,
            Err(e) => return Err(Fault::Code(e)),
        };
        whole &= count_asked(
            alloc,
            features,
            functions,
            only,
            place,
            &body,
            &mut counts,
            complaints,
        )?;
        place = place.saturating_add(1);
    }
    Ok(ModuleCounts { counts, whole })
}
