ghost use Rattle.std.specs.Prelude.{◌≡◌, IfErr, option_map};
ghost use Rattle.std.specs.Bool.{OnTrue, OnFalse};
ghost use Rattle.wasm_disassembly.specs.Cut.{ListsUpToCut};
ghost use Rattle.wasm_disassembly.specs.Listing.{IsFunction, IsModuleOf, Succeeds, WritesNothing};
ghost use Rattle.wasm_disassembly.specs.ModuleCensus.{IsCounted, TabulatesModule};

use crate::complaints::Complaints;
use crate::listing_fault::Fault;
use crate::module::{count_module, list_module};
use crate::table::write_table;
use std::alloc::Global;
use wasm_listing::FlushedWrite;
use wasm_operators::WasmFeatures;

/// What is requested of a module.
#[derive(Clone, Copy, Debug, PartialEq, Eq)]
pub struct ModuleRequest {
    /// Whether operators are counted, in place of the disassembly.
    pub census: bool,
    /// The only function that is requested, if there is one.
    pub function: Option<u32>,
    /// The features that the functions are read with.
    pub features: WasmFeatures,
}

/// Writes the disassembly of a module, or its operator counts as a table. Returns whether no
/// function has an error.
///
/// Fails as `list_module` and `count_module` do.
pub fn run<W: FlushedWrite, C: Complaints>(
    alloc: Global,
    requested: ModuleRequest,
    file: Option<&str>,
    bytes: &[u8],
    writer: &mut W,
    complaints: &mut C,
) -> Result<bool, Fault>
    ensures tabulates { OnTrue requested.census
        (TabulatesModule C.reports requested.features requested.function bytes.now result complaints.old complaints.new
        (W.contents writer.old) (W.contents writer.new)) }
    ensures lists { OnFalse requested.census
        (ListsUpToCut C.reports requested.features requested.function (option_map (λ text. text.now) file.entry) bytes.now result complaints.old complaints.new
        (W.contents writer.old) (W.contents writer.new)) }
    // If each requested function has a body (in a listing, within the limit of locals), the result
    // is `Ok(true)`, unless writing or allocation fails.
    ensures counted { OnTrue requested.census
        (IsModuleOf (IsCounted requested.features) requested.features requested.function bytes.now → Succeeds result) }
    ensures listed { OnFalse requested.census
        (IsModuleOf IsFunction requested.features requested.function bytes.now → Succeeds result) }
    ensures nothing { IfErr result (λ fault. WritesNothing fault → writer.new ≡ writer.old) }
{
    if !requested.census {
        return list_module(
            alloc,
            requested.features,
            requested.function,
            file,
            bytes,
            writer,
            complaints,
        );
    }
    let found = count_module(
        alloc,
        requested.features,
        requested.function,
        bytes,
        complaints,
    )?;
    write_table(alloc, &found.counts, writer)?;
    Ok(found.whole)
}
