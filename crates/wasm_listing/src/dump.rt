ghost use Rattle.std.specs.Prelude.{◌≡◌, ◌↔◌, List, IsTrue, IsOk, IsErrAnd, IfOk, IfErr, IfSome, OnOk, string_bytes};
ghost use Rattle.std.specs.Io.KnownBytes.{Appends};
ghost use Rattle.wasm_operators.specs.Expression.{Placed};
ghost use Rattle.wasm_operators.specs.Body.{ReadsBody};
ghost use Rattle.wasm_operators.specs.Reading.{Adds};
ghost use Rattle.wasm_operators.specs.Locals.{Declaration};
ghost use Rattle.wasm_listing.specs.Dump.{input_of, IsBody, Lists, Dumps, WritesLines, WritesNothing, IsNotRefused};

use crate::body::open_body;
use crate::fault::DumpFault;
use crate::flushed::FlushedWrite;
use crate::input::read_input;
use crate::lines::lines_of;
use std::alloc::Global;
use std::io::Read;
use wasm_operators::{Error, Message, Operator, WasmFeatures, body_laws};

#[derive(Drop)]
struct Listing {
    text: String,
    end: Result<(), Error>,
}

fn read_body<'a>(
    alloc: Global,
    features: WasmFeatures,
    bytes: &'a [u8],
    out: &mut Vec<(Operator<'a>, u64)>,
) -> Result<(), Error>
    ensures reads { ReadsBody (Adds out.old.items out.new.items) result (input_of features bytes.now) }
    ensures whole { (declarations : List Declaration) → (placed : Placed)
        → IsBody (input_of features bytes.now) declarations placed
        → IfErr result (λ e. e.message ≡ Message.OutOfMemory) }
{
    body_laws::opened_bodies();
    body_laws::refused_locals();
    let mut operators = open_body(alloc, features, bytes)?;
    operators.read_all(out)
}

/// Makes the text for a body. Fails with `Memory` only.
fn list_body(alloc: Global, features: WasmFeatures, bytes: &[u8]) -> Result<Listing, DumpFault>
    ensures lists { IfOk result (λ listing. Lists (input_of features bytes.now) listing.end (string_bytes listing.text)) }
    ensures whole { (declarations : List Declaration) → (placed : Placed)
        → IsBody (input_of features bytes.now) declarations placed → IfOk result (λ listing. IsOk listing.end) }
    ensures memory { IfErr result (λ fault. fault ≡ DumpFault.Memory) }
{
    let mut operators = Vec::new(alloc);
    let end = read_body(alloc, features, bytes, &mut operators);
    if is_memory(&end) {
        return Err(DumpFault::Memory);
    }
    match lines_of(alloc, operators.as_slice()) {
        Ok(text) => Ok(Listing { text, end }),
        Err(_) => Err(DumpFault::Memory),
    }
}

fn is_memory(end: &Result<(), Error>) -> bool
    ensures { IsTrue result ↔ IsErrAnd end.now (λ e. e.message ≡ Message.OutOfMemory) }
{
    match end {
        Ok(()) => false,
        Err(error) => matches!(error.message(), Message::OutOfMemory),
    }
}

/// Writes a text and flushes the writer. Fails with `Writing` only.
fn write_text<W: FlushedWrite>(writer: &mut W, text: &str) -> Result<(), DumpFault>
    ensures ok { OnOk result (Appends (W.contents writer.old) (W.contents writer.new) text.now) }
    ensures flushed { OnOk result (W.is_flushed writer.new) }
    ensures err { IfErr result (λ fault. fault ≡ DumpFault.Writing) }
{
    if writer.write_all(text.as_bytes()).is_err() {
        return Err(DumpFault::Writing);
    }
    if writer.flush_all().is_err() {
        return Err(DumpFault::Writing);
    }
    Ok(())
}

/// Reads a body, writes a line for each of its operators, and flushes the writer.
///
/// Fails with `Refused` after the lines before an error. Fails with `Reading` or `Memory` before
/// anything is written, and with `Writing` after an unspecified part.
pub fn run<R: Read, W: FlushedWrite>(
    alloc: Global,
    features: WasmFeatures,
    reader: &mut R,
    writer: &mut W,
) -> Result<(), DumpFault>
    // If the bytes that the reader supplies are known, the lines of these bytes are written.
    ensures lines { IfSome (R.remaining reader.old) (λ bytes.
        Dumps (input_of features bytes) result (W.contents writer.old) (W.contents writer.new)) }
    ensures whole { IfSome (R.remaining reader.old) (λ bytes.
        (declarations : List Declaration) → (placed : Placed) → IsBody (input_of features bytes) declarations placed
        → IsNotRefused result) }
    ensures flushed { WritesLines result → W.is_flushed writer.new }
    ensures nothing { IfErr result (λ fault. WritesNothing fault → writer.new ≡ writer.old) }
{
    let input = read_input(alloc, reader)?;
    let listing = list_body(alloc, features, input.as_slice())?;
    write_text(writer, listing.text.as_str())?;
    match listing.end {
        Ok(()) => Ok(()),
        Err(error) => Err(DumpFault::Refused(error)),
    }
}
