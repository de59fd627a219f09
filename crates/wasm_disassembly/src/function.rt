ghost use Rattle.std.specs.Prelude.{◌≤◌, List, IfErr, OnOk};
ghost use Rattle.std.specs.Io.KnownBytes.{Appends};
ghost use Rattle.wasm_operators.specs.below.Source.{source_of};
ghost use Rattle.wasm_operators.specs.Body.{EncodesBody};
ghost use Rattle.wasm_operators.specs.Expression.{Placed};
ghost use Rattle.wasm_operators.specs.Locals.{Declaration, max_locals};
ghost use Rattle.wasm_text.specs.Lines.{header_of};
ghost use Rattle.wasm_disassembly.specs.LocalLines.{locals_in};
ghost use Rattle.wasm_disassembly.specs.Disassembly.{Disassembles};
ghost use Rattle.wasm_disassembly.specs.Faults.{IsOutputFailure};

use crate::declarations::write_declarations;
use crate::expression::write_operators;
use crate::fault::DisassemblyFault;
use crate::writing::write_text;
use std::alloc::Global;
use std::io::Write;
use wasm_index_names::Names;
use wasm_operators::{FunctionBody, body_laws, byte_laws};
use wasm_text::write_header;

/// Writes the header of a function through the buffer `line`.
fn write_heading<W: Write>(
    writer: &mut W,
    line: &mut String,
    offset: u64,
    index: u32,
    name: &str,
) -> Result<(), DisassemblyFault>
    ensures ok { OnOk result (Appends (W.contents writer.old) (W.contents writer.new) (header_of offset index name.now)) }
    ensures halts { IfErr result (λ fault. IsOutputFailure fault) }
{
    line.clear();
    if write_header(line, offset, index, name).is_err() {
        return Err(DisassemblyFault::Memory);
    }
    write_text(writer, line.as_str(), DisassemblyFault::Writing)
}

/// Writes the text of a function: its header, locals and operators. Each line is written before the
/// next declaration or operator is read. The first `parameters` locals are parameters.
///
/// Fails with `Refused` if the bytes are not a body, after the lines before the error.
pub fn disassemble<W: Write>(
    alloc: Global,
    writer: &mut W,
    index: u32,
    names: &Names,
    parameters: u32,
    body: &FunctionBody<'_>,
) -> Result<(), DisassemblyFault>
    ensures text { Disassembles (record { index = index; names = names.now; parameters = parameters }) result body.now
        (W.contents writer.old) (W.contents writer.new) }
    // If the bytes encode a body with at most `max_locals` locals, only allocation and the writer
    // can fail.
    ensures whole { (declarations : List Declaration) → (placed : Placed)
        → EncodesBody (source_of body.now) declarations placed → locals_in declarations ≤ max_locals
        → IfErr result (λ fault. IsOutputFailure fault) }
{
    body_laws::past_locals();
    byte_laws::unsigned_numbers();
    let start = body.get_binary_reader().original_position();
    let mut line = String::new(alloc);
    write_heading(writer, &mut line, start, index, names.function(index))?;
    let mut locals = match body.get_locals_reader() {
        Ok(locals) => locals,
        Err(e) => return Err(DisassemblyFault::Refused(e)),
    };
    write_declarations(
        alloc,
        writer,
        &mut line,
        body.as_bytes(),
        start,
        parameters,
        &mut locals,
    )?;
    write_operators(
        alloc,
        writer,
        &mut line,
        body.as_bytes(),
        start,
        names,
        index,
        locals.get_binary_reader(),
    )
}
