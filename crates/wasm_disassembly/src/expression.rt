ghost use Rattle.std.specs.Prelude.{◌≡◌, ◌+◌, ◌^◌, ◌<◌, IfErr, IfOk, OnOk, length};
ghost use Rattle.std.specs.Io.KnownBytes.{Appends};
ghost use Rattle.wasm_operators.specs.below.Source.{source_of};
ghost use Rattle.wasm_operators.specs.Expression.{Placed, EncodesExpression};
ghost use Rattle.wasm_text.specs.Rows.{line_of};
ghost use Rattle.wasm_text.specs.Lines.{change_in, depth_of, depth_after};
ghost use Rattle.wasm_disassembly.specs.Disassembly.{named_text, ListsOperators};
ghost use Rattle.wasm_disassembly.specs.Faults.{IsOutputFailure};

use crate::fault::{DisassemblyFault, fault_of};
use crate::named_line::write_named_line;
use crate::writing::write_text;
use std::alloc::Global;
use std::io::Write;
use wasm_index_names::Names;
use wasm_operators::{BinaryReader, Operator, OperatorsReader, run_laws};
use wasm_text::bytes_between;

/// Writes the lines of the operator at `offset`. Takes and returns how many constructs are open.
fn write_operator<W: Write>(
    writer: &mut W,
    line: &mut String,
    depth: usize,
    offset: u64,
    bytes: &[u8],
    names: &Names,
    function: u32,
    op: Operator<'_>,
) -> Result<usize, DisassemblyFault>
    requires fits { offset + length bytes.now < 2 ^ 64 }
    requires deep { depth + 1 < 2 ^ 64 }
    ensures lines { OnOk result (Appends (W.contents writer.old) (W.contents writer.new)
        (line_of (depth_of (change_in bytes.now) depth) offset bytes.now (named_text (record { index = function; names = names.now }) op.entry))) }
    ensures after { IfOk result (λ after. after ≡ depth_after (change_in bytes.now) depth) }
    ensures halts { IfErr result (λ fault. IsOutputFailure fault) }
{
    line.clear();
    let Ok(after) = write_named_line(line, depth, offset, bytes, names, function, &op) else {
        return Err(DisassemblyFault::Memory);
    };
    write_text(writer, line.as_str(), DisassemblyFault::Writing)?;
    Ok(after)
}

/// Writes the lines of each operator before it reads the next. `bytes` is the body, which starts at
/// the offset `start`, of the function with the index `function`.
pub fn write_operators<W: Write>(
    alloc: Global,
    writer: &mut W,
    line: &mut String,
    bytes: &[u8],
    start: u64,
    names: &Names,
    function: u32,
    reader: BinaryReader<'_>,
) -> Result<(), DisassemblyFault>
    ensures lists { ListsOperators (record { index = function; names = names.now }) start bytes.now result reader.entry (W.contents writer.old) (W.contents writer.new) }
    // If an expression starts at the reader's position, only allocation and the writer can fail.
    ensures whole { (placed : Placed) → EncodesExpression (source_of reader.entry) placed
        → IfErr result (λ fault. IsOutputFailure fault) }
{
    run_laws::single_reads();
    run_laws::read_to_the_end();
    let mut operators = OperatorsReader::new(alloc, reader);
    let mut depth: usize = 0;
    'operators: while !operators.eof() {
        let offset = operators.original_position();
        let op = match operators.read() {
            Ok(op) => op,
            Err(e) => return Err(fault_of(e)),
        };
        let shown = bytes_between(bytes, start, offset, operators.original_position());
        depth = write_operator(writer, line, depth, offset, shown, names, function, op)?;
    }
    match operators.finish() {
        Ok(()) => Ok(()),
        Err(e) => Err(DisassemblyFault::Refused(e)),
    }
}
