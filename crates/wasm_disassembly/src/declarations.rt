ghost use Rattle.std.specs.Prelude.{◌≡◌, ◌++◌, ◌+◌, ◌^◌, ◌<◌, ◌≤◌, ℕ, List, OnOk, IfErr, string_bytes, length};
ghost use Rattle.std.specs.Io.KnownBytes.{Appends};
ghost use Rattle.wasm_operators.specs.below.Source.{rest};
ghost use Rattle.wasm_operators.specs.imm.Lists.{EncodesMany};
ghost use Rattle.wasm_operators.specs.Locals.{Declaration, EncodesDeclaration, max_locals};
ghost use Rattle.wasm_text.specs.Rows.{line_of};
ghost use Rattle.wasm_disassembly.specs.Faults.{IsOutputFailure};
ghost use Rattle.wasm_disassembly.specs.LocalLines.{type_name, declaration_text, locals_in, ListsDeclarations};

use crate::fault::DisassemblyFault;
use crate::writing::write_text;
use std::alloc::Global;
use std::io::Write;
use wasm_operators::{LocalsReader, ValType, body_laws};
use wasm_text::{Written, begin_line, bytes_between, end_line, write_indices, write_value_type};

/// Writes the name of a value type, without the space before it.
fn write_type_name(alloc: Global, out: &mut String, ty: ValType) -> Written
    ensures { OnOk result (string_bytes out.new ≡ string_bytes out.old ++ type_name ty) }
{
    let mut spaced = String::new(alloc);
    write_value_type(&mut spaced, ty)?;
    match spaced.as_str().strip_prefix(' ') {
        Some(name) => out.push_str(name),
        None => out.push_str(spaced.as_str()),
    }
}

/// Appends the lines of the declaration at `offset`, whose first local has the index `first`.
fn push_declaration(
    alloc: Global,
    out: &mut String,
    offset: u64,
    bytes: &[u8],
    first: u64,
    declaration: (u32, ValType),
) -> Written
    requires fits { offset + length bytes.now < 2 ^ 64 }
    requires few { first + declaration.0 < 2 ^ 64 }
    ensures { OnOk result
        (string_bytes out.new ≡ string_bytes out.old ++ line_of 0 offset bytes.now (declaration_text first declaration)) }
{
    begin_line(out, 0, offset, bytes)?;
    write_indices(out, first, declaration.0)?;
    write_type_name(alloc, out, declaration.1)?;
    end_line(out, offset, bytes)
}

/// Writes the lines of a declaration to `writer`, through the buffer `line`.
fn write_declaration<W: Write>(
    alloc: Global,
    writer: &mut W,
    line: &mut String,
    offset: u64,
    bytes: &[u8],
    first: u64,
    declaration: (u32, ValType),
) -> Result<(), DisassemblyFault>
    requires fits { offset + length bytes.now < 2 ^ 64 }
    requires few { first + declaration.0 < 2 ^ 64 }
    ensures ok { OnOk result (Appends (W.contents writer.old) (W.contents writer.new)
        (line_of 0 offset bytes.now (declaration_text first declaration))) }
    ensures halts { IfErr result (λ fault. IsOutputFailure fault) }
{
    line.clear();
    if push_declaration(alloc, line, offset, bytes, first, declaration).is_err() {
        return Err(DisassemblyFault::Memory);
    }
    write_text(writer, line.as_str(), DisassemblyFault::Writing)
}

/// Writes the lines of each declaration before it reads the next. `bytes` is the body, which starts
/// at the offset `start`.
///
/// Fails with `Refused` at an error of `LocalsReader::read`.
pub fn write_declarations<W: Write>(
    alloc: Global,
    writer: &mut W,
    line: &mut String,
    bytes: &[u8],
    start: u64,
    parameters: u32,
    locals: &mut LocalsReader<'_>,
) -> Result<(), DisassemblyFault>
    ensures lists { ListsDeclarations start bytes.now parameters result locals.old locals.new
        (W.contents writer.old) (W.contents writer.new) }
    // If the data has all declarations and not too many locals, only allocation and the writer can
    // fail.
    ensures whole { (declarations : List Declaration) → (text more : List ℕ)
        → EncodesMany EncodesDeclaration locals.old.count text declarations → rest locals.old.reader ≡ text ++ more
        → locals.old.total + locals_in declarations ≤ max_locals → IfErr result (λ fault. IsOutputFailure fault) }
{
    body_laws::declarations();
    let mut first = u64::from(parameters);
    for _declaration in 0..locals.get_count() {
        let offset = locals.original_position();
        let declaration = match locals.read() {
            Ok(declaration) => declaration,
            Err(e) => return Err(DisassemblyFault::Refused(e)),
        };
        let number = declaration.0;
        let shown = bytes_between(bytes, start, offset, locals.original_position());
        write_declaration(alloc, writer, line, offset, shown, first, declaration)?;
        first += u64::from(number);
    }
    Ok(())
}
