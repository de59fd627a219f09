//! The line of an operator, with the names of what it refers to.
ghost use Rattle.std.specs.Prelude.{◌≡◌, ◌++◌, ◌+◌, ◌^◌, ◌<◌, IfOk, OnOk, length, slice_index, string_bytes};
ghost use Rattle.wasm_text.specs.Lines.{shown_name, change_in, depth_of, depth_after};
ghost use Rattle.wasm_text.specs.Rows.{line_of};
ghost use Rattle.wasm_disassembly.specs.Disassembly.{misc_name, operator_name, named_index, indirect_text, named_text};

use std::alloc::AllocError;
use wasm_grammar::FrameChange;
use wasm_index_names::Names;
use wasm_instr::{Operator, frame_change_at};
use wasm_instr_ops::MiscOperator;
use wasm_text::{Written, begin_line, end_line, write_line};

/// Returns the name of the data segment of an operator with prefix 0xfc, otherwise an empty one.
fn misc_name<'a>(names: &'a Names, function: u32, op: &MiscOperator) -> &'a str
    ensures { result.now ≡ misc_name (record { index = function; names = names.now }) op.now }
{
    match op {
        MiscOperator::MemoryInit { data_index, mem: _ } => names.segment(*data_index),
        MiscOperator::DataDrop { data_index } => names.segment(*data_index),
        _ => "",
    }
}

/// Returns the name after an operator's text, or an empty one.
fn operator_name<'a>(names: &'a Names, function: u32, op: &Operator<'_>) -> &'a str
    ensures { result.now ≡ operator_name (record { index = function; names = names.now }) op.now }
{
    match op {
        Operator::Call { function_index } => names.function(*function_index),
        Operator::LocalGet { local_index } => names.local(function, *local_index),
        Operator::LocalSet { local_index } => names.local(function, *local_index),
        Operator::GlobalGet { global_index } => names.global(*global_index),
        Operator::GlobalSet { global_index } => names.global(*global_index),
        Operator::Throw { tag_index } => names.tag(*tag_index),
        Operator::Misc(op) => misc_name(names, function, op),
        _ => "",
    }
}

/// Appends a name in angle brackets, unless it is empty.
fn push_name(out: &mut String, name: &str) -> Written
    ensures { OnOk result (string_bytes out.new ≡ string_bytes out.old ++ shown_name name.now) }
{
    if name.is_empty() {
        return Ok(());
    }
    write!(out, " <{name}>")
}

/// Appends an index and a name.
fn push_index(out: &mut String, index: u32, name: &str) -> Written
    ensures { OnOk result (string_bytes out.new ≡ string_bytes out.old ++ named_index index name.now) }
{
    write!(out, " {index}")?;
    push_name(out, name)
}

/// Appends an indirect call.
fn push_indirect(
    out: &mut String,
    names: &Names,
    function: u32,
    type_index: u32,
    table_index: u32,
) -> Written
    ensures { OnOk result (string_bytes out.new ≡ string_bytes out.old
        ++ indirect_text (record { index = function; names = names.now }) type_index table_index) }
{
    out.push_str("call_indirect")?;
    push_index(out, table_index, names.table(table_index))?;
    out.push_str(" (type")?;
    push_index(out, type_index, names.ty(type_index))?;
    out.push_str(")")
}

/// Returns the first byte, or 0 without bytes.
fn opcode_of(bytes: &[u8]) -> u8
    ensures { result ≡ slice_index bytes.now 0 }
{
    match bytes {
        [opcode, ..] => *opcode,
        [] => 0,
    }
}

/// Returns what the operator with these bytes does to the frames.
fn change_in(bytes: &[u8]) -> FrameChange
    ensures { result ≡ change_in bytes.now }
{
    frame_change_at(opcode_of(bytes))
}

/// Returns how deep an operator's line is indented.
fn depth_of(change: FrameChange, depth: usize) -> usize
    ensures { result ≡ depth_of change depth }
{
    match change {
        FrameChange::Turns(_) | FrameChange::Closes => depth.saturating_sub(1),
        FrameChange::Stays | FrameChange::Opens(_) => depth,
    }
}

/// Returns how many constructs are open after an operator.
fn depth_after(change: FrameChange, depth: usize) -> usize
    requires { depth + 1 < 2 ^ 64 }
    ensures { result ≡ depth_after change depth }
{
    match change {
        FrameChange::Opens(_) => depth + 1,
        FrameChange::Closes => depth.saturating_sub(1),
        FrameChange::Stays | FrameChange::Turns(_) => depth,
    }
}

/// Writes the lines of an indirect call at `offset`. Takes and returns how many constructs are open.
fn write_indirect_line(
    out: &mut String,
    depth: usize,
    offset: u64,
    bytes: &[u8],
    names: &Names,
    function: u32,
    type_index: u32,
    table_index: u32,
) -> Result<usize, AllocError>
    requires fits { offset + length bytes.now < 2 ^ 64 }
    requires deep { depth + 1 < 2 ^ 64 }
    ensures lines { OnOk result (string_bytes out.new ≡ string_bytes out.old
        ++ line_of (depth_of (change_in bytes.now) depth) offset bytes.now (indirect_text (record { index = function; names = names.now }) type_index table_index)) }
    ensures after { IfOk result (λ after. after ≡ depth_after (change_in bytes.now) depth) }
{
    let change = change_in(bytes);
    begin_line(out, depth_of(change, depth), offset, bytes)?;
    push_indirect(out, names, function, type_index, table_index)?;
    end_line(out, offset, bytes)?;
    Ok(depth_after(change, depth))
}

/// Writes the lines of the operator at `offset` of the function with the index `function`, with the
/// operator's `bytes`. Takes and returns how many constructs are open.
pub fn write_named_line(
    out: &mut String,
    depth: usize,
    offset: u64,
    bytes: &[u8],
    names: &Names,
    function: u32,
    op: &Operator<'_>,
) -> Result<usize, AllocError>
    requires fits { offset + length bytes.now < 2 ^ 64 }
    requires deep { depth + 1 < 2 ^ 64 }
    ensures lines { OnOk result (string_bytes out.new ≡ string_bytes out.old
        ++ line_of (depth_of (change_in bytes.now) depth) offset bytes.now (named_text (record { index = function; names = names.now }) op.now)) }
    ensures after { IfOk result (λ after. after ≡ depth_after (change_in bytes.now) depth) }
{
    match op {
        Operator::CallIndirect {
            type_index,
            table_index,
        } => write_indirect_line(
            out,
            depth,
            offset,
            bytes,
            names,
            function,
            *type_index,
            *table_index,
        ),
        _ => write_line(
            out,
            depth,
            offset,
            bytes,
            op,
            operator_name(names, function, op),
        ),
    }
}
