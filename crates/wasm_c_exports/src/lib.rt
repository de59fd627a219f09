//! The calls of `wasm_c`, `wasm_c_sections`, `wasm_c_items` and `wasm_c_validation`, exported to C. Each export calls the function of the same
//! name, with the same arguments.
//!
//! Written by tools/exports.py from `src/lib.rt` of these crates.
#![tactic(auto)]

ghost use Rattle.std.specs.Prelude.{◌≡◌, ◌<◌, ◌≤◌, ◌+◌, ◌^◌, ◌/◌, length, Some, List, ℕ};
ghost use Rattle.wasm_operators.specs.below.Features.{features_of};
ghost use Rattle.wasm_operators.specs.below.Source.{reader_of, Takes};
ghost use Rattle.wasm_operators.specs.below.declared.error.Error.{Error};
ghost use Rattle.wasm_operators.specs.instr.Row.{name_of};
ghost use Rattle.wasm_operators.specs.instr.declared.operator.Operator.{Operator};
ghost use Rattle.wasm_operators.specs.Expression.{Placed};
ghost use Rattle.wasm_operators.specs.MainTheorem.{IsWithinDepth};
ghost use Rattle.wasm_operators.specs.Reading.{State, IsFresh};
ghost use Rattle.wasm_text.specs.Names.{text_name};
ghost use Rattle.wasm_text.specs.Operands.{text_of};
ghost use Rattle.wasm_view.specs.Lists.{targets_of, types_of, catches_of, handles_of};
ghost use Rattle.wasm_view.specs.Names.{name_at};
ghost use Rattle.wasm_view.specs.View.{view_of};
ghost use Rattle.wasm_encode_view.specs.Sections.{EncodesDeclarations, EncodesEntry, EncodesSection, PlacesShortest};
ghost use Rattle.wasm_c.specs.Encodings.{WritesView};
ghost use Rattle.wasm_c.specs.Members.{ReturnsList};
ghost use Rattle.wasm_c.specs.Modules.{ReturnsBodies, ReturnsBody, ReturnsName};
ghost use Rattle.wasm_c.specs.OperatorTexts.{RefusesText, RefusesTextName, ReturnsTextAt};
ghost use Rattle.wasm_c.specs.Reads.{IsWithin, FindsPlain};
ghost use Rattle.wasm_c.specs.Refused.{misuse, refusal_of};
ghost use Rattle.wasm_c.specs.Steps.{ReturnsNext, ReturnsNextPlain, ReadsBatch, FinishesPlain, OpensExpression, OpensPlain};
ghost use Rattle.wasm_operators.specs.below.MessageText.{message_text};
ghost use Rattle.wasm_c.specs.Texts.{text_of_refusal, ReturnsText};
ghost use Rattle.wasm_c.specs.Values.{ReturnsValue};
ghost use Rattle.wasm_c_sections.specs.Externals.{placed_import, placed_export};
ghost use Rattle.wasm_c_sections.specs.Items.{ReturnsItem};
ghost use Rattle.wasm_c_sections.specs.Names.{placed_naming, ReturnsNames};
ghost use Rattle.wasm_c_sections.specs.Payloads.{ReturnsPayload};
ghost use Rattle.wasm_grammars.specs.Parts.{u32, val_type};
ghost use Rattle.wasm_c_items.specs.Items.{table_item, global_item, tag_item, element_item, data_item, constant_view, memory_view, tag_view, table_view, global_view, element_view, data_view};
ghost use Rattle.wasm_c_items.specs.Types.{group_item, value_type_view};
ghost use Rattle.wasm_c_items.specs.Views.{ReturnsView};
ghost use Rattle.wasm_constants.specs.Constants.{const_expr};
ghost use Rattle.wasm_externals.specs.Limits.{memory_type};
ghost use Rattle.wasm_validation.specs.Valid.{IsValidModule};
ghost use Rattle.wasm_c_validation.specs.Verdicts.{no_function, ReturnsVerdict};

use std::alloc::Global;
use wasm_c::{
    WasmBodies, WasmBody, WasmHandler, WasmLocals, WasmOperator, WasmReader, WasmRefusal, WasmType,
    WasmValue,
};
use wasm_c_items::{WasmData, WasmElement, WasmGlobal, WasmGroup, WasmTable};
use wasm_c_sections::{
    WasmExport, WasmExternal, WasmImport, WasmItems, WasmNames, WasmNaming, WasmParser,
    WasmPayload, WasmRange,
};

/// `wasm_c::wasm_operators_version` for C.
#[unsafe(no_mangle)]
pub extern "C" fn wasm_operators_version() -> u32
    ensures { result ≡ 5 }
{
    wasm_c::wasm_operators_version()
}

/// `wasm_c::wasm_read_body` for C.
#[unsafe(no_mangle)]
pub extern "C" fn wasm_read_body(
    alloc: Global,
    bytes: &[u8],
    offset: u64,
    features: u32,
    out: &mut [WasmOperator],
    count: &mut usize,
    refusal: &mut WasmRefusal,
) -> u32
    ensures outcome { result ≡ refusal.new.number }
    ensures body { features < 64 → IsWithin offset bytes.now
        → (placed : Placed)
        × FindsPlain refusal.new (reader_of (features_of features) offset bytes.now) count.new out.old out.new placed }
    ensures unknown { 64 ≤ features → (refusal.new ≡ misuse 100 offset) × (count.new ≡ 0) × (out.new ≡ out.old) }
    ensures past { features < 64 → 2 ^ 64 ≤ offset + length bytes.now
        → (refusal.new ≡ misuse 101 offset) × (count.new ≡ 0) × (out.new ≡ out.old) }
{
    wasm_c::wasm_read_body(alloc, bytes, offset, features, out, count, refusal)
}

/// `wasm_c::wasm_refusal_text` for C.
#[unsafe(no_mangle)]
pub extern "C" fn wasm_refusal_text(refusal: &WasmRefusal, text: &mut [u8]) -> usize
    ensures reported { (e : Error) → refusal.now ≡ refusal_of e
        → ReturnsText (Some (message_text e.message)) text.old result text.new }
    ensures numbers { ReturnsText (text_of_refusal refusal.now) text.old result text.new }
{
    wasm_c::wasm_refusal_text(refusal, text)
}

/// `wasm_c::wasm_operator_name` for C.
#[unsafe(no_mangle)]
pub extern "C" fn wasm_operator_name(operator: &WasmOperator, name: &mut [u8]) -> usize
    ensures named { (op : Operator) (at : ℕ) → operator.now ≡ view_of (op, at)
        → ReturnsText (Some (name_of op)) name.old result name.new }
    ensures numbers { ReturnsText (Some (name_at operator.now.opcode operator.now.shape)) name.old result name.new }
{
    wasm_c::wasm_operator_name(operator, name)
}

/// `wasm_c::wasm_open` for C.
#[unsafe(no_mangle)]
pub extern "C" fn wasm_open(
    bytes: &[u8],
    offset: u64,
    features: u32,
    frames: &mut [u8],
    reader: &mut WasmReader,
    refusal: &mut WasmRefusal,
) -> u32
    ensures outcome { result ≡ refusal.new.number }
    ensures opens { OpensExpression refusal.new bytes.now offset features reader.old reader.new frames.old frames.new }
{
    wasm_c::wasm_open(bytes, offset, features, frames, reader, refusal)
}

/// `wasm_c::wasm_open_body` for C.
#[unsafe(no_mangle)]
pub extern "C" fn wasm_open_body(
    bytes: &[u8],
    offset: u64,
    features: u32,
    frames: &mut [u8],
    reader: &mut WasmReader,
    refusal: &mut WasmRefusal,
) -> u32
    ensures outcome { result ≡ refusal.new.number }
    ensures opens { OpensPlain refusal.new bytes.now offset features reader.old reader.new frames.old frames.new }
{
    wasm_c::wasm_open_body(bytes, offset, features, frames, reader, refusal)
}

/// `wasm_c::wasm_next` for C.
#[unsafe(no_mangle)]
pub extern "C" fn wasm_next(
    alloc: Global,
    bytes: &[u8],
    frames: &mut [u8],
    reader: &mut WasmReader,
    operator: &mut WasmOperator,
    refusal: &mut WasmRefusal,
) -> u32
    ensures outcome { result ≡ refusal.new.number }
    ensures next { ReturnsNext refusal.new bytes.now reader.old reader.new frames.old frames.new operator.old operator.new }
{
    wasm_c::wasm_next(alloc, bytes, frames, reader, operator, refusal)
}

/// `wasm_c::wasm_next_plain` for C.
#[unsafe(no_mangle)]
pub extern "C" fn wasm_next_plain(
    alloc: Global,
    bytes: &[u8],
    frames: &mut [u8],
    reader: &mut WasmReader,
    operator: &mut WasmOperator,
    refusal: &mut WasmRefusal,
) -> u32
    ensures outcome { result ≡ refusal.new.number }
    ensures next { ReturnsNextPlain refusal.new bytes.now reader.old reader.new frames.old frames.new operator.old operator.new }
{
    wasm_c::wasm_next_plain(alloc, bytes, frames, reader, operator, refusal)
}

/// `wasm_c::wasm_read_value` for C.
#[unsafe(no_mangle)]
pub extern "C" fn wasm_read_value(
    alloc: Global,
    bytes: &[u8],
    reader: &mut WasmReader,
    kind: u32,
    argument: u64,
    value: &mut WasmValue,
    refusal: &mut WasmRefusal,
) -> u32
    ensures outcome { result ≡ refusal.new.number }
    ensures value { ReturnsValue refusal.new bytes.now reader.old reader.new kind argument value.old value.new }
{
    wasm_c::wasm_read_value(alloc, bytes, reader, kind, argument, value, refusal)
}

/// `wasm_c::wasm_read` for C.
#[unsafe(no_mangle)]
pub extern "C" fn wasm_read(
    alloc: Global,
    bytes: &[u8],
    frames: &mut [u8],
    reader: &mut WasmReader,
    out: &mut [WasmOperator],
    count: &mut usize,
    refusal: &mut WasmRefusal,
) -> u32
    ensures outcome { result ≡ refusal.new.number }
    ensures batch { ReadsBatch refusal.new count.new bytes.now reader.old reader.new frames.old frames.new out.old out.new }
{
    wasm_c::wasm_read(alloc, bytes, frames, reader, out, count, refusal)
}

/// `wasm_c::wasm_finish` for C.
#[unsafe(no_mangle)]
pub extern "C" fn wasm_finish(
    bytes: &[u8],
    frames: &[u8],
    reader: &WasmReader,
    refusal: &mut WasmRefusal,
) -> u32
    ensures outcome { result ≡ refusal.new.number }
    ensures finishes { FinishesPlain refusal.new bytes.now reader.now frames.now }
{
    wasm_c::wasm_finish(bytes, frames, reader, refusal)
}

/// `wasm_c::wasm_frames_needed` for C.
#[unsafe(no_mangle)]
pub extern "C" fn wasm_frames_needed(bytes_length: usize) -> usize
    ensures is { result ≡ bytes_length / 2 + 1 }
    ensures enough { (opened now : State) (text : List ℕ) → IsFresh opened → Takes opened.reader now.reader text
        → IsWithinDepth opened now → length text ≤ bytes_length → length now.frames ≤ result }
{
    wasm_c::wasm_frames_needed(bytes_length)
}

/// `wasm_c::wasm_br_table_targets` for C.
#[unsafe(no_mangle)]
pub extern "C" fn wasm_br_table_targets(
    alloc: Global,
    bytes: &[u8],
    offset: u64,
    features: u32,
    at: u64,
    index: usize,
    out: &mut [u32],
    count: &mut usize,
    refusal: &mut WasmRefusal,
) -> u32
    ensures outcome { result ≡ refusal.new.number }
    ensures list { ReturnsList targets_of refusal.new bytes.now offset features at index count.old count.new out.old out.new }
{
    wasm_c::wasm_br_table_targets(
        alloc, bytes, offset, features, at, index, out, count, refusal,
    )
}

/// `wasm_c::wasm_select_types` for C.
#[unsafe(no_mangle)]
pub extern "C" fn wasm_select_types(
    alloc: Global,
    bytes: &[u8],
    offset: u64,
    features: u32,
    at: u64,
    index: usize,
    out: &mut [WasmType],
    count: &mut usize,
    refusal: &mut WasmRefusal,
) -> u32
    ensures outcome { result ≡ refusal.new.number }
    ensures list { ReturnsList types_of refusal.new bytes.now offset features at index count.old count.new out.old out.new }
{
    wasm_c::wasm_select_types(
        alloc, bytes, offset, features, at, index, out, count, refusal,
    )
}

/// `wasm_c::wasm_try_table_catches` for C.
#[unsafe(no_mangle)]
pub extern "C" fn wasm_try_table_catches(
    alloc: Global,
    bytes: &[u8],
    offset: u64,
    features: u32,
    at: u64,
    index: usize,
    out: &mut [WasmHandler],
    count: &mut usize,
    refusal: &mut WasmRefusal,
) -> u32
    ensures outcome { result ≡ refusal.new.number }
    ensures list { ReturnsList catches_of refusal.new bytes.now offset features at index count.old count.new out.old out.new }
{
    wasm_c::wasm_try_table_catches(
        alloc, bytes, offset, features, at, index, out, count, refusal,
    )
}

/// `wasm_c::wasm_resume_handlers` for C.
#[unsafe(no_mangle)]
pub extern "C" fn wasm_resume_handlers(
    alloc: Global,
    bytes: &[u8],
    offset: u64,
    features: u32,
    at: u64,
    index: usize,
    out: &mut [WasmHandler],
    count: &mut usize,
    refusal: &mut WasmRefusal,
) -> u32
    ensures outcome { result ≡ refusal.new.number }
    ensures list { ReturnsList handles_of refusal.new bytes.now offset features at index count.old count.new out.old out.new }
{
    wasm_c::wasm_resume_handlers(
        alloc, bytes, offset, features, at, index, out, count, refusal,
    )
}

/// `wasm_c::wasm_operator_text` for C.
#[unsafe(no_mangle)]
pub extern "C" fn wasm_operator_text(
    alloc: Global,
    bytes: &[u8],
    offset: u64,
    features: u32,
    at: u64,
    text: &mut [u8],
    length: &mut usize,
    refusal: &mut WasmRefusal,
) -> u32
    ensures outcome { result ≡ refusal.new.number }
    ensures text { ReturnsTextAt text_of (RefusesText at)
        refusal.new bytes.now offset features at length.old length.new text.old text.new }
{
    wasm_c::wasm_operator_text(alloc, bytes, offset, features, at, text, length, refusal)
}

/// `wasm_c::wasm_operator_text_name` for C.
#[unsafe(no_mangle)]
pub extern "C" fn wasm_operator_text_name(
    alloc: Global,
    bytes: &[u8],
    offset: u64,
    features: u32,
    at: u64,
    name: &mut [u8],
    length: &mut usize,
    refusal: &mut WasmRefusal,
) -> u32
    ensures outcome { result ≡ refusal.new.number }
    ensures name { ReturnsTextAt text_name RefusesTextName refusal.new bytes.now offset features at length.old length.new name.old name.new }
{
    wasm_c::wasm_operator_text_name(alloc, bytes, offset, features, at, name, length, refusal)
}

/// `wasm_c::wasm_encode_operator` for C.
#[unsafe(no_mangle)]
pub extern "C" fn wasm_encode_operator(
    alloc: Global,
    operator: &WasmOperator,
    bytes: &[u8],
    offset: u64,
    features: u32,
    out: &mut [u8],
    length: &mut usize,
    refusal: &mut WasmRefusal,
) -> u32
    ensures outcome { result ≡ refusal.new.number }
    ensures writes { WritesView refusal.new operator.now bytes.now offset features length.old length.new out.old out.new }
{
    wasm_c::wasm_encode_operator(
        alloc, operator, bytes, offset, features, out, length, refusal,
    )
}

/// `wasm_c::wasm_encode_locals` for C.
#[unsafe(no_mangle)]
pub extern "C" fn wasm_encode_locals(
    locals: &[WasmLocals],
    out: &mut [u8],
    length: &mut usize,
    refusal: &mut WasmRefusal,
) -> u32
    ensures outcome { refusal.new ≡ misuse result 0 }
    ensures writes { PlacesShortest EncodesDeclarations locals.now result length.old length.new out.old out.new }
{
    wasm_c::wasm_encode_locals(locals, out, length, refusal)
}

/// `wasm_c::wasm_encode_body` for C.
#[unsafe(no_mangle)]
pub extern "C" fn wasm_encode_body(
    locals: &[WasmLocals],
    operators: &[u8],
    out: &mut [u8],
    length: &mut usize,
    refusal: &mut WasmRefusal,
) -> u32
    ensures outcome { refusal.new ≡ misuse result 0 }
    ensures writes { PlacesShortest (EncodesEntry locals.now)
        operators.now result length.old length.new out.old out.new }
{
    wasm_c::wasm_encode_body(locals, operators, out, length, refusal)
}

/// `wasm_c::wasm_encode_section` for C.
#[unsafe(no_mangle)]
pub extern "C" fn wasm_encode_section(
    id: u8,
    count: u32,
    entries: &[u8],
    out: &mut [u8],
    length: &mut usize,
    refusal: &mut WasmRefusal,
) -> u32
    ensures outcome { refusal.new ≡ misuse result 0 }
    ensures writes { PlacesShortest (EncodesSection id count) entries.now result length.old length.new out.old out.new }
{
    wasm_c::wasm_encode_section(id, count, entries, out, length, refusal)
}

/// `wasm_c::wasm_open_bodies` for C.
#[unsafe(no_mangle)]
pub extern "C" fn wasm_open_bodies(
    alloc: Global,
    bytes: &[u8],
    bodies: &mut WasmBodies,
    refusal: &mut WasmRefusal,
) -> u32
    ensures outcome { result ≡ refusal.new.number }
    ensures opens { ReturnsBodies refusal.new bytes.now bodies.old bodies.new }
{
    wasm_c::wasm_open_bodies(alloc, bytes, bodies, refusal)
}

/// `wasm_c::wasm_next_body` for C.
#[unsafe(no_mangle)]
pub extern "C" fn wasm_next_body(
    bytes: &[u8],
    bodies: &mut WasmBodies,
    body: &mut WasmBody,
    refusal: &mut WasmRefusal,
) -> u32
    ensures outcome { result ≡ refusal.new.number }
    ensures next { ReturnsBody refusal.new bytes.now bodies.old bodies.new body.old body.new }
{
    wasm_c::wasm_next_body(bytes, bodies, body, refusal)
}

/// `wasm_c::wasm_function_name` for C.
#[unsafe(no_mangle)]
pub extern "C" fn wasm_function_name(
    alloc: Global,
    bytes: &[u8],
    index: u32,
    name: &mut [u8],
    length: &mut usize,
    refusal: &mut WasmRefusal,
) -> u32
    ensures outcome { result ≡ refusal.new.number }
    ensures name { ReturnsName refusal.new bytes.now index length.old length.new name.old name.new }
{
    wasm_c::wasm_function_name(alloc, bytes, index, name, length, refusal)
}

/// `wasm_c_sections::wasm_next_payload` for C.
#[unsafe(no_mangle)]
pub extern "C" fn wasm_next_payload(
    alloc: Global,
    bytes: &[u8],
    parser: &mut WasmParser,
    payload: &mut WasmPayload,
    refusal: &mut WasmRefusal,
) -> u32
    ensures outcome { result ≡ refusal.new.number }
    ensures next { ReturnsPayload refusal.new bytes.now parser.old parser.new payload.old payload.new }
{
    wasm_c_sections::wasm_next_payload(alloc, bytes, parser, payload, refusal)
}

/// `wasm_c_sections::wasm_next_import` for C.
#[unsafe(no_mangle)]
pub extern "C" fn wasm_next_import(
    alloc: Global,
    bytes: &[u8],
    items: &mut WasmItems,
    import: &mut WasmImport,
    refusal: &mut WasmRefusal,
) -> u32
    ensures outcome { result ≡ refusal.new.number }
    ensures next { ReturnsItem placed_import refusal.new bytes.now items.old items.new import.old import.new }
{
    wasm_c_sections::wasm_next_import(alloc, bytes, items, import, refusal)
}

/// `wasm_c_sections::wasm_next_export` for C.
#[unsafe(no_mangle)]
pub extern "C" fn wasm_next_export(
    alloc: Global,
    bytes: &[u8],
    items: &mut WasmItems,
    export: &mut WasmExport,
    refusal: &mut WasmRefusal,
) -> u32
    ensures outcome { result ≡ refusal.new.number }
    ensures next { ReturnsItem (λ features. placed_export)
        refusal.new bytes.now items.old items.new export.old export.new }
{
    wasm_c_sections::wasm_next_export(alloc, bytes, items, export, refusal)
}

/// `wasm_c_sections::wasm_next_index` for C.
#[unsafe(no_mangle)]
pub extern "C" fn wasm_next_index(
    alloc: Global,
    bytes: &[u8],
    items: &mut WasmItems,
    index: &mut u32,
    refusal: &mut WasmRefusal,
) -> u32
    ensures outcome { result ≡ refusal.new.number }
    ensures next { ReturnsItem (λ features. u32) refusal.new bytes.now items.old items.new index.old index.new }
{
    wasm_c_sections::wasm_next_index(alloc, bytes, items, index, refusal)
}

/// `wasm_c_sections::wasm_next_names` for C.
#[unsafe(no_mangle)]
pub extern "C" fn wasm_next_names(
    alloc: Global,
    bytes: &[u8],
    items: &mut WasmItems,
    names: &mut WasmNames,
    refusal: &mut WasmRefusal,
) -> u32
    ensures outcome { result ≡ refusal.new.number }
    ensures next { ReturnsNames refusal.new bytes.now items.old items.new names.old names.new }
{
    wasm_c_sections::wasm_next_names(alloc, bytes, items, names, refusal)
}

/// `wasm_c_sections::wasm_next_name` for C.
#[unsafe(no_mangle)]
pub extern "C" fn wasm_next_name(
    alloc: Global,
    bytes: &[u8],
    items: &mut WasmItems,
    naming: &mut WasmNaming,
    refusal: &mut WasmRefusal,
) -> u32
    ensures outcome { result ≡ refusal.new.number }
    ensures next { ReturnsItem (λ features. placed_naming)
        refusal.new bytes.now items.old items.new naming.old naming.new }
{
    wasm_c_sections::wasm_next_name(alloc, bytes, items, naming, refusal)
}

/// `wasm_c_items::wasm_next_group` for C.
#[unsafe(no_mangle)]
pub extern "C" fn wasm_next_group(
    alloc: Global,
    bytes: &[u8],
    items: &mut WasmItems,
    group: &mut WasmGroup,
    refusal: &mut WasmRefusal,
) -> u32
    ensures outcome { result ≡ refusal.new.number }
    ensures next { ReturnsItem (λ features. group_item) refusal.new bytes.now items.old items.new group.old group.new }
{
    wasm_c_items::wasm_next_group(alloc, bytes, items, group, refusal)
}

/// `wasm_c_items::wasm_next_value_type` for C.
#[unsafe(no_mangle)]
pub extern "C" fn wasm_next_value_type(
    alloc: Global,
    bytes: &[u8],
    items: &mut WasmItems,
    ty: &mut WasmType,
    refusal: &mut WasmRefusal,
) -> u32
    ensures outcome { result ≡ refusal.new.number }
    ensures next { ReturnsView (λ features. val_type)
        value_type_view refusal.new bytes.now items.old items.new ty.old ty.new }
{
    wasm_c_items::wasm_next_value_type(alloc, bytes, items, ty, refusal)
}

/// `wasm_c_items::wasm_next_table` for C.
#[unsafe(no_mangle)]
pub extern "C" fn wasm_next_table(
    alloc: Global,
    bytes: &[u8],
    items: &mut WasmItems,
    table: &mut WasmTable,
    refusal: &mut WasmRefusal,
) -> u32
    ensures outcome { result ≡ refusal.new.number }
    ensures next { ReturnsView table_item table_view refusal.new bytes.now items.old items.new table.old table.new }
{
    wasm_c_items::wasm_next_table(alloc, bytes, items, table, refusal)
}

/// `wasm_c_items::wasm_next_memory` for C.
#[unsafe(no_mangle)]
pub extern "C" fn wasm_next_memory(
    alloc: Global,
    bytes: &[u8],
    items: &mut WasmItems,
    memory: &mut WasmExternal,
    refusal: &mut WasmRefusal,
) -> u32
    ensures outcome { result ≡ refusal.new.number }
    ensures next { ReturnsView memory_type memory_view refusal.new bytes.now items.old items.new memory.old memory.new }
{
    wasm_c_items::wasm_next_memory(alloc, bytes, items, memory, refusal)
}

/// `wasm_c_items::wasm_next_global` for C.
#[unsafe(no_mangle)]
pub extern "C" fn wasm_next_global(
    alloc: Global,
    bytes: &[u8],
    items: &mut WasmItems,
    global: &mut WasmGlobal,
    refusal: &mut WasmRefusal,
) -> u32
    ensures outcome { result ≡ refusal.new.number }
    ensures next { ReturnsView global_item global_view refusal.new bytes.now items.old items.new global.old global.new }
{
    wasm_c_items::wasm_next_global(alloc, bytes, items, global, refusal)
}

/// `wasm_c_items::wasm_next_tag` for C.
#[unsafe(no_mangle)]
pub extern "C" fn wasm_next_tag(
    alloc: Global,
    bytes: &[u8],
    items: &mut WasmItems,
    tag: &mut WasmExternal,
    refusal: &mut WasmRefusal,
) -> u32
    ensures outcome { result ≡ refusal.new.number }
    ensures next { ReturnsView tag_item tag_view refusal.new bytes.now items.old items.new tag.old tag.new }
{
    wasm_c_items::wasm_next_tag(alloc, bytes, items, tag, refusal)
}

/// `wasm_c_items::wasm_next_element` for C.
#[unsafe(no_mangle)]
pub extern "C" fn wasm_next_element(
    alloc: Global,
    bytes: &[u8],
    items: &mut WasmItems,
    segment: &mut WasmElement,
    refusal: &mut WasmRefusal,
) -> u32
    ensures outcome { result ≡ refusal.new.number }
    ensures next { ReturnsView element_item element_view refusal.new bytes.now items.old items.new segment.old segment.new }
{
    wasm_c_items::wasm_next_element(alloc, bytes, items, segment, refusal)
}

/// `wasm_c_items::wasm_next_data` for C.
#[unsafe(no_mangle)]
pub extern "C" fn wasm_next_data(
    alloc: Global,
    bytes: &[u8],
    items: &mut WasmItems,
    segment: &mut WasmData,
    refusal: &mut WasmRefusal,
) -> u32
    ensures outcome { result ≡ refusal.new.number }
    ensures next { ReturnsView data_item data_view refusal.new bytes.now items.old items.new segment.old segment.new }
{
    wasm_c_items::wasm_next_data(alloc, bytes, items, segment, refusal)
}

/// `wasm_c_items::wasm_next_expression` for C.
#[unsafe(no_mangle)]
pub extern "C" fn wasm_next_expression(
    alloc: Global,
    bytes: &[u8],
    items: &mut WasmItems,
    expression: &mut WasmRange,
    refusal: &mut WasmRefusal,
) -> u32
    ensures outcome { result ≡ refusal.new.number }
    ensures next { ReturnsView const_expr constant_view refusal.new bytes.now items.old items.new expression.old expression.new }
{
    wasm_c_items::wasm_next_expression(alloc, bytes, items, expression, refusal)
}

/// `wasm_c_validation::wasm_validate_module` for C.
#[unsafe(no_mangle)]
pub extern "C" fn wasm_validate_module(
    alloc: Global,
    bytes: &[u8],
    features: u32,
    function: &mut u64,
    message: &mut [u8],
    length: &mut usize,
    refusal: &mut WasmRefusal,
) -> u32
    ensures outcome { result ≡ refusal.new.number }
    ensures valid { result ≡ 0 → IsValidModule (reader_of (features_of features) 0 bytes.now) }
    ensures verdict { features < 64
        → ReturnsVerdict refusal.new (reader_of (features_of features) 0 bytes.now) function.new }
    ensures unknown { 64 ≤ features → (refusal.new ≡ misuse 100 0) × (function.new ≡ no_function) }
{
    wasm_c_validation::wasm_validate_module(
        alloc, bytes, features, function, message, length, refusal,
    )
}
