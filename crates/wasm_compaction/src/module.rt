ghost use Rattle.std.specs.Prelude.{◌≡◌, ◌≤◌, ◌++◌, ℕ, List, length, OnOk, IfOk, IfErr};
ghost use Rattle.wasm_below.specs.Features.{all_features};
ghost use Rattle.wasm_below.specs.Source.{rest, reader_of};
ghost use Rattle.wasm_module.specs.Module.{EncodesSection};
ghost use Rattle.wasm_module.specs.Refusals.{SectionsFault};
ghost use Rattle.wasm_compaction.specs.declared.custom.Choices.{Choices};
ghost use Rattle.wasm_compaction.specs.Compaction.{Compacts, HasFate};
ghost use Rattle.wasm_compaction.specs.Faults.{RefusesModule, RefusesSection, RefusesCustom};
ghost use Rattle.wasm_compaction.specs.Reading.{AppendsSection};

use crate::code::{append_block, compact_code};
use crate::custom::is_listed;
use crate::{Choices, CompactionFault, CustomKind, custom_kind};
use std::alloc::Global;
use wasm_module::{CustomSection, ModuleFault, Section, open_sections, read_section};
use wasm_operators::WasmFeatures;

/// The number of custom sections.
const CUSTOM: u8 = 0;

/// The number of the code section.
const CODE: u8 = 10;

/// Returns the module with the code section's numbers, and its size, in their shortest encodings.
/// Other sections are copied, except for the custom sections that `choices` drops. All features are
/// enabled.
///
/// Fails with `NotModule` or `Refused` like `open_sections`, with `Custom` at a custom section that
/// can be neither kept nor dropped, and with `Refused` or `Body` at an error in the code section.
pub fn compact(
    alloc: Global,
    choices: Choices<'_>,
    bytes: &[u8],
) -> Result<Vec<u8>, CompactionFault>
    ensures compacts { IfOk result (λ out. Compacts choices.entry bytes.now out.items) }
    ensures no_longer { IfOk result (λ out. length out.items ≤ length bytes.now) }
    ensures refuses { IfErr result (λ fault. RefusesModule choices.entry fault bytes.now) }
{
    let mut reader = match open_sections(WasmFeatures::all(), bytes) {
        Ok(reader) => reader,
        Err(fault) => return Err(fault_of(fault)),
    };
    let mut out = Vec::new(alloc);
    append_bytes(&mut out, &bytes[..reader.current_position()])?;
    'sections: while !reader.eof() {
        let before = reader.remaining_buffer();
        let section = match read_section(&mut reader) {
            Ok(section) => section,
            Err(e) => return Err(CompactionFault::Refused(e)),
        };
        let size = before.len() - reader.bytes_remaining();
        compact_section(alloc, choices, &section, &before[..size], &mut out)?;
    }
    Ok(out)
}

/// Converts a fault of `open_sections`.
fn fault_of(fault: ModuleFault) -> CompactionFault
    ensures { (bytes : List ℕ) → SectionsFault fault (reader_of all_features 0 bytes)
        → (choices : Choices) → RefusesModule choices result bytes }
{
    match fault {
        ModuleFault::NotModule(kind) => CompactionFault::NotModule(kind),
        ModuleFault::Refused(e) => CompactionFault::Refused(e),
        _ => CompactionFault::Memory,
    }
}

/// Appends the bytes that are in the place of a section, which `text` encodes.
fn compact_section(
    alloc: Global,
    choices: Choices<'_>,
    section: &Section<'_>,
    text: &[u8],
    out: &mut Vec<u8>,
) -> Result<(), CompactionFault>
    requires { EncodesSection all_features text.now section.now }
    ensures appends { OnOk result (AppendsSection choices.entry text.now out.old.items out.new.items) }
    ensures refuses { IfErr result (λ fault. RefusesSection choices.entry fault section.now) }
{
    if section.id() == CODE {
        let mut contents = Vec::new(alloc);
        compact_code(alloc, section.contents(), &mut contents)?;
        append_bytes(out, &[CODE])?;
        return append_block(out, contents.as_slice());
    }
    if section.id() == CUSTOM {
        let dropped = is_dropped(choices, section)?;
        if dropped {
            return Ok(());
        }
        return append_bytes(out, text);
    }
    append_bytes(out, text)
}

/// Returns whether a custom section is dropped; otherwise it is kept.
///
/// Fails with `Refused` at its name, and with `Custom` if it can be neither kept nor dropped.
fn is_dropped(choices: Choices<'_>, section: &Section<'_>) -> Result<bool, CompactionFault>
    ensures fate { IfOk result (λ dropped. HasFate choices.entry (rest section.now.contents) dropped) }
    ensures refuses { IfErr result (λ fault. RefusesCustom choices.entry fault section.now.contents) }
{
    let name = match CustomSection::new(section.contents()) {
        Ok(custom) => custom.name(),
        Err(e) => return Err(CompactionFault::Refused(e)),
    };
    let offset = section.contents().original_position();
    match custom_kind(name) {
        CustomKind::Independent => Ok(false),
        CustomKind::Offsets => {
            if choices.drop_offsets {
                return Ok(true);
            }
            Err(CompactionFault::Custom(CustomKind::Offsets, offset))
        }
        CustomKind::Other => {
            if is_listed(choices.keep, name) {
                return Ok(false);
            }
            Err(CompactionFault::Custom(CustomKind::Other, offset))
        }
        CustomKind::Relocations => { Err(CompactionFault::Custom(CustomKind::Relocations, offset)) }
    }
}

/// Appends bytes. Fails with `Memory`.
fn append_bytes(out: &mut Vec<u8>, bytes: &[u8]) -> Result<(), CompactionFault>
    ensures appends { OnOk result (out.new.items ≡ out.old.items ++ bytes.now) }
    ensures memory { IfErr result (λ fault. fault ≡ CompactionFault.Memory) }
{
    match out.extend_from_slice(bytes) {
        Ok(()) => Ok(()),
        Err(_) => Err(CompactionFault::Memory),
    }
}
