ghost use Rattle.std.specs.Prelude.{◌≡◌, ℕ, List, length, IsTrue, ◌↔◌};
ghost use Rattle.wasm_below.specs.declared.features.WasmFeatures.{WasmFeatures};
ghost use Rattle.wasm_grammars.specs.Grammar.{Encodes};
ghost use Rattle.wasm_sections.specs.Section.{SectionParts, section};
ghost use Rattle.wasm_write_grammars.specs.Writing.{AppendsBy, WritesBy};
ghost use Rattle.wasm_encode_modules.specs.RawSections.{RawSection, raw_section, SectionReason, BeginsAsModule, BeginsSo};
ghost use Rattle.wasm_encode_modules.specs.WrittenModules.{HasContents};

use std::marker::Model;
use wasm_below::{Malformed, Message};
use wasm_write_grammars::{append_byte, append_sized};

/// The greatest id of a section.
const MAX_ID: u8 = 127;

/// The id of a section, and the bytes of its contents, which are borrowed. Specification: Sections.
#[derive(Drop)]
pub struct SectionContents<'a> {
    id: u8,
    bytes: &'a [u8],
}

impl<'a> Model for SectionContents<'a> {
    ghost use Rattle.wasm_encode_modules.specs.RawSections.{RawSection};

    ghost Value = { RawSection };

    ghost view = { λ s. record { id = s.id; bytes = s.bytes.now } };
}

impl<'a> SectionContents<'a> {
    pub fn new(id: u8, bytes: &'a [u8]) -> SectionContents<'a>
        ensures { result ≡ record { id = id; bytes = bytes.now } }
    {
        SectionContents { id, bytes }
    }

    pub fn id(&self) -> u8
        ensures { result ≡ self.now.id }
    {
        self.id
    }

    pub fn bytes(&self) -> &'a [u8]
        ensures { result.now ≡ self.now.bytes }
    {
        self.bytes
    }
}

/// Appends a section. On `Err`, bytes may have been appended.
pub(crate) fn append_section(
    out: &mut Vec<u8>,
    section: &SectionContents<'_>,
) -> Result<(), Message>
    ensures { AppendsBy raw_section SectionReason section.now result out.old.items out.new.items }
{
    let id = section.id();
    if id > MAX_ID {
        return Err(Message::Malformed(Malformed::SectionId));
    }
    append_byte(out, id)?;
    append_sized(out, section.bytes())?;
    Ok(())
}

/// Appends a section: its id, the size of its contents in the fewest bytes, and the contents.
/// Specification: Sections.
///
/// Fails with `SectionId` at an id above 127, and with `IntegerTooLarge` for contents of 2^32 bytes or
/// more.
pub fn write_section(out: &mut Vec<u8>, section: &SectionContents<'_>) -> Result<(), Message>
    ensures { WritesBy raw_section SectionReason section.now result out.old.items out.new.items }
{
    let start = out.len();
    match append_section(out, section) {
        Ok(()) => Ok(()),
        Err(message) => {
            out.truncate(start);
            Err(message)
        }
    }
}

/// Returns whether the encoding of the section begins as a module does.
pub(crate) fn begins_as_module(section: &SectionContents<'_>) -> bool
    ensures { IsTrue result ↔ BeginsAsModule section.now }
{
    if section.id() != 0 {
        return false;
    }
    let bytes = section.bytes();
    if bytes.len() != 97 {
        return false;
    }
    begins_so(bytes)
}

/// Returns whether contents begin with the bytes 0x73 and 0x6d.
fn begins_so(bytes: &[u8]) -> bool
    ensures { IsTrue result ↔ BeginsSo bytes.now }
{
    matches!(bytes, [0x73, 0x6d, ..])
}

/// States that an encoding of an id and contents is an encoding of a section with these.
pub fn raw_sections()
    ensures { (features : WasmFeatures) (at : ℕ) (text : List ℕ) (s : RawSection) → Encodes raw_section at text s →
        (part : SectionParts) × HasContents features part s × Encodes (section features) at text part }
{}
