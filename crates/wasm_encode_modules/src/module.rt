ghost use Rattle.wasm_encode_modules.specs.WrittenModules.{WritesModule, AppendsSections, AppendsNext};

use crate::section::{SectionContents, append_section, begins_as_module};
use wasm_below::{Malformed, Message};
use wasm_write_grammars::append_bytes;

/// Appends a section of a module. Fails with `SecondModule` if it begins as a module does.
fn append_next(out: &mut Vec<u8>, section: &SectionContents<'_>) -> Result<(), Message>
    ensures { AppendsNext section.now result out.old.items out.new.items }
{
    if begins_as_module(section) {
        return Err(Message::Malformed(Malformed::SecondModule));
    }
    match append_section(out, section) {
        Ok(()) => Ok(()),
        Err(message) => Err(message),
    }
}

/// Appends a preamble and sections. On `Err`, bytes may have been appended.
fn append_module(out: &mut Vec<u8>, sections: &[SectionContents<'_>]) -> Result<(), Message>
    ensures { AppendsSections sections.now result out.old.items out.new.items }
{
    append_bytes(out, b"\x00asm\x01\x00\x00\x00".as_slice())?;
    for section in sections {
        append_next(out, section)?;
    }
    Ok(())
}

/// Appends a module with these sections, in this order. Specification: Modules.
///
/// Fails like `write_section`, or with `SecondModule` at a section whose first bytes are the magic
/// number of a module. The order of sections and their contents are not checked.
pub fn write_module(out: &mut Vec<u8>, sections: &[SectionContents<'_>]) -> Result<(), Message>
    ensures { WritesModule sections.now result out.old.items out.new.items }
{
    let start = out.len();
    match append_module(out, sections) {
        Ok(()) => Ok(()),
        Err(message) => {
            out.truncate(start);
            Err(message)
        }
    }
}
