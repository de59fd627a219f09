ghost use Rattle.std.specs.Prelude.{◌≡◌, ◌++◌, ◌∷◌, [], List, IfOk, IfErr, MatchOption};
ghost use Rattle.wasm_below.specs.Source.{Reader, reader_of};
ghost use Rattle.wasm_module.specs.Module.{SectionParts};
ghost use Rattle.wasm_module.specs.FunctionNames.{IsNames, LastNames, HasNames};
ghost use Rattle.wasm_module.specs.Refusals.{SectionsFault};
ghost use Rattle.wasm_module.specs.Sections.{BeginsModule, IsModule, IsSection, or_first};

use crate::fault::ModuleFault;
use crate::module_laws::names;
use crate::{CustomSection, PreambleKind, Section, read_preamble, read_section};
use wasm_below::byte_laws::{fixed_numbers, unsigned_numbers};
use wasm_below::{BinaryReader, WasmFeatures};

/// Reads the preamble of a module and returns a reader of its sections.
///
/// Fails with `NotModule` at the preamble of something else, and with `Refused` if the data ends
/// within it.
pub fn open_sections<'a>(
    features: WasmFeatures,
    bytes: &'a [u8],
) -> Result<BinaryReader<'a>, ModuleFault>
    ensures ok { IfOk result (λ after. BeginsModule (reader_of features 0 bytes.now) after) }
    ensures refused { IfErr result (λ fault. (after : Reader) → BeginsModule (reader_of features 0 bytes.now) after → ⊥) }
    ensures fault { IfErr result (λ fault. SectionsFault fault (reader_of features 0 bytes.now)) }
{
    fixed_numbers();
    let mut reader = BinaryReader::new_features(bytes, 0, features);
    let preamble = match read_preamble(&mut reader) {
        Ok(preamble) => preamble,
        Err(e) => return Err(ModuleFault::Refused(e)),
    };
    match preamble.kind() {
        PreambleKind::Module => Ok(reader),
        kind => Err(ModuleFault::NotModule(kind)),
    }
}

fn or_first<'a>(
    found: Option<BinaryReader<'a>>,
    section: &Section<'a>,
    id: u8,
) -> Option<BinaryReader<'a>>
    ensures { result ≡ or_first found.entry section.now id }
{
    match found {
        Some(contents) => Some(contents),
        None => {
            if section.id() == id {
                Some(section.contents())
            } else {
                None
            }
        }
    }
}

/// Returns the contents of a module's first section with this number, if there is one.
///
/// Fails as `open_sections` does, or with `Refused` at the first section in error.
pub fn find_section<'a>(
    features: WasmFeatures,
    bytes: &'a [u8],
    id: u8,
) -> Result<Option<BinaryReader<'a>>, ModuleFault>
    ensures ok { IfOk result (λ found. IsSection (reader_of features 0 bytes.now) id found) }
    ensures refused { IfErr result (λ fault. (sections : List SectionParts) → IsModule (reader_of features 0 bytes.now) sections → ⊥) }
    ensures fault { IfErr result (λ fault. SectionsFault fault (reader_of features 0 bytes.now)) }
{
    unsigned_numbers();
    fixed_numbers();
    let mut reader = open_sections(features, bytes)?;
    let mut found = None;
    'sections: while !reader.eof() {
        let section = match read_section(&mut reader) {
            Ok(section) => section,
            Err(e) => return Err(ModuleFault::Refused(e)),
        };
        found = or_first(found, &section, id);
    }
    Ok(found)
}

fn names_of<'a>(section: &Section<'a>) -> Option<BinaryReader<'a>>
    ensures { MatchOption result ((contents : Reader) → IsNames section.now contents → ⊥) (λ contents. IsNames section.now contents) }
{
    names();
    if section.id() != 0 {
        return None;
    }
    match CustomSection::new(section.contents()) {
        Ok(custom) => {
            if custom.name() == b"name".as_slice() {
                Some(custom.contents())
            } else {
                None
            }
        }
        Err(_) => None,
    }
}

fn or_last<'a>(found: Option<BinaryReader<'a>>, section: &Section<'a>) -> Option<BinaryReader<'a>>
    ensures { (sections : List SectionParts) → LastNames sections found.entry → LastNames (sections ++ section.now ∷ []) result }
{
    match names_of(section) {
        Some(names) => Some(names),
        None => found,
    }
}

/// Returns the contents of a module's last custom section `name`, if there is one. Fails as
/// `find_section` does.
pub fn find_names<'a>(
    features: WasmFeatures,
    bytes: &'a [u8],
) -> Result<Option<BinaryReader<'a>>, ModuleFault>
    ensures ok { IfOk result (λ found. HasNames (reader_of features 0 bytes.now) found) }
    ensures refused { IfErr result (λ fault. (sections : List SectionParts) → IsModule (reader_of features 0 bytes.now) sections → ⊥) }
    ensures fault { IfErr result (λ fault. SectionsFault fault (reader_of features 0 bytes.now)) }
{
    unsigned_numbers();
    fixed_numbers();
    let mut reader = open_sections(features, bytes)?;
    let mut found = None;
    'customs: while !reader.eof() {
        let section = match read_section(&mut reader) {
            Ok(section) => section,
            Err(e) => return Err(ModuleFault::Refused(e)),
        };
        found = or_last(found, &section);
    }
    Ok(found)
}
