//! Name sections that are read as values, and written again.
use crate::failure::{Failure, Written};
use std::alloc::Global;
use wasm_below::{BinaryReader, WasmFeatures};
use wasm_encode_modules::{SectionContents, write_section};
use wasm_encode_sections::{ListedNaming, append_items, write_value};
use wasm_externals::Text;
use wasm_grammars::Read;
use wasm_imm::Members;
use wasm_names::{IndirectNameMap, Name, NameMap, NameSectionReader, Naming};

/// Writes a custom section. If it has names, these are read as values.
pub fn write_custom(
    alloc: Global,
    features: WasmFeatures,
    contents: BinaryReader<'_>,
    written: &mut Vec<u8>,
) -> Written {
    let mut rest = contents.clone();
    let name = Text::read_from(alloc, &mut rest)?;
    if name.as_str() != "name" {
        written.extend_from_slice(contents.remaining_buffer())?;
        return Ok(());
    }
    write_value(&name, features, written)?;
    for subsection in NameSectionReader::new(alloc, rest) {
        write_subsection(alloc, features, subsection?, written)?;
    }
    Ok(())
}

fn write_subsection(
    alloc: Global,
    features: WasmFeatures,
    subsection: Name<'_>,
    written: &mut Vec<u8>,
) -> Written {
    let mut contents = Vec::new(alloc);
    let out = &mut contents;
    let id = match subsection {
        Name::Module { name, .. } => {
            write_value(&name, features, out)?;
            0
        }
        Name::Function(map) => write_map(alloc, features, map, out, 1)?,
        Name::Local(map) => write_indirect_map(alloc, features, map, out, 2)?,
        Name::Label(map) => write_indirect_map(alloc, features, map, out, 3)?,
        Name::Type(map) => write_map(alloc, features, map, out, 4)?,
        Name::Table(map) => write_map(alloc, features, map, out, 5)?,
        Name::Memory(map) => write_map(alloc, features, map, out, 6)?,
        Name::Global(map) => write_map(alloc, features, map, out, 7)?,
        Name::Element(map) => write_map(alloc, features, map, out, 8)?,
        Name::Data(map) => write_map(alloc, features, map, out, 9)?,
        Name::Field(map) => write_indirect_map(alloc, features, map, out, 10)?,
        Name::Tag(map) => write_map(alloc, features, map, out, 11)?,
        Name::Unknown { ty, data, .. } => {
            out.extend_from_slice(data)?;
            ty
        }
    };
    write_section(written, &SectionContents::new(id, contents.as_slice()))?;
    Ok(())
}

fn collect_names<'a>(alloc: Global, map: NameMap<'a>) -> Result<Members<Naming<'a>>, Failure> {
    let mut names = Vec::new(alloc);
    for naming in map {
        names.push(naming?)?;
    }
    Ok(Members::from_vec(names))
}

/// Writes the contents of the subsection with this id, which is returned.
fn write_map(
    alloc: Global,
    features: WasmFeatures,
    map: NameMap<'_>,
    out: &mut Vec<u8>,
    id: u8,
) -> Result<u8, Failure> {
    let names = collect_names(alloc, map)?;
    append_items(out, features, names.as_slice())?;
    Ok(id)
}

/// Writes the contents of the subsection with this id, which is returned.
fn write_indirect_map(
    alloc: Global,
    features: WasmFeatures,
    map: IndirectNameMap<'_>,
    out: &mut Vec<u8>,
    id: u8,
) -> Result<u8, Failure> {
    let mut listed = Vec::new(alloc);
    for naming in map {
        let naming = naming?;
        let names = collect_names(alloc, naming.names)?;
        listed.push(ListedNaming {
            index: naming.index,
            names,
        })?;
    }
    append_items(out, features, listed.as_slice())?;
    Ok(id)
}
