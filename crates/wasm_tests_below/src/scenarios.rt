ghost use Rattle.std.specs.Prelude.{◌≡◌};
ghost use Rattle.wasm_below.specs.Features.{HasFeature, memory64};

use crate::failure::{Failure, Written};
use bitflags::Flags;
use std::alloc::Global;
use wasm_below::{
    BinaryReader, HeapType, Message, RefType, SizeName, TakesMemory, ValType, WasmFeatures,
};
use wasm_grammars::{Bytes, Read, read_list, read_within};
use wasm_imm::{
    BrTable, Cast, Catch, Handle, Ieee32, Members, ReadImmediates, ResumeTable, TryTable, V128,
};

pub fn write_scenario(alloc: Global, text: &mut String, name: &str) -> Written {
    match name {
        "features" => write_features(text),
        "debug" => write_debug(alloc, text),
        "branch_tables" => write_branch_tables(text),
        "members" => write_members(alloc, text),
        "grammars" => write_grammars(alloc, text),
        "constants" => write_constants(text),
        "references" => write_references(text),
        _ => Err(Failure::Malformed),
    }
}

fn index_bits(reader: &BinaryReader<'_>) -> u32
    ensures wide { HasFeature memory64 reader.now.features → result ≡ 64 }
    ensures narrow { ¬ (HasFeature memory64 reader.now.features) → result ≡ 32 }
{
    if reader.features().contains(WasmFeatures::MEMORY64) {
        64
    } else {
        32
    }
}

#[derive(Clone, Drop)]
struct Held<'a> {
    reader: BinaryReader<'a>,
}

fn write_features(text: &mut String) -> Written {
    let mut reader = BinaryReader::new(&[1, 2], 0);
    write!(text, "index bits {}", index_bits(&reader))?;
    let held = Held {
        reader: reader.clone(),
    };
    let copy = held.clone()?;
    let left = copy.reader.bytes_remaining();
    write!(text, ", {left} bytes left in a copy")?;
    reader.set_features(WasmFeatures::MULTI_MEMORY.union(WasmFeatures::LEGACY_EXCEPTIONS));
    let bits = reader.features().bits();
    write!(
        text,
        "; features {bits}: index bits {}",
        index_bits(&reader)
    )?;
    let named = WasmFeatures::from_name("MEMORY64").ok_or(Failure::Malformed)?;
    let all = WasmFeatures::all();
    write!(text, "; MEMORY64 {}, all {}", named.bits(), all.bits())?;
    Ok(())
}

fn write_debug(alloc: Global, text: &mut String) -> Written {
    let mut reader = BinaryReader::new(&[1, 1, 0], 0);
    let printed = format!(in alloc; "{reader:?} {:?}", WasmFeatures::all())?;
    write!(text, "reader {}", printed.len() > 20)?;
    let table = BrTable::read(&mut reader)?;
    let printed = format!(in alloc; "{table:?} {:?}", table.targets())?;
    write!(text, ", branch table {}", !printed.is_empty())?;
    write!(
        text,
        ", max_data_len {}",
        BinaryReader::max_data_len(u64::MAX)
    )?;
    Ok(())
}

fn write_branch_tables(text: &mut String) -> Written {
    let mut reader = BinaryReader::new(&[0x01, 0x01, 0x00], 0);
    let short = BrTable::read(&mut reader)?;
    let mut reader = BinaryReader::new(&[0x01, 0x81, 0x00, 0x00], 0);
    let long = BrTable::read(&mut reader)?;
    let copy = short.clone()?;
    write!(text, "copy equal {}", copy == short)?;
    write!(text, ", longer encoding equal {}", short == long)?;
    Ok(())
}

fn write_members(alloc: Global, text: &mut String) -> Written {
    let members = Members::from_vec(vec![in alloc; 1u32, 2]?);
    let copy = members.clone(alloc)?;
    write!(text, "copy equal {}", copy == members)?;
    write!(text, ", len {}, is_empty {}", copy.len(), copy.is_empty())?;
    let items = copy.into_vec();
    write!(text, ", items {items:?}")?;
    let none = Members::<u32>::from_vec(Vec::new(alloc));
    write!(text, "; {none:?}, is_empty {}", none.is_empty())?;
    let members = Members::from(vec![in alloc; 3u32, 4]?);
    write!(text, "; second {}", members[1])?;
    for item in &members {
        write!(text, ", item {item}")?;
    }
    Ok(())
}

fn write_grammars(alloc: Global, text: &mut String) -> Written {
    let mut reader = BinaryReader::new(&[2, 0x68, 0x69, 2, 0x7f, 0x7e, 1, 5, 9], 100);
    let name = Bytes::read_from(alloc, &mut reader)?;
    write!(text, "{:?}", name.as_slice())?;
    let types = read_list::<ValType>(alloc, &mut reader, 2, SizeName::SelectTypes)?;
    write!(text, ", {types:?}")?;
    match read_list::<u32>(alloc, &mut reader, 0, SizeName::Catches) {
        Ok(list) => write!(text, "; {list:?}")?,
        Err(e) => write!(text, "; {e}")?,
    }
    match read_within::<u32>(alloc, &mut reader, 2, Message::DataAfterSection) {
        Ok(number) => write!(text, "; {number}")?,
        Err(e) => write!(text, "; {e}")?,
    }
    let list = read_list::<u32>(alloc, &mut reader, 1, SizeName::Catches)?;
    write!(text, "; {list:?}, next {}", reader.original_position())?;
    Ok(())
}

fn write_constants(text: &mut String) -> Written {
    let quiet = BinaryReader::new(&[0x00, 0x00, 0xc0, 0x7f], 0).read_f32()?;
    write!(text, "f32 equal {}", quiet == Ieee32::from_bits(2143289344))?;
    let small = BinaryReader::new(&[1, 0, 0, 0, 0, 0, 0, 0x80], 0).read_f64()?;
    write!(text, ", f64 bits {}", small.bits())?;
    let mut one = [0; 16];
    one[0] = 1;
    let one = V128::read(&mut BinaryReader::new(&one, 0))?;
    write!(text, ", one {}", one.i128())?;
    let ones = V128::read(&mut BinaryReader::new(&[0xff; 16], 0))?;
    write!(text, ", ones {}", i128::from(ones))?;
    write!(text, ", from u128 equal {}", V128::from(u128::MAX) == ones)?;
    write!(text, ", from i128 equal {}", V128::from(-1i128) == ones)?;
    Ok(())
}

fn write_references(text: &mut String) -> Written {
    let last = RefType::new(false, HeapType::Concrete(1048575));
    let beyond = RefType::new(false, HeapType::Concrete(1048576));
    let exact = RefType::new(true, HeapType::Exact(1048576));
    write!(text, "{last:?}, beyond {beyond:?}, exact {exact:?}")?;
    let cast = Cast::read(&mut BinaryReader::new(&[0x01, 0x00, 0x6e, 0x6d], 0))?;
    write!(text, "; depth {}", cast.relative_depth)?;
    let (from, to) = (cast.from, cast.to);
    write!(
        text,
        ", nullable {} {}",
        from.is_nullable(),
        to.is_nullable()
    )?;
    write!(text, ", from {:?}", from.heap_type())?;
    write_memory_use(text)
}

fn write_memory_use(text: &mut String) -> Written {
    write!(text, "; allocates: u32 {}", u32::TAKES_MEMORY)?;
    write!(text, ", HeapType {}", HeapType::TAKES_MEMORY)?;
    write!(text, ", RefType {}", RefType::TAKES_MEMORY)?;
    write!(text, ", ValType {}", ValType::TAKES_MEMORY)?;
    write!(text, ", Catch {}", Catch::TAKES_MEMORY)?;
    write!(text, ", Handle {}", Handle::TAKES_MEMORY)?;
    write!(text, ", TryTable {}", TryTable::TAKES_MEMORY)?;
    write!(text, ", ResumeTable {}", ResumeTable::TAKES_MEMORY)?;
    Ok(())
}
