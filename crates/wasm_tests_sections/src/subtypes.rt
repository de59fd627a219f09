//! The types of a type section, and which of them match.
use crate::failure::{Failure, Written};
use std::alloc::Global;
use wasm_below::{BinaryReader, ErrorKind};
use wasm_grammars::Read;
use wasm_subtypes::{TypeError, Types, value_matches};
use wasm_types::{CompositeInnerType, RecGroup};

/// Reads the contents of a type section, and writes `valid` or `invalid`: whether its types are valid
/// and what is asked is so. The question is nothing, whether the type at the first of two indices
/// matches that at the second, or `value`: whether the parameter of the last type, a function type,
/// matches its result.
pub fn write_matching(
    alloc: Global,
    text: &mut String,
    reader: &mut BinaryReader<'_>,
    question: &str,
) -> Written {
    let holds = match read_types(alloc, reader)? {
        None => false,
        Some(types) => match question {
            "" => true,
            "value" => last_matches(&types)?,
            indices => {
                let Some((index, of)) = indices.split_once(' ') else {
                    return Err(Failure::Malformed);
                };
                types.is_subtype(index.parse::<u32>()?, of.parse::<u32>()?)
            }
        },
    };
    text.push_str(if holds { "valid" } else { "invalid" })?;
    Ok(())
}

fn last_matches(types: &Types) -> Result<bool, Failure> {
    let Some(last) = types.len().checked_sub(1) else {
        return Err(Failure::Malformed);
    };
    let Ok(last) = u32::try_from(last) else {
        return Err(Failure::Malformed);
    };
    let Some(defined) = types.get(last) else {
        return Err(Failure::Malformed);
    };
    let CompositeInnerType::Func(ty) = &defined.ty.composite_type.inner else {
        return Err(Failure::Malformed);
    };
    match (ty.params().first(), ty.results().first()) {
        (Some(param), Some(result)) => Ok(value_matches(types, *param, *result)),
        _ => Err(Failure::Malformed),
    }
}

fn read_types(alloc: Global, reader: &mut BinaryReader<'_>) -> Result<Option<Types>, Failure> {
    let Ok(count) = reader.read_var_u32() else {
        return Err(Failure::Malformed);
    };
    let mut types = Types::new(alloc);
    for _ in 0..count {
        let group = match RecGroup::read_from(alloc, reader) {
            Ok(group) => group,
            Err(e) if e.kind() == ErrorKind::OutOfMemory => return Err(Failure::OutOfMemory),
            Err(_) => return Ok(None),
        };
        types = match types.add(alloc, group) {
            Ok(types) => types,
            Err(TypeError::OutOfMemory) => return Err(Failure::OutOfMemory),
            Err(_) => return Ok(None),
        };
    }
    Ok(Some(types))
}
