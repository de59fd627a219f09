ghost use Rattle.std.specs.Prelude.{◌≡◌};
ghost use Rattle.wasm_types.specs.Types.{supertype, sub_type, rec_group};
ghost use Rattle.wasm_write_grammars.specs.Writing.{AppendsBy};
ghost use Rattle.wasm_encode_sections.specs.Subtypes.{is_plain, sub_byte};
ghost use Rattle.wasm_encode_sections.specs.TypeReasons.{SuperReason, SubReason, GroupReason};

use crate::lists::append_list;
use crate::write::Write;
use wasm_below::{Malformed, Message, SizeName, WasmFeatures};
use wasm_types::{RecGroup, SubType};
use wasm_write_grammars::{append_byte, append_size, append_u32};

const MAX_SUPERTYPES: usize = 1;

const MAX_TYPES: usize = 1000000;

const MAX_TYPE_INDEX: u32 = 1048575;

/// Appends a list of at most one type index.
fn append_supertype(out: &mut Vec<u8>, declared: Option<u32>) -> Result<(), Message>
    ensures { AppendsBy supertype SuperReason declared result out.old.items out.new.items }
{
    match declared {
        None => {
            append_size(out, MAX_SUPERTYPES, SizeName::SupertypeIndices, 0)?;
            Ok(())
        }
        Some(index) => {
            if index > MAX_TYPE_INDEX {
                return Err(Message::Malformed(Malformed::TypeIndex));
            }
            append_size(out, MAX_SUPERTYPES, SizeName::SupertypeIndices, 1)?;
            append_u32(out, index)?;
            Ok(())
        }
    }
}

/// Returns whether the type is final and has no supertype.
fn is_plain(ty: &SubType) -> bool
    ensures { result ≡ is_plain ty.now.is_final ty.now.supertype_idx }
{
    match (ty.is_final, ty.supertype_idx) {
        (true, None) => true,
        _ => false,
    }
}

fn sub_byte(is_final: bool) -> u8
    ensures { result ≡ sub_byte is_final }
{
    if is_final { 0x4f } else { 0x50 }
}

/// A final type without a supertype is written as its composite type alone.
impl Write for SubType {
    ghost grammar = { λ features. sub_type };

    ghost reason = { λ features. SubReason };

    fn append_to(&self, features: WasmFeatures, out: &mut Vec<u8>) -> Result<(), Message> {
        if is_plain(self) {
            self.composite_type.append_to(features, out)?;
            return Ok(());
        }
        append_byte(out, sub_byte(self.is_final))?;
        append_supertype(out, self.supertype_idx)?;
        self.composite_type.append_to(features, out)?;
        Ok(())
    }
}

impl Write for RecGroup {
    ghost grammar = { λ features. rec_group };

    ghost reason = { λ features. GroupReason };

    fn append_to(&self, features: WasmFeatures, out: &mut Vec<u8>) -> Result<(), Message> {
        match self {
            RecGroup::Implicit(ty) => {
                ty.append_to(features, out)?;
                Ok(())
            }
            RecGroup::Explicit(types) => {
                append_byte(out, 0x4e)?;
                append_list(
                    out,
                    features,
                    MAX_TYPES,
                    SizeName::RecGroupTypes,
                    types.as_slice(),
                )?;
                Ok(())
            }
        }
    }
}
