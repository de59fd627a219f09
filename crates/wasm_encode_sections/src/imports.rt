ghost use Rattle.wasm_externals.specs.Externals.{external_kind, type_ref, import};
ghost use Rattle.wasm_encode_sections.specs.ExternalReasons.{RefReason, ImportReason};
ghost use Rattle.wasm_write_grammars.specs.Writing.{AppendsBy, NoReason};

use crate::write::Write;
use wasm_below::{Message, WasmFeatures};
use wasm_externals::{ExternalKind, Import, TypeRef};
use wasm_write_grammars::append_u32;

/// Appends the byte before an external type.
fn append_kind(out: &mut Vec<u8>, features: WasmFeatures, kind: ExternalKind) -> Result<(), Message>
    ensures { AppendsBy external_kind NoReason kind result out.old.items out.new.items }
{
    kind.append_to(features, out)
}

impl Write for TypeRef {
    ghost grammar = { type_ref };

    ghost reason = { RefReason };

    fn append_to(&self, features: WasmFeatures, out: &mut Vec<u8>) -> Result<(), Message> {
        match *self {
            TypeRef::Func(index) => {
                append_kind(out, features, ExternalKind::Func)?;
                append_u32(out, index)?;
                Ok(())
            }
            TypeRef::Table(ty) => {
                append_kind(out, features, ExternalKind::Table)?;
                ty.append_to(features, out)?;
                Ok(())
            }
            TypeRef::Memory(ty) => {
                append_kind(out, features, ExternalKind::Memory)?;
                ty.append_to(features, out)?;
                Ok(())
            }
            TypeRef::Global(ty) => {
                append_kind(out, features, ExternalKind::Global)?;
                ty.append_to(features, out)?;
                Ok(())
            }
            TypeRef::Tag(ty) => {
                append_kind(out, features, ExternalKind::Tag)?;
                ty.append_to(features, out)?;
                Ok(())
            }
        }
    }
}

impl<'a> Write for Import<'a> {
    ghost grammar = { import };

    ghost reason = { ImportReason };

    fn append_to(&self, features: WasmFeatures, out: &mut Vec<u8>) -> Result<(), Message> {
        self.module.append_to(features, out)?;
        self.name.append_to(features, out)?;
        self.ty.append_to(features, out)?;
        Ok(())
    }
}
