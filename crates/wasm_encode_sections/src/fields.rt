ghost use Rattle.wasm_types.specs.Types.{mutability, storage_type, field_type, array_type, struct_type};
ghost use Rattle.wasm_write_grammars.specs.Writing.{AppendsBy, NoReason};
ghost use Rattle.wasm_encode_sections.specs.TypeReasons.{StructReason};

use crate::lists::append_list;
use crate::write::Write;
use wasm_below::{Message, SizeName, WasmFeatures};
use wasm_types::{ArrayType, FieldType, StorageType, StructType};
use wasm_write_grammars::append_byte;

const MAX_STRUCT_FIELDS: usize = 10000;

impl Write for StorageType {
    ghost grammar = { λ features. storage_type };

    ghost reason = { λ features. NoReason };

    fn append_to(&self, features: WasmFeatures, out: &mut Vec<u8>) -> Result<(), Message> {
        match *self {
            StorageType::I8 => append_byte(out, 0x78),
            StorageType::I16 => append_byte(out, 0x77),
            StorageType::Val(ty) => ty.append_to(features, out),
        }
    }
}

fn append_mutability(out: &mut Vec<u8>, mutable: bool) -> Result<(), Message>
    ensures { AppendsBy mutability NoReason mutable result out.old.items out.new.items }
{
    if mutable {
        return append_byte(out, 1);
    }
    append_byte(out, 0)
}

impl Write for FieldType {
    ghost grammar = { λ features. field_type };

    ghost reason = { λ features. NoReason };

    fn append_to(&self, features: WasmFeatures, out: &mut Vec<u8>) -> Result<(), Message> {
        self.element_type.append_to(features, out)?;
        append_mutability(out, self.mutable)?;
        Ok(())
    }
}

impl Write for ArrayType {
    ghost grammar = { λ features. array_type };

    ghost reason = { λ features. NoReason };

    fn append_to(&self, features: WasmFeatures, out: &mut Vec<u8>) -> Result<(), Message> {
        self.0.append_to(features, out)?;
        Ok(())
    }
}

impl Write for StructType {
    ghost grammar = { λ features. struct_type };

    ghost reason = { λ features. StructReason };

    fn append_to(&self, features: WasmFeatures, out: &mut Vec<u8>) -> Result<(), Message> {
        let fields = self.fields.as_slice();
        append_list(
            out,
            features,
            MAX_STRUCT_FIELDS,
            SizeName::StructFields,
            fields,
        )?;
        Ok(())
    }
}
