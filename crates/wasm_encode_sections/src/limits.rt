ghost use Rattle.std.specs.Prelude.{◌≡◌, is_some};
ghost use Rattle.wasm_externals.specs.Flags.{has_flag};
ghost use Rattle.wasm_externals.specs.Limits.{address, maximum, page_size, table_type, memory_type};
ghost use Rattle.wasm_encode_sections.specs.ExternalReasons.{AddressReason, MaximumReason, PageReason, TableReason, MemoryReason};
ghost use Rattle.wasm_write_grammars.specs.Writing.{AppendsBy};

use crate::flags::flag_byte;
use crate::write::Write;
use wasm_below::{Malformed, Message, NumberName, WasmFeatures};
use wasm_externals::{MemoryType, TableType};
use wasm_write_grammars::{append_byte, append_u32, append_u64};

const MAX_PAGE_SIZE_LOG2: u32 = 63;

/// Appends a size: with memory64 a u64, without it a u32.
fn append_address(out: &mut Vec<u8>, features: WasmFeatures, size: u64) -> Result<(), Message>
    ensures { AppendsBy (address features) (AddressReason features) size result out.old.items out.new.items }
{
    if features.contains(WasmFeatures::MEMORY64) {
        return append_u64(out, size);
    }
    if size > 0xffff_ffff {
        return Err(Message::IntegerTooLarge(NumberName::VarU32));
    }
    append_u32(out, size as u32)
}

/// Appends a size, if there is one. The flags say whether there is.
fn append_maximum(
    out: &mut Vec<u8>,
    features: WasmFeatures,
    flags: u8,
    most: Option<u64>,
) -> Result<(), Message>
    requires { has_flag flags 1 ≡ is_some most }
    ensures { AppendsBy (maximum flags features) (MaximumReason features) most result out.old.items out.new.items }
{
    match most {
        None => Ok(()),
        Some(size) => {
            append_address(out, features, size)?;
            Ok(())
        }
    }
}

/// Appends the logarithm of a page size, if there is one. The flags say whether there is.
fn append_page_size(out: &mut Vec<u8>, flags: u8, log2: Option<u32>) -> Result<(), Message>
    requires { has_flag flags 8 ≡ is_some log2 }
    ensures { AppendsBy (page_size flags) PageReason log2 result out.old.items out.new.items }
{
    match log2 {
        None => Ok(()),
        Some(number) => {
            if number > MAX_PAGE_SIZE_LOG2 {
                return Err(Message::Malformed(Malformed::PageSize));
            }
            append_u32(out, number)?;
            Ok(())
        }
    }
}

impl Write for TableType {
    ghost grammar = { table_type };

    ghost reason = { TableReason };

    fn append_to(&self, features: WasmFeatures, out: &mut Vec<u8>) -> Result<(), Message> {
        let flags = flag_byte(self.maximum.is_some(), self.shared, self.table64, false);
        self.element_type.append_to(features, out)?;
        append_byte(out, flags)?;
        append_address(out, features, self.initial)?;
        append_maximum(out, features, flags, self.maximum)?;
        Ok(())
    }
}

impl Write for MemoryType {
    ghost grammar = { memory_type };

    ghost reason = { MemoryReason };

    fn append_to(&self, features: WasmFeatures, out: &mut Vec<u8>) -> Result<(), Message> {
        let flags = flag_byte(
            self.maximum.is_some(),
            self.shared,
            self.memory64,
            self.page_size_log2.is_some(),
        );
        append_byte(out, flags)?;
        append_address(out, features, self.initial)?;
        append_maximum(out, features, flags, self.maximum)?;
        append_page_size(out, flags, self.page_size_log2)?;
        Ok(())
    }
}
