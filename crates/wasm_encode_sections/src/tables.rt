ghost use Rattle.wasm_segments.specs.Globals.{zero_byte, global, table};
ghost use Rattle.wasm_write_grammars.specs.Writing.{AppendsBy, NoReason};
ghost use Rattle.wasm_encode_sections.specs.SegmentReasons.{GlobalReason, InitializedReason};

use crate::write::Write;
use wasm_below::{Message, WasmFeatures};
use wasm_segments::{Global, Table, TableInit};
use wasm_write_grammars::append_byte;

impl<C: Write> Write for Global<C> {
    ghost grammar = { λ features. global features (C.grammar features) };

    ghost reason = { λ features. GlobalReason (C.reason features) };

    fn append_to(&self, features: WasmFeatures, out: &mut Vec<u8>) -> Result<(), Message> {
        self.ty.append_to(features, out)?;
        self.init_expr.append_to(features, out)?;
        Ok(())
    }
}

/// Appends the byte 0 after the byte 0x40.
fn append_zero(out: &mut Vec<u8>) -> Result<(), Message>
    ensures { AppendsBy zero_byte NoReason 0 result out.old.items out.new.items }
{
    append_byte(out, 0)
}

/// A table with an initial value follows the bytes 0x40 and 0.
impl<C: Write> Write for Table<C> {
    ghost grammar = { λ features. table features (C.grammar features) };

    ghost reason = { λ features. InitializedReason features (C.reason features) };

    fn append_to(&self, features: WasmFeatures, out: &mut Vec<u8>) -> Result<(), Message> {
        match &self.init {
            TableInit::RefNull => {
                self.ty.append_to(features, out)?;
                Ok(())
            }
            TableInit::Expr(value) => {
                append_byte(out, 0x40)?;
                append_zero(out)?;
                self.ty.append_to(features, out)?;
                value.append_to(features, out)?;
                Ok(())
            }
        }
    }
}
