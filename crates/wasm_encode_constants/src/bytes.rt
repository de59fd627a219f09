ghost use Rattle.std.specs.Prelude.{◌≡◌, ◌≢◌, IfOk, IfErr};
ghost use Rattle.wasm_below.specs.declared.message.Message.TheVariants as message;
ghost use Rattle.wasm_encode_constants.specs.BytesLaws.{IsConstant};
ghost use Rattle.wasm_encode_constants.specs.ConstantBytes.{constant_bytes, ConstantReason};

use std::alloc::Global;
use std::marker::Model;
use wasm_below::{BinaryReader, Message, WasmFeatures};
use wasm_encode_sections::Write;
use wasm_grammars::Read;
use wasm_operators::ConstExpr;
use wasm_write_grammars::append_bytes;

/// The bytes of a constant expression, which are borrowed; in contracts, a list.
#[derive(Drop)]
pub struct ConstantBytes<'a> {
    bytes: &'a [u8],
}

impl<'a> Model for ConstantBytes<'a> {
    ghost use Rattle.std.specs.Prelude.{ℕ, List};

    ghost Value = { List ℕ };

    ghost view = { λ c. c.bytes.now };
}

impl<'a> ConstantBytes<'a> {
    /// Creates a value from any bytes. They are checked when they are written.
    pub fn new(bytes: &'a [u8]) -> ConstantBytes<'a>
        ensures { result ≡ bytes.now }
    {
        ConstantBytes { bytes }
    }

    pub fn as_slice(&self) -> &'a [u8]
        ensures { result.now ≡ self.now }
    {
        self.bytes
    }
}

impl<'a> Read<'a> for ConstantBytes<'a> {
    ghost grammar = { constant_bytes };

    /// Reads the operators up to the first `end`. Fails like `ConstExpr::read`.
    fn read_from(
        alloc: Global,
        reader: &mut BinaryReader<'a>,
    ) -> wasm_below::Result<ConstantBytes<'a>> {
        match ConstExpr::read(alloc, reader) {
            Ok(expression) => {
                let contents = expression.get_binary_reader();
                Ok(ConstantBytes {
                    bytes: contents.remaining_buffer(),
                })
            }
            Err(e) => Err(e),
        }
    }
}

/// Reads bytes as a constant expression, to check them.
///
/// Fails with the message of `ConstExpr::read`, or with `UnexpectedData` if bytes are left.
fn check_constant(alloc: Global, features: WasmFeatures, bytes: &[u8]) -> Result<(), Message>
    ensures constant { IfOk result (λ _. IsConstant features bytes.now) }
    ensures reason { IfErr result (λ m. m ≢ message.OutOfMemory → (IsConstant features bytes.now → ⊥) × ConstantReason features bytes.now m) }
{
    let mut reader = BinaryReader::new_features(bytes, 0, features);
    match ConstExpr::read(alloc, &mut reader) {
        Ok(_) => {
            if reader.eof() {
                Ok(())
            } else {
                Err(Message::UnexpectedData)
            }
        }
        Err(e) => Err(e.message()),
    }
}

impl<'a> Write for ConstantBytes<'a> {
    ghost grammar = { constant_bytes };

    ghost reason = { ConstantReason };

    /// Copies the bytes, unless they are no constant expression under the features.
    fn append_to(&self, features: WasmFeatures, out: &mut Vec<u8>) -> Result<(), Message> {
        let bytes = self.as_slice();
        check_constant(*out.allocator(), features, bytes)?;
        append_bytes(out, bytes)?;
        Ok(())
    }
}
