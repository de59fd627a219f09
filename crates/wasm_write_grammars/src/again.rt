ghost use Rattle.std.specs.Prelude.{◌≡◌, ℕ, List, [], ◌++◌, IfOk, IfErr, Result};
ghost use Rattle.wasm_below.specs.declared.error.Error.{Error};
ghost use Rattle.wasm_below.specs.declared.features.WasmFeatures.{WasmFeatures};
ghost use Rattle.wasm_below.specs.declared.message.Message.TheVariants as message;
ghost use Rattle.wasm_below.specs.Source.{Reader, rest};
ghost use Rattle.wasm_grammars.specs.Reading.{Reads};
ghost use Rattle.wasm_write_grammars.specs.Writing.{Writes, ReadsAgain};

use std::alloc::Global;
use wasm_below::{BinaryReader, Result, WasmFeatures};
use wasm_grammars::Read;

/// States that a call which reads what was written returns the value and consumes what was written,
/// unless allocation fails.
pub fn written_is_read<'a, T: Read<'a>>()
    ensures { (features : WasmFeatures) (value : T) (before written : List ℕ) (w : Writes (T.grammar features) value before written)
        (result : Result T Error) (old new : Reader) (after : List ℕ) → rest old ≡ w.text ++ after →
        Reads (T.grammar features) result old new → ReadsAgain value after result old new }
{}

/// Reads the value that `written` was appended for.
///
/// Fails with `OutOfMemory` only.
pub fn read_back<'a, T: Read<'a>>(
    alloc: Global,
    features: WasmFeatures,
    value: &T,
    written: &'a [u8],
) -> Result<T>
    requires { Writes (T.grammar features) value.now [] written.now }
    ensures same { IfOk result (λ again. again ≡ value.now) }
    ensures memory { IfErr result (λ e. e.message ≡ message.OutOfMemory) }
{
    let mut reader = BinaryReader::new_features(written, 0, features);
    match T::read_from(alloc, &mut reader) {
        Ok(again) => Ok(again),
        Err(e) => Err(e),
    }
}
