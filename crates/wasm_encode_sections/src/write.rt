ghost use Rattle.wasm_below.specs.declared.features.WasmFeatures.{WasmFeatures};
ghost use Rattle.wasm_below.specs.declared.message.Message.{Message};
ghost use Rattle.wasm_grammars.specs.Grammar.{Grammar};
ghost use Rattle.wasm_write_grammars.specs.Writing.{AppendsBy, WritesBy};

use wasm_below::{Message, WasmFeatures};

/// A type that is written by a grammar, which may depend on the features. If the type implements
/// `Read`, it is the same grammar.
pub trait Write: Sized {
    ghost grammar: { WasmFeatures → Grammar Self };

    // Why a value has no encoding under the features, and the message of the error.
    ghost reason: { WasmFeatures → Self → Message → Type 0 };

    /// Appends the shortest encoding of the value under the features.
    ///
    /// On `Err`, a part of the encoding may have been appended; `write_value` removes it.
    fn append_to(&self, features: WasmFeatures, out: &mut Vec<u8>) -> Result<(), Message>
        ensures { AppendsBy (grammar features) (reason features) self.now result out.old.items out.new.items };
}

/// Appends the shortest encoding of a value under the features. On `Err`, nothing is appended.
pub fn write_value<T: Write>(
    value: &T,
    features: WasmFeatures,
    out: &mut Vec<u8>,
) -> Result<(), Message>
    ensures { WritesBy (T.grammar features) (T.reason features) value.now result out.old.items out.new.items }
{
    let start = out.len();
    match value.append_to(features, out) {
        Ok(()) => Ok(()),
        Err(message) => {
            out.truncate(start);
            Err(message)
        }
    }
}
