ghost use Rattle.std.specs.Prelude.{ℕ};
ghost use Rattle.wasm_below.specs.declared.features.WasmFeatures.{WasmFeatures};
ghost use Rattle.wasm_below.specs.Fault.{DeterminesRefusal};
ghost use Rattle.wasm_below.specs.Sequence.{PrefixCode};
ghost use Rattle.wasm_grammars.specs.Grammar.{Grammar, Encodes, Fault};
ghost use Rattle.wasm_grammars.specs.Reading.{Reads};

use std::alloc::Global;
use wasm_below::{BinaryReader, Result};

/// A type that is read by a grammar, which may depend on the reader's features.
pub trait Read<'a>: Drop + Sized {
    ghost grammar: { WasmFeatures → Grammar Self };

    /// Reads the value that a prefix of the rest encodes.
    fn read_from(alloc: Global, reader: &mut BinaryReader<'a>) -> Result<Self>
        ensures { Reads (grammar reader.old.features) result reader.old reader.new };
}

/// States that no encoding is a proper prefix of another, each has one value, and an error's
/// message and offset are determined.
pub fn grammar_laws<'a, T: Read<'a>>()
    ensures code { (features : WasmFeatures) (place : ℕ) → PrefixCode (Encodes (T.grammar features) place) }
    ensures refusals { (features : WasmFeatures) (start : ℕ) → DeterminesRefusal (Fault (T.grammar features) start) }
{}
