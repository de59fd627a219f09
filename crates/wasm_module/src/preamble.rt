ghost use Rattle.std.specs.Prelude.{◌≡◌};
ghost use Rattle.wasm_below.specs.Source.{Reads};
ghost use Rattle.wasm_module.specs.Module.{EncodesPreamble, PreambleFault, preamble_kind};

use std::fmt;
use wasm_below::byte_laws::fixed_numbers;
use wasm_below::{BinaryReader, Result};

/// The bytes `\0asm` as a number.
const MAGIC: u32 = 0x6d73_6100;

const MODULE: u32 = 0x0000_0001;

const COMPONENT: u32 = 0x0001_000d;

/// The first eight bytes of a binary: two little-endian numbers.
#[derive(Clone, Copy, Debug, PartialEq, Eq)]
pub struct Preamble {
    /// Identifies a binary of WebAssembly.
    pub magic: u32,
    /// Identifies the sort of the binary and its version.
    pub version: u32,
}

#[derive(Clone, Copy, Debug, PartialEq, Eq)]
pub enum PreambleKind {
    /// A module of version 1.
    Module,
    /// A component, of the component model proposal.
    Component,
    OtherVersion,
    NotWasm,
}

impl Preamble {
    pub fn kind(&self) -> PreambleKind
        ensures { result ≡ preamble_kind self.now }
    {
        if self.magic != MAGIC {
            return PreambleKind::NotWasm;
        }
        if self.version == MODULE {
            return PreambleKind::Module;
        }
        if self.version == COMPONENT {
            return PreambleKind::Component;
        }
        PreambleKind::OtherVersion
    }
}

impl fmt::Display for PreambleKind {
    fn fmt<W: fmt::Write>(&self, f: &mut fmt::Formatter<W>) -> fmt::Result {
        f.write_str(match self {
            PreambleKind::Module => "a WebAssembly module",
            PreambleKind::Component => "a WebAssembly component, and no module",
            PreambleKind::OtherVersion => "WebAssembly of another version than 1",
            PreambleKind::NotWasm => "no WebAssembly: it does not begin with the bytes 00 61 73 6d",
        })
    }
}

/// Reads a preamble of any kind. Specification: Modules. Fails with `EndOfData` at the start of the
/// number that the data lacks.
pub fn read_preamble(reader: &mut BinaryReader<'_>) -> Result<Preamble>
    ensures { Reads EncodesPreamble PreambleFault result reader.old reader.new }
{
    fixed_numbers();
    let mut ahead = reader.clone();
    let magic = ahead.read_u32()?;
    let version = ahead.read_u32()?;
    *reader = ahead;
    Ok(Preamble { magic, version })
}
