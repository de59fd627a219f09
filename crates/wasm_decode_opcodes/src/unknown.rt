//! Opcodes and subopcodes that no operator has.
ghost use Rattle.std.specs.Prelude.{◌≡◌, Some, None, Err};
ghost use Rattle.wasm_grammar.specs.declared.frame_kind.FrameKind.{FrameKind};
ghost use Rattle.wasm_decode_opcodes.specs.Decoding.{IsAfterCode, DecodesOperatorAt};
ghost use Rattle.wasm_decode_opcodes.specs.Entries.{entry_at};
ghost use Rattle.wasm_decode_opcodes.specs.Entry.{prefixes, unknown};

use wasm_below::{BinaryReader, Error, Message};

/// Returns the error `IllegalOpcode` at the offset of the opcode. The reader goes back to the
/// position `start`.
#[cold]
#[inline(never)]
pub fn unknown_opcode(reader: &mut BinaryReader<'_>, start: usize, code: u8) -> Error
    requires after { IsAfterCode start None code reader.old }
    requires unknown { entry_at None code ≡ unknown }
    ensures { (frame : FrameKind) → DecodesOperatorAt frame start (Err result) reader.old reader.new }
{
    reader.refuse(start, Message::IllegalOpcode(code))
}

/// Returns the error `UnknownSubopcode` at the offset of the prefix byte. The reader goes back to
/// the position `start`.
#[cold]
#[inline(never)]
pub fn unknown_subopcode(
    reader: &mut BinaryReader<'_>,
    start: usize,
    prefix: u8,
    code: u32,
) -> Error
    requires after { IsAfterCode start (Some prefix) code reader.old }
    requires prefix { entry_at None prefix ≡ prefixes }
    requires unknown { entry_at (Some prefix) code ≡ unknown }
    ensures { (frame : FrameKind) → DecodesOperatorAt frame start (Err result) reader.old reader.new }
{
    reader.refuse(start, Message::UnknownSubopcode(prefix, code))
}
