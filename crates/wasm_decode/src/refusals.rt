ghost use Rattle.std.specs.Prelude.{◌≡◌, ◌≤◌, None, Err};
ghost use Rattle.wasm_below.specs.Source.{at_position, offset_of, end_of};
ghost use Rattle.wasm_grammar.specs.declared.frame_kind.FrameKind.{FrameKind};
ghost use Rattle.wasm_decode_opcodes.specs.Allowed.{EncodesScalar};
ghost use Rattle.wasm_decode_opcodes.specs.Decoding.{IsAfterCode, DecodesOperator};
ghost use Rattle.wasm_decode_opcodes.specs.OperatorFaults.{ScalarOperatorFault};

use wasm_below::{BinaryReader, Error, Message};

#[inline(always)]
pub fn no_frame(reader: &BinaryReader<'_>) -> Error
    ensures message { result.message ≡ Message.OperatorsRemaining }
    ensures offset { result.offset ≡ offset_of reader.now }
    ensures within { offset_of reader.now ≤ end_of reader.now }
{
    let _ = reader.peek();
    Error::new(Message::OperatorsRemaining, reader.original_position())
}

/// Goes back to `start`, and returns the error of a visitor without SIMD operators at the byte
/// 0xfd.
#[inline(always)]
pub fn unexpected_simd(reader: &mut BinaryReader<'_>, start: usize) -> Error
    requires { IsAfterCode start None 0xfd reader.old }
    ensures { (frame : FrameKind) → DecodesOperator (EncodesScalar reader.old.features frame)
        (ScalarOperatorFault reader.old.features frame)
        (Err result) (at_position reader.old start) reader.new }
{
    reader.refuse(start, Message::UnexpectedSimd)
}
