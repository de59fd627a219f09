//! An arm without a visitor.
ghost use Rattle.wasm_grammar.specs.declared.frame_kind.FrameKind.{FrameKind};
ghost use Rattle.wasm_decode_opcodes.specs.Decoding.{IsAfterCode};
ghost use Rattle.wasm_decode_groups.specs.Arms.{HasArm, IsCodeAfter, ReadsOperatorAt};

use crate::arm::{Group, Maker, Makes};
use wasm_below::{BinaryReader, Result};
use wasm_decode_opcodes::Immediates;

/// As `arm`, but returns the operator. In the type of its group it has fewer bytes than an
/// `Operator`, which each call would copy.
#[inline(always)]
pub fn read_arm<G: Group, I: Immediates>(
    reader: &mut BinaryReader<'_>,
    start: usize,
    code: u32,
    bound: u8,
) -> Result<G::Operator>
where
    Maker: Makes<G, I>,
    requires after { IsAfterCode start G.prefix code reader.old }
    requires code { IsCodeAfter G.prefix code }
    requires group { G.codes code }
    requires kinds { HasArm G.prefix code (I.kinds bound) bound }
    requires known { I.known code }
    ensures { (frame : FrameKind) → ReadsOperatorAt G.operator frame start result reader.old reader.new }
{
    match I::read(reader, start, bound) {
        Ok(it) => Ok(<Maker as Makes<G, I>>::make(code, it)),
        Err(e) => {
            reader.rewind(start);
            Err(e)
        }
    }
}
