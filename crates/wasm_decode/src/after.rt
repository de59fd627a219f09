//! Decodes the bytes after a prefix byte. Only SIMD operators without immediates are visited inline.
ghost use Rattle.std.specs.Prelude.{◌≡◌, [], Some, None, Err, IfOk, IfErr};
ghost use Rattle.wasm_below.specs.Source.{at_position};
ghost use Rattle.wasm_grammar.specs.declared.frame_kind.FrameKind.{FrameKind};
ghost use Rattle.wasm_decode_opcodes.specs.Decoding.{IsAfterCode, DecodesAt, DecodesOperatorAt, VisitsRow};
ghost use Rattle.wasm_decode_opcodes.specs.Entries.{entry_at};
ghost use Rattle.wasm_decode_opcodes.specs.Entry.{free, prefixes};
ghost use Rattle.wasm_decode_groups.specs.WithoutImmediates.{IsSimdWithoutImmediates};

use crate::out_of_line::visit_after_prefix;
use crate::prefixes::Simd;
use wasm_below::{BinaryReader, Result};
use wasm_instr_simd::SimdOperator;
use wasm_visit::{GroupSimdHigh, GroupSimdLow};

/// Reads the subopcode after a prefix byte at the position `start`: a u32 that may be overlong. On
/// an error, goes back to `start`.
#[inline(always)]
pub fn subopcode(reader: &mut BinaryReader<'_>, start: usize, prefix: u8) -> Result<u32>
    requires after { IsAfterCode start None prefix reader.old }
    requires prefix { entry_at None prefix ≡ prefixes }
    ensures read { IfOk result (λ code. IsAfterCode start (Some prefix) code reader.new) }
    ensures stays { IfOk result (λ code. reader.new ≡ at_position reader.old reader.new.position) }
    ensures refuses { IfErr result (λ e. (frame : FrameKind) → DecodesOperatorAt frame start (Err e) reader.old reader.new) }
{
    match reader.read_var_u32() {
        Ok(code) => Ok(code),
        Err(e) => {
            reader.rewind(start);
            Err(e)
        }
    }
}

#[inline(always)]
pub fn simd_after_prefix<V: GroupSimdLow + GroupSimdHigh>(
    v: &mut V,
    reader: &mut BinaryReader<'_>,
    start: usize,
) -> Result<V::Output>
    requires { IsAfterCode start None 0xfd reader.old }
    ensures { (frame : FrameKind) → DecodesAt V.visits frame start result reader.old reader.new v.old v.new }
{
    match subopcode(reader, start, 0xfd) {
        Ok(code) => simd_of(v, reader, start, code),
        Err(e) => Err(e),
    }
}

#[inline(always)]
fn simd_of<V: GroupSimdLow + GroupSimdHigh>(
    v: &mut V,
    reader: &mut BinaryReader<'_>,
    start: usize,
    code: u32,
) -> Result<V::Output>
    requires { IsAfterCode start (Some 0xfd) code reader.old }
    ensures { (frame : FrameKind) → DecodesAt V.visits frame start result reader.old reader.new v.old v.new }
{
    if wasm_decode_groups::has_no_immediates(code) {
        return Ok(visit_without_immediates(v, code));
    }
    visit_after_prefix(v, reader, start, Simd { code })
}

#[inline(always)]
pub fn simd_operator_without_immediates(code: u32) -> SimdOperator
    requires { entry_at (Some 0xfd) code ≡ free [] }
    ensures { IsSimdWithoutImmediates code result }
{
    match code {
        0x00..=0x7f => wasm_decode_groups::simd_low_without_immediates(code),
        _ => wasm_decode_groups::simd_high_without_immediates(code),
    }
}

#[inline(always)]
fn visit_without_immediates<V: GroupSimdLow + GroupSimdHigh>(v: &mut V, code: u32) -> V::Output
    requires { entry_at (Some 0xfd) code ≡ free [] }
    ensures { VisitsRow V.visits (Some 0xfd) code [] v.old result v.new }
{
    match code {
        0x00..=0x7f => v.dispatch_simd_low(wasm_decode_groups::simd_low_without_immediates(code)),
        _ => v.dispatch_simd_high(wasm_decode_groups::simd_high_without_immediates(code)),
    }
}
