//! The SIMD operators without immediates, by subopcode. Written by tools/lists.py from tools/operators.tsv.
ghost use Rattle.std.specs.Prelude.{◌≡◌, ◌<◌, ◌≤◌, [], true, Some, map};
ghost use Rattle.wasm_decode_opcodes.specs.Entries.{entry_at, simd_entries};
ghost use Rattle.wasm_decode_opcodes.specs.Entry.{free};
ghost use Rattle.wasm_decode_groups.specs.WithoutImmediates.{IsSimdWithoutImmediates, is_without_immediates};

use crate::arm::{Maker, Makes, SimdHigh, SimdLow};
use wasm_instr_simd::SimdOperator;

/// For each subopcode after the prefix byte 0xfd, whether an operator without immediates has it.
static WITHOUT_IMMEDIATES: [bool; 276] = [
    false, false, false, false, false, false, false, false, false, false, false, false, false,
    false, true, true, true, true, true, true, true, false, false, false, false, false, false,
    false, false, false, false, false, false, false, false, true, true, true, true, true, true,
    true, true, true, true, true, true, true, true, true, true, true, true, true, true, true, true,
    true, true, true, true, true, true, true, true, true, true, true, true, true, true, true, true,
    true, true, true, true, true, true, true, true, true, true, true, false, false, false, false,
    false, false, false, false, false, false, true, true, true, true, true, true, true, true, true,
    true, true, true, true, true, true, true, true, true, true, true, true, true, true, true, true,
    true, true, true, true, true, true, true, true, true, true, true, true, true, true, true, true,
    true, true, true, true, true, true, true, true, true, true, true, true, true, true, true, true,
    true, true, true, false, true, true, true, true, true, true, true, false, true, true, false,
    false, true, true, true, true, true, true, true, true, false, false, true, false, false, false,
    true, true, true, true, true, true, false, true, true, true, true, true, true, false, true,
    true, false, false, true, true, true, true, true, true, true, true, false, false, true, false,
    false, false, true, true, true, true, true, true, true, true, true, true, true, true, true,
    false, true, true, true, true, true, true, true, true, true, true, true, false, true, true,
    true, true, true, true, true, true, true, true, true, true, true, true, true, true, true, true,
    true, true, true, true, true, true, true, true, true, true, true, true, true, true, true, true,
    true, true, true,
];

/// Returns the element of the table for a subopcode, and `false` after its end.
#[inline(always)]
fn is_marked(marks: &[bool; 276], code: u32) -> bool
    requires { marks.now ≡ map is_without_immediates simd_entries }
    ensures { result ≡ is_without_immediates (entry_at (Some 0xfd) code) }
{
    let place = code as usize;
    if place >= marks.len() {
        return false;
    }
    marks[place]
}

/// Returns whether an operator without immediates has this subopcode after the prefix byte 0xfd.
#[inline(always)]
pub fn has_no_immediates(code: u32) -> bool
    ensures exact { result ≡ is_without_immediates (entry_at (Some 0xfd) code) }
    ensures without { result ≡ true → entry_at (Some 0xfd) code ≡ free [] }
{
    is_marked(&WITHOUT_IMMEDIATES, code)
}

/// Returns the SIMD operator without immediates that has this subopcode, which is below 0x80.
#[inline(always)]
pub fn simd_low_without_immediates(code: u32) -> SimdOperator
    requires without { entry_at (Some 0xfd) code ≡ free [] }
    requires half { code < 0x80 }
    ensures { IsSimdWithoutImmediates code result }
{
    <Maker as Makes<SimdLow, ()>>::make(code, ())
}

/// Returns the SIMD operator without immediates that has this subopcode, which is at least 0x80.
#[inline(always)]
pub fn simd_high_without_immediates(code: u32) -> SimdOperator
    requires without { entry_at (Some 0xfd) code ≡ free [] }
    requires half { 0x80 ≤ code }
    ensures { IsSimdWithoutImmediates code result }
{
    <Maker as Makes<SimdHigh, ()>>::make(code, ())
}
