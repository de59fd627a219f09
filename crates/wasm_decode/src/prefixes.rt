//! Decoders that start after a prefix byte.
ghost use Rattle.std.specs.Prelude.{◌≢◌, ◌≤◌, Some, None};

use crate::after::subopcode;
use crate::out_of_line::AfterPrefix;
use wasm_below::{BinaryReader, Result};
use wasm_decode_opcodes::unknown_opcode;
use wasm_visit::{GroupAtomic, GroupGc, GroupMisc, GroupSimdHigh, GroupSimdLow};

/// From here on, a byte is a prefix byte or 0xff, which is no opcode. One comparison separates these
/// from the opcodes.
pub const FIRST_PREFIX: u8 = 0xfb;

/// The decoder after the prefix byte 0xfb.
#[derive(Drop)]
pub struct Gc;

impl<V: GroupGc> AfterPrefix<V> for Gc {
    ghost prefix = { λ it. None };

    ghost code = { λ it. 0xfb };

    #[inline(always)]
    fn visit(self, v: &mut V, reader: &mut BinaryReader<'_>, start: usize) -> Result<V::Output> {
        match subopcode(reader, start, 0xfb) {
            Ok(code) => v.decode_gc(reader, start, code),
            Err(e) => Err(e),
        }
    }
}

/// The decoder after the prefix bytes 0xfc and 0xfe, and after 0xff, which is no opcode.
#[derive(Drop)]
pub struct OtherPrefix {
    pub byte: u8,
}

impl<V: GroupMisc + GroupAtomic> AfterPrefix<V> for OtherPrefix {
    ghost prefix = { λ it. None };

    ghost code = { λ it. it.byte };

    ghost codes = { λ code. (0xfc ≤ code) × (code ≢ 0xfd) };

    #[inline(always)]
    fn visit(self, v: &mut V, reader: &mut BinaryReader<'_>, start: usize) -> Result<V::Output> {
        match self.byte {
            0xfc => match subopcode(reader, start, 0xfc) {
                Ok(code) => v.decode_misc(reader, start, code),
                Err(e) => Err(e),
            },
            0xfe => match subopcode(reader, start, 0xfe) {
                Ok(code) => v.decode_atomic(reader, start, code),
                Err(e) => Err(e),
            },
            byte => Err(unknown_opcode(reader, start, byte)),
        }
    }
}

/// The decoder after the prefix byte 0xfd and this subopcode.
#[derive(Drop)]
pub struct Simd {
    pub code: u32,
}

impl<V: GroupSimdLow + GroupSimdHigh> AfterPrefix<V> for Simd {
    ghost prefix = { λ it. Some 0xfd };

    ghost code = { λ it. it.code };

    #[inline(always)]
    fn visit(self, v: &mut V, reader: &mut BinaryReader<'_>, start: usize) -> Result<V::Output> {
        if self.code < 0x80 {
            v.decode_simd_low(reader, start, self.code)
        } else {
            v.decode_simd_high(reader, start, self.code)
        }
    }
}
