//! The operators that are decoded for a visitor: all, or all without SIMD operators. The sets differ
//! in what the prefix byte 0xfd does.
ghost use Rattle.std.specs.Prelude.{None};
ghost use Rattle.wasm_grammar.specs.declared.frame_kind.FrameKind.{FrameKind};
ghost use Rattle.wasm_decode_opcodes.specs.Decoding.{IsAfterCode};
ghost use Rattle.wasm_decode.specs.OperatorSets.{OperatorSet, with_simd, without_simd, DecodesSetAt};

use crate::after::simd_after_prefix;
use crate::refusals::unexpected_simd;
use wasm_below::{BinaryReader, Result};
use wasm_visit::{GroupSimdHigh, GroupSimdLow};
use wasm_visit_groups::Visitor;

/// A set of operators, for the visitor `V`.
pub trait OperatorSet<V: Visitor> {
    ghost set: { OperatorSet };

    /// Visits the operator after the prefix byte 0xfd at the position `start`, or fails with
    /// `UnexpectedSimd`. On an error, goes back to `start`.
    fn visit_after_0xfd(v: &mut V, reader: &mut BinaryReader<'_>, start: usize) -> Result<V::Output>
        requires { IsAfterCode start None 0xfd reader.old }
        ensures { (frame : FrameKind) → DecodesSetAt set V.visits frame start result reader.old reader.new v.old v.new };
}

/// The set of all operators.
pub struct AllOperators;

impl<V: GroupSimdLow + GroupSimdHigh> OperatorSet<V> for AllOperators {
    ghost set = { with_simd };

    #[inline(always)]
    fn visit_after_0xfd(
        v: &mut V,
        reader: &mut BinaryReader<'_>,
        start: usize,
    ) -> Result<V::Output> {
        simd_after_prefix(v, reader, start)
    }
}

/// The set of all operators except SIMD operators.
pub struct ScalarOperators;

impl<V: Visitor> OperatorSet<V> for ScalarOperators {
    ghost set = { without_simd };

    #[inline(always)]
    fn visit_after_0xfd(
        _v: &mut V,
        reader: &mut BinaryReader<'_>,
        start: usize,
    ) -> Result<V::Output> {
        Err(unexpected_simd(reader, start))
    }
}
