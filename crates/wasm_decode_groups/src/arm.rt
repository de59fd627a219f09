//! What is done at a code: `arm` reads the immediates and passes them to a route.
ghost use Rattle.std.specs.Prelude.{◌≡◌, ◌≤◌, ◌<◌, ℕ, Option, Some, None};
ghost use Rattle.wasm_grammar.specs.declared.frame_kind.FrameKind.{FrameKind};
ghost use Rattle.wasm_instr.specs.declared.operator.Operator.{Operator};
ghost use Rattle.wasm_decode_opcodes.specs.Decoding.{DecodesAt, IsAfterCode, VisitsRow};
ghost use Rattle.wasm_decode_opcodes.specs.Entries.{align_at};
ghost use Rattle.wasm_decode_groups.specs.Arms.{HasArm, HasKindsAt, IsCodeAfter, IsRow};

use wasm_below::{BinaryReader, Result};
use wasm_decode_opcodes::{Immediates, Only};
use wasm_instr::Operator;
use wasm_instr_ops::{AtomicOperator, GcOperator, MiscOperator, NumericOperator};
use wasm_instr_simd::SimdOperator;
use wasm_visit_groups::{ByAny, Visitor};

/// The operators of a group of visits.
pub trait Group {
    type Operator;

    // The byte before the codes, if there is one.
    ghost prefix: { Option ℕ };

    // The codes of the group: all after its prefix byte, unless another group has the same one.
    ghost codes: { ℕ → Type 0 } = { λ code. Unit {0} };

    // What `embed` returns.
    ghost operator: { Self.Operator → Operator };

    /// Converts the operator into an `Operator`.
    fn embed(op: Self::Operator) -> Operator<'static>
        ensures { result ≡ operator op };
}

/// The numeric operators, whose opcodes are 0x45 to 0xc4.
pub struct Numeric;

impl Group for Numeric {
    type Operator = NumericOperator;

    ghost prefix = { None };

    ghost codes = { λ code. (0x45 ≤ code) × (code ≤ 0xc4) };

    ghost operator = { λ op. Operator.Numeric op };

    #[inline(always)]
    fn embed(op: NumericOperator) -> Operator<'static> {
        Operator::Numeric(op)
    }
}

/// The operators with the prefix byte 0xfb.
pub struct Gc;

impl Group for Gc {
    type Operator = GcOperator;

    ghost prefix = { Some 0xfb };

    ghost operator = { λ op. Operator.Gc op };

    #[inline(always)]
    fn embed(op: GcOperator) -> Operator<'static> {
        Operator::Gc(op)
    }
}

/// The operators with the prefix byte 0xfc.
pub struct Misc;

impl Group for Misc {
    type Operator = MiscOperator;

    ghost prefix = { Some 0xfc };

    ghost operator = { λ op. Operator.Misc op };

    #[inline(always)]
    fn embed(op: MiscOperator) -> Operator<'static> {
        Operator::Misc(op)
    }
}

/// The operators with the prefix byte 0xfe.
pub struct Atomic;

impl Group for Atomic {
    type Operator = AtomicOperator;

    ghost prefix = { Some 0xfe };

    ghost operator = { λ op. Operator.Atomic op };

    #[inline(always)]
    fn embed(op: AtomicOperator) -> Operator<'static> {
        Operator::Atomic(op)
    }
}

/// The SIMD operators whose subopcode after 0xfd is below 0x80.
pub struct SimdLow;

impl Group for SimdLow {
    type Operator = SimdOperator;

    ghost prefix = { Some 0xfd };

    ghost codes = { λ code. code < 0x80 };

    ghost operator = { λ op. Operator.Simd op };

    #[inline(always)]
    fn embed(op: SimdOperator) -> Operator<'static> {
        Operator::Simd(op)
    }
}

/// The other SIMD operators.
pub struct SimdHigh;

impl Group for SimdHigh {
    type Operator = SimdOperator;

    ghost prefix = { Some 0xfd };

    ghost codes = { λ code. 0x80 ≤ code };

    ghost operator = { λ op. Operator.Simd op };

    #[inline(always)]
    fn embed(op: SimdOperator) -> Operator<'static> {
        Operator::Simd(op)
    }
}

/// Makes the operators of a group with immediates `I`.
pub trait Makes<G: Group, I: Immediates> {
    fn make(code: u32, it: I) -> G::Operator
        requires group { G.codes code }
        requires kinds { HasKindsAt G.prefix code I.kinds }
        requires known { I.known code }
        ensures { IsRow G.prefix code (I.listed (align_at G.prefix code) it) (G.operator result) };
}

/// A route for the operators of a group with immediates `I`.
pub trait At<V: Visitor, G: Group, I: Immediates> {
    fn at(v: &mut V, code: u32, it: I) -> V::Output
        requires group { G.codes code }
        requires kinds { HasKindsAt G.prefix code I.kinds }
        requires known { I.known code }
        ensures { VisitsRow V.visits G.prefix code (I.listed (align_at G.prefix code) it) v.old result v.new };
}

/// Makes the operators of every group.
pub struct Maker;

impl<V: Visitor, G: Group, I: Immediates> At<V, G, I> for ByAny
where
    Maker: Makes<G, I>,
{
    #[inline(always)]
    fn at(v: &mut V, code: u32, it: I) -> V::Output {
        v.visit_any(G::embed(<Maker as Makes<G, I>>::make(code, it)))
    }
}

impl<G: Group, const CODE: u32, I: Immediates> Makes<G, Only<CODE, I>> for Maker
where
    Maker: Makes<G, I>,
{
    #[inline(always)]
    fn make(code: u32, it: Only<CODE, I>) -> G::Operator {
        <Maker as Makes<G, I>>::make(code, it.0)
    }
}

/// Reads the immediates after a code and passes them to `R`. `bound` is the natural alignment as an
/// exponent, or 0 without a memory argument.
///
/// `start` is the position of the operator, to which the reader goes back on an error.
#[inline(always)]
pub fn arm<V: Visitor, G: Group, I: Immediates, R: At<V, G, I>>(
    v: &mut V,
    reader: &mut BinaryReader<'_>,
    start: usize,
    code: u32,
    bound: u8,
) -> Result<V::Output>
    requires after { IsAfterCode start G.prefix code reader.old }
    requires code { IsCodeAfter G.prefix code }
    requires group { G.codes code }
    requires kinds { HasArm G.prefix code (I.kinds bound) bound }
    requires known { I.known code }
    ensures { (frame : FrameKind) → DecodesAt V.visits frame start result reader.old reader.new v.old v.new }
{
    match I::read(reader, start, bound) {
        Ok(it) => Ok(R::at(v, code, it)),
        Err(e) => {
            reader.rewind(start);
            Err(e)
        }
    }
}
