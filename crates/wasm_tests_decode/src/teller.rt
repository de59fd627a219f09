use crate::own::Call;
use std::alloc::{AllocError, Global};
use wasm_below::{BinaryReader, Result};
use wasm_grammar::FrameKind;
use wasm_imm::BrTable;
use wasm_instr::Operator;
use wasm_instr_ops::{AtomicOperator, GcOperator, MiscOperator, NumericOperator};
use wasm_instr_simd::SimdOperator;
use wasm_tests_texts::write_operator;
use wasm_visit::{
    CallAtomic, CallGc, CallMisc, CallNumeric, CallOneByte, CallSimdHigh, CallSimdLow, RouteAtomic,
    RouteGc, RouteMisc, RouteNumeric, RouteOneByte, RouteSimdHigh, RouteSimdLow, VisitOperator,
};
use wasm_visit_groups::{
    ByAny, OnceAtomic, OnceGc, OnceMisc, OnceNumeric, OnceOneByte, OnceSimdHigh, OnceSimdLow, Own,
    Visitor,
};

/// Writes the operators that it visits, and returns which call it received, or that the text could
/// not be stored.
///
/// It overrides all visits. Ten functions pass it on, so its routes are `Once`, whose calls compare
/// the visits once. These calls are the routes `Own`, so each visit tests both.
#[derive(Drop)]
pub struct Teller {
    pub text: String,
}

impl Teller {
    pub fn new(alloc: Global) -> Teller {
        Teller {
            text: String::new(alloc),
        }
    }

    pub fn own(&mut self, op: Operator<'static>) -> std::result::Result<Call, AllocError> {
        self.written(&op, Call::Own)
    }

    pub fn own_numeric(&mut self, op: NumericOperator) -> std::result::Result<Call, AllocError> {
        self.own(Operator::Numeric(op))
    }

    pub fn own_gc(&mut self, op: GcOperator) -> std::result::Result<Call, AllocError> {
        self.own(Operator::Gc(op))
    }

    pub fn own_misc(&mut self, op: MiscOperator) -> std::result::Result<Call, AllocError> {
        self.own(Operator::Misc(op))
    }

    pub fn own_simd(&mut self, op: SimdOperator) -> std::result::Result<Call, AllocError> {
        self.own(Operator::Simd(op))
    }

    pub fn own_atomic(&mut self, op: AtomicOperator) -> std::result::Result<Call, AllocError> {
        self.own(Operator::Atomic(op))
    }

    fn written(&mut self, op: &Operator<'_>, call: Call) -> std::result::Result<Call, AllocError> {
        write_operator(&mut self.text, op)?;
        Ok(call)
    }
}

impl Visitor for Teller {
    type Output = std::result::Result<Call, AllocError>;

    type Visits = OnceOneByte<
        OnceNumeric<OnceGc<OnceMisc<OnceAtomic<OnceSimdLow<OnceSimdHigh<ByAny>>>>>>,
    >;

    ghost visits = { λ before op outcome after. Unit {0} };

    fn visit_any(&mut self, op: Operator<'static>) -> Self::Output {
        self.written(&op, Call::Any)
    }
}

impl CallOneByte for Teller {
    fn dispatch_one_byte(&mut self, op: Operator<'_>) -> Self::Output {
        <Own as RouteOneByte<Teller>>::visit(self, op)
    }

    fn decode_one_byte(
        &mut self,
        alloc: Global,
        reader: &mut BinaryReader<'_>,
        start: usize,
        frame: FrameKind,
        code: u8,
    ) -> Result<Self::Output> {
        <Own as RouteOneByte<Teller>>::decode(alloc, self, reader, start, frame, code)
    }

    fn decode_below_0x20(
        &mut self,
        alloc: Global,
        reader: &mut BinaryReader<'_>,
        start: usize,
        frame: FrameKind,
        code: u8,
    ) -> Result<Self::Output> {
        <Own as RouteOneByte<Teller>>::decode_below_0x20(alloc, self, reader, start, frame, code)
    }
}

impl CallNumeric for Teller {
    fn dispatch_numeric(&mut self, op: NumericOperator) -> Self::Output {
        <Own as RouteNumeric<Teller>>::visit(self, op)
    }

    fn decode_numeric(&mut self, code: u8) -> Self::Output {
        <Own as RouteNumeric<Teller>>::decode(self, code)
    }
}

impl CallGc for Teller {
    fn dispatch_gc(&mut self, op: GcOperator) -> Self::Output {
        <Own as RouteGc<Teller>>::visit(self, op)
    }

    fn decode_gc(
        &mut self,
        reader: &mut BinaryReader<'_>,
        start: usize,
        code: u32,
    ) -> Result<Self::Output> {
        <Own as RouteGc<Teller>>::decode(self, reader, start, code)
    }
}

impl CallMisc for Teller {
    fn dispatch_misc(&mut self, op: MiscOperator) -> Self::Output {
        <Own as RouteMisc<Teller>>::visit(self, op)
    }

    fn decode_misc(
        &mut self,
        reader: &mut BinaryReader<'_>,
        start: usize,
        code: u32,
    ) -> Result<Self::Output> {
        <Own as RouteMisc<Teller>>::decode(self, reader, start, code)
    }
}

impl CallAtomic for Teller {
    fn dispatch_atomic(&mut self, op: AtomicOperator) -> Self::Output {
        <Own as RouteAtomic<Teller>>::visit(self, op)
    }

    fn decode_atomic(
        &mut self,
        reader: &mut BinaryReader<'_>,
        start: usize,
        code: u32,
    ) -> Result<Self::Output> {
        <Own as RouteAtomic<Teller>>::decode(self, reader, start, code)
    }
}

impl CallSimdLow for Teller {
    fn dispatch_simd_low(&mut self, op: SimdOperator) -> Self::Output {
        <Own as RouteSimdLow<Teller>>::visit(self, op)
    }

    fn decode_simd_low(
        &mut self,
        reader: &mut BinaryReader<'_>,
        start: usize,
        code: u32,
    ) -> Result<Self::Output> {
        <Own as RouteSimdLow<Teller>>::decode(self, reader, start, code)
    }
}

impl CallSimdHigh for Teller {
    fn dispatch_simd_high(&mut self, op: SimdOperator) -> Self::Output {
        <Own as RouteSimdHigh<Teller>>::visit(self, op)
    }

    fn decode_simd_high(
        &mut self,
        reader: &mut BinaryReader<'_>,
        start: usize,
        code: u32,
    ) -> Result<Self::Output> {
        <Own as RouteSimdHigh<Teller>>::decode(self, reader, start, code)
    }
}

impl<'a> VisitOperator<'a> for Teller {
    fn visit_br_table(&mut self, targets: BrTable<'a>) -> Self::Output {
        self.written(&Operator::BrTable { targets }, Call::Table)
    }
}
