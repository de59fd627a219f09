//! Written by tools/lists.py from tools/operators.tsv.
ghost use Rattle.wasm_instr.specs.declared.operator.Operator.{Operator};
ghost use Rattle.wasm_instr_ops.specs.declared.numeric.NumericOperator.{NumericOperator};

use crate::route::ToOwn;
use crate::routes::Routes;
use crate::visitor::Visitor;
use wasm_instr::Operator;
use wasm_instr_ops::NumericOperator;

/// Visits of the numeric operators with a one-byte opcode, 0x45 to 0xc4. Specification: Numeric
/// Instructions. By default they call `visit_any`. A visitor that overrides visits names
/// `OwnNumeric` in its `Visits`.
pub trait VisitNumeric: Visitor<Visits: Routes<Numeric: ToOwn>> {
    #[inline(always)]
    fn visit_i32_eqz(&mut self) -> Self::Output
        ensures { Self.visits self.old (Operator.Numeric NumericOperator.I32Eqz) result self.new }
    {
        self.visit_any(Operator::Numeric(NumericOperator::I32Eqz))
    }

    #[inline(always)]
    fn visit_i32_eq(&mut self) -> Self::Output
        ensures { Self.visits self.old (Operator.Numeric NumericOperator.I32Eq) result self.new }
    {
        self.visit_any(Operator::Numeric(NumericOperator::I32Eq))
    }

    #[inline(always)]
    fn visit_i32_ne(&mut self) -> Self::Output
        ensures { Self.visits self.old (Operator.Numeric NumericOperator.I32Ne) result self.new }
    {
        self.visit_any(Operator::Numeric(NumericOperator::I32Ne))
    }

    #[inline(always)]
    fn visit_i32_lt_s(&mut self) -> Self::Output
        ensures { Self.visits self.old (Operator.Numeric NumericOperator.I32LtS) result self.new }
    {
        self.visit_any(Operator::Numeric(NumericOperator::I32LtS))
    }

    #[inline(always)]
    fn visit_i32_lt_u(&mut self) -> Self::Output
        ensures { Self.visits self.old (Operator.Numeric NumericOperator.I32LtU) result self.new }
    {
        self.visit_any(Operator::Numeric(NumericOperator::I32LtU))
    }

    #[inline(always)]
    fn visit_i32_gt_s(&mut self) -> Self::Output
        ensures { Self.visits self.old (Operator.Numeric NumericOperator.I32GtS) result self.new }
    {
        self.visit_any(Operator::Numeric(NumericOperator::I32GtS))
    }

    #[inline(always)]
    fn visit_i32_gt_u(&mut self) -> Self::Output
        ensures { Self.visits self.old (Operator.Numeric NumericOperator.I32GtU) result self.new }
    {
        self.visit_any(Operator::Numeric(NumericOperator::I32GtU))
    }

    #[inline(always)]
    fn visit_i32_le_s(&mut self) -> Self::Output
        ensures { Self.visits self.old (Operator.Numeric NumericOperator.I32LeS) result self.new }
    {
        self.visit_any(Operator::Numeric(NumericOperator::I32LeS))
    }

    #[inline(always)]
    fn visit_i32_le_u(&mut self) -> Self::Output
        ensures { Self.visits self.old (Operator.Numeric NumericOperator.I32LeU) result self.new }
    {
        self.visit_any(Operator::Numeric(NumericOperator::I32LeU))
    }

    #[inline(always)]
    fn visit_i32_ge_s(&mut self) -> Self::Output
        ensures { Self.visits self.old (Operator.Numeric NumericOperator.I32GeS) result self.new }
    {
        self.visit_any(Operator::Numeric(NumericOperator::I32GeS))
    }

    #[inline(always)]
    fn visit_i32_ge_u(&mut self) -> Self::Output
        ensures { Self.visits self.old (Operator.Numeric NumericOperator.I32GeU) result self.new }
    {
        self.visit_any(Operator::Numeric(NumericOperator::I32GeU))
    }

    #[inline(always)]
    fn visit_i64_eqz(&mut self) -> Self::Output
        ensures { Self.visits self.old (Operator.Numeric NumericOperator.I64Eqz) result self.new }
    {
        self.visit_any(Operator::Numeric(NumericOperator::I64Eqz))
    }

    #[inline(always)]
    fn visit_i64_eq(&mut self) -> Self::Output
        ensures { Self.visits self.old (Operator.Numeric NumericOperator.I64Eq) result self.new }
    {
        self.visit_any(Operator::Numeric(NumericOperator::I64Eq))
    }

    #[inline(always)]
    fn visit_i64_ne(&mut self) -> Self::Output
        ensures { Self.visits self.old (Operator.Numeric NumericOperator.I64Ne) result self.new }
    {
        self.visit_any(Operator::Numeric(NumericOperator::I64Ne))
    }

    #[inline(always)]
    fn visit_i64_lt_s(&mut self) -> Self::Output
        ensures { Self.visits self.old (Operator.Numeric NumericOperator.I64LtS) result self.new }
    {
        self.visit_any(Operator::Numeric(NumericOperator::I64LtS))
    }

    #[inline(always)]
    fn visit_i64_lt_u(&mut self) -> Self::Output
        ensures { Self.visits self.old (Operator.Numeric NumericOperator.I64LtU) result self.new }
    {
        self.visit_any(Operator::Numeric(NumericOperator::I64LtU))
    }

    #[inline(always)]
    fn visit_i64_gt_s(&mut self) -> Self::Output
        ensures { Self.visits self.old (Operator.Numeric NumericOperator.I64GtS) result self.new }
    {
        self.visit_any(Operator::Numeric(NumericOperator::I64GtS))
    }

    #[inline(always)]
    fn visit_i64_gt_u(&mut self) -> Self::Output
        ensures { Self.visits self.old (Operator.Numeric NumericOperator.I64GtU) result self.new }
    {
        self.visit_any(Operator::Numeric(NumericOperator::I64GtU))
    }

    #[inline(always)]
    fn visit_i64_le_s(&mut self) -> Self::Output
        ensures { Self.visits self.old (Operator.Numeric NumericOperator.I64LeS) result self.new }
    {
        self.visit_any(Operator::Numeric(NumericOperator::I64LeS))
    }

    #[inline(always)]
    fn visit_i64_le_u(&mut self) -> Self::Output
        ensures { Self.visits self.old (Operator.Numeric NumericOperator.I64LeU) result self.new }
    {
        self.visit_any(Operator::Numeric(NumericOperator::I64LeU))
    }

    #[inline(always)]
    fn visit_i64_ge_s(&mut self) -> Self::Output
        ensures { Self.visits self.old (Operator.Numeric NumericOperator.I64GeS) result self.new }
    {
        self.visit_any(Operator::Numeric(NumericOperator::I64GeS))
    }

    #[inline(always)]
    fn visit_i64_ge_u(&mut self) -> Self::Output
        ensures { Self.visits self.old (Operator.Numeric NumericOperator.I64GeU) result self.new }
    {
        self.visit_any(Operator::Numeric(NumericOperator::I64GeU))
    }

    #[inline(always)]
    fn visit_f32_eq(&mut self) -> Self::Output
        ensures { Self.visits self.old (Operator.Numeric NumericOperator.F32Eq) result self.new }
    {
        self.visit_any(Operator::Numeric(NumericOperator::F32Eq))
    }

    #[inline(always)]
    fn visit_f32_ne(&mut self) -> Self::Output
        ensures { Self.visits self.old (Operator.Numeric NumericOperator.F32Ne) result self.new }
    {
        self.visit_any(Operator::Numeric(NumericOperator::F32Ne))
    }

    #[inline(always)]
    fn visit_f32_lt(&mut self) -> Self::Output
        ensures { Self.visits self.old (Operator.Numeric NumericOperator.F32Lt) result self.new }
    {
        self.visit_any(Operator::Numeric(NumericOperator::F32Lt))
    }

    #[inline(always)]
    fn visit_f32_gt(&mut self) -> Self::Output
        ensures { Self.visits self.old (Operator.Numeric NumericOperator.F32Gt) result self.new }
    {
        self.visit_any(Operator::Numeric(NumericOperator::F32Gt))
    }

    #[inline(always)]
    fn visit_f32_le(&mut self) -> Self::Output
        ensures { Self.visits self.old (Operator.Numeric NumericOperator.F32Le) result self.new }
    {
        self.visit_any(Operator::Numeric(NumericOperator::F32Le))
    }

    #[inline(always)]
    fn visit_f32_ge(&mut self) -> Self::Output
        ensures { Self.visits self.old (Operator.Numeric NumericOperator.F32Ge) result self.new }
    {
        self.visit_any(Operator::Numeric(NumericOperator::F32Ge))
    }

    #[inline(always)]
    fn visit_f64_eq(&mut self) -> Self::Output
        ensures { Self.visits self.old (Operator.Numeric NumericOperator.F64Eq) result self.new }
    {
        self.visit_any(Operator::Numeric(NumericOperator::F64Eq))
    }

    #[inline(always)]
    fn visit_f64_ne(&mut self) -> Self::Output
        ensures { Self.visits self.old (Operator.Numeric NumericOperator.F64Ne) result self.new }
    {
        self.visit_any(Operator::Numeric(NumericOperator::F64Ne))
    }

    #[inline(always)]
    fn visit_f64_lt(&mut self) -> Self::Output
        ensures { Self.visits self.old (Operator.Numeric NumericOperator.F64Lt) result self.new }
    {
        self.visit_any(Operator::Numeric(NumericOperator::F64Lt))
    }

    #[inline(always)]
    fn visit_f64_gt(&mut self) -> Self::Output
        ensures { Self.visits self.old (Operator.Numeric NumericOperator.F64Gt) result self.new }
    {
        self.visit_any(Operator::Numeric(NumericOperator::F64Gt))
    }

    #[inline(always)]
    fn visit_f64_le(&mut self) -> Self::Output
        ensures { Self.visits self.old (Operator.Numeric NumericOperator.F64Le) result self.new }
    {
        self.visit_any(Operator::Numeric(NumericOperator::F64Le))
    }

    #[inline(always)]
    fn visit_f64_ge(&mut self) -> Self::Output
        ensures { Self.visits self.old (Operator.Numeric NumericOperator.F64Ge) result self.new }
    {
        self.visit_any(Operator::Numeric(NumericOperator::F64Ge))
    }

    #[inline(always)]
    fn visit_i32_clz(&mut self) -> Self::Output
        ensures { Self.visits self.old (Operator.Numeric NumericOperator.I32Clz) result self.new }
    {
        self.visit_any(Operator::Numeric(NumericOperator::I32Clz))
    }

    #[inline(always)]
    fn visit_i32_ctz(&mut self) -> Self::Output
        ensures { Self.visits self.old (Operator.Numeric NumericOperator.I32Ctz) result self.new }
    {
        self.visit_any(Operator::Numeric(NumericOperator::I32Ctz))
    }

    #[inline(always)]
    fn visit_i32_popcnt(&mut self) -> Self::Output
        ensures { Self.visits self.old (Operator.Numeric NumericOperator.I32Popcnt) result self.new }
    {
        self.visit_any(Operator::Numeric(NumericOperator::I32Popcnt))
    }

    #[inline(always)]
    fn visit_i32_add(&mut self) -> Self::Output
        ensures { Self.visits self.old (Operator.Numeric NumericOperator.I32Add) result self.new }
    {
        self.visit_any(Operator::Numeric(NumericOperator::I32Add))
    }

    #[inline(always)]
    fn visit_i32_sub(&mut self) -> Self::Output
        ensures { Self.visits self.old (Operator.Numeric NumericOperator.I32Sub) result self.new }
    {
        self.visit_any(Operator::Numeric(NumericOperator::I32Sub))
    }

    #[inline(always)]
    fn visit_i32_mul(&mut self) -> Self::Output
        ensures { Self.visits self.old (Operator.Numeric NumericOperator.I32Mul) result self.new }
    {
        self.visit_any(Operator::Numeric(NumericOperator::I32Mul))
    }

    #[inline(always)]
    fn visit_i32_div_s(&mut self) -> Self::Output
        ensures { Self.visits self.old (Operator.Numeric NumericOperator.I32DivS) result self.new }
    {
        self.visit_any(Operator::Numeric(NumericOperator::I32DivS))
    }

    #[inline(always)]
    fn visit_i32_div_u(&mut self) -> Self::Output
        ensures { Self.visits self.old (Operator.Numeric NumericOperator.I32DivU) result self.new }
    {
        self.visit_any(Operator::Numeric(NumericOperator::I32DivU))
    }

    #[inline(always)]
    fn visit_i32_rem_s(&mut self) -> Self::Output
        ensures { Self.visits self.old (Operator.Numeric NumericOperator.I32RemS) result self.new }
    {
        self.visit_any(Operator::Numeric(NumericOperator::I32RemS))
    }

    #[inline(always)]
    fn visit_i32_rem_u(&mut self) -> Self::Output
        ensures { Self.visits self.old (Operator.Numeric NumericOperator.I32RemU) result self.new }
    {
        self.visit_any(Operator::Numeric(NumericOperator::I32RemU))
    }

    #[inline(always)]
    fn visit_i32_and(&mut self) -> Self::Output
        ensures { Self.visits self.old (Operator.Numeric NumericOperator.I32And) result self.new }
    {
        self.visit_any(Operator::Numeric(NumericOperator::I32And))
    }

    #[inline(always)]
    fn visit_i32_or(&mut self) -> Self::Output
        ensures { Self.visits self.old (Operator.Numeric NumericOperator.I32Or) result self.new }
    {
        self.visit_any(Operator::Numeric(NumericOperator::I32Or))
    }

    #[inline(always)]
    fn visit_i32_xor(&mut self) -> Self::Output
        ensures { Self.visits self.old (Operator.Numeric NumericOperator.I32Xor) result self.new }
    {
        self.visit_any(Operator::Numeric(NumericOperator::I32Xor))
    }

    #[inline(always)]
    fn visit_i32_shl(&mut self) -> Self::Output
        ensures { Self.visits self.old (Operator.Numeric NumericOperator.I32Shl) result self.new }
    {
        self.visit_any(Operator::Numeric(NumericOperator::I32Shl))
    }

    #[inline(always)]
    fn visit_i32_shr_s(&mut self) -> Self::Output
        ensures { Self.visits self.old (Operator.Numeric NumericOperator.I32ShrS) result self.new }
    {
        self.visit_any(Operator::Numeric(NumericOperator::I32ShrS))
    }

    #[inline(always)]
    fn visit_i32_shr_u(&mut self) -> Self::Output
        ensures { Self.visits self.old (Operator.Numeric NumericOperator.I32ShrU) result self.new }
    {
        self.visit_any(Operator::Numeric(NumericOperator::I32ShrU))
    }

    #[inline(always)]
    fn visit_i32_rotl(&mut self) -> Self::Output
        ensures { Self.visits self.old (Operator.Numeric NumericOperator.I32Rotl) result self.new }
    {
        self.visit_any(Operator::Numeric(NumericOperator::I32Rotl))
    }

    #[inline(always)]
    fn visit_i32_rotr(&mut self) -> Self::Output
        ensures { Self.visits self.old (Operator.Numeric NumericOperator.I32Rotr) result self.new }
    {
        self.visit_any(Operator::Numeric(NumericOperator::I32Rotr))
    }

    #[inline(always)]
    fn visit_i64_clz(&mut self) -> Self::Output
        ensures { Self.visits self.old (Operator.Numeric NumericOperator.I64Clz) result self.new }
    {
        self.visit_any(Operator::Numeric(NumericOperator::I64Clz))
    }

    #[inline(always)]
    fn visit_i64_ctz(&mut self) -> Self::Output
        ensures { Self.visits self.old (Operator.Numeric NumericOperator.I64Ctz) result self.new }
    {
        self.visit_any(Operator::Numeric(NumericOperator::I64Ctz))
    }

    #[inline(always)]
    fn visit_i64_popcnt(&mut self) -> Self::Output
        ensures { Self.visits self.old (Operator.Numeric NumericOperator.I64Popcnt) result self.new }
    {
        self.visit_any(Operator::Numeric(NumericOperator::I64Popcnt))
    }

    #[inline(always)]
    fn visit_i64_add(&mut self) -> Self::Output
        ensures { Self.visits self.old (Operator.Numeric NumericOperator.I64Add) result self.new }
    {
        self.visit_any(Operator::Numeric(NumericOperator::I64Add))
    }

    #[inline(always)]
    fn visit_i64_sub(&mut self) -> Self::Output
        ensures { Self.visits self.old (Operator.Numeric NumericOperator.I64Sub) result self.new }
    {
        self.visit_any(Operator::Numeric(NumericOperator::I64Sub))
    }

    #[inline(always)]
    fn visit_i64_mul(&mut self) -> Self::Output
        ensures { Self.visits self.old (Operator.Numeric NumericOperator.I64Mul) result self.new }
    {
        self.visit_any(Operator::Numeric(NumericOperator::I64Mul))
    }

    #[inline(always)]
    fn visit_i64_div_s(&mut self) -> Self::Output
        ensures { Self.visits self.old (Operator.Numeric NumericOperator.I64DivS) result self.new }
    {
        self.visit_any(Operator::Numeric(NumericOperator::I64DivS))
    }

    #[inline(always)]
    fn visit_i64_div_u(&mut self) -> Self::Output
        ensures { Self.visits self.old (Operator.Numeric NumericOperator.I64DivU) result self.new }
    {
        self.visit_any(Operator::Numeric(NumericOperator::I64DivU))
    }

    #[inline(always)]
    fn visit_i64_rem_s(&mut self) -> Self::Output
        ensures { Self.visits self.old (Operator.Numeric NumericOperator.I64RemS) result self.new }
    {
        self.visit_any(Operator::Numeric(NumericOperator::I64RemS))
    }

    #[inline(always)]
    fn visit_i64_rem_u(&mut self) -> Self::Output
        ensures { Self.visits self.old (Operator.Numeric NumericOperator.I64RemU) result self.new }
    {
        self.visit_any(Operator::Numeric(NumericOperator::I64RemU))
    }

    #[inline(always)]
    fn visit_i64_and(&mut self) -> Self::Output
        ensures { Self.visits self.old (Operator.Numeric NumericOperator.I64And) result self.new }
    {
        self.visit_any(Operator::Numeric(NumericOperator::I64And))
    }

    #[inline(always)]
    fn visit_i64_or(&mut self) -> Self::Output
        ensures { Self.visits self.old (Operator.Numeric NumericOperator.I64Or) result self.new }
    {
        self.visit_any(Operator::Numeric(NumericOperator::I64Or))
    }

    #[inline(always)]
    fn visit_i64_xor(&mut self) -> Self::Output
        ensures { Self.visits self.old (Operator.Numeric NumericOperator.I64Xor) result self.new }
    {
        self.visit_any(Operator::Numeric(NumericOperator::I64Xor))
    }

    #[inline(always)]
    fn visit_i64_shl(&mut self) -> Self::Output
        ensures { Self.visits self.old (Operator.Numeric NumericOperator.I64Shl) result self.new }
    {
        self.visit_any(Operator::Numeric(NumericOperator::I64Shl))
    }

    #[inline(always)]
    fn visit_i64_shr_s(&mut self) -> Self::Output
        ensures { Self.visits self.old (Operator.Numeric NumericOperator.I64ShrS) result self.new }
    {
        self.visit_any(Operator::Numeric(NumericOperator::I64ShrS))
    }

    #[inline(always)]
    fn visit_i64_shr_u(&mut self) -> Self::Output
        ensures { Self.visits self.old (Operator.Numeric NumericOperator.I64ShrU) result self.new }
    {
        self.visit_any(Operator::Numeric(NumericOperator::I64ShrU))
    }

    #[inline(always)]
    fn visit_i64_rotl(&mut self) -> Self::Output
        ensures { Self.visits self.old (Operator.Numeric NumericOperator.I64Rotl) result self.new }
    {
        self.visit_any(Operator::Numeric(NumericOperator::I64Rotl))
    }

    #[inline(always)]
    fn visit_i64_rotr(&mut self) -> Self::Output
        ensures { Self.visits self.old (Operator.Numeric NumericOperator.I64Rotr) result self.new }
    {
        self.visit_any(Operator::Numeric(NumericOperator::I64Rotr))
    }

    #[inline(always)]
    fn visit_f32_abs(&mut self) -> Self::Output
        ensures { Self.visits self.old (Operator.Numeric NumericOperator.F32Abs) result self.new }
    {
        self.visit_any(Operator::Numeric(NumericOperator::F32Abs))
    }

    #[inline(always)]
    fn visit_f32_neg(&mut self) -> Self::Output
        ensures { Self.visits self.old (Operator.Numeric NumericOperator.F32Neg) result self.new }
    {
        self.visit_any(Operator::Numeric(NumericOperator::F32Neg))
    }

    #[inline(always)]
    fn visit_f32_ceil(&mut self) -> Self::Output
        ensures { Self.visits self.old (Operator.Numeric NumericOperator.F32Ceil) result self.new }
    {
        self.visit_any(Operator::Numeric(NumericOperator::F32Ceil))
    }

    #[inline(always)]
    fn visit_f32_floor(&mut self) -> Self::Output
        ensures { Self.visits self.old (Operator.Numeric NumericOperator.F32Floor) result self.new }
    {
        self.visit_any(Operator::Numeric(NumericOperator::F32Floor))
    }

    #[inline(always)]
    fn visit_f32_trunc(&mut self) -> Self::Output
        ensures { Self.visits self.old (Operator.Numeric NumericOperator.F32Trunc) result self.new }
    {
        self.visit_any(Operator::Numeric(NumericOperator::F32Trunc))
    }

    #[inline(always)]
    fn visit_f32_nearest(&mut self) -> Self::Output
        ensures { Self.visits self.old (Operator.Numeric NumericOperator.F32Nearest) result self.new }
    {
        self.visit_any(Operator::Numeric(NumericOperator::F32Nearest))
    }

    #[inline(always)]
    fn visit_f32_sqrt(&mut self) -> Self::Output
        ensures { Self.visits self.old (Operator.Numeric NumericOperator.F32Sqrt) result self.new }
    {
        self.visit_any(Operator::Numeric(NumericOperator::F32Sqrt))
    }

    #[inline(always)]
    fn visit_f32_add(&mut self) -> Self::Output
        ensures { Self.visits self.old (Operator.Numeric NumericOperator.F32Add) result self.new }
    {
        self.visit_any(Operator::Numeric(NumericOperator::F32Add))
    }

    #[inline(always)]
    fn visit_f32_sub(&mut self) -> Self::Output
        ensures { Self.visits self.old (Operator.Numeric NumericOperator.F32Sub) result self.new }
    {
        self.visit_any(Operator::Numeric(NumericOperator::F32Sub))
    }

    #[inline(always)]
    fn visit_f32_mul(&mut self) -> Self::Output
        ensures { Self.visits self.old (Operator.Numeric NumericOperator.F32Mul) result self.new }
    {
        self.visit_any(Operator::Numeric(NumericOperator::F32Mul))
    }

    #[inline(always)]
    fn visit_f32_div(&mut self) -> Self::Output
        ensures { Self.visits self.old (Operator.Numeric NumericOperator.F32Div) result self.new }
    {
        self.visit_any(Operator::Numeric(NumericOperator::F32Div))
    }

    #[inline(always)]
    fn visit_f32_min(&mut self) -> Self::Output
        ensures { Self.visits self.old (Operator.Numeric NumericOperator.F32Min) result self.new }
    {
        self.visit_any(Operator::Numeric(NumericOperator::F32Min))
    }

    #[inline(always)]
    fn visit_f32_max(&mut self) -> Self::Output
        ensures { Self.visits self.old (Operator.Numeric NumericOperator.F32Max) result self.new }
    {
        self.visit_any(Operator::Numeric(NumericOperator::F32Max))
    }

    #[inline(always)]
    fn visit_f32_copysign(&mut self) -> Self::Output
        ensures { Self.visits self.old (Operator.Numeric NumericOperator.F32Copysign) result self.new }
    {
        self.visit_any(Operator::Numeric(NumericOperator::F32Copysign))
    }

    #[inline(always)]
    fn visit_f64_abs(&mut self) -> Self::Output
        ensures { Self.visits self.old (Operator.Numeric NumericOperator.F64Abs) result self.new }
    {
        self.visit_any(Operator::Numeric(NumericOperator::F64Abs))
    }

    #[inline(always)]
    fn visit_f64_neg(&mut self) -> Self::Output
        ensures { Self.visits self.old (Operator.Numeric NumericOperator.F64Neg) result self.new }
    {
        self.visit_any(Operator::Numeric(NumericOperator::F64Neg))
    }

    #[inline(always)]
    fn visit_f64_ceil(&mut self) -> Self::Output
        ensures { Self.visits self.old (Operator.Numeric NumericOperator.F64Ceil) result self.new }
    {
        self.visit_any(Operator::Numeric(NumericOperator::F64Ceil))
    }

    #[inline(always)]
    fn visit_f64_floor(&mut self) -> Self::Output
        ensures { Self.visits self.old (Operator.Numeric NumericOperator.F64Floor) result self.new }
    {
        self.visit_any(Operator::Numeric(NumericOperator::F64Floor))
    }

    #[inline(always)]
    fn visit_f64_trunc(&mut self) -> Self::Output
        ensures { Self.visits self.old (Operator.Numeric NumericOperator.F64Trunc) result self.new }
    {
        self.visit_any(Operator::Numeric(NumericOperator::F64Trunc))
    }

    #[inline(always)]
    fn visit_f64_nearest(&mut self) -> Self::Output
        ensures { Self.visits self.old (Operator.Numeric NumericOperator.F64Nearest) result self.new }
    {
        self.visit_any(Operator::Numeric(NumericOperator::F64Nearest))
    }

    #[inline(always)]
    fn visit_f64_sqrt(&mut self) -> Self::Output
        ensures { Self.visits self.old (Operator.Numeric NumericOperator.F64Sqrt) result self.new }
    {
        self.visit_any(Operator::Numeric(NumericOperator::F64Sqrt))
    }

    #[inline(always)]
    fn visit_f64_add(&mut self) -> Self::Output
        ensures { Self.visits self.old (Operator.Numeric NumericOperator.F64Add) result self.new }
    {
        self.visit_any(Operator::Numeric(NumericOperator::F64Add))
    }

    #[inline(always)]
    fn visit_f64_sub(&mut self) -> Self::Output
        ensures { Self.visits self.old (Operator.Numeric NumericOperator.F64Sub) result self.new }
    {
        self.visit_any(Operator::Numeric(NumericOperator::F64Sub))
    }

    #[inline(always)]
    fn visit_f64_mul(&mut self) -> Self::Output
        ensures { Self.visits self.old (Operator.Numeric NumericOperator.F64Mul) result self.new }
    {
        self.visit_any(Operator::Numeric(NumericOperator::F64Mul))
    }

    #[inline(always)]
    fn visit_f64_div(&mut self) -> Self::Output
        ensures { Self.visits self.old (Operator.Numeric NumericOperator.F64Div) result self.new }
    {
        self.visit_any(Operator::Numeric(NumericOperator::F64Div))
    }

    #[inline(always)]
    fn visit_f64_min(&mut self) -> Self::Output
        ensures { Self.visits self.old (Operator.Numeric NumericOperator.F64Min) result self.new }
    {
        self.visit_any(Operator::Numeric(NumericOperator::F64Min))
    }

    #[inline(always)]
    fn visit_f64_max(&mut self) -> Self::Output
        ensures { Self.visits self.old (Operator.Numeric NumericOperator.F64Max) result self.new }
    {
        self.visit_any(Operator::Numeric(NumericOperator::F64Max))
    }

    #[inline(always)]
    fn visit_f64_copysign(&mut self) -> Self::Output
        ensures { Self.visits self.old (Operator.Numeric NumericOperator.F64Copysign) result self.new }
    {
        self.visit_any(Operator::Numeric(NumericOperator::F64Copysign))
    }

    #[inline(always)]
    fn visit_i32_wrap_i64(&mut self) -> Self::Output
        ensures { Self.visits self.old (Operator.Numeric NumericOperator.I32WrapI64) result self.new }
    {
        self.visit_any(Operator::Numeric(NumericOperator::I32WrapI64))
    }

    #[inline(always)]
    fn visit_i32_trunc_f32_s(&mut self) -> Self::Output
        ensures { Self.visits self.old (Operator.Numeric NumericOperator.I32TruncF32S) result self.new }
    {
        self.visit_any(Operator::Numeric(NumericOperator::I32TruncF32S))
    }

    #[inline(always)]
    fn visit_i32_trunc_f32_u(&mut self) -> Self::Output
        ensures { Self.visits self.old (Operator.Numeric NumericOperator.I32TruncF32U) result self.new }
    {
        self.visit_any(Operator::Numeric(NumericOperator::I32TruncF32U))
    }

    #[inline(always)]
    fn visit_i32_trunc_f64_s(&mut self) -> Self::Output
        ensures { Self.visits self.old (Operator.Numeric NumericOperator.I32TruncF64S) result self.new }
    {
        self.visit_any(Operator::Numeric(NumericOperator::I32TruncF64S))
    }

    #[inline(always)]
    fn visit_i32_trunc_f64_u(&mut self) -> Self::Output
        ensures { Self.visits self.old (Operator.Numeric NumericOperator.I32TruncF64U) result self.new }
    {
        self.visit_any(Operator::Numeric(NumericOperator::I32TruncF64U))
    }

    #[inline(always)]
    fn visit_i64_extend_i32_s(&mut self) -> Self::Output
        ensures { Self.visits self.old (Operator.Numeric NumericOperator.I64ExtendI32S) result self.new }
    {
        self.visit_any(Operator::Numeric(NumericOperator::I64ExtendI32S))
    }

    #[inline(always)]
    fn visit_i64_extend_i32_u(&mut self) -> Self::Output
        ensures { Self.visits self.old (Operator.Numeric NumericOperator.I64ExtendI32U) result self.new }
    {
        self.visit_any(Operator::Numeric(NumericOperator::I64ExtendI32U))
    }

    #[inline(always)]
    fn visit_i64_trunc_f32_s(&mut self) -> Self::Output
        ensures { Self.visits self.old (Operator.Numeric NumericOperator.I64TruncF32S) result self.new }
    {
        self.visit_any(Operator::Numeric(NumericOperator::I64TruncF32S))
    }

    #[inline(always)]
    fn visit_i64_trunc_f32_u(&mut self) -> Self::Output
        ensures { Self.visits self.old (Operator.Numeric NumericOperator.I64TruncF32U) result self.new }
    {
        self.visit_any(Operator::Numeric(NumericOperator::I64TruncF32U))
    }

    #[inline(always)]
    fn visit_i64_trunc_f64_s(&mut self) -> Self::Output
        ensures { Self.visits self.old (Operator.Numeric NumericOperator.I64TruncF64S) result self.new }
    {
        self.visit_any(Operator::Numeric(NumericOperator::I64TruncF64S))
    }

    #[inline(always)]
    fn visit_i64_trunc_f64_u(&mut self) -> Self::Output
        ensures { Self.visits self.old (Operator.Numeric NumericOperator.I64TruncF64U) result self.new }
    {
        self.visit_any(Operator::Numeric(NumericOperator::I64TruncF64U))
    }

    #[inline(always)]
    fn visit_f32_convert_i32_s(&mut self) -> Self::Output
        ensures { Self.visits self.old (Operator.Numeric NumericOperator.F32ConvertI32S) result self.new }
    {
        self.visit_any(Operator::Numeric(NumericOperator::F32ConvertI32S))
    }

    #[inline(always)]
    fn visit_f32_convert_i32_u(&mut self) -> Self::Output
        ensures { Self.visits self.old (Operator.Numeric NumericOperator.F32ConvertI32U) result self.new }
    {
        self.visit_any(Operator::Numeric(NumericOperator::F32ConvertI32U))
    }

    #[inline(always)]
    fn visit_f32_convert_i64_s(&mut self) -> Self::Output
        ensures { Self.visits self.old (Operator.Numeric NumericOperator.F32ConvertI64S) result self.new }
    {
        self.visit_any(Operator::Numeric(NumericOperator::F32ConvertI64S))
    }

    #[inline(always)]
    fn visit_f32_convert_i64_u(&mut self) -> Self::Output
        ensures { Self.visits self.old (Operator.Numeric NumericOperator.F32ConvertI64U) result self.new }
    {
        self.visit_any(Operator::Numeric(NumericOperator::F32ConvertI64U))
    }

    #[inline(always)]
    fn visit_f32_demote_f64(&mut self) -> Self::Output
        ensures { Self.visits self.old (Operator.Numeric NumericOperator.F32DemoteF64) result self.new }
    {
        self.visit_any(Operator::Numeric(NumericOperator::F32DemoteF64))
    }

    #[inline(always)]
    fn visit_f64_convert_i32_s(&mut self) -> Self::Output
        ensures { Self.visits self.old (Operator.Numeric NumericOperator.F64ConvertI32S) result self.new }
    {
        self.visit_any(Operator::Numeric(NumericOperator::F64ConvertI32S))
    }

    #[inline(always)]
    fn visit_f64_convert_i32_u(&mut self) -> Self::Output
        ensures { Self.visits self.old (Operator.Numeric NumericOperator.F64ConvertI32U) result self.new }
    {
        self.visit_any(Operator::Numeric(NumericOperator::F64ConvertI32U))
    }

    #[inline(always)]
    fn visit_f64_convert_i64_s(&mut self) -> Self::Output
        ensures { Self.visits self.old (Operator.Numeric NumericOperator.F64ConvertI64S) result self.new }
    {
        self.visit_any(Operator::Numeric(NumericOperator::F64ConvertI64S))
    }

    #[inline(always)]
    fn visit_f64_convert_i64_u(&mut self) -> Self::Output
        ensures { Self.visits self.old (Operator.Numeric NumericOperator.F64ConvertI64U) result self.new }
    {
        self.visit_any(Operator::Numeric(NumericOperator::F64ConvertI64U))
    }

    #[inline(always)]
    fn visit_f64_promote_f32(&mut self) -> Self::Output
        ensures { Self.visits self.old (Operator.Numeric NumericOperator.F64PromoteF32) result self.new }
    {
        self.visit_any(Operator::Numeric(NumericOperator::F64PromoteF32))
    }

    #[inline(always)]
    fn visit_i32_reinterpret_f32(&mut self) -> Self::Output
        ensures { Self.visits self.old (Operator.Numeric NumericOperator.I32ReinterpretF32) result self.new }
    {
        self.visit_any(Operator::Numeric(NumericOperator::I32ReinterpretF32))
    }

    #[inline(always)]
    fn visit_i64_reinterpret_f64(&mut self) -> Self::Output
        ensures { Self.visits self.old (Operator.Numeric NumericOperator.I64ReinterpretF64) result self.new }
    {
        self.visit_any(Operator::Numeric(NumericOperator::I64ReinterpretF64))
    }

    #[inline(always)]
    fn visit_f32_reinterpret_i32(&mut self) -> Self::Output
        ensures { Self.visits self.old (Operator.Numeric NumericOperator.F32ReinterpretI32) result self.new }
    {
        self.visit_any(Operator::Numeric(NumericOperator::F32ReinterpretI32))
    }

    #[inline(always)]
    fn visit_f64_reinterpret_i64(&mut self) -> Self::Output
        ensures { Self.visits self.old (Operator.Numeric NumericOperator.F64ReinterpretI64) result self.new }
    {
        self.visit_any(Operator::Numeric(NumericOperator::F64ReinterpretI64))
    }

    #[inline(always)]
    fn visit_i32_extend8_s(&mut self) -> Self::Output
        ensures { Self.visits self.old (Operator.Numeric NumericOperator.I32Extend8S) result self.new }
    {
        self.visit_any(Operator::Numeric(NumericOperator::I32Extend8S))
    }

    #[inline(always)]
    fn visit_i32_extend16_s(&mut self) -> Self::Output
        ensures { Self.visits self.old (Operator.Numeric NumericOperator.I32Extend16S) result self.new }
    {
        self.visit_any(Operator::Numeric(NumericOperator::I32Extend16S))
    }

    #[inline(always)]
    fn visit_i64_extend8_s(&mut self) -> Self::Output
        ensures { Self.visits self.old (Operator.Numeric NumericOperator.I64Extend8S) result self.new }
    {
        self.visit_any(Operator::Numeric(NumericOperator::I64Extend8S))
    }

    #[inline(always)]
    fn visit_i64_extend16_s(&mut self) -> Self::Output
        ensures { Self.visits self.old (Operator.Numeric NumericOperator.I64Extend16S) result self.new }
    {
        self.visit_any(Operator::Numeric(NumericOperator::I64Extend16S))
    }

    #[inline(always)]
    fn visit_i64_extend32_s(&mut self) -> Self::Output
        ensures { Self.visits self.old (Operator.Numeric NumericOperator.I64Extend32S) result self.new }
    {
        self.visit_any(Operator::Numeric(NumericOperator::I64Extend32S))
    }
}
