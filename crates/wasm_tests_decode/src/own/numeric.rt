//! Overridden visits of the numeric operators. Written by tools/lists.py from tools/operators.tsv.
use crate::teller::Teller;
use wasm_instr_ops::NumericOperator;
use wasm_visit_groups::{VisitNumeric, Visitor};

impl VisitNumeric for Teller {
    fn visit_i32_eqz(&mut self) -> Self::Output {
        self.own_numeric(NumericOperator::I32Eqz)
    }

    fn visit_i32_eq(&mut self) -> Self::Output {
        self.own_numeric(NumericOperator::I32Eq)
    }

    fn visit_i32_ne(&mut self) -> Self::Output {
        self.own_numeric(NumericOperator::I32Ne)
    }

    fn visit_i32_lt_s(&mut self) -> Self::Output {
        self.own_numeric(NumericOperator::I32LtS)
    }

    fn visit_i32_lt_u(&mut self) -> Self::Output {
        self.own_numeric(NumericOperator::I32LtU)
    }

    fn visit_i32_gt_s(&mut self) -> Self::Output {
        self.own_numeric(NumericOperator::I32GtS)
    }

    fn visit_i32_gt_u(&mut self) -> Self::Output {
        self.own_numeric(NumericOperator::I32GtU)
    }

    fn visit_i32_le_s(&mut self) -> Self::Output {
        self.own_numeric(NumericOperator::I32LeS)
    }

    fn visit_i32_le_u(&mut self) -> Self::Output {
        self.own_numeric(NumericOperator::I32LeU)
    }

    fn visit_i32_ge_s(&mut self) -> Self::Output {
        self.own_numeric(NumericOperator::I32GeS)
    }

    fn visit_i32_ge_u(&mut self) -> Self::Output {
        self.own_numeric(NumericOperator::I32GeU)
    }

    fn visit_i64_eqz(&mut self) -> Self::Output {
        self.own_numeric(NumericOperator::I64Eqz)
    }

    fn visit_i64_eq(&mut self) -> Self::Output {
        self.own_numeric(NumericOperator::I64Eq)
    }

    fn visit_i64_ne(&mut self) -> Self::Output {
        self.own_numeric(NumericOperator::I64Ne)
    }

    fn visit_i64_lt_s(&mut self) -> Self::Output {
        self.own_numeric(NumericOperator::I64LtS)
    }

    fn visit_i64_lt_u(&mut self) -> Self::Output {
        self.own_numeric(NumericOperator::I64LtU)
    }

    fn visit_i64_gt_s(&mut self) -> Self::Output {
        self.own_numeric(NumericOperator::I64GtS)
    }

    fn visit_i64_gt_u(&mut self) -> Self::Output {
        self.own_numeric(NumericOperator::I64GtU)
    }

    fn visit_i64_le_s(&mut self) -> Self::Output {
        self.own_numeric(NumericOperator::I64LeS)
    }

    fn visit_i64_le_u(&mut self) -> Self::Output {
        self.own_numeric(NumericOperator::I64LeU)
    }

    fn visit_i64_ge_s(&mut self) -> Self::Output {
        self.own_numeric(NumericOperator::I64GeS)
    }

    fn visit_i64_ge_u(&mut self) -> Self::Output {
        self.own_numeric(NumericOperator::I64GeU)
    }

    fn visit_f32_eq(&mut self) -> Self::Output {
        self.own_numeric(NumericOperator::F32Eq)
    }

    fn visit_f32_ne(&mut self) -> Self::Output {
        self.own_numeric(NumericOperator::F32Ne)
    }

    fn visit_f32_lt(&mut self) -> Self::Output {
        self.own_numeric(NumericOperator::F32Lt)
    }

    fn visit_f32_gt(&mut self) -> Self::Output {
        self.own_numeric(NumericOperator::F32Gt)
    }

    fn visit_f32_le(&mut self) -> Self::Output {
        self.own_numeric(NumericOperator::F32Le)
    }

    fn visit_f32_ge(&mut self) -> Self::Output {
        self.own_numeric(NumericOperator::F32Ge)
    }

    fn visit_f64_eq(&mut self) -> Self::Output {
        self.own_numeric(NumericOperator::F64Eq)
    }

    fn visit_f64_ne(&mut self) -> Self::Output {
        self.own_numeric(NumericOperator::F64Ne)
    }

    fn visit_f64_lt(&mut self) -> Self::Output {
        self.own_numeric(NumericOperator::F64Lt)
    }

    fn visit_f64_gt(&mut self) -> Self::Output {
        self.own_numeric(NumericOperator::F64Gt)
    }

    fn visit_f64_le(&mut self) -> Self::Output {
        self.own_numeric(NumericOperator::F64Le)
    }

    fn visit_f64_ge(&mut self) -> Self::Output {
        self.own_numeric(NumericOperator::F64Ge)
    }

    fn visit_i32_clz(&mut self) -> Self::Output {
        self.own_numeric(NumericOperator::I32Clz)
    }

    fn visit_i32_ctz(&mut self) -> Self::Output {
        self.own_numeric(NumericOperator::I32Ctz)
    }

    fn visit_i32_popcnt(&mut self) -> Self::Output {
        self.own_numeric(NumericOperator::I32Popcnt)
    }

    fn visit_i32_add(&mut self) -> Self::Output {
        self.own_numeric(NumericOperator::I32Add)
    }

    fn visit_i32_sub(&mut self) -> Self::Output {
        self.own_numeric(NumericOperator::I32Sub)
    }

    fn visit_i32_mul(&mut self) -> Self::Output {
        self.own_numeric(NumericOperator::I32Mul)
    }

    fn visit_i32_div_s(&mut self) -> Self::Output {
        self.own_numeric(NumericOperator::I32DivS)
    }

    fn visit_i32_div_u(&mut self) -> Self::Output {
        self.own_numeric(NumericOperator::I32DivU)
    }

    fn visit_i32_rem_s(&mut self) -> Self::Output {
        self.own_numeric(NumericOperator::I32RemS)
    }

    fn visit_i32_rem_u(&mut self) -> Self::Output {
        self.own_numeric(NumericOperator::I32RemU)
    }

    fn visit_i32_and(&mut self) -> Self::Output {
        self.own_numeric(NumericOperator::I32And)
    }

    fn visit_i32_or(&mut self) -> Self::Output {
        self.own_numeric(NumericOperator::I32Or)
    }

    fn visit_i32_xor(&mut self) -> Self::Output {
        self.own_numeric(NumericOperator::I32Xor)
    }

    fn visit_i32_shl(&mut self) -> Self::Output {
        self.own_numeric(NumericOperator::I32Shl)
    }

    fn visit_i32_shr_s(&mut self) -> Self::Output {
        self.own_numeric(NumericOperator::I32ShrS)
    }

    fn visit_i32_shr_u(&mut self) -> Self::Output {
        self.own_numeric(NumericOperator::I32ShrU)
    }

    fn visit_i32_rotl(&mut self) -> Self::Output {
        self.own_numeric(NumericOperator::I32Rotl)
    }

    fn visit_i32_rotr(&mut self) -> Self::Output {
        self.own_numeric(NumericOperator::I32Rotr)
    }

    fn visit_i64_clz(&mut self) -> Self::Output {
        self.own_numeric(NumericOperator::I64Clz)
    }

    fn visit_i64_ctz(&mut self) -> Self::Output {
        self.own_numeric(NumericOperator::I64Ctz)
    }

    fn visit_i64_popcnt(&mut self) -> Self::Output {
        self.own_numeric(NumericOperator::I64Popcnt)
    }

    fn visit_i64_add(&mut self) -> Self::Output {
        self.own_numeric(NumericOperator::I64Add)
    }

    fn visit_i64_sub(&mut self) -> Self::Output {
        self.own_numeric(NumericOperator::I64Sub)
    }

    fn visit_i64_mul(&mut self) -> Self::Output {
        self.own_numeric(NumericOperator::I64Mul)
    }

    fn visit_i64_div_s(&mut self) -> Self::Output {
        self.own_numeric(NumericOperator::I64DivS)
    }

    fn visit_i64_div_u(&mut self) -> Self::Output {
        self.own_numeric(NumericOperator::I64DivU)
    }

    fn visit_i64_rem_s(&mut self) -> Self::Output {
        self.own_numeric(NumericOperator::I64RemS)
    }

    fn visit_i64_rem_u(&mut self) -> Self::Output {
        self.own_numeric(NumericOperator::I64RemU)
    }

    fn visit_i64_and(&mut self) -> Self::Output {
        self.own_numeric(NumericOperator::I64And)
    }

    fn visit_i64_or(&mut self) -> Self::Output {
        self.own_numeric(NumericOperator::I64Or)
    }

    fn visit_i64_xor(&mut self) -> Self::Output {
        self.own_numeric(NumericOperator::I64Xor)
    }

    fn visit_i64_shl(&mut self) -> Self::Output {
        self.own_numeric(NumericOperator::I64Shl)
    }

    fn visit_i64_shr_s(&mut self) -> Self::Output {
        self.own_numeric(NumericOperator::I64ShrS)
    }

    fn visit_i64_shr_u(&mut self) -> Self::Output {
        self.own_numeric(NumericOperator::I64ShrU)
    }

    fn visit_i64_rotl(&mut self) -> Self::Output {
        self.own_numeric(NumericOperator::I64Rotl)
    }

    fn visit_i64_rotr(&mut self) -> Self::Output {
        self.own_numeric(NumericOperator::I64Rotr)
    }

    fn visit_f32_abs(&mut self) -> Self::Output {
        self.own_numeric(NumericOperator::F32Abs)
    }

    fn visit_f32_neg(&mut self) -> Self::Output {
        self.own_numeric(NumericOperator::F32Neg)
    }

    fn visit_f32_ceil(&mut self) -> Self::Output {
        self.own_numeric(NumericOperator::F32Ceil)
    }

    fn visit_f32_floor(&mut self) -> Self::Output {
        self.own_numeric(NumericOperator::F32Floor)
    }

    fn visit_f32_trunc(&mut self) -> Self::Output {
        self.own_numeric(NumericOperator::F32Trunc)
    }

    fn visit_f32_nearest(&mut self) -> Self::Output {
        self.own_numeric(NumericOperator::F32Nearest)
    }

    fn visit_f32_sqrt(&mut self) -> Self::Output {
        self.own_numeric(NumericOperator::F32Sqrt)
    }

    fn visit_f32_add(&mut self) -> Self::Output {
        self.own_numeric(NumericOperator::F32Add)
    }

    fn visit_f32_sub(&mut self) -> Self::Output {
        self.own_numeric(NumericOperator::F32Sub)
    }

    fn visit_f32_mul(&mut self) -> Self::Output {
        self.own_numeric(NumericOperator::F32Mul)
    }

    fn visit_f32_div(&mut self) -> Self::Output {
        self.own_numeric(NumericOperator::F32Div)
    }

    fn visit_f32_min(&mut self) -> Self::Output {
        self.own_numeric(NumericOperator::F32Min)
    }

    fn visit_f32_max(&mut self) -> Self::Output {
        self.own_numeric(NumericOperator::F32Max)
    }

    fn visit_f32_copysign(&mut self) -> Self::Output {
        self.own_numeric(NumericOperator::F32Copysign)
    }

    fn visit_f64_abs(&mut self) -> Self::Output {
        self.own_numeric(NumericOperator::F64Abs)
    }

    fn visit_f64_neg(&mut self) -> Self::Output {
        self.own_numeric(NumericOperator::F64Neg)
    }

    fn visit_f64_ceil(&mut self) -> Self::Output {
        self.own_numeric(NumericOperator::F64Ceil)
    }

    fn visit_f64_floor(&mut self) -> Self::Output {
        self.own_numeric(NumericOperator::F64Floor)
    }

    fn visit_f64_trunc(&mut self) -> Self::Output {
        self.own_numeric(NumericOperator::F64Trunc)
    }

    fn visit_f64_nearest(&mut self) -> Self::Output {
        self.own_numeric(NumericOperator::F64Nearest)
    }

    fn visit_f64_sqrt(&mut self) -> Self::Output {
        self.own_numeric(NumericOperator::F64Sqrt)
    }

    fn visit_f64_add(&mut self) -> Self::Output {
        self.own_numeric(NumericOperator::F64Add)
    }

    fn visit_f64_sub(&mut self) -> Self::Output {
        self.own_numeric(NumericOperator::F64Sub)
    }

    fn visit_f64_mul(&mut self) -> Self::Output {
        self.own_numeric(NumericOperator::F64Mul)
    }

    fn visit_f64_div(&mut self) -> Self::Output {
        self.own_numeric(NumericOperator::F64Div)
    }

    fn visit_f64_min(&mut self) -> Self::Output {
        self.own_numeric(NumericOperator::F64Min)
    }

    fn visit_f64_max(&mut self) -> Self::Output {
        self.own_numeric(NumericOperator::F64Max)
    }

    fn visit_f64_copysign(&mut self) -> Self::Output {
        self.own_numeric(NumericOperator::F64Copysign)
    }

    fn visit_i32_wrap_i64(&mut self) -> Self::Output {
        self.own_numeric(NumericOperator::I32WrapI64)
    }

    fn visit_i32_trunc_f32_s(&mut self) -> Self::Output {
        self.own_numeric(NumericOperator::I32TruncF32S)
    }

    fn visit_i32_trunc_f32_u(&mut self) -> Self::Output {
        self.own_numeric(NumericOperator::I32TruncF32U)
    }

    fn visit_i32_trunc_f64_s(&mut self) -> Self::Output {
        self.own_numeric(NumericOperator::I32TruncF64S)
    }

    fn visit_i32_trunc_f64_u(&mut self) -> Self::Output {
        self.own_numeric(NumericOperator::I32TruncF64U)
    }

    fn visit_i64_extend_i32_s(&mut self) -> Self::Output {
        self.own_numeric(NumericOperator::I64ExtendI32S)
    }

    fn visit_i64_extend_i32_u(&mut self) -> Self::Output {
        self.own_numeric(NumericOperator::I64ExtendI32U)
    }

    fn visit_i64_trunc_f32_s(&mut self) -> Self::Output {
        self.own_numeric(NumericOperator::I64TruncF32S)
    }

    fn visit_i64_trunc_f32_u(&mut self) -> Self::Output {
        self.own_numeric(NumericOperator::I64TruncF32U)
    }

    fn visit_i64_trunc_f64_s(&mut self) -> Self::Output {
        self.own_numeric(NumericOperator::I64TruncF64S)
    }

    fn visit_i64_trunc_f64_u(&mut self) -> Self::Output {
        self.own_numeric(NumericOperator::I64TruncF64U)
    }

    fn visit_f32_convert_i32_s(&mut self) -> Self::Output {
        self.own_numeric(NumericOperator::F32ConvertI32S)
    }

    fn visit_f32_convert_i32_u(&mut self) -> Self::Output {
        self.own_numeric(NumericOperator::F32ConvertI32U)
    }

    fn visit_f32_convert_i64_s(&mut self) -> Self::Output {
        self.own_numeric(NumericOperator::F32ConvertI64S)
    }

    fn visit_f32_convert_i64_u(&mut self) -> Self::Output {
        self.own_numeric(NumericOperator::F32ConvertI64U)
    }

    fn visit_f32_demote_f64(&mut self) -> Self::Output {
        self.own_numeric(NumericOperator::F32DemoteF64)
    }

    fn visit_f64_convert_i32_s(&mut self) -> Self::Output {
        self.own_numeric(NumericOperator::F64ConvertI32S)
    }

    fn visit_f64_convert_i32_u(&mut self) -> Self::Output {
        self.own_numeric(NumericOperator::F64ConvertI32U)
    }

    fn visit_f64_convert_i64_s(&mut self) -> Self::Output {
        self.own_numeric(NumericOperator::F64ConvertI64S)
    }

    fn visit_f64_convert_i64_u(&mut self) -> Self::Output {
        self.own_numeric(NumericOperator::F64ConvertI64U)
    }

    fn visit_f64_promote_f32(&mut self) -> Self::Output {
        self.own_numeric(NumericOperator::F64PromoteF32)
    }

    fn visit_i32_reinterpret_f32(&mut self) -> Self::Output {
        self.own_numeric(NumericOperator::I32ReinterpretF32)
    }

    fn visit_i64_reinterpret_f64(&mut self) -> Self::Output {
        self.own_numeric(NumericOperator::I64ReinterpretF64)
    }

    fn visit_f32_reinterpret_i32(&mut self) -> Self::Output {
        self.own_numeric(NumericOperator::F32ReinterpretI32)
    }

    fn visit_f64_reinterpret_i64(&mut self) -> Self::Output {
        self.own_numeric(NumericOperator::F64ReinterpretI64)
    }

    fn visit_i32_extend8_s(&mut self) -> Self::Output {
        self.own_numeric(NumericOperator::I32Extend8S)
    }

    fn visit_i32_extend16_s(&mut self) -> Self::Output {
        self.own_numeric(NumericOperator::I32Extend16S)
    }

    fn visit_i64_extend8_s(&mut self) -> Self::Output {
        self.own_numeric(NumericOperator::I64Extend8S)
    }

    fn visit_i64_extend16_s(&mut self) -> Self::Output {
        self.own_numeric(NumericOperator::I64Extend16S)
    }

    fn visit_i64_extend32_s(&mut self) -> Self::Output {
        self.own_numeric(NumericOperator::I64Extend32S)
    }
}
