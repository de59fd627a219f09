ghost use Rattle.std.specs.Prelude.{◌≡◌};
ghost use Rattle.wasm_check_control.specs.SetLocals.{with_set};
ghost use Rattle.wasm_check_operators.specs.Language.{rules_of};
ghost use Rattle.wasm_check.specs.Constants.{may_occur};
ghost use Rattle.wasm_check.specs.Typed.{StepsOne};

use crate::constness::may_occur;
use std::alloc::AllocError;
use wasm_check_control::ModuleContext;
use wasm_check_operators::BodyChecker;
use wasm_decode_groups as decode;
use wasm_operators::{
    BlockType, BrTable, ByAny, CallNumeric, Ieee32, Ieee64, MemArg, NumericOperator, OnceNumeric,
    Operator, OwnOneByte, VisitOneByte, VisitOperator, Visitor,
};
use wasm_visit::Made;

/// The checker as a visitor. A visit returns whether the operator has a type.
#[derive(Drop)]
pub struct TypeChecker<'m, M> {
    pub checker: BodyChecker<'m, M>,
    /// Whether the expression has to be constant.
    pub constant: bool,
    /// Whether the last operator may occur: unless the expression has to be constant, any may.
    pub may_occur: bool,
}

impl<'m, M: ModuleContext> Visitor for TypeChecker<'m, M> {
    type Output = Result<bool, AllocError>;

    type Visits = OwnOneByte<OnceNumeric<ByAny>>;

    ghost visits = { λ before op outcome after. (after.checker.operators.context ≡ before.checker.operators.context) × (after.constant ≡ before.constant)
        × (after.may_occur ≡ may_occur before.constant (M.environment before.checker.operators.context.now) op)
        × StepsOne (rules_of (M.environment before.checker.operators.context.now)) (with_set before.checker.operators.control before.checker.locals) op outcome
        (with_set after.checker.operators.control after.checker.locals) };

    fn visit_any(&mut self, op: Operator<'static>) -> Result<bool, AllocError> {
        self.may_occur = may_occur(self.constant, self.checker.operators.context, &op);
        self.checker.step(&op)
    }
}

impl<'m, M: ModuleContext> VisitOneByte for TypeChecker<'m, M> {
    #[inline(always)]
    fn visit_local_get(&mut self, local_index: u32) -> Result<bool, AllocError> {
        let op = Operator::LocalGet { local_index };
        self.may_occur = may_occur(self.constant, self.checker.operators.context, &op);
        self.checker.local_get(local_index)
    }

    #[inline(always)]
    fn visit_local_set(&mut self, local_index: u32) -> Result<bool, AllocError> {
        let op = Operator::LocalSet { local_index };
        self.may_occur = may_occur(self.constant, self.checker.operators.context, &op);
        self.checker.local_set(local_index)
    }

    #[inline(always)]
    fn visit_local_tee(&mut self, local_index: u32) -> Result<bool, AllocError> {
        let op = Operator::LocalTee { local_index };
        self.may_occur = may_occur(self.constant, self.checker.operators.context, &op);
        self.checker.local_tee(local_index)
    }

    #[inline(always)]
    fn visit_i32_const(&mut self, value: i32) -> Result<bool, AllocError> {
        let op = Operator::I32Const { value };
        self.may_occur = may_occur(self.constant, self.checker.operators.context, &op);
        self.checker.by_code(&op, 0x41)
    }

    #[inline(always)]
    fn visit_i64_const(&mut self, value: i64) -> Result<bool, AllocError> {
        let op = Operator::I64Const { value };
        self.may_occur = may_occur(self.constant, self.checker.operators.context, &op);
        self.checker.by_code(&op, 0x42)
    }

    #[inline(always)]
    fn visit_f32_const(&mut self, value: Ieee32) -> Result<bool, AllocError> {
        let op = Operator::F32Const { value };
        self.may_occur = may_occur(self.constant, self.checker.operators.context, &op);
        self.checker.by_code(&op, 0x43)
    }

    #[inline(always)]
    fn visit_f64_const(&mut self, value: Ieee64) -> Result<bool, AllocError> {
        let op = Operator::F64Const { value };
        self.may_occur = may_occur(self.constant, self.checker.operators.context, &op);
        self.checker.by_code(&op, 0x44)
    }

    #[inline(always)]
    fn visit_i32_load(&mut self, memarg: MemArg) -> Result<bool, AllocError> {
        let op = Operator::I32Load { memarg };
        self.may_occur = may_occur(self.constant, self.checker.operators.context, &op);
        self.checker.access_by_code(&memarg, &op, 0x28)
    }

    #[inline(always)]
    fn visit_i64_load(&mut self, memarg: MemArg) -> Result<bool, AllocError> {
        let op = Operator::I64Load { memarg };
        self.may_occur = may_occur(self.constant, self.checker.operators.context, &op);
        self.checker.access_by_code(&memarg, &op, 0x29)
    }

    #[inline(always)]
    fn visit_f32_load(&mut self, memarg: MemArg) -> Result<bool, AllocError> {
        let op = Operator::F32Load { memarg };
        self.may_occur = may_occur(self.constant, self.checker.operators.context, &op);
        self.checker.access_by_code(&memarg, &op, 0x2a)
    }

    #[inline(always)]
    fn visit_f64_load(&mut self, memarg: MemArg) -> Result<bool, AllocError> {
        let op = Operator::F64Load { memarg };
        self.may_occur = may_occur(self.constant, self.checker.operators.context, &op);
        self.checker.access_by_code(&memarg, &op, 0x2b)
    }

    #[inline(always)]
    fn visit_i32_load8_s(&mut self, memarg: MemArg) -> Result<bool, AllocError> {
        let op = Operator::I32Load8S { memarg };
        self.may_occur = may_occur(self.constant, self.checker.operators.context, &op);
        self.checker.access_by_code(&memarg, &op, 0x2c)
    }

    #[inline(always)]
    fn visit_i32_load8_u(&mut self, memarg: MemArg) -> Result<bool, AllocError> {
        let op = Operator::I32Load8U { memarg };
        self.may_occur = may_occur(self.constant, self.checker.operators.context, &op);
        self.checker.access_by_code(&memarg, &op, 0x2d)
    }

    #[inline(always)]
    fn visit_i32_load16_s(&mut self, memarg: MemArg) -> Result<bool, AllocError> {
        let op = Operator::I32Load16S { memarg };
        self.may_occur = may_occur(self.constant, self.checker.operators.context, &op);
        self.checker.access_by_code(&memarg, &op, 0x2e)
    }

    #[inline(always)]
    fn visit_i32_load16_u(&mut self, memarg: MemArg) -> Result<bool, AllocError> {
        let op = Operator::I32Load16U { memarg };
        self.may_occur = may_occur(self.constant, self.checker.operators.context, &op);
        self.checker.access_by_code(&memarg, &op, 0x2f)
    }

    #[inline(always)]
    fn visit_i64_load8_s(&mut self, memarg: MemArg) -> Result<bool, AllocError> {
        let op = Operator::I64Load8S { memarg };
        self.may_occur = may_occur(self.constant, self.checker.operators.context, &op);
        self.checker.access_by_code(&memarg, &op, 0x30)
    }

    #[inline(always)]
    fn visit_i64_load8_u(&mut self, memarg: MemArg) -> Result<bool, AllocError> {
        let op = Operator::I64Load8U { memarg };
        self.may_occur = may_occur(self.constant, self.checker.operators.context, &op);
        self.checker.access_by_code(&memarg, &op, 0x31)
    }

    #[inline(always)]
    fn visit_i64_load16_s(&mut self, memarg: MemArg) -> Result<bool, AllocError> {
        let op = Operator::I64Load16S { memarg };
        self.may_occur = may_occur(self.constant, self.checker.operators.context, &op);
        self.checker.access_by_code(&memarg, &op, 0x32)
    }

    #[inline(always)]
    fn visit_i64_load16_u(&mut self, memarg: MemArg) -> Result<bool, AllocError> {
        let op = Operator::I64Load16U { memarg };
        self.may_occur = may_occur(self.constant, self.checker.operators.context, &op);
        self.checker.access_by_code(&memarg, &op, 0x33)
    }

    #[inline(always)]
    fn visit_i64_load32_s(&mut self, memarg: MemArg) -> Result<bool, AllocError> {
        let op = Operator::I64Load32S { memarg };
        self.may_occur = may_occur(self.constant, self.checker.operators.context, &op);
        self.checker.access_by_code(&memarg, &op, 0x34)
    }

    #[inline(always)]
    fn visit_i64_load32_u(&mut self, memarg: MemArg) -> Result<bool, AllocError> {
        let op = Operator::I64Load32U { memarg };
        self.may_occur = may_occur(self.constant, self.checker.operators.context, &op);
        self.checker.access_by_code(&memarg, &op, 0x35)
    }

    #[inline(always)]
    fn visit_i32_store(&mut self, memarg: MemArg) -> Result<bool, AllocError> {
        let op = Operator::I32Store { memarg };
        self.may_occur = may_occur(self.constant, self.checker.operators.context, &op);
        self.checker.access_by_code(&memarg, &op, 0x36)
    }

    #[inline(always)]
    fn visit_i64_store(&mut self, memarg: MemArg) -> Result<bool, AllocError> {
        let op = Operator::I64Store { memarg };
        self.may_occur = may_occur(self.constant, self.checker.operators.context, &op);
        self.checker.access_by_code(&memarg, &op, 0x37)
    }

    #[inline(always)]
    fn visit_f32_store(&mut self, memarg: MemArg) -> Result<bool, AllocError> {
        let op = Operator::F32Store { memarg };
        self.may_occur = may_occur(self.constant, self.checker.operators.context, &op);
        self.checker.access_by_code(&memarg, &op, 0x38)
    }

    #[inline(always)]
    fn visit_f64_store(&mut self, memarg: MemArg) -> Result<bool, AllocError> {
        let op = Operator::F64Store { memarg };
        self.may_occur = may_occur(self.constant, self.checker.operators.context, &op);
        self.checker.access_by_code(&memarg, &op, 0x39)
    }

    #[inline(always)]
    fn visit_i32_store8(&mut self, memarg: MemArg) -> Result<bool, AllocError> {
        let op = Operator::I32Store8 { memarg };
        self.may_occur = may_occur(self.constant, self.checker.operators.context, &op);
        self.checker.access_by_code(&memarg, &op, 0x3a)
    }

    #[inline(always)]
    fn visit_i32_store16(&mut self, memarg: MemArg) -> Result<bool, AllocError> {
        let op = Operator::I32Store16 { memarg };
        self.may_occur = may_occur(self.constant, self.checker.operators.context, &op);
        self.checker.access_by_code(&memarg, &op, 0x3b)
    }

    #[inline(always)]
    fn visit_i64_store8(&mut self, memarg: MemArg) -> Result<bool, AllocError> {
        let op = Operator::I64Store8 { memarg };
        self.may_occur = may_occur(self.constant, self.checker.operators.context, &op);
        self.checker.access_by_code(&memarg, &op, 0x3c)
    }

    #[inline(always)]
    fn visit_i64_store16(&mut self, memarg: MemArg) -> Result<bool, AllocError> {
        let op = Operator::I64Store16 { memarg };
        self.may_occur = may_occur(self.constant, self.checker.operators.context, &op);
        self.checker.access_by_code(&memarg, &op, 0x3d)
    }

    #[inline(always)]
    fn visit_i64_store32(&mut self, memarg: MemArg) -> Result<bool, AllocError> {
        let op = Operator::I64Store32 { memarg };
        self.may_occur = may_occur(self.constant, self.checker.operators.context, &op);
        self.checker.access_by_code(&memarg, &op, 0x3e)
    }

    #[inline(always)]
    fn visit_global_get(&mut self, global_index: u32) -> Result<bool, AllocError> {
        let op = Operator::GlobalGet { global_index };
        self.may_occur = may_occur(self.constant, self.checker.operators.context, &op);
        self.checker.step(&op)
    }

    #[inline(always)]
    fn visit_global_set(&mut self, global_index: u32) -> Result<bool, AllocError> {
        let op = Operator::GlobalSet { global_index };
        self.may_occur = may_occur(self.constant, self.checker.operators.context, &op);
        self.checker.step(&op)
    }

    #[inline(always)]
    fn visit_br(&mut self, relative_depth: u32) -> Result<bool, AllocError> {
        let op = Operator::Br { relative_depth };
        self.may_occur = may_occur(self.constant, self.checker.operators.context, &op);
        self.checker.step(&op)
    }

    #[inline(always)]
    fn visit_br_if(&mut self, relative_depth: u32) -> Result<bool, AllocError> {
        let op = Operator::BrIf { relative_depth };
        self.may_occur = may_occur(self.constant, self.checker.operators.context, &op);
        self.checker.step(&op)
    }

    #[inline(always)]
    fn visit_call(&mut self, function_index: u32) -> Result<bool, AllocError> {
        let op = Operator::Call { function_index };
        self.may_occur = may_occur(self.constant, self.checker.operators.context, &op);
        self.checker.step(&op)
    }

    #[inline(always)]
    fn visit_block(&mut self, blockty: BlockType) -> Result<bool, AllocError> {
        let op = Operator::Block { blockty };
        self.may_occur = may_occur(self.constant, self.checker.operators.context, &op);
        self.checker.step(&op)
    }

    #[inline(always)]
    fn visit_loop(&mut self, blockty: BlockType) -> Result<bool, AllocError> {
        let op = Operator::Loop { blockty };
        self.may_occur = may_occur(self.constant, self.checker.operators.context, &op);
        self.checker.step(&op)
    }

    #[inline(always)]
    fn visit_if(&mut self, blockty: BlockType) -> Result<bool, AllocError> {
        let op = Operator::If { blockty };
        self.may_occur = may_occur(self.constant, self.checker.operators.context, &op);
        self.checker.step(&op)
    }

    #[inline(always)]
    fn visit_end(&mut self) -> Result<bool, AllocError> {
        let op = Operator::End;
        self.may_occur = may_occur(self.constant, self.checker.operators.context, &op);
        self.checker.step(&op)
    }

    #[inline(always)]
    fn visit_drop(&mut self) -> Result<bool, AllocError> {
        let op = Operator::Drop;
        self.may_occur = may_occur(self.constant, self.checker.operators.context, &op);
        self.checker.step(&op)
    }

    #[inline(always)]
    fn visit_return(&mut self) -> Result<bool, AllocError> {
        let op = Operator::Return;
        self.may_occur = may_occur(self.constant, self.checker.operators.context, &op);
        self.checker.step(&op)
    }
}

impl<'m, M: ModuleContext> CallNumeric for TypeChecker<'m, M> {
    fn dispatch_numeric(&mut self, op: NumericOperator) -> Result<bool, AllocError> {
        self.visit_any(Operator::Numeric(op))
    }

    #[inline(always)]
    fn decode_numeric(&mut self, code: u8) -> Result<bool, AllocError> {
        let op = decode::numeric_by::<Made, ByAny>(&mut Made, code);
        self.may_occur = may_occur(self.constant, self.checker.operators.context, &op);
        match op {
            Operator::Numeric(_) => self.checker.by_code(&op, code),
            _ => self.checker.step(&op),
        }
    }
}

impl<'a, 'm, M: ModuleContext> VisitOperator<'a> for TypeChecker<'m, M> {
    fn visit_br_table(&mut self, targets: BrTable<'a>) -> Result<bool, AllocError> {
        let op = Operator::BrTable { targets };
        self.may_occur = may_occur(self.constant, self.checker.operators.context, &op);
        self.checker.step(&op)
    }
}
