ghost use Rattle.std.specs.Prelude.{◌≡◌, [], ◌∷◌, None, IfOk, false};
ghost use Rattle.wasm_instr.specs.Roles.{role_of};
ghost use Rattle.wasm_instr.specs.Row.{prefix_of, opcode_of};
ghost use Rattle.wasm_typing.specs.Rules.{or_invalid, jumps, fixed, invalid, at};
ghost use Rattle.wasm_typing.specs.Types.{value_type};
ghost use Rattle.wasm_typing.specs.Steps.{step, labels_of};
ghost use Rattle.wasm_check_control.specs.State.{Answers, opens_by, construct_of, first_of, outermost, by_rule};
ghost use Rattle.wasm_signatures.specs.Own.{operator_typing};
ghost use Rattle.wasm_check_operators.specs.Forms.{IsFixed, only_if, access, is_valid, by_typing, fixed_at, exception};
ghost use Rattle.wasm_check_operators.specs.Language.{block_type, rule, rules_if_set, Follows};

use crate::premises::is_valid_argument;
use crate::signatures::{by_code, determined};
use crate::types::abstract_type;
use crate::validity::is_valid;
use std::alloc::AllocError;
use wasm_below::{AbstractHeapType, ValType};
use wasm_check_control::{Control, FrameKind, ModuleContext};
use wasm_imm::{BlockType, MemArg, MemArgTarget};
use wasm_instr::Operator;
use wasm_typing::ValueType;

/// The type checker of operators if every local is set: the control frames with their operands, and
/// the context.
///
/// Each function returns whether the operator has a type, and fails if allocation fails.
#[derive(Drop)]
pub struct Checker<'m, M> {
    pub context: &'m M,
    pub control: Control<'m>,
}

impl<'m, M: ModuleContext> Checker<'m, M> {
    /// Opens the frame of a construct.
    pub(crate) fn open(&mut self, kind: FrameKind, ty: BlockType) -> Result<bool, AllocError>
        ensures same { self.new.context ≡ self.old.context }
        ensures steps { IfOk result (λ yes. Answers yes (opens_by (M.environment self.old.context.now).order (construct_of kind) (first_of kind) (block_type (M.environment self.old.context.now) ty) self.old.control) self.new.control) }
    {
        match ty {
            BlockType::Empty => self.control.opens(self.context, kind, &[], None, &[]),
            BlockType::Value(ty) => {
                let ty = ValueType::new(ty);
                if !is_valid(self.context, ty) {
                    return Ok(false);
                }
                self.control.opens(self.context, kind, &[], Some(ty), &[])
            }
            BlockType::FuncType(index) => match self.context.type_at(index) {
                Some(f) => self
                    .control
                    .opens(self.context, kind, f.params, None, f.results),
                None => Ok(false),
            },
        }
    }

    fn branch(&mut self, depth: u32) -> bool
        ensures same { self.new.context ≡ self.old.context }
        ensures steps { Answers result (by_rule (M.environment self.old.context.now).order (or_invalid (λ s. jumps s) (at (labels_of self.old.control) depth)) self.old.control) self.new.control }
    {
        match self.control.label(depth) {
            Some(label) => self.control.jumps(self.context, label.one, label.many),
            None => false,
        }
    }

    fn branch_if(&mut self, depth: u32) -> Result<bool, AllocError>
        ensures same { self.new.context ≡ self.old.context }
        ensures steps { Follows (M.environment self.old.context.now) (or_invalid (λ s. fixed (ValueType.I32 ∷ s) s) (at (labels_of self.old.control) depth)) self.old.control result self.new.control }
    {
        match self.control.label(depth) {
            Some(label) => self.control.branches(self.context, label.one, label.many),
            None => Ok(false),
        }
    }

    /// `select` with a type.
    fn typed_select(&mut self, ty: ValType) -> Result<bool, AllocError>
        ensures same { self.new.context ≡ self.old.context }
        ensures steps { Follows (M.environment self.old.context.now) (only_if (is_valid (M.environment self.old.context.now).order (value_type ty)) (fixed (ValueType.I32 ∷ value_type ty ∷ value_type ty ∷ []) (value_type ty ∷ []))) self.old.control result self.new.control }
    {
        let ty = ValueType::new(ty);
        if !is_valid(self.context, ty) {
            return Ok(false);
        }
        self.control
            .values(self.context, &[ty, ty, ValueType::I32], &[ty])
    }

    fn throw_ref(&mut self) -> bool
        ensures same { self.new.context ≡ self.old.context }
        ensures steps { Answers result (by_rule (M.environment self.old.context.now).order (jumps (exception ∷ [])) self.old.control) self.new.control }
    {
        self.control
            .jumps_with(self.context, abstract_type(AbstractHeapType::Exn), &[])
    }

    fn determined(&mut self, op: &Operator<'_>) -> Result<bool, AllocError>
        ensures same { self.new.context ≡ self.old.context }
        ensures steps { Follows (M.environment self.old.context.now) (by_typing (fixed_at false) (operator_typing op.now)) self.old.control result self.new.control }
    {
        determined(&mut self.control, self.context, op, false)
    }

    /// An operator of one byte that determines its types, by its opcode.
    pub(crate) fn by_code(&mut self, op: &Operator<'_>, code: u8) -> Result<bool, AllocError>
        requires opcode { (prefix_of op.now ≡ None) × (opcode_of op.now ≡ code) }
        requires determined { IsFixed (operator_typing op.now) }
        ensures same { self.new.context ≡ self.old.context }
        ensures steps { Follows (M.environment self.old.context.now) (by_typing (fixed_at false) (operator_typing op.now)) self.old.control result self.new.control }
    {
        by_code(&mut self.control, self.context, op, code, false)
    }

    /// A load or a store of the default group, by its opcode.
    pub(crate) fn access_by_code(
        &mut self,
        memarg: &MemArg,
        op: &Operator<'_>,
        code: u8,
    ) -> Result<bool, AllocError>
        requires opcode { (prefix_of op.now ≡ None) × (opcode_of op.now ≡ code) }
        requires determined { IsFixed (operator_typing op.now) }
        ensures same { self.new.context ≡ self.old.context }
        ensures steps { Follows (M.environment self.old.context.now) (access (M.environment self.old.context.now) memarg.now.target memarg.now (operator_typing op.now)) self.old.control result self.new.control }
    {
        match memarg.target {
            MemArgTarget::Memory(index) => {
                let Some(is_64) = self.context.memory64(index) else {
                    return Ok(false);
                };
                if !is_valid_argument(memarg, is_64) {
                    return Ok(false);
                }
                by_code(&mut self.control, self.context, op, code, is_64)
            }
            MemArgTarget::Array(_) => Ok(false),
        }
    }

    /// An operator without a rule.
    fn without_rule(&self) -> bool
        ensures { Answers result (by_rule (M.environment self.now.context.now).order invalid self.now.control) self.now.control }
    {
        false
    }

    /// A plain operator.
    fn apply(&mut self, op: &Operator<'_>) -> Result<bool, AllocError>
        ensures same { self.new.context ≡ self.old.context }
        ensures steps { Follows (M.environment self.old.context.now) (rule (M.environment self.old.context.now) (labels_of self.old.control) op.now) self.old.control result self.new.control }
    {
        match op {
            Operator::Unreachable => Ok(self.control.jumps(self.context, None, &[])),
            Operator::Br { relative_depth } => Ok(self.branch(*relative_depth)),
            Operator::BrIf { relative_depth } => self.branch_if(*relative_depth),
            Operator::Return => Ok(
                self.control
                    .jumps(self.context, None, self.context.results()),
            ),
            Operator::Call { function_index } => self.call(*function_index),
            Operator::CallIndirect {
                type_index,
                table_index,
            } => self.call_indirect(*type_index, *table_index),
            Operator::CallRef { type_index } => self.call_ref(*type_index),
            Operator::ReturnCall { function_index } => Ok(self.return_call(*function_index)),
            Operator::ReturnCallIndirect {
                type_index,
                table_index,
            } => Ok(self.return_call_indirect(*type_index, *table_index)),
            Operator::ReturnCallRef { type_index } => Ok(self.return_call_ref(*type_index)),
            Operator::BrTable { targets } => Ok(self.branch_table(targets)),
            Operator::BrOnNull { relative_depth } => self.branch_on_null(*relative_depth),
            Operator::BrOnNonNull { relative_depth } => self.branch_on_non_null(*relative_depth),
            Operator::RefNull { hty } => self.ref_null(*hty),
            Operator::RefIsNull => self.control.tests_null(),
            Operator::RefFunc { function_index } => self.ref_func(*function_index),
            Operator::RefAsNonNull => self.control.makes_non_null(),
            Operator::TableGet { table } => self.table_get(*table),
            Operator::TableSet { table } => self.table_set(*table),
            Operator::Drop => Ok(self.control.drops()),
            Operator::Select => self.control.selects(self.context),
            Operator::TypedSelect { ty } => self.typed_select(*ty),
            Operator::LocalGet { local_index } => self.local_get(*local_index),
            Operator::LocalSet { local_index } => self.local_set(*local_index),
            Operator::LocalTee { local_index } => self.local_tee(*local_index),
            Operator::GlobalGet { global_index } => self.global_get(*global_index),
            Operator::GlobalSet { global_index } => self.global_set(*global_index),
            Operator::MemorySize { mem } => self.memory_size(*mem),
            Operator::MemoryGrow { mem } => self.memory_grow(*mem),
            Operator::I32Load { memarg }
            | Operator::I64Load { memarg }
            | Operator::F32Load { memarg }
            | Operator::F64Load { memarg }
            | Operator::I32Load8S { memarg }
            | Operator::I32Load8U { memarg }
            | Operator::I32Load16S { memarg }
            | Operator::I32Load16U { memarg }
            | Operator::I64Load8S { memarg }
            | Operator::I64Load8U { memarg }
            | Operator::I64Load16S { memarg }
            | Operator::I64Load16U { memarg }
            | Operator::I64Load32S { memarg }
            | Operator::I64Load32U { memarg }
            | Operator::I32Store { memarg }
            | Operator::I64Store { memarg }
            | Operator::F32Store { memarg }
            | Operator::F64Store { memarg }
            | Operator::I32Store8 { memarg }
            | Operator::I32Store16 { memarg }
            | Operator::I64Store8 { memarg }
            | Operator::I64Store16 { memarg }
            | Operator::I64Store32 { memarg } => self.access(memarg, op),
            Operator::Nop
            | Operator::RefEq
            | Operator::I32Const { .. }
            | Operator::I64Const { .. }
            | Operator::F32Const { .. }
            | Operator::F64Const { .. }
            | Operator::Numeric(_) => self.determined(op),
            Operator::Throw { tag_index } => Ok(self.throw(*tag_index)),
            Operator::ThrowRef => Ok(self.throw_ref()),
            Operator::Gc(gc) => self.gc(gc),
            Operator::Misc(misc) => self.misc(misc),
            Operator::Simd(simd) => self.simd(simd, op),
            Operator::Atomic(atomic) => self.atomic(atomic, op),
            Operator::Block { .. }
            | Operator::Loop { .. }
            | Operator::If { .. }
            | Operator::Else
            | Operator::End
            | Operator::TypedSelectMulti { .. }
            | Operator::TryTable { .. }
            | Operator::Try { .. }
            | Operator::Catch { .. }
            | Operator::Rethrow { .. }
            | Operator::Delegate { .. }
            | Operator::CatchAll
            | Operator::ContNew { .. }
            | Operator::ContBind { .. }
            | Operator::Suspend { .. }
            | Operator::Resume { .. }
            | Operator::ResumeThrow { .. }
            | Operator::ResumeThrowRef { .. }
            | Operator::Switch { .. } => Ok(self.without_rule()),
        }
    }

    /// Checks one operator, as if every local were set.
    pub fn step(&mut self, op: &Operator<'_>) -> Result<bool, AllocError>
        ensures same { self.new.context ≡ self.old.context }
        ensures steps { IfOk result (λ yes. Answers yes (step (outermost (rules_if_set (M.environment self.old.context.now))) self.old.control (role_of op.now)) self.new.control) }
    {
        match op {
            Operator::Block { blockty } => self.open(FrameKind::Block, *blockty),
            Operator::Loop { blockty } => self.open(FrameKind::Loop, *blockty),
            Operator::If { blockty } => self.open(FrameKind::If, *blockty),
            Operator::TryTable { try_table } => self.open_try_table(try_table),
            Operator::Else => self.control.turn(self.context),
            Operator::End => self.control.end(self.context),
            _ => self.apply(op),
        }
    }
}
