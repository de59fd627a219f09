ghost use Rattle.std.specs.Prelude.{◌≡◌, ◌∷◌, Some, None, IfOk, if◌then◌else◌};
ghost use Rattle.wasm_instr.specs.declared.operator.Operator.{Operator};
ghost use Rattle.wasm_instr.specs.Roles.{role_of};
ghost use Rattle.wasm_instr.specs.Row.{prefix_of, opcode_of};
ghost use Rattle.wasm_typing.specs.Rules.{is_ready};
ghost use Rattle.wasm_typing.specs.Steps.{step, started};
ghost use Rattle.wasm_check_control.specs.SetLocals.{set_now, set_outside, set_also, set_in_else, with_set, next_with};
ghost use Rattle.wasm_check_control.specs.State.{Answers, outermost, around};
ghost use Rattle.wasm_check_operators.specs.Language.{rules_of, rules_if_set, StepsOn, IsDetermined, IsAccess};

use crate::checker::Checker;
use std::alloc::{AllocError, Global};
use wasm_check_control::{Control, FrameKind, ModuleContext, SetLocals};
use wasm_imm::MemArg;
use wasm_instr::Operator;

/// The type checker of an expression: a checker of operators, and the locals that are set.
///
/// Each function returns whether the operator has a type, and fails if allocation fails.
#[derive(Drop)]
pub struct BodyChecker<'m, M> {
    pub operators: Checker<'m, M>,
    pub locals: SetLocals,
}

impl<'m, M: ModuleContext> BodyChecker<'m, M> {
    /// Creates a checker of an expression that leaves the results of the function.
    pub fn new(alloc: Global, context: &'m M) -> Result<BodyChecker<'m, M>, AllocError>
        ensures same { IfOk result (λ c. c.operators.context ≡ context.entry) }
        ensures starts { IfOk result (λ c. with_set c.operators.control c.locals ≡ started (M.environment context.entry.now).results) }
    {
        let mut control = Control::new(alloc);
        control.enter(FrameKind::Block, &[], None, context.results())?;
        let mut locals = SetLocals::new(alloc);
        locals.open()?;
        Ok(BodyChecker {
            operators: Checker { context, control },
            locals,
        })
    }

    #[inline(always)]
    fn is_set(&self, local: u32) -> bool
        ensures { result ≡ is_ready (outermost (rules_of (M.environment self.now.operators.context.now))) (Some local) (set_now self.now.locals) }
    {
        match self.operators.context.local_type(local) {
            Some(ty) => {
                if ty.is_set {
                    return true;
                }
                self.locals.contains(local)
            }
            None => self.locals.contains(local),
        }
    }

    /// An operator that needs no local and sets none.
    fn keep(&mut self, op: &Operator<'_>) -> Result<bool, AllocError>
        ensures same { self.new.operators.context ≡ self.old.operators.context }
        ensures steps { IfOk result (λ yes. Answers yes
            (next_with self.old.locals (step (outermost (rules_if_set (M.environment self.old.operators.context.now))) self.old.operators.control (role_of op.now)))
            (with_set self.new.operators.control self.new.locals)) }
    {
        self.operators.step(op)
    }

    /// An operator that opens a frame.
    fn open(&mut self, op: &Operator<'_>) -> Result<bool, AllocError>
        ensures same { self.new.operators.context ≡ self.old.operators.context }
        ensures steps { IfOk result (λ yes. Answers yes
            (next_with (set_now self.old.locals ∷ self.old.locals) (step (outermost (rules_if_set (M.environment self.old.operators.context.now))) self.old.operators.control (role_of op.now)))
            (with_set self.new.operators.control self.new.locals)) }
    {
        if !self.operators.step(op)? {
            return Ok(false);
        }
        self.locals.open()?;
        Ok(true)
    }

    /// `else`.
    fn turn(&mut self, op: &Operator<'_>) -> Result<bool, AllocError>
        ensures same { self.new.operators.context ≡ self.old.operators.context }
        ensures steps { IfOk result (λ yes. Answers yes
            (next_with (set_in_else (around self.old.operators.control) self.old.locals) (step (outermost (rules_if_set (M.environment self.old.operators.context.now))) self.old.operators.control (role_of op.now)))
            (with_set self.new.operators.control self.new.locals)) }
    {
        let is_outermost = self.operators.control.is_outermost();
        if !self.operators.step(op)? {
            return Ok(false);
        }
        self.locals.close_or_clear(is_outermost);
        self.locals.open()?;
        Ok(true)
    }

    /// `end`.
    fn end(&mut self, op: &Operator<'_>) -> Result<bool, AllocError>
        ensures same { self.new.operators.context ≡ self.old.operators.context }
        ensures steps { IfOk result (λ yes. Answers yes
            (next_with (set_outside self.old.locals) (step (outermost (rules_if_set (M.environment self.old.operators.context.now))) self.old.operators.control (role_of op.now)))
            (with_set self.new.operators.control self.new.locals)) }
    {
        if !self.operators.step(op)? {
            return Ok(false);
        }
        self.locals.close();
        Ok(true)
    }

    /// An operator that needs a local.
    fn get(&mut self, op: &Operator<'_>, local: u32) -> Result<bool, AllocError>
        ensures same { self.new.operators.context ≡ self.old.operators.context }
        ensures steps { IfOk result (λ yes. Answers yes
            (if (is_ready (outermost (rules_of (M.environment self.old.operators.context.now))) (Some local) (set_now self.old.locals)) then next_with self.old.locals (step (outermost (rules_if_set (M.environment self.old.operators.context.now))) self.old.operators.control (role_of op.now)) else None)
            (with_set self.new.operators.control self.new.locals)) }
    {
        if !self.is_set(local) {
            return Ok(false);
        }
        self.operators.step(op)
    }

    /// An operator that sets a local.
    fn set(&mut self, op: &Operator<'_>, local: u32) -> Result<bool, AllocError>
        ensures same { self.new.operators.context ≡ self.old.operators.context }
        ensures steps { IfOk result (λ yes. Answers yes
            (next_with (if (is_ready (outermost (rules_of (M.environment self.old.operators.context.now))) (Some local) (set_now self.old.locals)) then self.old.locals else set_also local self.old.locals) (step (outermost (rules_if_set (M.environment self.old.operators.context.now))) self.old.operators.control (role_of op.now)))
            (with_set self.new.operators.control self.new.locals)) }
    {
        if !self.operators.step(op)? {
            return Ok(false);
        }
        if self.is_set(local) {
            return Ok(true);
        }
        self.locals.add(local)?;
        Ok(true)
    }

    /// `local.get`.
    pub fn local_get(&mut self, index: u32) -> Result<bool, AllocError>
        ensures same { self.new.operators.context ≡ self.old.operators.context }
        ensures steps { StepsOn (M.environment self.old.operators.context.now) (Operator.LocalGet index) (with_set self.old.operators.control self.old.locals) result (with_set self.new.operators.control self.new.locals) }
    {
        if !self.is_set(index) {
            return Ok(false);
        }
        self.operators.local_get(index)
    }

    /// `local.set`.
    pub fn local_set(&mut self, index: u32) -> Result<bool, AllocError>
        ensures same { self.new.operators.context ≡ self.old.operators.context }
        ensures steps { StepsOn (M.environment self.old.operators.context.now) (Operator.LocalSet index) (with_set self.old.operators.control self.old.locals) result (with_set self.new.operators.control self.new.locals) }
    {
        if !self.operators.local_set(index)? {
            return Ok(false);
        }
        if self.is_set(index) {
            return Ok(true);
        }
        self.locals.add(index)?;
        Ok(true)
    }

    /// `local.tee`.
    pub fn local_tee(&mut self, index: u32) -> Result<bool, AllocError>
        ensures same { self.new.operators.context ≡ self.old.operators.context }
        ensures steps { StepsOn (M.environment self.old.operators.context.now) (Operator.LocalTee index) (with_set self.old.operators.control self.old.locals) result (with_set self.new.operators.control self.new.locals) }
    {
        if !self.operators.local_tee(index)? {
            return Ok(false);
        }
        if self.is_set(index) {
            return Ok(true);
        }
        self.locals.add(index)?;
        Ok(true)
    }

    /// A numeric operator or a constant, by its opcode.
    #[inline(always)]
    pub fn by_code(&mut self, op: &Operator<'_>, code: u8) -> Result<bool, AllocError>
        requires opcode { (prefix_of op.now ≡ None) × (opcode_of op.now ≡ code) }
        requires determined { IsDetermined op.now }
        ensures same { self.new.operators.context ≡ self.old.operators.context }
        ensures steps { StepsOn (M.environment self.old.operators.context.now) op.now (with_set self.old.operators.control self.old.locals) result (with_set self.new.operators.control self.new.locals) }
    {
        self.operators.by_code(op, code)
    }

    /// A load or a store, by its opcode.
    #[inline(always)]
    pub fn access_by_code(
        &mut self,
        memarg: &MemArg,
        op: &Operator<'_>,
        code: u8,
    ) -> Result<bool, AllocError>
        requires opcode { (prefix_of op.now ≡ None) × (opcode_of op.now ≡ code) }
        requires access { IsAccess op.now memarg.now }
        ensures same { self.new.operators.context ≡ self.old.operators.context }
        ensures steps { StepsOn (M.environment self.old.operators.context.now) op.now (with_set self.old.operators.control self.old.locals) result (with_set self.new.operators.control self.new.locals) }
    {
        self.operators.access_by_code(memarg, op, code)
    }

    /// Checks one operator.
    pub fn step(&mut self, op: &Operator<'_>) -> Result<bool, AllocError>
        ensures same { self.new.operators.context ≡ self.old.operators.context }
        ensures steps { IfOk result (λ yes. Answers yes
            (step (outermost (rules_of (M.environment self.old.operators.context.now))) (with_set self.old.operators.control self.old.locals) (role_of op.now))
            (with_set self.new.operators.control self.new.locals)) }
    {
        match op {
            Operator::LocalGet { local_index } => self.get(op, *local_index),
            Operator::LocalSet { local_index } => self.set(op, *local_index),
            Operator::LocalTee { local_index } => self.set(op, *local_index),
            Operator::Block { .. } => self.open(op),
            Operator::Loop { .. } => self.open(op),
            Operator::If { .. } => self.open(op),
            Operator::TryTable { .. } => self.open(op),
            Operator::Else => self.turn(op),
            Operator::End => self.end(op),
            _ => self.keep(op),
        }
    }
}
