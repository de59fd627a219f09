ghost use Rattle.std.specs.Prelude.{◌≡◌, ◌∷◌, Some, IfOk, reverse};
ghost use Rattle.wasm_typing.specs.Matching.{TypeOrder};
ghost use Rattle.wasm_typing.specs.Rules.{fixed, jumps, drops, selects};
ghost use Rattle.wasm_check_control.specs.Environment.{stack_of};
ghost use Rattle.wasm_check_control.specs.State.{Answers, by_rule, opens_by, construct_of, first_of, results_of};

use crate::context::ModuleContext;
use crate::control::Control;
use crate::frame::FrameKind;
use crate::value_matches::select_type;
use std::alloc::AllocError;
use wasm_below::ValType;
use wasm_typing::ValueType;

/// Operators, by the form of their rule. Each function returns whether the operator has a type.
impl<'m> Control<'m> {
    pub fn fixed<M: ModuleContext>(
        &mut self,
        context: &M,
        takes: &[ValType],
        leaves: &[ValType],
    ) -> Result<bool, AllocError>
        ensures { IfOk result (λ yes. Answers yes (by_rule (M.environment context.now).order (fixed (stack_of takes.now) (stack_of leaves.now)) self.old) self.new) }
    {
        if !self.expect_all(context, takes) {
            return Ok(false);
        }
        self.give_all(leaves)?;
        Ok(true)
    }

    /// The same for types that are not in a module.
    #[inline(always)]
    pub fn values<M: ModuleContext>(
        &mut self,
        context: &M,
        takes: &[ValueType],
        leaves: &[ValueType],
    ) -> Result<bool, AllocError>
        ensures { IfOk result (λ yes. Answers yes (by_rule (M.environment context.now).order (fixed (reverse takes.now) (reverse leaves.now)) self.old) self.new) }
    {
        if !self.expect_values(context, takes) {
            return Ok(false);
        }
        self.give_values(leaves)?;
        Ok(true)
    }

    /// Takes an operand of one type above these.
    pub fn fixed_with<M: ModuleContext>(
        &mut self,
        context: &M,
        top: ValueType,
        takes: &[ValType],
        leaves: &[ValType],
    ) -> Result<bool, AllocError>
        ensures { IfOk result (λ yes. Answers yes (by_rule (M.environment context.now).order (fixed (top ∷ stack_of takes.now) (stack_of leaves.now)) self.old) self.new) }
    {
        if !self.expect(context, top) {
            return Ok(false);
        }
        self.fixed(context, takes, leaves)
    }

    /// `unreachable`, `br`, `return`: takes these, and the rest of the frame is unreachable.
    pub fn jumps<M: ModuleContext>(
        &mut self,
        context: &M,
        one: Option<ValueType>,
        takes: &[ValType],
    ) -> bool
        ensures { Answers result (by_rule (M.environment context.now).order (jumps (results_of one takes.now)) self.old) self.new }
    {
        if !self.expect_results(context, one, takes) {
            return false;
        }
        self.jump();
        true
    }

    /// Takes an operand of one type above these, and the rest of the frame is unreachable.
    pub fn jumps_with<M: ModuleContext>(
        &mut self,
        context: &M,
        top: ValueType,
        takes: &[ValType],
    ) -> bool
        ensures { Answers result (by_rule (M.environment context.now).order (jumps (top ∷ stack_of takes.now)) self.old) self.new }
    {
        if !self.expect(context, top) {
            return false;
        }
        self.jumps(context, None, takes)
    }

    pub fn drops(&mut self) -> bool
        ensures { (O : TypeOrder) → Answers result (by_rule O drops self.old) self.new }
    {
        self.take().is_some()
    }

    /// `select` without a type.
    pub fn selects<M: ModuleContext>(&mut self, context: &M) -> Result<bool, AllocError>
        ensures { IfOk result (λ yes. Answers yes (by_rule (M.environment context.now).order selects self.old) self.new) }
    {
        if !self.expect(context, ValueType::I32) {
            return Ok(false);
        }
        let Some(second) = self.take() else {
            return Ok(false);
        };
        let Some(first) = self.take() else {
            return Ok(false);
        };
        let Some(ty) = select_type(second, first) else {
            return Ok(false);
        };
        self.give(ty)?;
        Ok(true)
    }

    /// `br_if`: takes a condition and these, and leaves these.
    pub fn branches<M: ModuleContext>(
        &mut self,
        context: &M,
        one: Option<ValueType>,
        label: &[ValType],
    ) -> Result<bool, AllocError>
        ensures { IfOk result (λ yes. Answers yes (by_rule (M.environment context.now).order (fixed (ValueType.I32 ∷ results_of one label.now) (results_of one label.now)) self.old) self.new) }
    {
        if !self.expect(context, ValueType::I32) {
            return Ok(false);
        }
        if !self.expect_results(context, one, label) {
            return Ok(false);
        }
        self.give_results(one, label)?;
        Ok(true)
    }

    /// `br_on_cast`: takes an operand above these, and leaves another in its place.
    pub fn replaces<M: ModuleContext>(
        &mut self,
        context: &M,
        from: ValueType,
        to: ValueType,
        below: &[ValType],
    ) -> Result<bool, AllocError>
        ensures { IfOk result (λ yes. Answers yes (by_rule (M.environment context.now).order (fixed (from ∷ stack_of below.now) (to ∷ stack_of below.now)) self.old) self.new) }
    {
        if !self.expect(context, from) {
            return Ok(false);
        }
        if !self.expect_all(context, below) {
            return Ok(false);
        }
        self.give_all(below)?;
        self.give(to)?;
        Ok(true)
    }

    /// Opens the frame of a construct.
    pub fn opens<M: ModuleContext>(
        &mut self,
        context: &M,
        kind: FrameKind,
        takes: &'m [ValType],
        one: Option<ValueType>,
        leaves: &'m [ValType],
    ) -> Result<bool, AllocError>
        ensures { IfOk result (λ yes. Answers yes (opens_by (M.environment context.now).order (construct_of kind) (first_of kind) (Some (record { takes = stack_of takes.now; leaves = results_of one leaves.now })) self.old) self.new) }
    {
        if kind == FrameKind::If && !self.expect(context, ValueType::I32) {
            return Ok(false);
        }
        if !self.expect_all(context, takes) {
            return Ok(false);
        }
        self.enter(kind, takes, one, leaves)?;
        Ok(true)
    }
}
