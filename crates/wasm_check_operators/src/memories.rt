ghost use Rattle.std.specs.Prelude.{◌≡◌, [], ◌∷◌};
ghost use Rattle.wasm_typing.specs.Rules.{or_invalid, fixed};
ghost use Rattle.wasm_signatures.specs.Misc.{misc_typing};
ghost use Rattle.wasm_signatures.specs.Own.{operator_typing};
ghost use Rattle.wasm_signatures.specs.Premises.{argument_of};
ghost use Rattle.wasm_check_operators.specs.Forms.{only_if, access, address, by_typing, fixed_at, by_argument, atomic_access, has_lanes, is_ordered};
ghost use Rattle.wasm_check_operators.specs.Language.{Follows};

use crate::checker::Checker;
use crate::premises::{has_lanes, is_atomic_argument, is_ordered, is_valid_argument};
use crate::signatures::{by_typing, determined};
use crate::types::address;
use std::alloc::AllocError;
use wasm_check_control::ModuleContext;
use wasm_imm::{MemArg, MemArgTarget};
use wasm_instr::Operator;
use wasm_instr_ops::{AtomicOperator, MiscOperator};
use wasm_instr_simd::SimdOperator;
use wasm_signatures::{memory_argument, misc_typing};

/// Memory instructions.
impl<'m, M: ModuleContext> Checker<'m, M> {
    /// A load or a store.
    pub(crate) fn access(&mut self, memarg: &MemArg, op: &Operator<'_>) -> Result<bool, AllocError>
        ensures same { self.new.context ≡ self.old.context }
        ensures steps { Follows (M.environment self.old.context.now) (access (M.environment self.old.context.now) memarg.now.target memarg.now (operator_typing op.now)) self.old.control result self.new.control }
    {
        match memarg.target {
            MemArgTarget::Memory(index) => {
                let Some(is_64) = self.context.memory64(index) else {
                    return Ok(false);
                };
                if !is_valid_argument(memarg, is_64) {
                    return Ok(false);
                }
                determined(&mut self.control, self.context, op, is_64)
            }
            MemArgTarget::Array(_) => Ok(false),
        }
    }

    pub(crate) fn memory_size(&mut self, index: u32) -> Result<bool, AllocError>
        ensures same { self.new.context ≡ self.old.context }
        ensures steps { Follows (M.environment self.old.context.now) (or_invalid (λ a. fixed [] (address a ∷ [])) ((M.environment self.old.context.now).memories index)) self.old.control result self.new.control }
    {
        match self.context.memory64(index) {
            Some(is_64) => self.control.values(self.context, &[], &[address(is_64)]),
            None => Ok(false),
        }
    }

    pub(crate) fn memory_grow(&mut self, index: u32) -> Result<bool, AllocError>
        ensures same { self.new.context ≡ self.old.context }
        ensures steps { Follows (M.environment self.old.context.now) (or_invalid (λ a. fixed (address a ∷ []) (address a ∷ [])) ((M.environment self.old.context.now).memories index)) self.old.control result self.new.control }
    {
        match self.context.memory64(index) {
            Some(is_64) => {
                let ty = address(is_64);
                self.control.values(self.context, &[ty], &[ty])
            }
            None => Ok(false),
        }
    }

    pub(crate) fn memory_fill(&mut self, index: u32) -> Result<bool, AllocError>
        ensures same { self.new.context ≡ self.old.context }
        ensures steps { Follows (M.environment self.old.context.now) (or_invalid (λ a. by_typing (fixed_at a) (misc_typing (MiscOperator.MemoryFill index))) ((M.environment self.old.context.now).memories index)) self.old.control result self.new.control }
    {
        match self.context.memory64(index) {
            Some(is_64) => by_typing(
                &mut self.control,
                self.context,
                misc_typing(&MiscOperator::MemoryFill { mem: index }),
                is_64,
            ),
            None => Ok(false),
        }
    }

    /// An operator of which only the lanes and the memory argument have premises. `simd` is `op`.
    pub(crate) fn simd(
        &mut self,
        simd: &SimdOperator,
        op: &Operator<'_>,
    ) -> Result<bool, AllocError>
        ensures same { self.new.context ≡ self.old.context }
        ensures steps { Follows (M.environment self.old.context.now) (only_if (has_lanes simd.now) (by_argument (M.environment self.old.context.now) (argument_of op.now) (operator_typing op.now))) self.old.control result self.new.control }
    {
        if !has_lanes(simd) {
            return Ok(false);
        }
        match memory_argument(op) {
            Some(memarg) => self.access(&memarg, op),
            None => determined(&mut self.control, self.context, op, false),
        }
    }

    /// An operator of the proposal threads. `atomic` is `op`.
    pub(crate) fn atomic(
        &mut self,
        atomic: &AtomicOperator,
        op: &Operator<'_>,
    ) -> Result<bool, AllocError>
        ensures same { self.new.context ≡ self.old.context }
        ensures steps { Follows (M.environment self.old.context.now) (only_if (is_ordered atomic.now) (atomic_access (M.environment self.old.context.now) (argument_of op.now) (operator_typing op.now))) self.old.control result self.new.control }
    {
        if !is_ordered(atomic) {
            return Ok(false);
        }
        let Some(memarg) = memory_argument(op) else {
            return determined(&mut self.control, self.context, op, false);
        };
        if !is_atomic_argument(&memarg) {
            return Ok(false);
        }
        self.access(&memarg, op)
    }
}
