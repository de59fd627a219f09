ghost use Rattle.std.specs.Prelude.{◌≡◌, [], ◌∷◌};
ghost use Rattle.wasm_typing.specs.Rules.{or_invalid, fixed};
ghost use Rattle.wasm_typing.specs.Types.{value_type};
ghost use Rattle.wasm_check_operators.specs.Forms.{only_if};
ghost use Rattle.wasm_check_operators.specs.Language.{Follows};
ghost use Rattle.wasm_check_operators.specs.Locals.{local_get, local_set, local_tee};

use crate::checker::Checker;
use std::alloc::AllocError;
use wasm_check_control::ModuleContext;
use wasm_typing::ValueType;

/// Variable instructions.
impl<'m, M: ModuleContext> Checker<'m, M> {
    #[inline(always)]
    pub(crate) fn local_get(&mut self, index: u32) -> Result<bool, AllocError>
        ensures same { self.new.context ≡ self.old.context }
        ensures steps { Follows (M.environment self.old.context.now) (or_invalid local_get ((M.environment self.old.context.now).locals index)) self.old.control result self.new.control }
    {
        let Some(local) = self.context.local_type(index) else {
            return Ok(false);
        };
        self.control
            .values(self.context, &[], &[ValueType::new(local.content_type)])
    }

    #[inline(always)]
    pub(crate) fn local_set(&mut self, index: u32) -> Result<bool, AllocError>
        ensures same { self.new.context ≡ self.old.context }
        ensures steps { Follows (M.environment self.old.context.now) (or_invalid local_set ((M.environment self.old.context.now).locals index)) self.old.control result self.new.control }
    {
        let Some(local) = self.context.local_type(index) else {
            return Ok(false);
        };
        self.control
            .values(self.context, &[ValueType::new(local.content_type)], &[])
    }

    #[inline(always)]
    pub(crate) fn local_tee(&mut self, index: u32) -> Result<bool, AllocError>
        ensures same { self.new.context ≡ self.old.context }
        ensures steps { Follows (M.environment self.old.context.now) (or_invalid local_tee ((M.environment self.old.context.now).locals index)) self.old.control result self.new.control }
    {
        let Some(local) = self.context.local_type(index) else {
            return Ok(false);
        };
        let ty = ValueType::new(local.content_type);
        self.control.values(self.context, &[ty], &[ty])
    }

    pub(crate) fn global_get(&mut self, index: u32) -> Result<bool, AllocError>
        ensures same { self.new.context ≡ self.old.context }
        ensures steps { Follows (M.environment self.old.context.now) (or_invalid (λ g. fixed [] (value_type g.type ∷ [])) ((M.environment self.old.context.now).globals index)) self.old.control result self.new.control }
    {
        match self.context.global_type(index) {
            Some(global) => self
                .control
                .fixed(self.context, &[], &[global.content_type]),
            None => Ok(false),
        }
    }

    pub(crate) fn global_set(&mut self, index: u32) -> Result<bool, AllocError>
        ensures same { self.new.context ≡ self.old.context }
        ensures steps { Follows (M.environment self.old.context.now) (or_invalid (λ g. only_if g.mutable (fixed (value_type g.type ∷ []) [])) ((M.environment self.old.context.now).globals index)) self.old.control result self.new.control }
    {
        let Some(global) = self.context.global_type(index) else {
            return Ok(false);
        };
        if !global.mutable {
            return Ok(false);
        }
        self.control
            .fixed(self.context, &[global.content_type], &[])
    }
}
