ghost use Rattle.std.specs.Prelude.{◌≡◌, []};
ghost use Rattle.wasm_typing.specs.Rules.{or_invalid, fixed};
ghost use Rattle.wasm_check_operators.specs.Forms.{only_if};
ghost use Rattle.wasm_check_operators.specs.Language.{Follows};
ghost use Rattle.wasm_check_operators.specs.Tables.{copy, init};

use crate::checker::Checker;
use crate::types::{address, both};
use std::alloc::AllocError;
use wasm_check_control::ModuleContext;
use wasm_typing::ValueType;

/// Memory instructions with a segment or two memories.
impl<'m, M: ModuleContext> Checker<'m, M> {
    pub(crate) fn memory_init(&mut self, segment: u32, memory: u32) -> Result<bool, AllocError>
        ensures same { self.new.context ≡ self.old.context }
        ensures steps { Follows (M.environment self.old.context.now) (only_if ((M.environment self.old.context.now).has_data segment) (or_invalid init ((M.environment self.old.context.now).memories memory))) self.old.control result self.new.control }
    {
        if !self.context.has_data(segment) {
            return Ok(false);
        }
        match self.context.memory64(memory) {
            Some(is_64) => self.control.values(
                self.context,
                &[address(is_64), ValueType::I32, ValueType::I32],
                &[],
            ),
            None => Ok(false),
        }
    }

    pub(crate) fn memory_copy(&mut self, to: u32, from: u32) -> Result<bool, AllocError>
        ensures same { self.new.context ≡ self.old.context }
        ensures steps { Follows (M.environment self.old.context.now)
            (or_invalid (λ a. or_invalid (copy a) ((M.environment self.old.context.now).memories from)) ((M.environment self.old.context.now).memories to))
            self.old.control result self.new.control }
    {
        let Some(to) = self.context.memory64(to) else {
            return Ok(false);
        };
        let Some(from) = self.context.memory64(from) else {
            return Ok(false);
        };
        self.control.values(
            self.context,
            &[address(to), address(from), address(both(to, from))],
            &[],
        )
    }

    pub(crate) fn data_drop(&mut self, segment: u32) -> Result<bool, AllocError>
        ensures same { self.new.context ≡ self.old.context }
        ensures steps { Follows (M.environment self.old.context.now) (only_if ((M.environment self.old.context.now).has_data segment) (fixed [] [])) self.old.control result self.new.control }
    {
        if !self.context.has_data(segment) {
            return Ok(false);
        }
        self.control.values(self.context, &[], &[])
    }
}
