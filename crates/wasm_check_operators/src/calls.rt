ghost use Rattle.std.specs.Prelude.{◌≡◌, ◌∷◌};
ghost use Rattle.wasm_typing.specs.Rules.{or_invalid, fixed};
ghost use Rattle.wasm_check_operators.specs.Forms.{address};
ghost use Rattle.wasm_check_operators.specs.Language.{of_function_table, Follows};

use crate::checker::Checker;
use crate::types::{address, has_functions};
use std::alloc::AllocError;
use wasm_check_control::ModuleContext;

/// Calls.
impl<'m, M: ModuleContext> Checker<'m, M> {
    pub(crate) fn call(&mut self, index: u32) -> Result<bool, AllocError>
        ensures same { self.new.context ≡ self.old.context }
        ensures steps { Follows (M.environment self.old.context.now) (or_invalid (λ f. fixed f.takes f.leaves) ((M.environment self.old.context.now).functions index)) self.old.control result self.new.control }
    {
        match self.context.function_type(index) {
            Some(f) => self.control.fixed(self.context, f.params, f.results),
            None => Ok(false),
        }
    }

    pub(crate) fn call_indirect(&mut self, type_index: u32, table: u32) -> Result<bool, AllocError>
        ensures same { self.new.context ≡ self.old.context }
        ensures steps { Follows (M.environment self.old.context.now)
            (of_function_table (M.environment self.old.context.now) table (λ t. or_invalid (λ f. fixed (address t.is_64 ∷ f.takes) f.leaves) ((M.environment self.old.context.now).types type_index)))
            self.old.control result self.new.control }
    {
        let Some(table) = self.context.table_type(table) else {
            return Ok(false);
        };
        if !has_functions(self.context, &table) {
            return Ok(false);
        }
        match self.context.type_at(type_index) {
            Some(f) => self
                .control
                .fixed_with(self.context, address(table.table64), f.params, f.results),
            None => Ok(false),
        }
    }
}
