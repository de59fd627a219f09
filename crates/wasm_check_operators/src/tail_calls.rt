ghost use Rattle.std.specs.Prelude.{◌≡◌, ◌∷◌, true};
ghost use Rattle.wasm_typing.specs.Matching.{defined};
ghost use Rattle.wasm_typing.specs.Rules.{or_invalid, fixed};
ghost use Rattle.wasm_check_control.specs.State.{Answers, by_rule};
ghost use Rattle.wasm_check_operators.specs.Calls.{tail_call};
ghost use Rattle.wasm_check_operators.specs.Forms.{address};
ghost use Rattle.wasm_check_operators.specs.Language.{of_function_table, Follows};

use crate::checker::Checker;
use crate::types::{address, has_functions, nullable};
use std::alloc::AllocError;
use wasm_check_control::{ModuleContext, all_match};
use wasm_typing::ValueType;

/// Calls of references, and tail calls.
impl<'m, M: ModuleContext> Checker<'m, M> {
    pub(crate) fn call_ref(&mut self, type_index: u32) -> Result<bool, AllocError>
        ensures same { self.new.context ≡ self.old.context }
        ensures steps { Follows (M.environment self.old.context.now) (or_invalid (λ f. fixed (ValueType.Ref true (defined type_index) ∷ f.takes) f.leaves) ((M.environment self.old.context.now).types type_index)) self.old.control result self.new.control }
    {
        match self.context.type_at(type_index) {
            Some(f) => self
                .control
                .fixed_with(self.context, nullable(type_index), f.params, f.results),
            None => Ok(false),
        }
    }

    pub(crate) fn return_call(&mut self, function: u32) -> bool
        ensures same { self.new.context ≡ self.old.context }
        ensures steps { Answers result (by_rule (M.environment self.old.context.now).order (or_invalid (λ f. tail_call (M.environment self.old.context.now) f f.takes) ((M.environment self.old.context.now).functions function)) self.old.control) self.new.control }
    {
        let Some(f) = self.context.function_type(function) else {
            return false;
        };
        if !all_match(self.context, f.results, self.context.results()) {
            return false;
        }
        self.control.jumps(self.context, None, f.params)
    }

    pub(crate) fn return_call_indirect(&mut self, type_index: u32, table: u32) -> bool
        ensures same { self.new.context ≡ self.old.context }
        ensures steps { Answers result (by_rule (M.environment self.old.context.now).order
            (of_function_table (M.environment self.old.context.now) table (λ t. or_invalid (λ f. tail_call (M.environment self.old.context.now) f (address t.is_64 ∷ f.takes)) ((M.environment self.old.context.now).types type_index)))
            self.old.control) self.new.control }
    {
        let Some(table) = self.context.table_type(table) else {
            return false;
        };
        if !has_functions(self.context, &table) {
            return false;
        }
        let Some(f) = self.context.type_at(type_index) else {
            return false;
        };
        if !all_match(self.context, f.results, self.context.results()) {
            return false;
        }
        self.control
            .jumps_with(self.context, address(table.table64), f.params)
    }

    pub(crate) fn return_call_ref(&mut self, type_index: u32) -> bool
        ensures same { self.new.context ≡ self.old.context }
        ensures steps { Answers result (by_rule (M.environment self.old.context.now).order
            (or_invalid (λ f. tail_call (M.environment self.old.context.now) f (ValueType.Ref true (defined type_index) ∷ f.takes)) ((M.environment self.old.context.now).types type_index))
            self.old.control) self.new.control }
    {
        let Some(f) = self.context.type_at(type_index) else {
            return false;
        };
        if !all_match(self.context, f.results, self.context.results()) {
            return false;
        }
        self.control
            .jumps_with(self.context, nullable(type_index), f.params)
    }
}
