ghost use Rattle.std.specs.Prelude.{◌≡◌};
ghost use Rattle.wasm_typing.specs.Rules.{or_invalid};
ghost use Rattle.wasm_check_operators.specs.Aggregates.{array_new, array_new_default, array_new_fixed, array_new_data, array_new_elem, array_get, array_set, array_fill, array_copy, array_init_data, array_init_elem};
ghost use Rattle.wasm_check_operators.specs.Language.{Follows};

use crate::checker::Checker;
use crate::fields::{has_default, holds, is_numeric, not_null, operand, same, storage_matches};
use crate::types::nullable;
use std::alloc::AllocError;
use wasm_check_control::ModuleContext;
use wasm_typing::ValueType;

/// Arrays.
impl<'m, M: ModuleContext> Checker<'m, M> {
    pub(crate) fn array_new(&mut self, index: u32) -> Result<bool, AllocError>
        ensures same { self.new.context ≡ self.old.context }
        ensures steps { Follows (M.environment self.old.context.now) (or_invalid (array_new index) ((M.environment self.old.context.now).arrays index)) self.old.control result self.new.control }
    {
        let Some(elements) = self.context.array_elements(index) else {
            return Ok(false);
        };
        self.control.values(
            self.context,
            &[operand(elements), ValueType::I32],
            &[not_null(index)],
        )
    }

    pub(crate) fn array_new_default(&mut self, index: u32) -> Result<bool, AllocError>
        ensures same { self.new.context ≡ self.old.context }
        ensures steps { Follows (M.environment self.old.context.now) (or_invalid (array_new_default index) ((M.environment self.old.context.now).arrays index)) self.old.control result self.new.control }
    {
        let Some(elements) = self.context.array_elements(index) else {
            return Ok(false);
        };
        if !has_default(elements) {
            return Ok(false);
        }
        self.control
            .values(self.context, &[ValueType::I32], &[not_null(index)])
    }

    pub(crate) fn array_new_fixed(&mut self, index: u32, size: u32) -> Result<bool, AllocError>
        ensures same { self.new.context ≡ self.old.context }
        ensures steps { Follows (M.environment self.old.context.now) (or_invalid (array_new_fixed index size) ((M.environment self.old.context.now).arrays index)) self.old.control result self.new.control }
    {
        let Some(elements) = self.context.array_elements(index) else {
            return Ok(false);
        };
        if !self
            .control
            .expect_many(self.context, operand(elements), size)
        {
            return Ok(false);
        }
        self.control.give(not_null(index))?;
        Ok(true)
    }

    pub(crate) fn array_new_data(&mut self, index: u32, segment: u32) -> Result<bool, AllocError>
        ensures same { self.new.context ≡ self.old.context }
        ensures steps { Follows (M.environment self.old.context.now) (or_invalid (array_new_data (M.environment self.old.context.now) index segment) ((M.environment self.old.context.now).arrays index)) self.old.control result self.new.control }
    {
        let Some(elements) = self.context.array_elements(index) else {
            return Ok(false);
        };
        if !self.context.has_data(segment) {
            return Ok(false);
        }
        if !is_numeric(elements.element_type) {
            return Ok(false);
        }
        self.control.values(
            self.context,
            &[ValueType::I32, ValueType::I32],
            &[not_null(index)],
        )
    }

    pub(crate) fn array_new_elem(&mut self, index: u32, segment: u32) -> Result<bool, AllocError>
        ensures same { self.new.context ≡ self.old.context }
        ensures steps { Follows (M.environment self.old.context.now) (or_invalid (array_new_elem (M.environment self.old.context.now) index segment) ((M.environment self.old.context.now).arrays index)) self.old.control result self.new.control }
    {
        let Some(elements) = self.context.array_elements(index) else {
            return Ok(false);
        };
        let Some(segment) = self.context.element_type(segment) else {
            return Ok(false);
        };
        if !holds(self.context, elements, segment) {
            return Ok(false);
        }
        self.control.values(
            self.context,
            &[ValueType::I32, ValueType::I32],
            &[not_null(index)],
        )
    }

    /// `extends` is whether the operator extends a packed element.
    pub(crate) fn array_get(&mut self, index: u32, extends: bool) -> Result<bool, AllocError>
        ensures same { self.new.context ≡ self.old.context }
        ensures steps { Follows (M.environment self.old.context.now) (or_invalid (array_get extends index) ((M.environment self.old.context.now).arrays index)) self.old.control result self.new.control }
    {
        let Some(elements) = self.context.array_elements(index) else {
            return Ok(false);
        };
        if !same(extends, elements.element_type.is_packed()) {
            return Ok(false);
        }
        self.control.values(
            self.context,
            &[nullable(index), ValueType::I32],
            &[operand(elements)],
        )
    }

    pub(crate) fn array_set(&mut self, index: u32) -> Result<bool, AllocError>
        ensures same { self.new.context ≡ self.old.context }
        ensures steps { Follows (M.environment self.old.context.now) (or_invalid (array_set index) ((M.environment self.old.context.now).arrays index)) self.old.control result self.new.control }
    {
        let Some(elements) = self.context.array_elements(index) else {
            return Ok(false);
        };
        if !elements.mutable {
            return Ok(false);
        }
        self.control.values(
            self.context,
            &[nullable(index), ValueType::I32, operand(elements)],
            &[],
        )
    }

    pub(crate) fn array_fill(&mut self, index: u32) -> Result<bool, AllocError>
        ensures same { self.new.context ≡ self.old.context }
        ensures steps { Follows (M.environment self.old.context.now) (or_invalid (array_fill index) ((M.environment self.old.context.now).arrays index)) self.old.control result self.new.control }
    {
        let Some(elements) = self.context.array_elements(index) else {
            return Ok(false);
        };
        if !elements.mutable {
            return Ok(false);
        }
        self.control.values(
            self.context,
            &[
                nullable(index),
                ValueType::I32,
                operand(elements),
                ValueType::I32,
            ],
            &[],
        )
    }

    pub(crate) fn array_copy(&mut self, index: u32, from: u32) -> Result<bool, AllocError>
        ensures same { self.new.context ≡ self.old.context }
        ensures steps { Follows (M.environment self.old.context.now) (or_invalid (λ f. or_invalid (array_copy (M.environment self.old.context.now).order index from f) ((M.environment self.old.context.now).arrays from)) ((M.environment self.old.context.now).arrays index)) self.old.control result self.new.control }
    {
        let Some(elements) = self.context.array_elements(index) else {
            return Ok(false);
        };
        let Some(source) = self.context.array_elements(from) else {
            return Ok(false);
        };
        if !elements.mutable {
            return Ok(false);
        }
        if !storage_matches(self.context, source.element_type, elements.element_type) {
            return Ok(false);
        }
        let int = ValueType::I32;
        self.control.values(
            self.context,
            &[nullable(index), int, nullable(from), int, int],
            &[],
        )
    }

    pub(crate) fn array_init_data(&mut self, index: u32, segment: u32) -> Result<bool, AllocError>
        ensures same { self.new.context ≡ self.old.context }
        ensures steps { Follows (M.environment self.old.context.now) (or_invalid (array_init_data (M.environment self.old.context.now) index segment) ((M.environment self.old.context.now).arrays index)) self.old.control result self.new.control }
    {
        let Some(elements) = self.context.array_elements(index) else {
            return Ok(false);
        };
        if !self.context.has_data(segment) {
            return Ok(false);
        }
        if !elements.mutable {
            return Ok(false);
        }
        if !is_numeric(elements.element_type) {
            return Ok(false);
        }
        self.control.values(
            self.context,
            &[
                nullable(index),
                ValueType::I32,
                ValueType::I32,
                ValueType::I32,
            ],
            &[],
        )
    }

    pub(crate) fn array_init_elem(&mut self, index: u32, segment: u32) -> Result<bool, AllocError>
        ensures same { self.new.context ≡ self.old.context }
        ensures steps { Follows (M.environment self.old.context.now) (or_invalid (array_init_elem (M.environment self.old.context.now) index segment) ((M.environment self.old.context.now).arrays index)) self.old.control result self.new.control }
    {
        let Some(elements) = self.context.array_elements(index) else {
            return Ok(false);
        };
        let Some(segment) = self.context.element_type(segment) else {
            return Ok(false);
        };
        if !elements.mutable {
            return Ok(false);
        }
        if !holds(self.context, elements, segment) {
            return Ok(false);
        }
        self.control.values(
            self.context,
            &[
                nullable(index),
                ValueType::I32,
                ValueType::I32,
                ValueType::I32,
            ],
            &[],
        )
    }
}
