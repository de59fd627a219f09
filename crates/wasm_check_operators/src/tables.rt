ghost use Rattle.std.specs.Prelude.{◌≡◌};
ghost use Rattle.wasm_typing.specs.Rules.{or_invalid};
ghost use Rattle.wasm_check_operators.specs.Language.{Follows};
ghost use Rattle.wasm_check_operators.specs.Tables.{table_get, table_set, table_size, table_grow, table_fill, table_copy, table_init, elem_drop};

use crate::checker::Checker;
use crate::types::{address, both, reference};
use std::alloc::AllocError;
use wasm_check_control::{ModuleContext, matches};
use wasm_typing::ValueType;

/// Table instructions.
impl<'m, M: ModuleContext> Checker<'m, M> {
    pub(crate) fn table_get(&mut self, index: u32) -> Result<bool, AllocError>
        ensures same { self.new.context ≡ self.old.context }
        ensures steps { Follows (M.environment self.old.context.now) (or_invalid table_get ((M.environment self.old.context.now).tables index)) self.old.control result self.new.control }
    {
        match self.context.table_type(index) {
            Some(table) => self.control.values(
                self.context,
                &[address(table.table64)],
                &[reference(table.element_type)],
            ),
            None => Ok(false),
        }
    }

    pub(crate) fn table_set(&mut self, index: u32) -> Result<bool, AllocError>
        ensures same { self.new.context ≡ self.old.context }
        ensures steps { Follows (M.environment self.old.context.now) (or_invalid table_set ((M.environment self.old.context.now).tables index)) self.old.control result self.new.control }
    {
        match self.context.table_type(index) {
            Some(table) => self.control.values(
                self.context,
                &[address(table.table64), reference(table.element_type)],
                &[],
            ),
            None => Ok(false),
        }
    }

    pub(crate) fn table_size(&mut self, index: u32) -> Result<bool, AllocError>
        ensures same { self.new.context ≡ self.old.context }
        ensures steps { Follows (M.environment self.old.context.now) (or_invalid table_size ((M.environment self.old.context.now).tables index)) self.old.control result self.new.control }
    {
        match self.context.table_type(index) {
            Some(table) => self
                .control
                .values(self.context, &[], &[address(table.table64)]),
            None => Ok(false),
        }
    }

    pub(crate) fn table_grow(&mut self, index: u32) -> Result<bool, AllocError>
        ensures same { self.new.context ≡ self.old.context }
        ensures steps { Follows (M.environment self.old.context.now) (or_invalid table_grow ((M.environment self.old.context.now).tables index)) self.old.control result self.new.control }
    {
        match self.context.table_type(index) {
            Some(table) => {
                let address = address(table.table64);
                self.control.values(
                    self.context,
                    &[reference(table.element_type), address],
                    &[address],
                )
            }
            None => Ok(false),
        }
    }

    pub(crate) fn table_fill(&mut self, index: u32) -> Result<bool, AllocError>
        ensures same { self.new.context ≡ self.old.context }
        ensures steps { Follows (M.environment self.old.context.now) (or_invalid table_fill ((M.environment self.old.context.now).tables index)) self.old.control result self.new.control }
    {
        match self.context.table_type(index) {
            Some(table) => {
                let address = address(table.table64);
                self.control.values(
                    self.context,
                    &[address, reference(table.element_type), address],
                    &[],
                )
            }
            None => Ok(false),
        }
    }

    pub(crate) fn table_copy(&mut self, to: u32, from: u32) -> Result<bool, AllocError>
        ensures same { self.new.context ≡ self.old.context }
        ensures steps { Follows (M.environment self.old.context.now)
            (or_invalid (λ t. or_invalid (λ s. table_copy (M.environment self.old.context.now).order t s) ((M.environment self.old.context.now).tables from)) ((M.environment self.old.context.now).tables to))
            self.old.control result self.new.control }
    {
        let Some(to) = self.context.table_type(to) else {
            return Ok(false);
        };
        let Some(from) = self.context.table_type(from) else {
            return Ok(false);
        };
        if !matches(
            self.context,
            reference(from.element_type),
            reference(to.element_type),
        ) {
            return Ok(false);
        }
        let count = address(both(to.table64, from.table64));
        self.control.values(
            self.context,
            &[address(to.table64), address(from.table64), count],
            &[],
        )
    }

    pub(crate) fn table_init(&mut self, segment: u32, table: u32) -> Result<bool, AllocError>
        ensures same { self.new.context ≡ self.old.context }
        ensures steps { Follows (M.environment self.old.context.now)
            (or_invalid (λ t. or_invalid (λ r. table_init (M.environment self.old.context.now).order t r) ((M.environment self.old.context.now).elements segment)) ((M.environment self.old.context.now).tables table))
            self.old.control result self.new.control }
    {
        let Some(table) = self.context.table_type(table) else {
            return Ok(false);
        };
        let Some(element) = self.context.element_type(segment) else {
            return Ok(false);
        };
        if !matches(
            self.context,
            reference(element),
            reference(table.element_type),
        ) {
            return Ok(false);
        }
        self.control.values(
            self.context,
            &[address(table.table64), ValueType::I32, ValueType::I32],
            &[],
        )
    }

    pub(crate) fn elem_drop(&mut self, segment: u32) -> Result<bool, AllocError>
        ensures same { self.new.context ≡ self.old.context }
        ensures steps { Follows (M.environment self.old.context.now) (or_invalid elem_drop ((M.environment self.old.context.now).elements segment)) self.old.control result self.new.control }
    {
        match self.context.element_type(segment) {
            Some(_) => self.control.values(self.context, &[], &[]),
            None => Ok(false),
        }
    }
}
