ghost use Rattle.std.specs.Prelude.{◌≡◌, map, reverse};
ghost use Rattle.wasm_typing.specs.Rules.{or_invalid};
ghost use Rattle.wasm_check_control.specs.State.{Answers, taken};
ghost use Rattle.wasm_check_operators.specs.Aggregates.{operand, struct_new, struct_new_default, struct_get, struct_set, have_defaults};
ghost use Rattle.wasm_check_operators.specs.Language.{Follows};

use crate::checker::Checker;
use crate::fields::{has_default, not_null, operand, same};
use crate::types::nullable;
use std::alloc::AllocError;
use wasm_check_control::{Control, ModuleContext};
use wasm_types::FieldType;

/// Takes the operands of these fields. The last is on top.
fn expect_fields<M: ModuleContext>(
    control: &mut Control<'_>,
    context: &M,
    fields: &[FieldType],
) -> bool
    ensures { Answers result (taken (M.environment context.now).order (reverse (map operand fields.now)) control.old) control.new }
{
    if control.is_closed() {
        return false;
    }
    for i in 0..fields.len() {
        if !control.expect(context, operand(fields[fields.len() - 1 - i])) {
            return false;
        }
    }
    true
}

fn have_defaults(fields: &[FieldType]) -> bool
    ensures { result ≡ have_defaults fields.now }
{
    for i in 0..fields.len() {
        if !has_default(fields[i]) {
            return false;
        }
    }
    true
}

/// Structures.
impl<'m, M: ModuleContext> Checker<'m, M> {
    pub(crate) fn struct_new(&mut self, index: u32) -> Result<bool, AllocError>
        ensures same { self.new.context ≡ self.old.context }
        ensures steps { Follows (M.environment self.old.context.now) (or_invalid (struct_new index) ((M.environment self.old.context.now).structures index)) self.old.control result self.new.control }
    {
        let Some(ty) = self.context.struct_type(index) else {
            return Ok(false);
        };
        if !expect_fields(&mut self.control, self.context, ty.fields) {
            return Ok(false);
        }
        self.control.give(not_null(index))?;
        Ok(true)
    }

    pub(crate) fn struct_new_default(&mut self, index: u32) -> Result<bool, AllocError>
        ensures same { self.new.context ≡ self.old.context }
        ensures steps { Follows (M.environment self.old.context.now) (or_invalid (struct_new_default index) ((M.environment self.old.context.now).structures index)) self.old.control result self.new.control }
    {
        let Some(ty) = self.context.struct_type(index) else {
            return Ok(false);
        };
        if !have_defaults(ty.fields) {
            return Ok(false);
        }
        self.control.values(self.context, &[], &[not_null(index)])
    }

    /// `extends` is whether the operator extends a packed field.
    pub(crate) fn struct_get(
        &mut self,
        index: u32,
        field: u32,
        extends: bool,
    ) -> Result<bool, AllocError>
        ensures same { self.new.context ≡ self.old.context }
        ensures steps { Follows (M.environment self.old.context.now) (or_invalid (struct_get extends index field) ((M.environment self.old.context.now).structures index)) self.old.control result self.new.control }
    {
        let Some(ty) = self.context.struct_type(index) else {
            return Ok(false);
        };
        let Some(field) = ty.fields.get(field as usize).copied() else {
            return Ok(false);
        };
        if !same(extends, field.element_type.is_packed()) {
            return Ok(false);
        }
        self.control
            .values(self.context, &[nullable(index)], &[operand(field)])
    }

    pub(crate) fn struct_set(&mut self, index: u32, field: u32) -> Result<bool, AllocError>
        ensures same { self.new.context ≡ self.old.context }
        ensures steps { Follows (M.environment self.old.context.now) (or_invalid (struct_set index field) ((M.environment self.old.context.now).structures index)) self.old.control result self.new.control }
    {
        let Some(ty) = self.context.struct_type(index) else {
            return Ok(false);
        };
        let Some(field) = ty.fields.get(field as usize).copied() else {
            return Ok(false);
        };
        if !field.mutable {
            return Ok(false);
        }
        self.control
            .values(self.context, &[nullable(index), operand(field)], &[])
    }
}
