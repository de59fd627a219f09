ghost use Rattle.std.specs.Prelude.{◌≡◌, true};
ghost use Rattle.wasm_typing.specs.Rules.{or_invalid, branches_on_null, at};
ghost use Rattle.wasm_typing.specs.Steps.{labels_of};
ghost use Rattle.wasm_check_control.specs.Environment.{stack_of};
ghost use Rattle.wasm_check_operators.specs.Language.{Follows};
ghost use Rattle.wasm_check_operators.specs.References.{ref_null, ref_func, branches_on_non_null};

use crate::checker::Checker;
use crate::validity::is_valid_heap;
use std::alloc::AllocError;
use wasm_below::{HeapType, ValType};
use wasm_check_control::ModuleContext;
use wasm_typing::{Heap, ValueType};

fn or_null(heap: Heap) -> ValueType
    ensures { result ≡ ValueType.Ref true heap }
{
    ValueType::Ref {
        nullable: true,
        heap,
    }
}

/// Reference instructions.
impl<'m, M: ModuleContext> Checker<'m, M> {
    pub(crate) fn ref_null(&mut self, ty: HeapType) -> Result<bool, AllocError>
        ensures same { self.new.context ≡ self.old.context }
        ensures steps { Follows (M.environment self.old.context.now) (ref_null (M.environment self.old.context.now) ty) self.old.control result self.new.control }
    {
        if !is_valid_heap(self.context, ty) {
            return Ok(false);
        }
        self.control
            .values(self.context, &[], &[or_null(Heap::Known(ty))])
    }

    pub(crate) fn ref_func(&mut self, function: u32) -> Result<bool, AllocError>
        ensures same { self.new.context ≡ self.old.context }
        ensures steps { Follows (M.environment self.old.context.now) (ref_func (M.environment self.old.context.now) function) self.old.control result self.new.control }
    {
        if !self.context.is_declared(function) {
            return Ok(false);
        }
        match self.context.type_index(function) {
            Some(index) => self.control.values(
                self.context,
                &[],
                &[ValueType::Ref {
                    nullable: false,
                    heap: Heap::Known(HeapType::Concrete(index)),
                }],
            ),
            None => Ok(false),
        }
    }

    pub(crate) fn branch_on_null(&mut self, depth: u32) -> Result<bool, AllocError>
        ensures same { self.new.context ≡ self.old.context }
        ensures steps { Follows (M.environment self.old.context.now) (or_invalid (λ s. branches_on_null s) (at (labels_of self.old.control) depth)) self.old.control result self.new.control }
    {
        match self.control.label(depth) {
            Some(label) => self
                .control
                .branches_on_null(self.context, label.one, label.many),
            None => Ok(false),
        }
    }

    /// A label that ends in a reference takes it from the operator, and its other operands stay.
    pub(crate) fn branch_on_non_null(&mut self, depth: u32) -> Result<bool, AllocError>
        ensures same { self.new.context ≡ self.old.context }
        ensures steps { Follows (M.environment self.old.context.now) (or_invalid branches_on_non_null (at (labels_of self.old.control) depth)) self.old.control result self.new.control }
    {
        let Some(label) = self.control.label(depth) else {
            return Ok(false);
        };
        match label.one {
            Some(ValueType::Ref { heap, .. }) => {
                self.control.values(self.context, &[or_null(heap)], &[])
            }
            Some(_) => Ok(false),
            None => self.branch_with_reference(label.many),
        }
    }

    fn branch_with_reference(&mut self, label: &[ValType]) -> Result<bool, AllocError>
        ensures same { self.new.context ≡ self.old.context }
        ensures steps { Follows (M.environment self.old.context.now) (branches_on_non_null (stack_of label.now)) self.old.control result self.new.control }
    {
        if label.is_empty() {
            return Ok(false);
        }
        let count = label.len() - 1;
        let ValueType::Ref { heap, .. } = ValueType::new(label[count]) else {
            return Ok(false);
        };
        let others = &label[..count];
        self.control
            .fixed_with(self.context, or_null(heap), others, others)
    }
}
