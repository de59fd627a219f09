ghost use Rattle.std.specs.Prelude.{◌≡◌};
ghost use Rattle.std.specs.Option.{option_map};
ghost use Rattle.wasm_typing.specs.Rules.{at};
ghost use Rattle.wasm_typing.specs.Steps.{labels_of};
ghost use Rattle.wasm_check_control.specs.Environment.{composite_kind, stack_of};
ghost use Rattle.wasm_check_control.specs.State.{results_of};
ghost use Rattle.wasm_check_operators.specs.Casts.{top_of_abstract, top_of_kind, top_of, cast, difference, cast_branch, is_cast, br_on_cast, br_on_cast_fail};
ghost use Rattle.wasm_check_operators.specs.Language.{Follows};

use crate::checker::Checker;
use crate::types::{abstract_type, reference};
use crate::validity::is_valid_heap;
use std::alloc::AllocError;
use wasm_below::{AbstractHeapType, HeapType, RefType, ValType};
use wasm_check_control::{CompositeKind, ModuleContext, ResultTypes, matches};
use wasm_typing::{Heap, ValueType};

fn top_of_abstract(ty: AbstractHeapType) -> AbstractHeapType
    ensures { result ≡ top_of_abstract ty }
{
    match ty {
        AbstractHeapType::Func | AbstractHeapType::NoFunc => AbstractHeapType::Func,
        AbstractHeapType::Extern | AbstractHeapType::NoExtern => AbstractHeapType::Extern,
        AbstractHeapType::Exn | AbstractHeapType::NoExn => AbstractHeapType::Exn,
        AbstractHeapType::Any
        | AbstractHeapType::None
        | AbstractHeapType::Eq
        | AbstractHeapType::Struct
        | AbstractHeapType::Array
        | AbstractHeapType::I31
        | AbstractHeapType::Cont
        | AbstractHeapType::NoCont => AbstractHeapType::Any,
    }
}

fn top_of_kind(kind: Option<CompositeKind>) -> AbstractHeapType
    ensures { result ≡ top_of_kind (option_map composite_kind kind) }
{
    match kind {
        Some(CompositeKind::Func) => AbstractHeapType::Func,
        Some(CompositeKind::Struct | CompositeKind::Array) | None => AbstractHeapType::Any,
    }
}

/// Returns the greatest type of the hierarchy of a valid heap type.
fn top_of<M: ModuleContext>(context: &M, ty: HeapType) -> AbstractHeapType
    ensures { result ≡ top_of (M.environment context.now).order ty }
{
    match ty {
        HeapType::Abstract { ty, .. } => top_of_abstract(ty),
        HeapType::Concrete(index) => top_of_kind(context.composite_kind(index)),
        HeapType::Exact(_) => AbstractHeapType::Any,
    }
}

/// Returns what is left of a reference type if a cast to the other fails.
fn difference(from: RefType, to: RefType) -> ValueType
    ensures { result ≡ difference from to }
{
    ValueType::Ref {
        nullable: if to.is_nullable() {
            false
        } else {
            from.is_nullable()
        },
        heap: Heap::Known(from.heap_type()),
    }
}

fn is_cast<M: ModuleContext>(context: &M, from: RefType, to: RefType) -> bool
    ensures { result ≡ is_cast (M.environment context.now).order from to }
{
    if !is_valid_heap(context, from.heap_type()) {
        return false;
    }
    if !is_valid_heap(context, to.heap_type()) {
        return false;
    }
    matches(context, reference(to), reference(from))
}

/// Casts.
impl<'m, M: ModuleContext> Checker<'m, M> {
    /// `ref.test` and `ref.cast`: takes a reference of the same hierarchy.
    pub(crate) fn cast(&mut self, ty: HeapType, leaves: ValueType) -> Result<bool, AllocError>
        ensures same { self.new.context ≡ self.old.context }
        ensures steps { Follows (M.environment self.old.context.now) (cast (M.environment self.old.context.now).order ty leaves) self.old.control result self.new.control }
    {
        if !is_valid_heap(self.context, ty) {
            return Ok(false);
        }
        let top = abstract_type(top_of(self.context, ty));
        self.control.values(self.context, &[top], &[leaves])
    }

    pub(crate) fn branch_on_cast(
        &mut self,
        depth: u32,
        from: RefType,
        to: RefType,
    ) -> Result<bool, AllocError>
        ensures same { self.new.context ≡ self.old.context }
        ensures steps { Follows (M.environment self.old.context.now) (br_on_cast (M.environment self.old.context.now) from to (at (labels_of self.old.control) depth)) self.old.control result self.new.control }
    {
        if !is_cast(self.context, from, to) {
            return Ok(false);
        }
        match self.control.label(depth) {
            Some(label) => self.cast_branch(
                reference(from),
                reference(to),
                difference(from, to),
                label,
            ),
            None => Ok(false),
        }
    }

    pub(crate) fn branch_on_cast_fail(
        &mut self,
        depth: u32,
        from: RefType,
        to: RefType,
    ) -> Result<bool, AllocError>
        ensures same { self.new.context ≡ self.old.context }
        ensures steps { Follows (M.environment self.old.context.now) (br_on_cast_fail (M.environment self.old.context.now) from to (at (labels_of self.old.control) depth)) self.old.control result self.new.control }
    {
        if !is_cast(self.context, from, to) {
            return Ok(false);
        }
        match self.control.label(depth) {
            Some(label) => self.cast_branch(
                reference(from),
                difference(from, to),
                reference(to),
                label,
            ),
            None => Ok(false),
        }
    }

    /// Takes the operand `from`, which is `goes` at the label and `stays` without a branch.
    fn cast_branch(
        &mut self,
        from: ValueType,
        goes: ValueType,
        stays: ValueType,
        label: ResultTypes<'_>,
    ) -> Result<bool, AllocError>
        ensures same { self.new.context ≡ self.old.context }
        ensures steps { Follows (M.environment self.old.context.now) (cast_branch (M.environment self.old.context.now).order from goes stays (results_of label.entry.one label.entry.many.now)) self.old.control result self.new.control }
    {
        match label.one {
            Some(ty) => {
                if !matches(self.context, goes, ty) {
                    return Ok(false);
                }
                self.control.values(self.context, &[from], &[stays])
            }
            None => self.cast_among(from, goes, stays, label.many),
        }
    }

    fn cast_among(
        &mut self,
        from: ValueType,
        goes: ValueType,
        stays: ValueType,
        label: &[ValType],
    ) -> Result<bool, AllocError>
        ensures same { self.new.context ≡ self.old.context }
        ensures steps { Follows (M.environment self.old.context.now) (cast_branch (M.environment self.old.context.now).order from goes stays (stack_of label.now)) self.old.control result self.new.control }
    {
        if label.is_empty() {
            return Ok(false);
        }
        let count = label.len() - 1;
        if !matches(self.context, goes, ValueType::new(label[count])) {
            return Ok(false);
        }
        self.control
            .replaces(self.context, from, stays, &label[..count])
    }
}
