ghost use Rattle.std.specs.Prelude.{◌≡◌, IfOk, MatchOption};
ghost use Rattle.wasm_typing.specs.Checking.{heap_of, converted};
ghost use Rattle.wasm_typing.specs.Matching.{TypeOrder};
ghost use Rattle.wasm_typing.specs.Rules.{tests_null, makes_non_null, branches_on_null, converts};
ghost use Rattle.wasm_check_control.specs.State.{Answers, by_rule, results_of, took_ref};

use crate::context::ModuleContext;
use crate::control::Control;
use crate::value_matches::heap_matches;
use std::alloc::AllocError;
use wasm_below::{HeapType, ValType};
use wasm_typing::{Heap, ValueType};

fn heap_of(ty: ValueType) -> Option<Heap>
    ensures { result ≡ heap_of ty }
{
    match ty {
        ValueType::Ref { heap, .. } => Some(heap),
        ValueType::Bottom => Some(Heap::Unknown),
        ValueType::I32 | ValueType::I64 | ValueType::F32 | ValueType::F64 | ValueType::V128 => None,
    }
}

/// Returns the type of an operand after a conversion from one hierarchy to another.
fn converted<M: ModuleContext>(
    context: &M,
    from: HeapType,
    to: HeapType,
    ty: ValueType,
) -> Option<ValueType>
    ensures { result ≡ converted (M.environment context.now).order from to ty }
{
    match ty {
        ValueType::Bottom => Some(ValueType::Ref {
            nullable: false,
            heap: Heap::Known(to),
        }),
        ValueType::Ref { nullable, heap } => {
            if heap_matches(context, heap, Heap::Known(from)) {
                Some(ValueType::Ref {
                    nullable,
                    heap: Heap::Known(to),
                })
            } else {
                None
            }
        }
        ValueType::I32 | ValueType::I64 | ValueType::F32 | ValueType::F64 | ValueType::V128 => None,
    }
}

/// Operators on references of any type. Each function returns whether the operator has a type.
impl<'m> Control<'m> {
    /// Takes the reference on top and returns its heap type. In unreachable code, it may be bot.
    pub fn take_ref(&mut self) -> Option<Heap>
        ensures { MatchOption result (took_ref self.old ≡ None) (λ h. took_ref self.old ≡ Some (h, self.new)) }
    {
        match self.take() {
            Some(found) => heap_of(found),
            None => None,
        }
    }

    /// `ref.is_null`.
    pub fn tests_null(&mut self) -> Result<bool, AllocError>
        ensures { (O : TypeOrder) → IfOk result (λ yes. Answers yes (by_rule O tests_null self.old) self.new) }
    {
        if self.take_ref().is_none() {
            return Ok(false);
        }
        self.give(ValueType::I32)?;
        Ok(true)
    }

    /// `ref.as_non_null`.
    pub fn makes_non_null(&mut self) -> Result<bool, AllocError>
        ensures { (O : TypeOrder) → IfOk result (λ yes. Answers yes (by_rule O makes_non_null self.old) self.new) }
    {
        let Some(heap) = self.take_ref() else {
            return Ok(false);
        };
        self.give(ValueType::Ref {
            nullable: false,
            heap,
        })?;
        Ok(true)
    }

    /// `br_on_null`: takes a reference and these below it, and leaves both.
    pub fn branches_on_null<M: ModuleContext>(
        &mut self,
        context: &M,
        one: Option<ValueType>,
        label: &[ValType],
    ) -> Result<bool, AllocError>
        ensures { IfOk result (λ yes. Answers yes (by_rule (M.environment context.now).order (branches_on_null (results_of one label.now)) self.old) self.new) }
    {
        let Some(heap) = self.take_ref() else {
            return Ok(false);
        };
        if !self.expect_results(context, one, label) {
            return Ok(false);
        }
        self.give_results(one, label)?;
        self.give(ValueType::Ref {
            nullable: false,
            heap,
        })?;
        Ok(true)
    }

    /// `any.convert_extern` and `extern.convert_any`.
    pub fn converts<M: ModuleContext>(
        &mut self,
        context: &M,
        from: HeapType,
        to: HeapType,
    ) -> Result<bool, AllocError>
        ensures { IfOk result (λ yes. Answers yes (by_rule (M.environment context.now).order (converts from to) self.old) self.new) }
    {
        let Some(found) = self.take() else {
            return Ok(false);
        };
        let Some(ty) = converted(context, from, to, found) else {
            return Ok(false);
        };
        self.give(ty)?;
        Ok(true)
    }
}
