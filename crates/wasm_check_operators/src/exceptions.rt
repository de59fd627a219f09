ghost use Rattle.std.specs.Prelude.{◌≡◌, Some, IfOk, []};
ghost use Rattle.std.specs.Option.{option_map};
ghost use Rattle.wasm_grammar.specs.Role.{try_table};
ghost use Rattle.wasm_instr.specs.declared.operator.Operator.TheVariants as operator;
ghost use Rattle.wasm_typing.specs.Checking.{all_match};
ghost use Rattle.wasm_typing.specs.Rules.{or_invalid, jumps, at};
ghost use Rattle.wasm_typing.specs.Steps.{of_nest, labels_of};
ghost use Rattle.wasm_check_control.specs.Environment.{stack_of};
ghost use Rattle.wasm_check_control.specs.State.{Answers, by_rule, opens_by, results_of};
ghost use Rattle.wasm_check_operators.specs.Exceptions.{operands_of_tag, with_exception, passes, clause_fits, clauses_fit};
ghost use Rattle.wasm_check_operators.specs.Language.{opening_type};

use crate::checker::Checker;
use std::alloc::AllocError;
use wasm_below::{AbstractHeapType, HeapType, ValType};
use wasm_check_control::{Control, FrameKind, ModuleContext, ResultTypes, all_match, matches};
use wasm_imm::{Catch, TryTable};
use wasm_typing::{Heap, ValueType};

const EXCEPTION: ValueType = ValueType::Ref {
    nullable: false,
    heap: Heap::Known(HeapType::Abstract {
        shared: false,
        ty: AbstractHeapType::Exn,
    }),
};

/// Returns the types of the operands of an exception with this tag.
fn operands_of_tag<M: ModuleContext>(context: &M, tag: u32) -> Option<&[ValType]>
    ensures { option_map (λ s. stack_of s.now) result ≡ operands_of_tag (M.environment context.now) tag }
{
    let Some(f) = context.tag_type(tag) else {
        return None;
    };
    if f.results.is_empty() {
        return Some(f.params);
    }
    None
}

/// Returns whether each type matches its counterpart in a label.
#[tactic(auto, using(crate::proofs::Matched::other_length, crate::proofs::Matched::one_type))]
fn match_label<M: ModuleContext>(context: &M, types: &[ValType], label: ResultTypes<'_>) -> bool
    ensures { result ≡ all_match (M.environment context.now).order (stack_of types.now) (results_of label.entry.one label.entry.many.now) }
{
    match label.one {
        Some(wanted) => {
            if types.len() != 1 {
                return false;
            }
            matches(context, ValueType::new(types[0]), wanted)
        }
        None => all_match(context, types, label.many),
    }
}

/// The same with a reference to the exception on top.
fn match_label_with_exception<M: ModuleContext>(
    context: &M,
    types: &[ValType],
    label: ResultTypes<'_>,
) -> bool
    ensures { result ≡ all_match (M.environment context.now).order (with_exception (stack_of types.now)) (results_of label.entry.one label.entry.many.now) }
{
    if let Some(wanted) = label.one {
        if !matches(context, EXCEPTION, wanted) {
            return false;
        }
        return types.is_empty();
    }
    if label.many.is_empty() {
        return false;
    }
    let count = label.many.len() - 1;
    if !matches(context, EXCEPTION, ValueType::new(label.many[count])) {
        return false;
    }
    all_match(context, types, &label.many[..count])
}

/// Returns whether operands of these types match the label at a depth.
fn passes<M: ModuleContext>(
    control: &Control<'_>,
    context: &M,
    types: &[ValType],
    depth: u32,
) -> bool
    ensures { result ≡ passes (M.environment context.now).order (Some (stack_of types.now)) (at (labels_of control.now) depth) }
{
    match control.label(depth) {
        Some(label) => match_label(context, types, label),
        None => false,
    }
}

fn passes_with_exception<M: ModuleContext>(
    control: &Control<'_>,
    context: &M,
    types: &[ValType],
    depth: u32,
) -> bool
    ensures { result ≡ passes (M.environment context.now).order (Some (with_exception (stack_of types.now))) (at (labels_of control.now) depth) }
{
    match control.label(depth) {
        Some(label) => match_label_with_exception(context, types, label),
        None => false,
    }
}

fn clause_fits<M: ModuleContext>(control: &Control<'_>, context: &M, clause: Catch) -> bool
    ensures { result ≡ clause_fits (M.environment context.now) (labels_of control.now) clause }
{
    match clause {
        Catch::One { tag, label } => match operands_of_tag(context, tag) {
            Some(types) => passes(control, context, types, label),
            None => false,
        },
        Catch::OneRef { tag, label } => match operands_of_tag(context, tag) {
            Some(types) => passes_with_exception(control, context, types, label),
            None => false,
        },
        Catch::All { label } => passes(control, context, &[], label),
        Catch::AllRef { label } => passes_with_exception(control, context, &[], label),
    }
}

fn clauses_fit<M: ModuleContext>(control: &Control<'_>, context: &M, clauses: &[Catch]) -> bool
    ensures { result ≡ clauses_fit (M.environment context.now) (labels_of control.now) clauses.now }
{
    for i in 0..clauses.len() {
        if !clause_fits(control, context, clauses[i]) {
            return false;
        }
    }
    true
}

/// Exceptions.
impl<'m, M: ModuleContext> Checker<'m, M> {
    pub(crate) fn throw(&mut self, tag: u32) -> bool
        ensures same { self.new.context ≡ self.old.context }
        ensures steps { Answers result (by_rule (M.environment self.old.context.now).order (or_invalid (λ s. jumps s) (operands_of_tag (M.environment self.old.context.now) tag)) self.old.control) self.new.control }
    {
        match operands_of_tag(self.context, tag) {
            Some(types) => self.control.jumps(self.context, None, types),
            None => false,
        }
    }

    /// `try_table`. The labels of its clauses are counted from outside of it.
    pub(crate) fn open_try_table(&mut self, table: &TryTable) -> Result<bool, AllocError>
        ensures same { self.new.context ≡ self.old.context }
        ensures steps { IfOk result (λ yes. Answers yes (opens_by (M.environment self.old.context.now).order (of_nest try_table) [] (opening_type (M.environment self.old.context.now) (labels_of self.old.control) (operator.TryTable table.now)) self.old.control) self.new.control) }
    {
        if !clauses_fit(&self.control, self.context, table.catches.as_slice()) {
            return Ok(false);
        }
        self.open(FrameKind::TryTable, table.ty)
    }
}
