ghost use Rattle.std.specs.Prelude.{◌≡◌};
ghost use Rattle.std.specs.Option.{option_and_then};
ghost use Rattle.wasm_instr.specs.Arity.{arity_of, sum_within, taking_more, arity_of_block, arity_of_frame, arity_of_label, arity_of_function, arity_of_continuation, arity_of_entry, arity_of_if, arity_of_else, arity_of_catch, arity_of_catch_all, arity_of_end, arity_of_return, leaving, arity_of_branch, arity_of_branch_if, arity_of_branch_on_null, arity_of_branch_on_non_null, arity_of_type_call, arity_of_select, bound_within, arity_of_bind, arity_of_resume, arity_of_resume_throw, arity_of_resume_throw_ref, arity_of_switched, arity_of_switch, arity_of_struct, gc_arity_of};

use crate::fixed_arity::gc_fixed_arity;
use crate::operator::Operator;
use wasm_grammar::FrameKind;
use wasm_imm::BlockType;
use wasm_instr_ops::GcOperator;

/// A module, as far as arities depend on it. A pair is the numbers of parameters and results.
pub trait ModuleArity {
    ghost use Rattle.std.specs.Prelude.{◌≡◌};
    ghost use Rattle.wasm_instr.specs.ModuleFacts.{ModuleFacts};

    /// The results of all methods of the trait.
    ghost facts: { Self → ModuleFacts };

    fn func_type_arity(&self, type_index: u32) -> Option<(u32, u32)>
        ensures { result ≡ (facts self.now).func_type_arity type_index };

    fn struct_type_fields(&self, type_index: u32) -> Option<u32>
        ensures { result ≡ (facts self.now).struct_type_fields type_index };

    /// Returns the index of the function type of this continuation type.
    fn cont_type_func(&self, type_index: u32) -> Option<u32>
        ensures { result ≡ (facts self.now).cont_type_func type_index };

    /// Returns the index of the continuation type that is the last parameter of this function type.
    fn cont_type_of_last_param(&self, type_index: u32) -> Option<u32>
        ensures { result ≡ (facts self.now).cont_type_of_last_param type_index };

    fn tag_type_arity(&self, tag_index: u32) -> Option<(u32, u32)>
        ensures { result ≡ (facts self.now).tag_type_arity tag_index };

    fn type_index_of_function(&self, function_index: u32) -> Option<u32>
        ensures { result ≡ (facts self.now).type_index_of_function function_index };

    fn control_stack_height(&self) -> u32
        ensures { result ≡ (facts self.now).control_stack_height };

    /// Returns the block type and the kind of the frame at this depth. The innermost frame has
    /// depth 0.
    fn label_block(&self, depth: u32) -> Option<(BlockType, FrameKind)>
        ensures { result ≡ (facts self.now).label_block depth };
}

impl<'a> Operator<'a> {
    /// Returns the numbers of operands and results. Specification: Validation, Instructions.
    ///
    /// Returns `None` if a needed method of the module does, if a number would be below 0 or above
    /// 4294967295, if `return` has no open frame, or if the second continuation type of `cont.bind`
    /// has more parameters than the first.
    pub fn operator_arity<M: ModuleArity>(&self, context: &M) -> Option<(u32, u32)>
        ensures { result ≡ arity_of (M.facts context.now) self.now }
    {
        match self {
            Operator::Block { blockty } | Operator::Loop { blockty } | Operator::Try { blockty } =>
                { entry_arity(context, *blockty) }
            Operator::TryTable { try_table } => entry_arity(context, try_table.ty),
            Operator::If { blockty } => if_arity(context, *blockty),
            Operator::Else => else_arity(context),
            Operator::Catch { tag_index } => catch_arity(context, *tag_index),
            Operator::CatchAll => catch_all_arity(context),
            Operator::End | Operator::Delegate { .. } => end_arity(context),
            Operator::Throw { tag_index } => going(context.tag_type_arity(*tag_index)),
            Operator::Br { relative_depth } => going(branch_arity(context, *relative_depth)),
            Operator::BrIf { relative_depth } => branch_if_arity(context, *relative_depth),
            Operator::BrTable { targets } => going(branch_if_arity(context, targets.default())),
            Operator::Return => return_arity(context),
            Operator::Call { function_index } => function_arity(context, *function_index),
            Operator::ReturnCall { function_index } => {
                going(function_arity(context, *function_index))
            }
            Operator::CallIndirect { type_index, .. } | Operator::CallRef { type_index } => {
                type_call_arity(context, *type_index)
            }
            Operator::ReturnCallIndirect { type_index, .. }
            | Operator::ReturnCallRef { type_index } => {
                going(type_call_arity(context, *type_index))
            }
            Operator::TypedSelectMulti { tys } => select_arity(tys.len()),
            Operator::BrOnNull { relative_depth } => {
                branch_on_null_arity(context, *relative_depth)
            }
            Operator::BrOnNonNull { relative_depth } => {
                branch_on_non_null_arity(context, *relative_depth)
            }
            Operator::ContBind {
                argument_index,
                result_index,
            } => bind_arity(context, *argument_index, *result_index),
            Operator::Suspend { tag_index } => context.tag_type_arity(*tag_index),
            Operator::Resume {
                cont_type_index,
                ..
            } => resume_arity(context, *cont_type_index),
            Operator::ResumeThrow {
                cont_type_index,
                tag_index,
                ..
            } => resume_throw_arity(context, *cont_type_index, *tag_index),
            Operator::ResumeThrowRef {
                cont_type_index,
                ..
            } => resume_throw_ref_arity(context, *cont_type_index),
            Operator::Switch {
                cont_type_index,
                ..
            } => switch_arity(context, *cont_type_index),
            Operator::Gc(op) => gc_arity(context, op),
            _ => self.fixed_arity(),
        }
    }
}

fn sum(n: u32, by: u32) -> Option<u32>
    ensures { result ≡ sum_within n by }
{
    n.checked_add(by)
}

fn one_more(arity: Option<(u32, u32)>) -> Option<(u32, u32)>
    ensures { result ≡ option_and_then (taking_more 1) arity }
{
    match arity {
        Some((takes, leaves)) => match sum(takes, 1) {
            Some(more) => Some((more, leaves)),
            None => None,
        },
        None => None,
    }
}

/// Returns the arity with no results.
fn going(arity: Option<(u32, u32)>) -> Option<(u32, u32)>
    ensures { result ≡ leaving arity }
{
    match arity {
        Some((takes, _)) => Some((takes, 0)),
        None => None,
    }
}

fn block_arity<M: ModuleArity>(context: &M, ty: BlockType) -> Option<(u32, u32)>
    ensures { result ≡ arity_of_block (M.facts context.now) ty }
{
    match ty {
        BlockType::Empty => Some((0, 0)),
        BlockType::Value(_) => Some((0, 1)),
        BlockType::FuncType(index) => context.func_type_arity(index),
    }
}

fn frame_arity<M: ModuleArity>(context: &M, depth: u32) -> Option<(u32, u32)>
    ensures { result ≡ arity_of_frame (M.facts context.now) depth }
{
    match context.label_block(depth) {
        Some((ty, _)) => block_arity(context, ty),
        None => None,
    }
}

fn label_arity<M: ModuleArity>(context: &M, depth: u32) -> Option<u32>
    ensures { result ≡ arity_of_label (M.facts context.now) depth }
{
    match context.label_block(depth) {
        Some((ty, kind)) => match block_arity(context, ty) {
            Some((parameters, results)) => Some(if kind == FrameKind::Loop {
                parameters
            } else {
                results
            }),
            None => None,
        },
        None => None,
    }
}

fn function_arity<M: ModuleArity>(context: &M, index: u32) -> Option<(u32, u32)>
    ensures { result ≡ arity_of_function (M.facts context.now) index }
{
    match context.type_index_of_function(index) {
        Some(ty) => context.func_type_arity(ty),
        None => None,
    }
}

fn continuation_arity<M: ModuleArity>(context: &M, index: u32) -> Option<(u32, u32)>
    ensures { result ≡ arity_of_continuation (M.facts context.now) index }
{
    match context.cont_type_func(index) {
        Some(ty) => context.func_type_arity(ty),
        None => None,
    }
}

fn entry_arity<M: ModuleArity>(context: &M, ty: BlockType) -> Option<(u32, u32)>
    ensures { result ≡ arity_of_entry (M.facts context.now) ty }
{
    match block_arity(context, ty) {
        Some((parameters, _)) => Some((parameters, parameters)),
        None => None,
    }
}

fn if_arity<M: ModuleArity>(context: &M, ty: BlockType) -> Option<(u32, u32)>
    ensures { result ≡ arity_of_if (M.facts context.now) ty }
{
    one_more(entry_arity(context, ty))
}

fn else_arity<M: ModuleArity>(context: &M) -> Option<(u32, u32)>
    ensures { result ≡ arity_of_else (M.facts context.now) }
{
    match frame_arity(context, 0) {
        Some((parameters, results)) => Some((results, parameters)),
        None => None,
    }
}

fn catch_arity<M: ModuleArity>(context: &M, tag: u32) -> Option<(u32, u32)>
    ensures { result ≡ arity_of_catch (M.facts context.now) tag }
{
    match frame_arity(context, 0) {
        Some((_, results)) => match context.tag_type_arity(tag) {
            Some((parameters, _)) => Some((results, parameters)),
            None => None,
        },
        None => None,
    }
}

fn catch_all_arity<M: ModuleArity>(context: &M) -> Option<(u32, u32)>
    ensures { result ≡ arity_of_catch_all (M.facts context.now) }
{
    match frame_arity(context, 0) {
        Some((_, results)) => Some((results, 0)),
        None => None,
    }
}

fn end_arity<M: ModuleArity>(context: &M) -> Option<(u32, u32)>
    ensures { result ≡ arity_of_end (M.facts context.now) }
{
    match frame_arity(context, 0) {
        Some((_, results)) => Some((results, results)),
        None => None,
    }
}

fn return_arity<M: ModuleArity>(context: &M) -> Option<(u32, u32)>
    ensures { result ≡ arity_of_return (M.facts context.now) }
{
    let height = context.control_stack_height();
    if height == 0 {
        return None;
    }
    match frame_arity(context, height - 1) {
        Some((_, results)) => Some((results, 0)),
        None => None,
    }
}

fn branch_arity<M: ModuleArity>(context: &M, depth: u32) -> Option<(u32, u32)>
    ensures { result ≡ arity_of_branch (M.facts context.now) depth }
{
    match label_arity(context, depth) {
        Some(carries) => Some((carries, carries)),
        None => None,
    }
}

fn branch_if_arity<M: ModuleArity>(context: &M, depth: u32) -> Option<(u32, u32)>
    ensures { result ≡ arity_of_branch_if (M.facts context.now) depth }
{
    one_more(branch_arity(context, depth))
}

fn branch_on_null_arity<M: ModuleArity>(context: &M, depth: u32) -> Option<(u32, u32)>
    ensures { result ≡ arity_of_branch_on_null (M.facts context.now) depth }
{
    match label_arity(context, depth) {
        Some(carries) => match sum(carries, 1) {
            Some(more) => Some((more, more)),
            None => None,
        },
        None => None,
    }
}

fn branch_on_non_null_arity<M: ModuleArity>(context: &M, depth: u32) -> Option<(u32, u32)>
    ensures { result ≡ arity_of_branch_on_non_null (M.facts context.now) depth }
{
    match label_arity(context, depth) {
        Some(0) => None,
        Some(carries) => Some((carries, carries - 1)),
        None => None,
    }
}

fn type_call_arity<M: ModuleArity>(context: &M, index: u32) -> Option<(u32, u32)>
    ensures { result ≡ arity_of_type_call (M.facts context.now) index }
{
    one_more(context.func_type_arity(index))
}

fn select_arity(count: usize) -> Option<(u32, u32)>
    ensures { result ≡ arity_of_select count }
{
    if count < 0x8000_0000 {
        let count = count as u32;
        Some((2 * count + 1, count))
    } else {
        None
    }
}

fn bound(parameters: u32, later: u32) -> Option<(u32, u32)>
    ensures { result ≡ bound_within parameters later }
{
    if parameters < later {
        return None;
    }
    match sum(parameters - later, 1) {
        Some(takes) => Some((takes, 1)),
        None => None,
    }
}

fn bind_arity<M: ModuleArity>(context: &M, from: u32, to: u32) -> Option<(u32, u32)>
    ensures { result ≡ arity_of_bind (M.facts context.now) from to }
{
    match continuation_arity(context, from) {
        Some((parameters, _)) => match continuation_arity(context, to) {
            Some((later, _)) => bound(parameters, later),
            None => None,
        },
        None => None,
    }
}

fn resume_arity<M: ModuleArity>(context: &M, index: u32) -> Option<(u32, u32)>
    ensures { result ≡ arity_of_resume (M.facts context.now) index }
{
    one_more(continuation_arity(context, index))
}

fn resume_throw_arity<M: ModuleArity>(context: &M, index: u32, tag: u32) -> Option<(u32, u32)>
    ensures { result ≡ arity_of_resume_throw (M.facts context.now) index tag }
{
    match context.tag_type_arity(tag) {
        Some((parameters, _)) => match continuation_arity(context, index) {
            Some((_, results)) => one_more(Some((parameters, results))),
            None => None,
        },
        None => None,
    }
}

fn resume_throw_ref_arity<M: ModuleArity>(context: &M, index: u32) -> Option<(u32, u32)>
    ensures { result ≡ arity_of_resume_throw_ref (M.facts context.now) index }
{
    match continuation_arity(context, index) {
        Some((_, results)) => Some((2, results)),
        None => None,
    }
}

fn switched_arity<M: ModuleArity>(context: &M, index: u32) -> Option<(u32, u32)>
    ensures { result ≡ arity_of_switched (M.facts context.now) index }
{
    match context.cont_type_func(index) {
        Some(ty) => match context.cont_type_of_last_param(ty) {
            Some(next) => continuation_arity(context, next),
            None => None,
        },
        None => None,
    }
}

fn switch_arity<M: ModuleArity>(context: &M, index: u32) -> Option<(u32, u32)>
    ensures { result ≡ arity_of_switch (M.facts context.now) index }
{
    match continuation_arity(context, index) {
        Some((parameters, _)) => match switched_arity(context, index) {
            Some((returns, _)) => Some((parameters, returns)),
            None => None,
        },
        None => None,
    }
}

fn struct_arity<M: ModuleArity>(context: &M, index: u32) -> Option<(u32, u32)>
    ensures { result ≡ arity_of_struct (M.facts context.now) index }
{
    match context.struct_type_fields(index) {
        Some(fields) => Some((fields, 1)),
        None => None,
    }
}

fn gc_arity<M: ModuleArity>(context: &M, op: &GcOperator) -> Option<(u32, u32)>
    ensures { result ≡ gc_arity_of (M.facts context.now) op.now }
{
    match op {
        GcOperator::StructNew { struct_type_index } => struct_arity(context, *struct_type_index),
        GcOperator::StructNewDesc { struct_type_index } => {
            one_more(struct_arity(context, *struct_type_index))
        }
        GcOperator::ArrayNewFixed { array_size, .. } => Some((*array_size, 1)),
        GcOperator::BrOnCast { relative_depth, .. }
        | GcOperator::BrOnCastFail { relative_depth, .. } => {
            branch_arity(context, *relative_depth)
        }
        GcOperator::BrOnCastDescEq { relative_depth, .. }
        | GcOperator::BrOnCastDescEqFail { relative_depth, .. } => {
            branch_if_arity(context, *relative_depth)
        }
        _ => gc_fixed_arity(op),
    }
}
