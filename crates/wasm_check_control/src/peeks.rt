ghost use Rattle.std.specs.Prelude.{◌≡◌, ◌∷◌, [], Some, IsTrue, is_some, length, replicate};
ghost use Rattle.wasm_typing.specs.Types.{Stack};
ghost use Rattle.wasm_typing.specs.Matching.{TypeOrder};
ghost use Rattle.wasm_typing.specs.Checking.{pop, all_match};
ghost use Rattle.wasm_check_control.specs.Environment.{stack_of};
ghost use Rattle.wasm_check_control.specs.Segments.{innermost};
ghost use Rattle.wasm_check_control.specs.State.{Answers, results_of, taken};
ghost use Rattle.wasm_check_control.specs.Switches.{fits};

use crate::context::ModuleContext;
use crate::control::Control;
use crate::operands::Operands;
use crate::value_matches::matches;
use wasm_below::ValType;
use wasm_typing::ValueType;

/// Returns whether each type matches its counterpart. Specification: Matching, Result Types.
pub fn all_match<M: ModuleContext>(context: &M, types: &[ValType], wanted: &[ValType]) -> bool
    ensures { result ≡ all_match (M.environment context.now).order (stack_of types.now) (stack_of wanted.now) }
{
    if types.len() != wanted.len() {
        return false;
    }
    for i in 0..types.len() {
        let index = types.len() - 1 - i;
        let ty = ValueType::new(types[index]);
        let other = ValueType::new(wanted[index]);
        if !matches(context, ty, other) {
            return false;
        }
    }
    true
}

/// Returns whether operands of these types are on top of the innermost segment. In unreachable code,
/// any are below it.
fn has_all<M: ModuleContext>(
    context: &M,
    operands: &Operands,
    unreachable: bool,
    types: &[ValType],
) -> bool
    ensures { result ≡ is_some (pop (M.environment context.now).order (stack_of types.now) (innermost operands.now) unreachable) }
{
    for i in 0..types.len() {
        let index = types.len() - 1 - i;
        let Some(found) = operands.peek(i) else {
            return unreachable;
        };
        if !matches(context, found, ValueType::new(types[index])) {
            return false;
        }
    }
    true
}

fn has_one<M: ModuleContext>(
    context: &M,
    operands: &Operands,
    unreachable: bool,
    ty: ValueType,
) -> bool
    ensures { result ≡ is_some (pop (M.environment context.now).order (ty ∷ []) (innermost operands.now) unreachable) }
{
    match operands.peek(0) {
        Some(found) => matches(context, found, ty),
        None => unreachable,
    }
}

/// Returns whether an operand of the type `one`, or with `None`, operands of the types `many` are on
/// top of the innermost segment.
fn has_results<M: ModuleContext>(
    context: &M,
    operands: &Operands,
    unreachable: bool,
    one: Option<ValueType>,
    many: &[ValType],
) -> bool
    ensures { result ≡ is_some (pop (M.environment context.now).order (results_of one many.now) (innermost operands.now) unreachable) }
{
    match one {
        Some(ty) => has_one(context, operands, unreachable, ty),
        None => has_all(context, operands, unreachable, many),
    }
}

/// Returns the number of types: one if there is `one`, otherwise the number of `many`.
pub fn count_of(one: Option<ValueType>, many: &[ValType]) -> usize
    ensures { result ≡ length (results_of one many.now) }
{
    match one {
        Some(_) => 1,
        None => many.len(),
    }
}

/// Tests of operands that stay on the stack.
impl<'m> Control<'m> {
    fn has<M: ModuleContext>(&self, context: &M, one: Option<ValueType>, many: &[ValType]) -> bool
        ensures { result ≡ is_some (taken (M.environment context.now).order (results_of one many.now) self.now) }
    {
        let Some(frame) = self.current else {
            return false;
        };
        has_results(context, &self.operands, frame.unreachable, one, many)
    }

    /// Returns whether these are `count` types, and the frame has operands of them on top.
    pub fn fits<M: ModuleContext>(
        &self,
        context: &M,
        one: Option<ValueType>,
        many: &[ValType],
        count: usize,
    ) -> bool
        ensures { result ≡ fits (M.environment context.now).order (results_of one many.now) self.now count }
    {
        if count_of(one, many) != count {
            return false;
        }
        self.has(context, one, many)
    }

    /// Returns whether code is unreachable and the frame has no operand. Then it has any operands.
    fn has_any(&self) -> bool
        ensures { IsTrue result → (O : TypeOrder) (s : Stack) → taken O s self.now ≡ Some self.now }
    {
        let Some(frame) = self.current else {
            return false;
        };
        if !frame.unreachable {
            return false;
        }
        self.operands.is_empty()
    }

    /// Takes so many operands of this type. In unreachable code, it stops when no operand is left.
    pub fn expect_many<M: ModuleContext>(&mut self, context: &M, ty: ValueType, count: u32) -> bool
        ensures { Answers result (taken (M.environment context.now).order (replicate count ty) self.old) self.new }
    {
        if self.is_closed() {
            return false;
        }
        for i in 0..count {
            if self.has_any() {
                return true;
            }
            if !self.expect(context, ty) {
                return false;
            }
        }
        true
    }
}
