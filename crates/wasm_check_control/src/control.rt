ghost use Rattle.std.specs.Prelude.{◌≡◌, ◌↔◌, [], ◌∷◌, OnOk, IsTrue, MatchOption, IfOk, reverse};
ghost use Rattle.std.specs.Option.{option_map};
ghost use Rattle.wasm_typing.specs.Rules.{at};
ghost use Rattle.wasm_typing.specs.Steps.{receives, opened, set_in, labels_of};
ghost use Rattle.wasm_check_control.specs.Environment.{stack_of};
ghost use Rattle.wasm_check_control.specs.State.{taken, Answers, took, jumped, around, construct_of, results_of, type_of_frame, ended, turns_by, ends_by};

use crate::context::ModuleContext;
use crate::frame::{Frame, FrameKind, ResultTypes};
use crate::operands::Operands;
use crate::value_matches::matches;
use std::alloc::{AllocError, Global};
use std::marker::Model;
use wasm_below::ValType;
use wasm_typing::ValueType;

/// An operand that an operator did not find.
#[derive(Clone, Copy, Debug)]
pub struct Mismatch {
    pub expected: ValueType,
    /// The type of the operand on top of the stack; `None` if the frame has no operand.
    pub found: Option<ValueType>,
}

/// The control frames and their operands. Specification: Appendix, Validation Algorithm.
#[derive(Drop)]
pub struct Control<'m> {
    pub(crate) operands: Operands,
    pub(crate) current: Option<Frame<'m>>,
    around: Vec<Frame<'m>>,
    mismatch: Option<Mismatch>,
}

impl<'m> Model for Control<'m> {
    ghost use Rattle.std.specs.Prelude.{◌≡◌, List, length};
    ghost use Rattle.wasm_typing.specs.Steps.{Frame as ControlFrame};
    ghost use Rattle.wasm_check_control.specs.State.{frames_with, frames_of, StandsAlone};

    ghost Value = { List ControlFrame };

    ghost view = { λ s. frames_with (frames_of s.current s.around.items) s.operands };

    ghost invariant = { λ s. (length (frames_of s.current s.around.items) ≡ length s.operands) × StandsAlone s.current s.around.items };
}

impl<'m> Control<'m> {
    /// Creates a stack without frames.
    pub fn new(alloc: Global) -> Control<'m>
        ensures { result ≡ [] }
    {
        Control {
            operands: Operands::new(alloc),
            current: None,
            around: Vec::new(alloc),
            mismatch: None,
        }
    }

    /// Returns the operand that the last failed call did not find, if that is why it failed.
    pub fn mismatch(&self) -> Option<Mismatch> {
        self.mismatch
    }

    /// Takes an operand of this type. Returns whether there is one.
    #[inline(always)]
    pub fn expect<M: ModuleContext>(&mut self, context: &M, ty: ValueType) -> bool
        ensures { Answers result (taken (M.environment context.now).order (ty ∷ []) self.old) self.new }
    {
        if self.operands.pop_same(&ty) {
            return true;
        }
        self.expect_matching(context, &ty)
    }

    /// Takes an operand that matches this type. `expect` first takes one of the same number type.
    fn expect_matching<M: ModuleContext>(&mut self, context: &M, ty: &ValueType) -> bool
        ensures { Answers result (taken (M.environment context.now).order (ty.now ∷ []) self.old) self.new }
    {
        let ty = *ty;
        let Some(frame) = self.current else {
            return false;
        };
        match self.operands.pop() {
            Some(found) => {
                if matches(context, found, ty) {
                    return true;
                }
                self.mismatch = Some(Mismatch {
                    expected: ty,
                    found: Some(found),
                });
                false
            }
            None => {
                if frame.unreachable {
                    return true;
                }
                self.mismatch = Some(Mismatch {
                    expected: ty,
                    found: None,
                });
                false
            }
        }
    }

    /// Takes operands of these types. The last is on top.
    pub fn expect_all<M: ModuleContext>(&mut self, context: &M, types: &[ValType]) -> bool
        ensures { Answers result (taken (M.environment context.now).order (stack_of types.now) self.old) self.new }
    {
        if self.current.is_none() {
            return false;
        }
        for i in 0..types.len() {
            let index = types.len() - 1 - i;
            if !self.expect(context, ValueType::new(types[index])) {
                return false;
            }
        }
        true
    }

    /// Takes operands of these types. The last is on top.
    #[inline(always)]
    pub fn expect_values<M: ModuleContext>(&mut self, context: &M, types: &[ValueType]) -> bool
        ensures { Answers result (taken (M.environment context.now).order (reverse types.now) self.old) self.new }
    {
        if self.current.is_none() {
            return false;
        }
        for i in 0..types.len() {
            if !self.expect(context, types[types.len() - 1 - i]) {
                return false;
            }
        }
        true
    }

    /// Takes an operand of the type `one`, or with `None`, operands of the types `many`.
    pub fn expect_results<M: ModuleContext>(
        &mut self,
        context: &M,
        one: Option<ValueType>,
        many: &[ValType],
    ) -> bool
        ensures { Answers result (taken (M.environment context.now).order (results_of one many.now) self.old) self.new }
    {
        match one {
            Some(ty) => self.expect(context, ty),
            None => self.expect_all(context, many),
        }
    }

    /// Takes the operand on top. In unreachable code, it may be bot.
    pub fn take(&mut self) -> Option<ValueType>
        ensures { MatchOption result (took self.old ≡ None) (λ v. took self.old ≡ Some (v, self.new)) }
    {
        let Some(frame) = self.current else {
            return None;
        };
        match self.operands.pop() {
            Some(found) => Some(found),
            None => {
                if frame.unreachable {
                    Some(ValueType::Bottom)
                } else {
                    None
                }
            }
        }
    }

    /// Leaves an operand of this type.
    #[inline(always)]
    pub fn give(&mut self, ty: ValueType) -> Result<(), AllocError>
        ensures { OnOk result (self.new ≡ receives (ty ∷ []) self.old) }
    {
        self.operands.push(ty)
    }

    /// Leaves operands of these types. The last is on top.
    pub fn give_all(&mut self, types: &[ValType]) -> Result<(), AllocError>
        ensures { OnOk result (self.new ≡ receives (stack_of types.now) self.old) }
    {
        for i in 0..types.len() {
            self.give(ValueType::new(types[i]))?;
        }
        Ok(())
    }

    /// Leaves operands of these types. The last is on top.
    #[inline(always)]
    pub fn give_values(&mut self, types: &[ValueType]) -> Result<(), AllocError>
        ensures { OnOk result (self.new ≡ receives (reverse types.now) self.old) }
    {
        for ty in types {
            self.give(*ty)?;
        }
        Ok(())
    }

    /// Leaves an operand of the type `one`, or with `None`, operands of the types `many`.
    pub fn give_results(
        &mut self,
        one: Option<ValueType>,
        many: &[ValType],
    ) -> Result<(), AllocError>
        ensures { OnOk result (self.new ≡ receives (results_of one many.now) self.old) }
    {
        match one {
            Some(ty) => self.give(ty),
            None => self.give_all(many),
        }
    }

    /// Makes the rest of the frame unreachable.
    pub fn jump(&mut self)
        ensures { self.new ≡ jumped self.old }
    {
        if let Some(frame) = self.current {
            self.operands.clear();
            self.current = Some(Frame {
                unreachable: true,
                ..frame
            });
        }
    }

    /// Opens a frame that starts with the operands that its construct takes.
    pub fn enter(
        &mut self,
        kind: FrameKind,
        takes: &'m [ValType],
        one: Option<ValueType>,
        leaves: &'m [ValType],
    ) -> Result<(), AllocError>
        ensures { OnOk result (self.new ≡ opened (construct_of kind) (record { takes = stack_of takes.now; leaves = results_of one leaves.now }) (set_in self.old) ∷ self.old) }
    {
        self.operands.open()?;
        if let Some(frame) = self.current {
            if self.around.push(frame).is_err() {
                self.operands.close();
                return Err(AllocError);
            }
        }
        self.current = Some(Frame {
            kind,
            takes,
            one,
            leaves,
            unreachable: false,
        });
        self.give_all(takes)
    }

    /// Closes the innermost frame if its operands are the results of its construct and no more.
    pub fn leave<M: ModuleContext>(&mut self, context: &M) -> Option<Frame<'m>>
        ensures { MatchOption result (ended (M.environment context.now).order self.old ≡ None)
            (λ f. ended (M.environment context.now).order self.old ≡ Some (construct_of f.kind, type_of_frame f, self.new)) }
    {
        let Some(frame) = self.current else {
            return None;
        };
        if !self.expect_results(context, frame.one, frame.leaves) {
            return None;
        }
        if !self.operands.is_empty() {
            return None;
        }
        self.operands.close();
        self.current = self.around.pop();
        Some(frame)
    }

    /// Returns the operands that a branch takes. The innermost label is 0.
    pub fn label(&self, depth: u32) -> Option<ResultTypes<'m>>
        ensures { option_map (λ s. results_of s.one s.many.now) result ≡ at (labels_of self.now) depth }
    {
        let depth = depth as usize;
        if depth == 0 {
            return match self.current {
                Some(frame) => Some(frame.label()),
                None => None,
            };
        }
        if depth > self.around.len() {
            return None;
        }
        Some(self.around[self.around.len() - depth].label())
    }

    /// Goes from an `if` to its `else`.
    pub fn turn<M: ModuleContext>(&mut self, context: &M) -> Result<bool, AllocError>
        ensures { IfOk result (λ yes. Answers yes (turns_by (M.environment context.now).order self.old) self.new) }
    {
        let Some(frame) = self.leave(context) else {
            return Ok(false);
        };
        match frame.kind {
            FrameKind::If => {
                self.enter(FrameKind::Else, frame.takes, frame.one, frame.leaves)?;
                Ok(true)
            }
            FrameKind::Block | FrameKind::Loop | FrameKind::Else | FrameKind::TryTable => Ok(false),
        }
    }

    /// Ends the innermost frame. An `if` without `else` ends like one with an empty `else`.
    pub fn end<M: ModuleContext>(&mut self, context: &M) -> Result<bool, AllocError>
        ensures { IfOk result (λ yes. Answers yes (ends_by (M.environment context.now).order self.old) self.new) }
    {
        let Some(frame) = self.leave(context) else {
            return Ok(false);
        };
        if frame.kind == FrameKind::If {
            self.enter(FrameKind::Else, frame.takes, frame.one, frame.leaves)?;
            if self.leave(context).is_none() {
                return Ok(false);
            }
        }
        self.give_results(frame.one, frame.leaves)?;
        Ok(true)
    }

    /// Returns whether no frame is around the innermost.
    pub fn is_outermost(&self) -> bool
        ensures { IsTrue result ↔ (around self.now ≡ []) }
    {
        self.around.is_empty()
    }

    pub fn is_closed(&self) -> bool
        ensures { IsTrue result ↔ (self.now ≡ []) }
    {
        self.current.is_none()
    }
}
