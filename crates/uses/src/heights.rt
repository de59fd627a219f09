ghost use Rattle.std.specs.Prelude.{◌≡◌, List, IfOk, None};
ghost use Rattle.wasm_operators.specs.Body.{EncodesBody};
ghost use Rattle.wasm_operators.specs.Expression.{Placed};
ghost use Rattle.wasm_operators.specs.Locals.{Declaration};
ghost use Rattle.uses.specs.Heights.{HaveArities, KeepsModule, StepsHeight};
ghost use Rattle.uses.specs.Input.{input};

use crate::module::{BlockArity, Context, Frame};
use std::alloc::Global;
use wasm_operators::{
    BinaryReader, BrTable, ByAny, FrameKind, FunctionBody, Operator, Result, VisitOperator,
    Visitor, WasmFeatures, body_laws,
};

#[derive(Clone, Copy, Debug, PartialEq, Eq)]
pub enum HeightFault {
    /// The module does not determine the arity of an operator.
    Unknown,
    /// An operator takes more operands than its frame holds.
    Underflow,
    /// Too many operands are left at the end of a frame.
    LeftOver,
    Memory,
}

#[derive(Drop)]
pub struct Heights<'m> {
    pub context: Context<'m>,
    pub height: u32,
    pub greatest: u32,
    pub fault: Option<HeightFault>,
}

/// Returns whether the code after this operator is unreachable.
fn is_stack_polymorphic(op: &Operator<'_>) -> bool {
    matches!(
        op,
        Operator::Unreachable
            | Operator::Br { .. }
            | Operator::BrTable { .. }
            | Operator::Return
            | Operator::ReturnCall { .. }
            | Operator::ReturnCallIndirect { .. }
            | Operator::ReturnCallRef { .. }
            | Operator::Throw { .. }
            | Operator::ThrowRef
            | Operator::Rethrow { .. }
    )
}

/// Returns the new kind of the innermost frame, if the operator changes it.
fn turned(op: &Operator<'_>) -> Option<FrameKind> {
    match op {
        Operator::Else => Some(FrameKind::Else),
        Operator::Catch { .. } => Some(FrameKind::LegacyCatch),
        Operator::CatchAll => Some(FrameKind::LegacyCatchAll),
        _ => None,
    }
}

fn opened(op: &Operator<'_>) -> Option<(BlockArity, FrameKind)> {
    match op {
        Operator::Block { blockty } => Some((BlockArity::new(*blockty), FrameKind::Block)),
        Operator::Loop { blockty } => Some((BlockArity::new(*blockty), FrameKind::Loop)),
        Operator::If { blockty } => Some((BlockArity::new(*blockty), FrameKind::If)),
        Operator::Try { blockty } => Some((BlockArity::new(*blockty), FrameKind::LegacyTry)),
        Operator::TryTable { try_table } => {
            Some((BlockArity::new(try_table.ty), FrameKind::TryTable))
        }
        _ => None,
    }
}

/// Adds a frame. Returns `false` if allocation fails.
fn add_frame(frames: &mut Vec<Frame>, frame: Frame) -> bool {
    frames.push(frame).is_ok()
}

impl<'m> Heights<'m> {
    /// Takes `takes` operands from `frame`; if `all`, others left are a fault.
    fn take(&mut self, frame: Frame, takes: u32, all: bool)
        ensures { KeepsModule self.old self.new }
    {
        let held = self.height.saturating_sub(frame.base);
        if takes > held && !frame.unreachable {
            self.fault = Some(HeightFault::Underflow);
        }
        if all && held > takes {
            self.fault = Some(HeightFault::LeftOver);
        }
        self.height = if takes >= held {
            frame.base
        } else {
            self.height.saturating_sub(takes)
        };
    }

    fn leave(&mut self, leaves: u32)
        ensures { KeepsModule self.old self.new }
    {
        self.height = self.height.saturating_add(leaves);
        self.greatest = self.greatest.max(self.height);
    }

    fn open(&mut self, frame: Frame)
        ensures { KeepsModule self.old self.new }
    {
        if !add_frame(&mut self.context.frames, frame) {
            self.fault = Some(HeightFault::Memory);
        }
    }

    fn close(&mut self)
        ensures { KeepsModule self.old self.new }
    {
        let _ = self.context.frames.pop();
    }

    fn turn(&mut self, frame: Frame, op: &Operator<'_>)
        ensures { KeepsModule self.old self.new }
    {
        if let Some(kind) = turned(op) {
            self.close();
            self.open(Frame {
                kind,
                unreachable: false,
                ..frame
            });
        }
        if is_stack_polymorphic(op) {
            self.close();
            self.height = frame.base;
            self.open(Frame {
                unreachable: true,
                ..frame
            });
        }
        if let Some((arity, kind)) = opened(op) {
            self.open(Frame {
                arity,
                kind,
                base: self.height,
                unreachable: false,
            });
        }
    }

    fn step(&mut self, op: &Operator<'_>)
        ensures { StepsHeight self.old op.now self.new }
    {
        let Some((takes, leaves)) = op.operator_arity(&self.context) else {
            self.fault = Some(HeightFault::Unknown);
            return;
        };
        let Some(frame) = self.context.frames.as_slice().last().copied() else {
            self.fault = Some(HeightFault::Unknown);
            return;
        };
        let ends = matches!(op, Operator::End | Operator::Delegate { .. });
        self.take(frame, takes, ends || turned(op).is_some());
        if ends {
            self.close();
        } else {
            self.turn(frame, op);
        }
        self.leave(leaves);
    }
}

impl<'m> Visitor for Heights<'m> {
    type Output = ();

    type Visits = ByAny;

    ghost visits = { λ before op outcome after. StepsHeight before op after };

    fn visit_any(&mut self, op: Operator<'static>) {
        self.step(&op);
    }
}

impl<'a, 'm> VisitOperator<'a> for Heights<'m> {
    fn visit_br_table(&mut self, targets: BrTable<'a>) {
        self.step(&Operator::BrTable { targets });
    }
}

/// Computes the stack heights along a body of the type `ty`.
///
/// Proved: without a fault, the bytes encode a body whose operators have arities in the module. Not
/// proved: that the validation algorithm has the same heights.
pub fn heights_of_body<'m>(
    alloc: Global,
    features: WasmFeatures,
    types: &'m [(u32, u32)],
    functions: &'m [u32],
    ty: u32,
    bytes: &[u8],
) -> Result<Heights<'m>>
    ensures { IfOk result (λ h. h.fault ≡ None → (declarations : List Declaration) × (placed : Placed)
        × EncodesBody (input features bytes.now) declarations placed × HaveArities types.now functions.now placed) }
{
    body_laws::opened_bodies();
    let mut heights = Heights {
        context: Context {
            types,
            functions,
            frames: Vec::new(alloc),
        },
        height: 0,
        greatest: 0,
        fault: None,
    };
    heights.open(Frame {
        arity: BlockArity::OfType(ty),
        kind: FrameKind::Block,
        base: 0,
        unreachable: false,
    });
    let body = FunctionBody::new(BinaryReader::new_features(bytes, 0, features));
    body.get_operators_reader(alloc)?
        .visit_all_simd(&mut heights)?;
    Ok(heights)
}
