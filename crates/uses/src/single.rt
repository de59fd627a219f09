ghost use Rattle.std.specs.Prelude.{◌≡◌, ◌≢◌, ℕ, List, ◌++◌, IfOk, IfErr};
ghost use Rattle.wasm_operators.specs.below.declared.message.Message.{Message};
ghost use Rattle.wasm_operators.specs.below.Source.{rest};
ghost use Rattle.wasm_operators.specs.instr.declared.operator.Operator.{Operator};
ghost use Rattle.wasm_operators.specs.instr.Encoding.{EncodesOperator};
ghost use Rattle.wasm_operators.specs.instr.Roles.{role_of};
ghost use Rattle.wasm_operators.specs.grammar.Frames.{Allows};

use std::alloc::Global;
use wasm_operators::{BinaryReader, FrameKind, FrameStack, Operator, ReadOperators, Result};

#[derive(Clone, Copy, Debug, PartialEq, Eq)]
pub struct Inside {
    pub kind: FrameKind,
}

impl FrameStack for Inside {
    ghost use Rattle.std.specs.Prelude.{Some};

    ghost frame = { λ inside. Some inside.kind };

    fn current_frame(&self) -> Option<FrameKind> {
        Some(self.kind)
    }
}

/// Returns, without consuming it, the next operator if a frame of this kind allows it. Any error
/// except `OutOfMemory` means that no such operator is next.
pub fn operator_inside<'a>(
    alloc: Global,
    reader: &BinaryReader<'a>,
    kind: FrameKind,
) -> Result<Operator<'a>>
    ensures found { IfOk result (λ op. (text more : List ℕ) × (rest reader.now ≡ text ++ more)
        × EncodesOperator reader.now.features text op × Allows kind (role_of op)) }
    ensures none { IfErr result (λ e. e.message ≢ Message.OutOfMemory → (op : Operator) (text more : List ℕ)
        → rest reader.now ≡ text ++ more → EncodesOperator reader.now.features text op → Allows kind (role_of op) → ⊥) }
{
    reader.peek_operator(alloc, &Inside { kind })
}
