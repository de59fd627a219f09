ghost use Rattle.std.specs.Prelude.{◌≡◌, ◌↔◌, [], IsTrue, None};
ghost use Rattle.wasm_operators.specs.below.Source.{rest};

use wasm_operators::{BinaryReader, FrameKind, FrameStack, ReadOperators};

#[derive(Clone, Copy, Debug, PartialEq, Eq)]
pub struct MaybeInside {
    pub kind: Option<FrameKind>,
}

impl FrameStack for MaybeInside {
    ghost frame = { λ inside. inside.kind };

    fn current_frame(&self) -> Option<FrameKind> {
        self.kind
    }
}

pub fn is_over(reader: &BinaryReader<'_>, inside: &MaybeInside) -> bool
    ensures { IsTrue result ↔ ((inside.now.kind ≡ None) × (rest reader.now ≡ [])) }
{
    match reader.finish_expression(inside) {
        Ok(()) => true,
        Err(_) => false,
    }
}
