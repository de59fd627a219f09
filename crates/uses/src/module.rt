ghost use Rattle.std.specs.Prelude.{◌≡◌};
ghost use Rattle.uses.specs.Module.{arity_of, block_of};

use wasm_operators::{BlockType, FrameKind, ModuleArity, ValType};

/// A block type that does not distinguish value types.
#[derive(Clone, Copy, Debug, PartialEq, Eq)]
pub enum BlockArity {
    Nothing,
    OneResult,
    /// The function type with this index.
    OfType(u32),
}

impl BlockArity {
    pub fn new(ty: BlockType) -> BlockArity
        ensures { result ≡ arity_of ty }
    {
        match ty {
            BlockType::Empty => BlockArity::Nothing,
            BlockType::Value(_) => BlockArity::OneResult,
            BlockType::FuncType(index) => BlockArity::OfType(index),
        }
    }

    pub fn block_type(&self) -> BlockType
        ensures { result ≡ block_of self.now }
    {
        match self {
            BlockArity::Nothing => BlockType::Empty,
            BlockArity::OneResult => BlockType::Value(ValType::I32),
            BlockArity::OfType(index) => BlockType::FuncType(*index),
        }
    }
}

#[derive(Clone, Copy, Debug, PartialEq, Eq)]
pub struct Frame {
    pub arity: BlockArity,
    pub kind: FrameKind,
    /// The height of the operand stack below the frame's operands.
    pub base: u32,
    /// Whether the current code is unreachable, so that missing operands are allowed.
    pub unreachable: bool,
}

/// Types, as numbers of parameters and results; functions, as type indices; and the open frames,
/// the innermost last.
#[derive(Drop)]
pub struct Context<'m> {
    pub types: &'m [(u32, u32)],
    pub functions: &'m [u32],
    pub frames: Vec<Frame>,
}

impl<'m> ModuleArity for Context<'m> {
    ghost use Rattle.uses.specs.Module.{facts};

    ghost facts = { λ m. facts m.types.now m.functions.now m.frames.items };

    fn func_type_arity(&self, type_index: u32) -> Option<(u32, u32)> {
        self.types.get(type_index as usize).copied()
    }

    fn struct_type_fields(&self, _type_index: u32) -> Option<u32> {
        None
    }

    fn cont_type_func(&self, _type_index: u32) -> Option<u32> {
        None
    }

    fn cont_type_of_last_param(&self, _type_index: u32) -> Option<u32> {
        None
    }

    fn tag_type_arity(&self, _tag_index: u32) -> Option<(u32, u32)> {
        None
    }

    fn type_index_of_function(&self, function_index: u32) -> Option<u32> {
        self.functions.get(function_index as usize).copied()
    }

    fn control_stack_height(&self) -> u32 {
        self.frames.len().min(4294967295) as u32
    }

    fn label_block(&self, depth: u32) -> Option<(BlockType, FrameKind)> {
        let depth = depth as usize;
        let count = self.frames.len();
        if depth < count {
            match self.frames.as_slice().get(count - 1 - depth) {
                Some(frame) => Some((frame.arity.block_type(), frame.kind)),
                None => None,
            }
        } else {
            None
        }
    }
}
