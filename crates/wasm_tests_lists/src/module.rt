use wasm_grammar::FrameKind;
use wasm_imm::BlockType;
use wasm_instr::ModuleArity;

/// A module whose methods return `Some` only for the index 0, or for the indices listed here.
///
/// Type 0 is a function type with two parameters and one result, whose last parameter refers to
/// type 3; type 1 a structure type with three fields; types 2 and 3 continuations of types 0 and 4;
/// type 4 a function type with one parameter and one result.
#[derive(Drop)]
pub struct Module;

impl ModuleArity for Module {
    ghost use Rattle.wasm_tests_lists.specs.Module.{facts_of_module};

    ghost facts = { λ _. facts_of_module };

    fn func_type_arity(&self, type_index: u32) -> Option<(u32, u32)> {
        match type_index {
            0 => Some((2, 1)),
            4 => Some((1, 1)),
            _ => None,
        }
    }

    fn struct_type_fields(&self, type_index: u32) -> Option<u32> {
        if type_index == 1 { Some(3) } else { None }
    }

    fn cont_type_func(&self, type_index: u32) -> Option<u32> {
        match type_index {
            2 => Some(0),
            3 => Some(4),
            _ => None,
        }
    }

    fn cont_type_of_last_param(&self, type_index: u32) -> Option<u32> {
        if type_index == 0 { Some(3) } else { None }
    }

    fn tag_type_arity(&self, tag_index: u32) -> Option<(u32, u32)> {
        if tag_index == 0 { Some((1, 0)) } else { None }
    }

    fn type_index_of_function(&self, function_index: u32) -> Option<u32> {
        if function_index == 0 { Some(0) } else { None }
    }

    fn control_stack_height(&self) -> u32 {
        2
    }

    fn label_block(&self, depth: u32) -> Option<(BlockType, FrameKind)> {
        match depth {
            0 => Some((BlockType::FuncType(0), FrameKind::Loop)),
            1 => Some((BlockType::Empty, FrameKind::Block)),
            _ => None,
        }
    }
}
