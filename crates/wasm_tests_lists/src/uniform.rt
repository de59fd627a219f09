use wasm_grammar::FrameKind;
use wasm_imm::BlockType;
use wasm_instr::ModuleArity;

#[derive(Drop)]
pub struct Uniform {
    pub function: Option<(u32, u32)>,
    pub fields: Option<u32>,
    pub continuation: Option<u32>,
    pub last: Option<u32>,
    pub tag: Option<(u32, u32)>,
    pub type_of_function: Option<u32>,
    pub height: u32,
    pub label: Option<(BlockType, FrameKind)>,
}

impl Uniform {
    pub fn new() -> Uniform {
        Uniform {
            function: Some((2, 1)),
            fields: Some(3),
            continuation: Some(0),
            last: Some(0),
            tag: Some((1, 0)),
            type_of_function: Some(0),
            height: 2,
            label: Some((BlockType::FuncType(0), FrameKind::Loop)),
        }
    }
}

impl ModuleArity for Uniform {
    ghost use Rattle.wasm_tests_lists.specs.Module.{facts_of_uniform};

    ghost facts = { facts_of_uniform };

    fn func_type_arity(&self, _type_index: u32) -> Option<(u32, u32)> {
        self.function
    }

    fn struct_type_fields(&self, _type_index: u32) -> Option<u32> {
        self.fields
    }

    fn cont_type_func(&self, _type_index: u32) -> Option<u32> {
        self.continuation
    }

    fn cont_type_of_last_param(&self, _type_index: u32) -> Option<u32> {
        self.last
    }

    fn tag_type_arity(&self, _tag_index: u32) -> Option<(u32, u32)> {
        self.tag
    }

    fn type_index_of_function(&self, _function_index: u32) -> Option<u32> {
        self.type_of_function
    }

    fn control_stack_height(&self) -> u32 {
        self.height
    }

    fn label_block(&self, _depth: u32) -> Option<(BlockType, FrameKind)> {
        self.label
    }
}
