use super::write_result;
use crate::failure::Written;
use std::alloc::Global;
use wasm_below::{BinaryReader, HeapType, RefType, ValType};
use wasm_imm::BlockType;

#[derive(Clone, Copy)]
pub enum Type {
    Value,
    Reference,
    Heap,
    Block,
    NumberByType,
    ValueByType,
    ReferenceByType,
    HeapByType,
}

impl Type {
    pub fn write(self, alloc: Global, text: &mut String, reader: &mut BinaryReader<'_>) -> Written {
        match self {
            Type::Value => write_result(text, ValType::read(reader), reader),
            Type::Reference => write_result(text, RefType::read(reader), reader),
            Type::Heap => write_result(text, HeapType::read(reader), reader),
            Type::Block => write_result(text, BlockType::read(reader), reader),
            Type::NumberByType => write_result(text, reader.read::<u32>(alloc), reader),
            Type::ValueByType => write_result(text, reader.read::<ValType>(alloc), reader),
            Type::ReferenceByType => write_result(text, reader.read::<RefType>(alloc), reader),
            Type::HeapByType => write_result(text, reader.read::<HeapType>(alloc), reader),
        }
    }
}
