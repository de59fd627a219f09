ghost use Rattle.wasm_below.specs.TypeEncoding.{EncodesHeapType, EncodesRefType, EncodesValType, HeapTypeFault, RefTypeFault, ValTypeFault};

use crate::types::{HeapType, RefType, ValType};
use crate::{BinaryReader, FromReader, MemoryUse, Never, Result, UsesMemory};
use std::alloc::Global;

impl UsesMemory for HeapType {
    type Memory = Never;
}

impl<'a> FromReader<'a> for HeapType {
    ghost encodes = { λ features text ty. EncodesHeapType text ty };

    ghost fault = { λ m r offset. HeapTypeFault m r offset };

    fn from_reader(_alloc: Global, reader: &mut BinaryReader<'a>) -> Result<HeapType> {
        HeapType::read(reader)
    }

    fn is_prefix_code() {}

    fn determines_refusal() {}
}

impl UsesMemory for RefType {
    type Memory = Never;
}

impl<'a> FromReader<'a> for RefType {
    ghost encodes = { λ features text ty. EncodesRefType text ty };

    ghost fault = { λ m r offset. RefTypeFault m r offset };

    fn from_reader(_alloc: Global, reader: &mut BinaryReader<'a>) -> Result<RefType> {
        RefType::read(reader)
    }

    fn is_prefix_code() {}

    fn determines_refusal() {}
}

impl UsesMemory for ValType {
    type Memory = Never;
}

impl<'a> FromReader<'a> for ValType {
    ghost encodes = { λ features text ty. EncodesValType text ty };

    ghost fault = { λ m r offset. ValTypeFault m r offset };

    fn from_reader(_alloc: Global, reader: &mut BinaryReader<'a>) -> Result<ValType> {
        ValType::read(reader)
    }

    fn is_prefix_code() {}

    fn determines_refusal() {}
}
