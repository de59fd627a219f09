ghost use Rattle.std.specs.Prelude.{◌≡◌};
ghost use Rattle.wasm_typing.specs.Types.{value_type};

use wasm_below::{HeapType, ValType};

/// What a reference refers to: a heap type, or bot, which no module can contain.
#[derive(Clone, Copy, Debug, PartialEq, Eq)]
pub enum Heap {
    Known(HeapType),
    Unknown,
}

/// The type of an operand: a value type, or bot in unreachable code. Specification: Validation,
/// Types.
#[derive(Clone, Copy, Debug, PartialEq, Eq)]
pub enum ValueType {
    I32,
    I64,
    F32,
    F64,
    V128,
    /// Matches every type.
    Bottom,
    Ref { nullable: bool, heap: Heap },
}

impl ValueType {
    /// Returns the value type that a module contains.
    pub fn new(ty: ValType) -> ValueType
        ensures { result ≡ value_type ty }
    {
        match ty {
            ValType::I32 => ValueType::I32,
            ValType::I64 => ValueType::I64,
            ValType::F32 => ValueType::F32,
            ValType::F64 => ValueType::F64,
            ValType::V128 => ValueType::V128,
            ValType::Ref(ty) => ValueType::Ref {
                nullable: ty.is_nullable(),
                heap: Heap::Known(ty.heap_type()),
            },
        }
    }
}
