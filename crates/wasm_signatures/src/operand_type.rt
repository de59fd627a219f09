ghost use Rattle.std.specs.Prelude.{◌≡◌};
ghost use Rattle.wasm_signatures.specs.Types.{value_of, reference_of};

use wasm_below::{AbstractHeapType, HeapType, RefType, ValType};

/// The type of an operand or a result that an operator determines.
#[derive(Clone, Copy, Debug, PartialEq, Eq)]
pub enum OperandType {
    I32,
    I64,
    F32,
    F64,
    V128,
    /// The address type of the memory that an immediate names: `i64` with memory64, otherwise `i32`.
    Address,
    /// `(ref null eq)`
    EqRef,
    /// `(ref null array)`
    ArrayRef,
    /// `(ref null i31)`
    I31Ref,
    /// `(ref i31)`
    I31,
}

impl OperandType {
    /// Returns the value type, where `address` is the address type of the memory.
    pub fn value_type(self, address: ValType) -> ValType
        ensures { result ≡ value_of address self }
    {
        match self {
            OperandType::I32 => ValType::I32,
            OperandType::I64 => ValType::I64,
            OperandType::F32 => ValType::F32,
            OperandType::F64 => ValType::F64,
            OperandType::V128 => ValType::V128,
            OperandType::Address => address,
            OperandType::EqRef => reference(true, AbstractHeapType::Eq),
            OperandType::ArrayRef => reference(true, AbstractHeapType::Array),
            OperandType::I31Ref => reference(true, AbstractHeapType::I31),
            OperandType::I31 => reference(false, AbstractHeapType::I31),
        }
    }
}

fn reference(nullable: bool, ty: AbstractHeapType) -> ValType
    ensures { result ≡ reference_of nullable ty }
{
    match RefType::new(nullable, HeapType::Abstract { shared: false, ty }) {
        Some(reference) => ValType::Ref(reference),
        None => unreachable!(),
    }
}
