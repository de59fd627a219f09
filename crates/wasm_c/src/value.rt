//! Values as C structs.
ghost use Rattle.std.specs.Prelude.{◌≡◌};
ghost use Rattle.wasm_c.specs.Values.{number_value, signed_value, of_value_type, of_reference_type, of_heap_type, of_block_type, of_declaration, of_handler};

use wasm_operators::{BlockType, HeapType, Operator, RefType, ValType};
use wasm_view::{WasmHandler, WasmType, type_of, view_of};

/// A value as a C struct of 16 bytes. Fields without a meaning are 0.
#[repr(C)]
#[derive(Clone, Copy, Debug, PartialEq, Eq)]
pub struct WasmValue {
    /// A number, sign-extended if it is signed; a length; a tag.
    pub number: u64,
    /// The kind of a type, or the form of a clause.
    pub kind: u32,
    /// The index of a type, or the label of a clause.
    pub index: u32,
}

impl WasmValue {
    pub fn number(number: u64) -> WasmValue
        ensures { result ≡ number_value number }
    {
        WasmValue {
            number,
            kind: 0,
            index: 0,
        }
    }

    pub fn signed(number: i64) -> WasmValue
        ensures { result ≡ signed_value number }
    {
        WasmValue::number(number.cast_unsigned())
    }

    /// Returns the C struct of a declaration of locals.
    pub fn of_declaration(number: u32, ty: ValType) -> WasmValue
        ensures { result ≡ of_declaration (number, ty) }
    {
        let WasmType { kind, index } = type_of(&ty);
        WasmValue {
            number: u64::from(number),
            kind,
            index,
        }
    }

    pub fn of_value_type(ty: ValType) -> WasmValue
        ensures { result ≡ of_value_type ty }
    {
        let WasmType { kind, index } = type_of(&ty);
        WasmValue {
            number: 0,
            kind,
            index,
        }
    }

    pub fn of_reference_type(ty: RefType) -> WasmValue
        ensures { result ≡ of_reference_type ty }
    {
        WasmValue::of_value_type(ValType::Ref(ty))
    }

    /// Returns the C struct of a heap type: `kind` and `first` of `ref.null`.
    pub fn of_heap_type(hty: HeapType) -> WasmValue
        ensures { result ≡ of_heap_type hty }
    {
        let view = view_of(&Operator::RefNull { hty }, 0);
        WasmValue {
            number: 0,
            kind: view.kind,
            index: view.first,
        }
    }

    /// Returns the C struct of a block type: `kind` and `first` of `block`.
    pub fn of_block_type(blockty: BlockType) -> WasmValue
        ensures { result ≡ of_block_type blockty }
    {
        let view = view_of(&Operator::Block { blockty }, 0);
        WasmValue {
            number: 0,
            kind: view.kind,
            index: view.first,
        }
    }

    pub fn of_handler(handler: WasmHandler) -> WasmValue
        ensures { result ≡ of_handler handler }
    {
        let WasmHandler { kind, tag, label } = handler;
        WasmValue {
            number: u64::from(tag),
            kind,
            index: label,
        }
    }
}
