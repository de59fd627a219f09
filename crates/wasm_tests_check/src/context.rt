ghost use Rattle.std.specs.Prelude.{◌≡◌};

use crate::row::{OwnType, Row};
use wasm_below::{RefType, ValType};
use wasm_check::{
    CompositeKind, FieldType, FuncType, GlobalType, LocalType, ModuleContext, StructType, TableType,
};

/// The context of a module. No two types are equal, and none has a declared supertype.
#[derive(Clone, Copy)]
pub struct RowContext<'m> {
    pub row: &'m Row,
}

impl<'m> ModuleContext for RowContext<'m> {
    ghost use Rattle.wasm_tests_check.specs.Context.{environment};

    ghost environment = { λ m. environment m.row.now };

    fn is_well_formed(&self) {
        let _ = self.row.valid;
    }

    fn is_subtype(&self, index: u32, of: u32) -> bool {
        index == of
    }

    fn composite_kind(&self, index: u32) -> Option<CompositeKind> {
        match self.row.types.get(index as usize) {
            Some(OwnType::Func { .. }) => Some(CompositeKind::Func),
            Some(OwnType::Struct(_)) => Some(CompositeKind::Struct),
            Some(OwnType::Array(_)) => Some(CompositeKind::Array),
            None => None,
        }
    }

    fn type_at(&self, index: u32) -> Option<FuncType<'_>> {
        match self.row.types.get(index as usize) {
            Some(OwnType::Func { params, results }) => Some(FuncType {
                params: params.as_slice(),
                results: results.as_slice(),
            }),
            Some(OwnType::Struct(_) | OwnType::Array(_)) | None => None,
        }
    }

    fn struct_type(&self, index: u32) -> Option<StructType<'_>> {
        match self.row.types.get(index as usize) {
            Some(OwnType::Struct(fields)) => Some(StructType {
                fields: fields.as_slice(),
            }),
            Some(OwnType::Func { .. } | OwnType::Array(_)) | None => None,
        }
    }

    fn array_elements(&self, index: u32) -> Option<FieldType> {
        match self.row.types.get(index as usize) {
            Some(OwnType::Array(elements)) => Some(*elements),
            Some(OwnType::Func { .. } | OwnType::Struct(_)) | None => None,
        }
    }

    fn function_type(&self, index: u32) -> Option<FuncType<'_>> {
        match self.row.functions.get(index as usize) {
            Some(ty) => self.type_at(*ty),
            None => None,
        }
    }

    fn local_type(&self, _index: u32) -> Option<LocalType> {
        None
    }

    fn global_type(&self, index: u32) -> Option<GlobalType> {
        self.row.globals.get(index as usize).copied()
    }

    fn table_type(&self, index: u32) -> Option<TableType> {
        let Some(table) = self.row.tables.get(index as usize) else {
            return None;
        };
        match table.element {
            ValType::Ref(element_type) => Some(TableType {
                element_type,
                table64: table.table64,
            }),
            ValType::I32 | ValType::I64 | ValType::F32 | ValType::F64 | ValType::V128 => None,
        }
    }

    fn memory64(&self, index: u32) -> Option<bool> {
        self.row.memories.get(index as usize).copied()
    }

    fn tag_type(&self, index: u32) -> Option<FuncType<'_>> {
        match self.row.tags.get(index as usize) {
            Some(ty) => self.type_at(*ty),
            None => None,
        }
    }

    fn element_type(&self, index: u32) -> Option<RefType> {
        match self.row.elements.get(index as usize) {
            Some(ValType::Ref(ty)) => Some(*ty),
            Some(ValType::I32 | ValType::I64 | ValType::F32 | ValType::F64 | ValType::V128)
            | None => None,
        }
    }

    fn has_data(&self, index: u32) -> bool {
        index < self.row.data_segments
    }

    fn is_declared(&self, function_index: u32) -> bool {
        match self.row.declared.get(function_index as usize) {
            Some(declared) => *declared,
            None => false,
        }
    }

    fn type_index(&self, function_index: u32) -> Option<u32> {
        self.row.functions.get(function_index as usize).copied()
    }

    fn results(&self) -> &[ValType] {
        &[]
    }
}
