//! The types of a module as a context, for tests of matching.
use crate::type_list::TypeList;
use wasm_below::{RefType, ValType};
use wasm_check_control::{
    CompositeKind, FuncType, GlobalType, LocalType, ModuleContext, StructType, TableType,
};
use wasm_types::FieldType;

/// A context that has nothing but the order of the types, for matching.
#[derive(Drop)]
pub struct Only<'t> {
    pub types: &'t TypeList,
}

impl<'t> ModuleContext for Only<'t> {
    ghost use Rattle.wasm_subtypes.specs.Types.{order_of};
    ghost use Rattle.wasm_subtypes.specs.Only.{only};

    ghost environment = { λ c. only (order_of c.types.now) };

    fn is_well_formed(&self) {
        self.types.is_ordered()
    }

    fn is_subtype(&self, index: u32, of: u32) -> bool {
        self.types.is_subtype(index, of)
    }

    fn composite_kind(&self, index: u32) -> Option<CompositeKind> {
        self.types.composite_kind(index)
    }

    fn type_at(&self, _index: u32) -> Option<FuncType<'_>> {
        None
    }

    fn struct_type(&self, _index: u32) -> Option<StructType<'_>> {
        None
    }

    fn array_elements(&self, _index: u32) -> Option<FieldType> {
        None
    }

    fn function_type(&self, _index: u32) -> Option<FuncType<'_>> {
        None
    }

    fn local_type(&self, _index: u32) -> Option<LocalType> {
        None
    }

    fn global_type(&self, _index: u32) -> Option<GlobalType> {
        None
    }

    fn table_type(&self, _index: u32) -> Option<TableType> {
        None
    }

    fn memory64(&self, _index: u32) -> Option<bool> {
        None
    }

    fn tag_type(&self, _index: u32) -> Option<FuncType<'_>> {
        None
    }

    fn element_type(&self, _index: u32) -> Option<RefType> {
        None
    }

    fn has_data(&self, _index: u32) -> bool {
        false
    }

    fn is_declared(&self, _function_index: u32) -> bool {
        false
    }

    fn type_index(&self, _function_index: u32) -> Option<u32> {
        None
    }

    fn results(&self) -> &[ValType] {
        &[]
    }
}
