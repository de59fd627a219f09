ghost use Rattle.std.specs.Prelude.{◌≡◌};
ghost use Rattle.wasm_check_operators.specs.Aggregates.{is_defaultable};
ghost use Rattle.wasm_check_locals.specs.Locals.{parameter, declared};

use crate::declared::DeclaredLocals;
use wasm_below::{RefType, ValType};
use wasm_check_control::{
    CompositeKind, FuncType, GlobalType, LocalType, ModuleContext, StructType, TableType,
};
use wasm_types::FieldType;

/// Returns whether a type has a default value. Specification: Types, Defaultable Types.
fn is_defaultable(ty: &ValType) -> bool
    ensures { result ≡ is_defaultable ty.now }
{
    match ty {
        ValType::Ref(ty) => ty.is_nullable(),
        ValType::I32 | ValType::I64 | ValType::F32 | ValType::F64 | ValType::V128 => true,
    }
}

fn parameter(ty: ValType) -> LocalType
    ensures { result ≡ parameter ty }
{
    LocalType {
        content_type: ty,
        is_set: true,
    }
}

fn declared(ty: ValType) -> LocalType
    ensures { result ≡ declared ty }
{
    let is_set = is_defaultable(&ty);
    LocalType {
        content_type: ty,
        is_set,
    }
}

/// The context of a function's body: the context of its module, with the function's locals and
/// results. Specification: Validation, Functions.
#[derive(Clone, Copy)]
pub struct BodyContext<'m, M> {
    pub module: &'m M,
    pub ty: FuncType<'m>,
    pub locals: &'m DeclaredLocals,
}

impl<'m, M: ModuleContext> ModuleContext for BodyContext<'m, M> {
    ghost use Rattle.wasm_check_locals.specs.Locals.{in_function};

    ghost environment = { λ c. in_function (M.environment c.module.now) c.ty.params.now c.ty.results.now c.locals.now };

    fn is_well_formed(&self) {
        self.module.is_well_formed()
    }

    fn is_subtype(&self, index: u32, of: u32) -> bool {
        self.module.is_subtype(index, of)
    }

    fn composite_kind(&self, index: u32) -> Option<CompositeKind> {
        self.module.composite_kind(index)
    }

    fn type_at(&self, index: u32) -> Option<FuncType<'_>> {
        self.module.type_at(index)
    }

    fn struct_type(&self, index: u32) -> Option<StructType<'_>> {
        self.module.struct_type(index)
    }

    fn array_elements(&self, index: u32) -> Option<FieldType> {
        self.module.array_elements(index)
    }

    fn function_type(&self, index: u32) -> Option<FuncType<'_>> {
        self.module.function_type(index)
    }

    fn local_type(&self, index: u32) -> Option<LocalType> {
        let params = self.ty.params;
        let position = index as usize;
        if position < params.len() {
            return Some(parameter(params[position]));
        }
        match self.locals.get((position - params.len()) as u32) {
            Some(ty) => Some(declared(ty)),
            None => None,
        }
    }

    fn global_type(&self, index: u32) -> Option<GlobalType> {
        self.module.global_type(index)
    }

    fn table_type(&self, index: u32) -> Option<TableType> {
        self.module.table_type(index)
    }

    fn memory64(&self, index: u32) -> Option<bool> {
        self.module.memory64(index)
    }

    fn tag_type(&self, index: u32) -> Option<FuncType<'_>> {
        self.module.tag_type(index)
    }

    fn element_type(&self, index: u32) -> Option<RefType> {
        self.module.element_type(index)
    }

    fn has_data(&self, index: u32) -> bool {
        self.module.has_data(index)
    }

    fn is_declared(&self, function_index: u32) -> bool {
        self.module.is_declared(function_index)
    }

    fn type_index(&self, function_index: u32) -> Option<u32> {
        self.module.type_index(function_index)
    }

    fn results(&self) -> &[ValType] {
        self.ty.results
    }
}
