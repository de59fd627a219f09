ghost use Rattle.std.specs.Prelude.{◌≡◌};
ghost use Rattle.std.specs.Option.{option_map};
ghost use Rattle.wasm_typing.specs.Matching.{IsOrder};
ghost use Rattle.wasm_check_control.specs.Environment.{Environment, composite_kind, type_of, global_of, table_of, stack_of, fields_of};

use wasm_below::{RefType, ValType};
use wasm_types::FieldType;

/// The kind of a composite type.
#[derive(Clone, Copy, Debug, PartialEq, Eq)]
pub enum CompositeKind {
    Func,
    Struct,
    Array,
}

/// A function type. The last type is on top of the stack.
#[derive(Clone, Copy, Debug)]
pub struct FuncType<'m> {
    pub params: &'m [ValType],
    pub results: &'m [ValType],
}

/// A local.
#[derive(Clone, Copy, Debug)]
pub struct LocalType {
    pub content_type: ValType,
    /// Whether the local is set when the function starts: it is a parameter, or its type has a
    /// default value.
    pub is_set: bool,
}

#[derive(Clone, Copy, Debug)]
pub struct GlobalType {
    pub content_type: ValType,
    pub mutable: bool,
}

#[derive(Clone, Copy, Debug)]
pub struct TableType {
    pub element_type: RefType,
    /// Whether the indices of elements are `i64`.
    pub table64: bool,
}

/// A structure type.
#[derive(Clone, Copy, Debug)]
pub struct StructType<'m> {
    pub fields: &'m [FieldType],
}

/// What a module and a function say about the types of operators. Specification: Validation,
/// Contexts.
///
/// Each function returns `None` if there is nothing with this index.
pub trait ModuleContext {
    // The part of the context that the functions read.
    ghost environment: { Self → Environment };

    /// States that matching of defined types is a preorder that keeps kinds. The body is empty.
    fn is_well_formed(&self)
        ensures { IsOrder (environment self.now).order };

    /// Returns whether the type at `index` matches the type at `of`. Specification: Matching,
    /// Defined Types.
    fn is_subtype(&self, index: u32, of: u32) -> bool
        ensures { result ≡ (environment self.now).order.subtype index of };

    fn composite_kind(&self, index: u32) -> Option<CompositeKind>
        ensures { option_map composite_kind result ≡ (environment self.now).order.kind index };

    /// Returns the function type at a type index.
    fn type_at(&self, index: u32) -> Option<FuncType<'_>>
        ensures { option_map type_of result ≡ (environment self.now).types index };

    /// Returns the structure type at a type index.
    fn struct_type(&self, index: u32) -> Option<StructType<'_>>
        ensures { option_map fields_of result ≡ (environment self.now).structures index };

    /// Returns the type of the elements of the array type at a type index.
    fn array_elements(&self, index: u32) -> Option<FieldType>
        ensures { result ≡ (environment self.now).arrays index };

    /// Returns the type of a function.
    fn function_type(&self, index: u32) -> Option<FuncType<'_>>
        ensures { option_map type_of result ≡ (environment self.now).functions index };

    /// Returns the type of a local. The context of a module alone has no locals.
    fn local_type(&self, index: u32) -> Option<LocalType>
        ensures { result ≡ (environment self.now).locals index };

    fn global_type(&self, index: u32) -> Option<GlobalType>
        ensures { option_map global_of result ≡ (environment self.now).globals index };

    fn table_type(&self, index: u32) -> Option<TableType>
        ensures { option_map table_of result ≡ (environment self.now).tables index };

    /// Returns whether the addresses of a memory are `i64`.
    fn memory64(&self, index: u32) -> Option<bool>
        ensures { result ≡ (environment self.now).memories index };

    /// Returns the type of a tag. Its parameters are the operands of an exception.
    fn tag_type(&self, index: u32) -> Option<FuncType<'_>>
        ensures { option_map type_of result ≡ (environment self.now).tags index };

    /// Returns the type of the elements of a segment.
    fn element_type(&self, index: u32) -> Option<RefType>
        ensures { result ≡ (environment self.now).elements index };

    /// Returns whether there is a data segment with this index.
    fn has_data(&self, index: u32) -> bool
        ensures { result ≡ (environment self.now).has_data index };

    /// Returns whether a reference to a function is declared outside of function bodies.
    fn is_declared(&self, function_index: u32) -> bool
        ensures { result ≡ (environment self.now).is_declared function_index };

    /// Returns the type index of a function.
    fn type_index(&self, function_index: u32) -> Option<u32>
        ensures { result ≡ (environment self.now).type_indices function_index };

    /// Returns the results of the function. The context of a module alone has none.
    fn results(&self) -> &[ValType]
        ensures { stack_of result.now ≡ (environment self.now).results };
}
