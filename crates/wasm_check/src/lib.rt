//! The type checker of function bodies, constant expressions and other expressions, from bytes.
#![tactic(auto)]

mod body;
mod check;
mod constant;
mod constness;
mod error;
mod visitor;

pub use body::{MAX_LOCALS, check_body};
pub use check::check_expression;
pub use constant::check_constant;
pub use error::CheckError;
pub use visitor::TypeChecker;
pub use wasm_check_control::{
    CompositeKind, FuncType, GlobalType, LocalType, Mismatch, ModuleContext, StructType, TableType,
};
pub use wasm_types::{FieldType, StorageType};
