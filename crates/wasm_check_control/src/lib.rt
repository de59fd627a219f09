//! The operand stack and the control frames of the validation algorithm, and what a module must say
//! to it.
#![tactic(auto)]

mod context;
mod control;
mod frame;
mod local_stack;
mod matching;
mod operands;
mod peeks;
mod references;
mod rules;
mod set_locals;
mod value_matches;

pub use context::{
    CompositeKind, FuncType, GlobalType, LocalType, ModuleContext, StructType, TableType,
};
pub use control::{Control, Mismatch};
pub use frame::{Frame, FrameKind, ResultTypes};
pub use matching::heap_type_matches;
pub use operands::Operands;
pub use peeks::{all_match, count_of};
pub use set_locals::SetLocals;
pub use value_matches::{matches, select_type};
