//! Operators as C structs without references. No call allocates.
#![tactic(auto)]

mod common;
pub mod laws;
mod lists;
mod members;
mod names;
mod numbers;
mod opcodes;
mod shapes;
mod view;
mod views;

pub use common::view_of;
pub use lists::{Catches, Handles, MemberList, Targets, Types};
pub use members::{WasmHandler, WasmType, catch_of, handle_of, type_of};
pub use names::name_at;
pub use view::WasmOperator;
