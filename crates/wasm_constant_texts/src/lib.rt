//! Constant expressions as text, in the form of `wasm-objdump -x` of wabt.
#![tactic(auto)]

mod constant;
mod texts;

pub use constant::ListedConstant;
