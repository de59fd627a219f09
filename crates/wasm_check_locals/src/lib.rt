//! The locals of a function, and the context of its body.
#![tactic(auto)]

mod body_context;
mod declared;
mod runs;

pub use body_context::BodyContext;
pub use declared::DeclaredLocals;
