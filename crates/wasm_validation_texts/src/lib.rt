//! Why a module is not valid, for messages: what is at fault, in which function, and a text.
#![tactic(auto)]

mod kind;
mod message;
mod operator;
mod reason;
mod section;

pub use kind::{FaultKind, function_of, kind_of};
pub use message::{FaultMessage, message_of};
pub use reason::Reason;
