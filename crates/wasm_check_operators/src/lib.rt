//! One operator in the validation algorithm: what its rule does to the control frames.
#![tactic(auto)]

mod arrays;
mod body_checker;
mod bulk;
mod calls;
mod casts;
mod checker;
mod exceptions;
mod fields;
mod memories;
mod prefixed;
mod premises;
mod references;
mod signatures;
mod structures;
mod switches;
mod tables;
mod tail_calls;
mod types;
mod validity;
mod variables;

pub use body_checker::BodyChecker;
pub use checker::Checker;
pub use validity::is_valid;
