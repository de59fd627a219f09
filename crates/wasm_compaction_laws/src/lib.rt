//! What compaction keeps: a function body is typed if and only if its input is.
#![tactic(auto)]

mod laws;

pub use laws::compaction_laws;
