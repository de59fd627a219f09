//! The operators of a function body as lines of text, and their counts by proposal.
//!
//! The main theorem is the contract of [`run`]. If allocation fails, nothing is written.
#![tactic(auto)]

mod body;
mod body_census;
mod counting;
mod dump;
mod fault;
mod flushed;
mod input;
mod lines;
mod words;

pub use body_census::census;
pub use counting::{Census, proposal_at};
pub use dump::run;
pub use fault::DumpFault;
pub use flushed::FlushedWrite;
pub use lines::lines_of;
pub use words::features_of;
