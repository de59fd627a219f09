//! The disassembly of a function (its header, its locals and its operators) and of a module, with
//! the module's operator counts and its sections.
//!
//! The main theorems are the contracts of [`disassemble`], [`run`] and [`list_headers`].
//!
//! Every call that allocates may fail: with `Module(ModuleFault::Memory)` before anything is
//! written, with `Memory` after an unspecified part. If the writer fails, a part of the text may be
//! written.
#![tactic(auto)]

pub mod code_laws;
mod complaints;
mod counts;
mod cut;
mod declarations;
mod expression;
mod fault;
mod function;
mod headers;
mod listing;
mod listing_fault;
mod module;
mod named_line;
mod names;
mod opened;
mod request;
mod table;
mod writing;

pub use complaints::Complaints;
pub use counts::ModuleCounts;
pub use cut::{before_cut, find_cut};
pub use fault::DisassemblyFault;
pub use function::disassemble;
pub use listing_fault::{Fault, MissingFunction};
pub use module::{count_module, list_headers, list_module};
pub use names::function_named;
pub use request::{ModuleRequest, run};
pub use table::write_table;
