//! The names of a module's things by index, as listings show them: functions, types, tables, globals,
//! tags, data segments and locals have names from imports, exports and the name section.
//!
//! Any call that allocates may fail with `AllocError`. Then the names are unknown.
#![tactic(auto)]

mod functions;
mod giving;
mod items;
mod known;
mod list;
mod locals;
mod named_sections;
mod names;
mod subsections;

pub use functions::shown_names;
pub use giving::GivenNames;
pub use items::{Gives, give_counted, give_items};
pub use known::{known_names, names_with, only_functions};
pub use list::NameList;
pub use locals::{LocalLists, LocalName};
pub use names::Names;
