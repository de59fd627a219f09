//! Element segments, data segments, globals and tables, by grammars. Specification: Binary Format,
//! Element Section, Data Section, Global Section, Table Section.
//!
//! Constant expressions are of any type `C` that a grammar reads. A read that returns `Err` leaves
//! the reader unchanged. Nothing here allocates, except that reading a constant expression may.
#![tactic(auto)]

mod data;
mod element;
mod flags;
mod global;
mod items;
mod table;

pub use data::{Data, DataKind};
pub use element::{Element, ElementItems, ElementKind};
pub use global::Global;
pub use items::Items;
pub use table::{Table, TableInit};
