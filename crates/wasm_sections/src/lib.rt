//! The sections of a module: framing, items, order and counts. Specification: Binary Format, Modules.
//!
//! Any call that allocates may fail with `OutOfMemory`. Then the reader is unchanged.
#![tactic(auto)]

mod delimited;
mod items;
mod order;
mod preamble;
mod section;
mod sections;
mod whole;

pub use delimited::read_delimited;
pub use items::{SectionItems, SectionItemsWithOffsets, SectionReader};
pub use order::{SectionCounts, SectionOrder, place_of};
pub use preamble::read_preamble;
pub use section::{Section, SectionHeader, read_header, read_section};
pub use sections::{Sections, begins_module, module_layout, next_section, read_sections};
pub use whole::{read_all, read_items};
