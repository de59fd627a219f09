//! The parts of a module (preamble, sections, types, imports, exports, custom sections and names),
//! what they say about its functions, and the bodies of these, one after another.
//!
//! A call of several parts reads them by a copy of the reader, and stores it back at the end. So on
//! `Err` the reader is unchanged.
//!
//! The place between two bodies is a C struct, so callers in other languages can hold it.
//!
//! Every call that allocates may fail with `Memory`; it then returns no result.
#![tactic(auto)]

mod bodies;
mod body_fault;
mod body_name;
mod body_sections;
mod composite;
mod custom;
mod export;
mod fault;
mod field;
mod found;
pub mod function_laws;
mod function_names;
mod functions;
mod growing;
mod import;
mod imports;
mod list;
pub mod module_laws;
mod name;
mod names;
mod next;
pub mod place_laws;
mod preamble;
mod section;
mod sections;
mod skip;
mod types;

pub use bodies::{Bodies, open_bodies};
pub use body_fault::{BodiesFault, NoBody};
pub use body_name::function_name;
pub use composite::{CompositeType, read_rec_type_len};
pub use custom::CustomSection;
pub use export::Export;
pub use fault::ModuleFault;
pub use function_names::FunctionName;
pub use functions::{Functions, module_name};
pub use import::Import;
pub use name::{Name, NameAssociation};
pub use next::{Body, next_body};
pub use preamble::{Preamble, PreambleKind, read_preamble};
pub use section::{Section, read_section};
pub use sections::{find_section, open_sections};
